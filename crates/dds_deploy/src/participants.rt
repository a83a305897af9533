//! The section `participants`: their names, the domain of each, and when it comes.
ghost use Rattle.std.specs.Prelude.{◌≡◌, map};
ghost use Rattle.toml.specs.View.{table_view};
ghost use Rattle.dds_fields.specs.Gives.{Gives};
ghost use Rattle.dds_fields.specs.Places.{place_text};
ghost use Rattle.dds_base.specs.Section.{listed};
ghost use Rattle.dds_lists.specs.Lists.{Participant as ParticipantView};
ghost use Rattle.dds_deploy.specs.Participants.{joins, participant_keys, participant_fields, participants};
ghost use Rattle.dds_lists.specs.Views.{participant_view};

use crate::entries::{Entries, section};
use crate::versions::since_fourth;
use dds_base::Section;
use dds_base::limits::PARTICIPANTS;
use dds_fields::fault::ReadFault;
use dds_fields::field::number_field;
use dds_fields::place::Place;
use dds_fields::words::optional_word;
use dds_lists::{Joins, Participant};
use std::alloc::Global;
use toml::Table;

// The keys that the entry of a participant may have since version 4. Before it `joins`, the first, is none of them.
const PARTICIPANT_KEYS: [&str; 3] = ["joins", "name", "domain"];

#[tactic(auto, unfolding(crate::specs::Participants::joins))]
fn joins(alloc: Global, path: &Place, table: &Table) -> Result<Joins, ReadFault>
    ensures { Gives (λ x. x) result (joins (place_text path.now) (table_view table.now)) }
{
    let words = [("before", Joins::Before), ("any", Joins::Any)];
    optional_word(alloc, &words, Joins::Before, path, table, "joins")
}

// What reads the participants of a file of this version.
#[derive(Clone, Copy)]
struct ParticipantEntries {
    version: u32,
}

impl Entries for ParticipantEntries {
    type Entry = Participant;

    ghost View = { ParticipantView };

    ghost view = { participant_view };

    ghost keys = { λ it. participant_keys it.version };

    ghost fields = { λ _ _. participant_fields };

    fn keys(&self) -> &'static [&'static str]
        ensures { map (λ key. key.now) result.now ≡ participant_keys self.now.version }
    {
        if since_fourth(self.version) {
            &PARTICIPANT_KEYS
        } else {
            &PARTICIPANT_KEYS[1..]
        }
    }

    #[tactic(auto, unfolding(crate::specs::Participants::participant_fields))]
    fn fields(
        &self,
        alloc: Global,
        _before: &Section<Participant>,
        path: &Place,
        table: &Table,
    ) -> Result<Participant, ReadFault> {
        let domain = number_field(alloc, 0, 2_147_483_647, path, table, "domain")?;
        let joins = joins(alloc, path, table)?;
        Ok(Participant { domain, joins })
    }
}

/// The section `participants`, at most 64 entries, or its first fault. An absent section has none.
pub(crate) fn participants(
    alloc: Global,
    version: u32,
    table: &Table,
) -> Result<Section<Participant>, ReadFault>
    ensures { Gives (listed participant_view) result (participants version (table_view table.now)) }
{
    let entries = ParticipantEntries { version };
    section(alloc, PARTICIPANTS, &entries, table, "participants")
}
