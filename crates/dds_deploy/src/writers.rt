//! The section `writers`: their names, participants, topics and policies.
ghost use Rattle.std.specs.Prelude.{◌≡◌, map};
ghost use Rattle.toml.specs.View.{table_view};
ghost use Rattle.dds_fields.specs.Gives.{Gives};
ghost use Rattle.dds_base.specs.Section.{listed};
ghost use Rattle.dds_fields.specs.Places.{place_text};
ghost use Rattle.dds_lists.specs.Lists.{Writer as WriterView};
ghost use Rattle.dds_deploy.specs.Policies.{endpoint_keys, consistent};
ghost use Rattle.dds_deploy.specs.Writers.{writer_fields, writers};
ghost use Rattle.dds_lists.specs.Views.{participant_view, topic_view, writer_view};

use crate::entries::{Entries, section};
use crate::policies::{READER_KEYS, partitions, policies};
use dds_base::grid::ENDPOINTS;
use dds_base::{ParticipantNo, Section, TopicNo};
use dds_fields::fault::{FaultKind, ReadFault, refuse};
use dds_fields::field::known_name_field;
use dds_fields::place::Place;
use dds_lists::{Participant, Topic, Writer};
use dds_qos::{Reliability, WriterQos, consistent_writer};
use std::alloc::Global;
use toml::Table;

#[tactic(auto, unfolding(crate::specs::Writers::writer_fields))]
fn writer_fields(
    alloc: Global,
    participants: &Section<Participant>,
    topics: &Section<Topic>,
    path: &Place,
    table: &Table,
) -> Result<Writer, ReadFault>
    ensures { Gives writer_view result
        (writer_fields (listed participant_view participants.now) (listed topic_view topics.now) (place_text path.now)
        (table_view table.now)) }
{
    let participant = known_name_field(alloc, &participants.names, path, table, "participant")?;
    let topic = known_name_field(alloc, &topics.names, path, table, "topic")?;
    let offered = policies(alloc, Reliability::Reliable, path, table)?;
    let partitions = partitions(alloc, path, table)?;
    Ok(Writer {
        participant: ParticipantNo::new(participant),
        topic: TopicNo::new(topic),
        qos: WriterQos { offered },
        partitions,
    })
}

// What reads the writers of a file.
#[derive(Clone, Copy)]
struct WriterEntries<'a> {
    participants: &'a Section<Participant>,
    topics: &'a Section<Topic>,
}

impl Entries for WriterEntries<'_> {
    type Entry = Writer;

    ghost View = { WriterView };

    ghost view = { writer_view };

    ghost keys = { λ _. endpoint_keys };

    ghost fields = { λ it _. consistent
        (λ x. x.qos.offered) (writer_fields (listed participant_view it.participants.now)
        (listed topic_view it.topics.now)) };

    fn keys(&self) -> &'static [&'static str]
        ensures { map (λ key. key.now) result.now ≡ endpoint_keys }
    {
        &READER_KEYS[4..]
    }

    #[tactic(auto, unfolding(crate::specs::Policies::consistent))]
    fn fields(
        &self,
        alloc: Global,
        _before: &Section<Writer>,
        path: &Place,
        table: &Table,
    ) -> Result<Writer, ReadFault> {
        let writer = writer_fields(alloc, self.participants, self.topics, path, table)?;
        if consistent_writer(&writer.qos).is_err() {
            return Err(refuse(alloc, FaultKind::Qos, path));
        }
        Ok(writer)
    }
}

/// The section `writers`, at most 256 entries, or its first fault. An absent section has none.
pub(crate) fn writers(
    alloc: Global,
    participants: &Section<Participant>,
    topics: &Section<Topic>,
    table: &Table,
) -> Result<Section<Writer>, ReadFault>
    ensures { Gives (listed writer_view) result
        (writers (listed participant_view participants.now) (listed topic_view topics.now) (table_view table.now)) }
{
    let entries = WriterEntries {
        participants,
        topics,
    };
    section(alloc, ENDPOINTS, &entries, table, "writers")
}
