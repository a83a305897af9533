//! The section `applications`: their names, participants, and the writers and readers that each owns. Together they own
//! each writer and each reader of the file once.
ghost use Rattle.std.specs.Prelude.{◌≡◌, ◌<◌, List, ℕ, [], length, map, option_map, slice_get, unwrap_or};
ghost use Rattle.std.specs.List.{list_any};
ghost use Rattle.toml.specs.View.{view, table_view};
ghost use Rattle.dds_fields.specs.Gives.{Gives};
ghost use Rattle.dds_base.specs.Section.{listed};
ghost use Rattle.dds_fields.specs.Places.{place_text};
ghost use Rattle.dds_lists.specs.Lists.{Application as ApplicationView, has};
ghost use Rattle.dds_deploy.specs.Applications.{may_own, own, application_keys, application_fields};
ghost use Rattle.dds_deploy.specs.Applications.{application_list, without_owner, are_owned, applications};
ghost use Rattle.dds_lists.specs.Views.{participant_view, writer_view, reader_view, application_view};

use crate::endpoints::Endpoints;
use crate::entries::{Entries, section};
use dds_base::grid::ENDPOINTS;
use dds_base::limits::APPLICATIONS;
use dds_base::{ParticipantNo, Section};
use dds_fields::fault::{FaultKind, ReadFault, refuse};
use dds_fields::field::{known_name_field, known_name_of};
use dds_fields::items::{Items, optional_list};
use dds_fields::place::Place;
use dds_lists::{Application, Participant, Reader, Writer};
use std::alloc::Global;
use toml::{Table, Value};

fn is_owned<E: Endpoints>(applications: &Section<Application>, number: usize) -> bool
    ensures { result ≡ list_any (λ a. has (E.owned_by a) number) (listed application_view applications.now).entries }
{
    for application in &applications.entries {
        if E::has_number(E::owned_by(application), number) {
            return true;
        }
    }
    false
}

/// The endpoints that the application with this number owns.
pub(crate) fn owned_at<E: Endpoints>(
    applications: &Section<Application>,
    application: usize,
) -> &[E::Number]
    requires { application < length applications.now.names }
    ensures { E.numbers result.now
        ≡ unwrap_or (option_map E.owned_by
        (slice_get (listed application_view applications.now).entries application)) [] }
{
    E::owned_by(&applications.entries[application])
}

// What reads the endpoints of one kind that an application at a participant owns, after these others.
#[derive(Clone, Copy)]
struct Own<'a, E> {
    endpoints: &'a E,
    others: &'a Section<Application>,
    participant: ParticipantNo,
}

impl<E: Endpoints> Own<'_, E> {
    // Whether the application may own the endpoint: it is there too, and neither the others nor the list so far have
    // it.
    fn may_own(&self, own: &[E::Number], number: usize) -> bool
        requires { number < length (E.names self.now.endpoints.now) }
        ensures { result ≡ may_own E.owned_by (E.participant_of self.now.endpoints.now)
            (listed application_view self.now.others.now) self.now.participant (E.numbers own.now) number }
    {
        !(is_owned::<E>(self.others, number) || E::has_number(own, number))
            && self.endpoints.participant_of(number) == self.participant
    }
}

impl<E: Endpoints> Items for Own<'_, E> {
    type Read = Vec<E::Number>;

    ghost State = { List ℕ };

    ghost state = { λ own. E.numbers own.items };

    ghost step = { λ it. own (E.names it.endpoints.now) E.owned_by (E.participant_of it.endpoints.now)
        (listed application_view it.others.now) it.participant };

    #[tactic(auto, unfolding(crate::specs::Applications::own))]
    fn add(
        &self,
        alloc: Global,
        all: &mut Vec<E::Number>,
        path: &Place,
        value: &Value,
    ) -> Result<(), ReadFault> {
        let number = known_name_of(alloc, self.endpoints.names(), path, value)?;
        if !self.may_own(all, number) {
            return Err(refuse(alloc, FaultKind::EndpointOwner, path));
        }
        E::push_number(all, number)?;
        Ok(())
    }
}

#[tactic(auto, unfolding(crate::specs::Applications::application_fields))]
fn application_fields(
    alloc: Global,
    participants: &Section<Participant>,
    writers: &Section<Writer>,
    readers: &Section<Reader>,
    others: &Section<Application>,
    path: &Place,
    table: &Table,
) -> Result<Application, ReadFault>
    ensures { Gives application_view result
        (application_fields (listed participant_view participants.now) (listed writer_view writers.now)
        (listed reader_view readers.now) (listed application_view others.now) (place_text path.now)
        (table_view table.now)) }
{
    let number = known_name_field(alloc, &participants.names, path, table, "participant")?;
    let participant = ParticipantNo::new(number);
    let of_writers = Own {
        endpoints: writers,
        others,
        participant,
    };
    let none = Vec::new(alloc);
    let writers = optional_list(alloc, ENDPOINTS, &of_writers, none, path, table, "writers")?;
    let of_readers = Own {
        endpoints: readers,
        others,
        participant,
    };
    let none = Vec::new(alloc);
    let readers = optional_list(alloc, ENDPOINTS, &of_readers, none, path, table, "readers")?;
    Ok(Application {
        participant,
        writers,
        readers,
    })
}

// What reads the applications of a file.
#[derive(Clone, Copy)]
struct ApplicationEntries<'a> {
    participants: &'a Section<Participant>,
    writers: &'a Section<Writer>,
    readers: &'a Section<Reader>,
}

impl Entries for ApplicationEntries<'_> {
    type Entry = Application;

    ghost View = { ApplicationView };

    ghost view = { application_view };

    ghost keys = { λ _. application_keys };

    ghost fields = { λ it. application_fields (listed participant_view it.participants.now)
        (listed writer_view it.writers.now) (listed reader_view it.readers.now) };

    fn keys(&self) -> &'static [&'static str]
        ensures { map (λ key. key.now) result.now ≡ application_keys }
    {
        &["name", "participant", "writers", "readers"]
    }

    fn fields(
        &self,
        alloc: Global,
        before: &Section<Application>,
        path: &Place,
        table: &Table,
    ) -> Result<Application, ReadFault> {
        let (writers, readers) = (self.writers, self.readers);
        application_fields(
            alloc,
            self.participants,
            writers,
            readers,
            before,
            path,
            table,
        )
    }
}

fn application_list(
    alloc: Global,
    participants: &Section<Participant>,
    writers: &Section<Writer>,
    readers: &Section<Reader>,
    table: &Table,
) -> Result<Section<Application>, ReadFault>
    ensures { Gives (listed application_view) result
        (application_list (listed participant_view participants.now) (listed writer_view writers.now)
        (listed reader_view readers.now) (table_view table.now)) }
{
    let entries = ApplicationEntries {
        participants,
        writers,
        readers,
    };
    section(alloc, APPLICATIONS, &entries, table, "applications")
}

#[tactic(auto, using(dds_base::proofs::Ranges::range_none))]
fn without_owner<E: Endpoints>(applications: &Section<Application>, count: usize) -> Option<usize>
    ensures { result ≡ without_owner E.owned_by (listed application_view applications.now) count }
{
    for number in 0..count {
        if !is_owned::<E>(applications, number) {
            return Some(number);
        }
    }
    None
}

// Whether each endpoint of the section at this key has an application. The fault is reported at its entry there, not
// at an application.
#[tactic(auto, unfolding(crate::specs::Applications::are_owned, dds_fields::specs::Paths::key_path))]
fn are_owned<E: Endpoints>(
    alloc: Global,
    key: &str,
    applications: &Section<Application>,
    count: usize,
) -> Result<(), ReadFault>
    ensures { Gives (λ u. u) result (are_owned key.now E.owned_by (listed application_view applications.now) count) }
{
    match without_owner::<E>(applications, count) {
        Some(index) => {
            let section = Place::Key {
                parent: &Place::Root,
                key,
            };
            let at = Place::Index {
                parent: &section,
                index,
            };
            Err(refuse(alloc, FaultKind::EndpointOwner, &at))
        }
        None => Ok(()),
    }
}

/// The section `applications`, at most 64 entries, which own each of the writers and readers once, or its first fault.
/// An absent section has none.
#[tactic(auto, unfolding(crate::specs::Applications::applications))]
pub(crate) fn applications(
    alloc: Global,
    participants: &Section<Participant>,
    writers: &Section<Writer>,
    readers: &Section<Reader>,
    table: &Table,
) -> Result<Section<Application>, ReadFault>
    ensures { Gives (listed application_view) result
        (applications (listed participant_view participants.now) (listed writer_view writers.now)
        (listed reader_view readers.now) (table_view table.now)) }
{
    let all = application_list(alloc, participants, writers, readers, table)?;
    match are_owned::<Section<Writer>>(alloc, "writers", &all, writers.entries.len()) {
        Ok(()) => {}
        Err(fault) => {
            drop(all);
            return Err(fault);
        }
    }
    match are_owned::<Section<Reader>>(alloc, "readers", &all, readers.entries.len()) {
        Ok(()) => Ok(all),
        Err(fault) => {
            drop(all);
            Err(fault)
        }
    }
}
