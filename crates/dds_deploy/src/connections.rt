//! The section `connections`: the pairs of a writer and a reader that are meant to match.
ghost use Rattle.std.specs.Prelude.{◌≡◌, List, ℕ};
ghost use Rattle.toml.specs.View.{view, table_view};
ghost use Rattle.dds_fields.specs.Gives.{Gives};
ghost use Rattle.dds_fields.specs.Places.{place_text};
ghost use Rattle.dds_base.specs.Section.{listed};
ghost use Rattle.dds_deploy.specs.Connections.{connection_entry, connection, connections};
ghost use Rattle.dds_lists.specs.Views.{writer_view, reader_view};

use dds_base::{Pairs, Section};
use dds_fields::fault::{FaultKind, ReadFault, refuse};
use dds_fields::field::{entry, known_name_field};
use dds_fields::items::{Items, section_of};
use dds_fields::place::Place;
use dds_lists::{Reader, Writer};
use std::alloc::Global;
use toml::{Table, Value};

#[tactic(auto, unfolding(crate::specs::Connections::connection_entry))]
fn connection_entry<'a>(
    alloc: Global,
    path: &Place,
    value: &'a Value,
) -> Result<&'a Table, ReadFault>
    ensures { Gives (λ t. table_view t.now) result (connection_entry (place_text path.now) (view value.now)) }
{
    entry(alloc, &["writer", "reader"], path, value)
}

// What reads the connections of a file.
#[derive(Clone, Copy)]
struct ConnectionEntries<'a> {
    writers: &'a Section<Writer>,
    readers: &'a Section<Reader>,
}

impl Items for ConnectionEntries<'_> {
    type Read = Pairs;

    ghost State = { List (ℕ × ℕ) };

    ghost state = { λ pairs. pairs };

    ghost step = { λ it. connection (listed writer_view it.writers.now) (listed reader_view it.readers.now) };

    #[tactic(auto, unfolding(crate::specs::Connections::connection))]
    fn add(
        &self,
        alloc: Global,
        all: &mut Pairs,
        path: &Place,
        value: &Value,
    ) -> Result<(), ReadFault> {
        let table = connection_entry(alloc, path, value)?;
        let writer = known_name_field(alloc, &self.writers.names, path, table, "writer")?;
        let reader = known_name_field(alloc, &self.readers.names, path, table, "reader")?;
        if all.contains(writer, reader) {
            return Err(refuse(alloc, FaultKind::Duplicate, path));
        }
        all.push(writer, reader)?;
        Ok(())
    }
}

/// The section `connections`, at most 65,536 entries, or its first fault. An absent section has none.
pub(crate) fn connections(
    alloc: Global,
    writers: &Section<Writer>,
    readers: &Section<Reader>,
    table: &Table,
) -> Result<Pairs, ReadFault>
    ensures { Gives (λ p. p) result
        (connections (listed writer_view writers.now) (listed reader_view readers.now) (table_view table.now)) }
{
    let entries = ConnectionEntries { writers, readers };
    section_of(
        alloc,
        65_536,
        &entries,
        Pairs::new(alloc),
        table,
        "connections",
    )
}
