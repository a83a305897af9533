//! The section of the rows.
ghost use Rattle.std.specs.Prelude.{◌≡◌, ◌++◌, ◌∷◌, [], List, None, map, IfOk, string_bytes};
ghost use Rattle.toml.specs.View.{view, table_view};
ghost use Rattle.dds_fields.specs.Gives.{Gives};
ghost use Rattle.dds_fields.specs.Places.{place_text};
ghost use Rattle.dds_cert.specs.Rows.{row_names, row_entry, row_lists, row, rows};
ghost use Rattle.dds_base.specs.Names.{number_of};
ghost use Rattle.dds_weights.specs.Lists.{Row as RowView};
ghost use Rattle.dds_weights.specs.Views.{row_view};

use crate::keys::{ReaderFields, WriterFields};
use crate::weights::weights;
use dds_base::limits::ROWS;
use dds_base::{Names, NoMemory};
use dds_fields::fault::ReadFault;
use dds_fields::field::{entry, new_name_field};
use dds_fields::items::{Items, section_of};
use dds_fields::place::Place;
use dds_lists::Deployment;
use dds_weights::Row;
use dds_weights::order::in_order;
use std::alloc::Global;
use toml::{Table, Value};

/// The rows, and the number of each name: its place.
#[derive(Drop)]
pub(crate) struct NamedRows {
    pub(crate) names: Names,
    pub(crate) rows: Vec<Row>,
    ghost named: { names ≡ row_names (map row_view rows.items) },
}

impl NamedRows {
    fn new(alloc: Global) -> NamedRows
        ensures { result.rows.items ≡ [] }
    {
        NamedRows {
            names: Names::new(alloc),
            rows: Vec::new(alloc),
        }
    }

    // Adds a row under its name, which is new. Fails only where no memory is left.
    fn push(&mut self, alloc: Global, name: &str, row: Row) -> Result<(), NoMemory>
        requires named { string_bytes row.name ≡ name.now }
        requires new { number_of self.old.names name.now ≡ None }
        ensures { IfOk result (λ _. self.new.rows.items ≡ self.old.rows.items ++ row ∷ []) }
    {
        let name = String::from_str(alloc, name)?;
        self.rows.reserve(1)?;
        self.names.push(name)?;
        self.rows.push_reserved(row);
        Ok(())
    }
}

#[tactic(auto, unfolding(crate::specs::Rows::row_entry))]
fn row_entry<'a>(alloc: Global, path: &Place, value: &'a Value) -> Result<&'a Table, ReadFault>
    ensures { Gives (λ t. table_view t.now) result (row_entry (place_text path.now) (view value.now)) }
{
    entry(alloc, &["name", "samples", "takes", "permits"], path, value)
}

#[tactic(auto, unfolding(crate::specs::Rows::row_lists))]
fn row_lists(
    alloc: Global,
    version: u32,
    lists: &Deployment,
    name: &str,
    path: &Place,
    table: &Table,
) -> Result<Row, ReadFault>
    ensures gives { Gives row_view result
        (row_lists version lists.now name.now (place_text path.now) (table_view table.now)) }
    ensures named { IfOk result (λ r. string_bytes r.name ≡ name.now) }
{
    let of_readers = ReaderFields { version, lists };
    let samples = weights(alloc, &of_readers, path, table, "samples")?;
    let takes = weights(alloc, &of_readers, path, table, "takes")?;
    let of_writers = WriterFields { version, lists };
    let permits = weights(alloc, &of_writers, path, table, "permits")?;
    let name = String::from_str(alloc, name)?;
    Ok(Row {
        name,
        samples: in_order(samples)?,
        takes: in_order(takes)?,
        permits: in_order(permits)?,
    })
}

// What reads the rows of a file.
#[derive(Clone, Copy)]
struct RowEntries<'a> {
    version: u32,
    lists: &'a Deployment,
}

impl Items for RowEntries<'_> {
    type Read = NamedRows;

    ghost State = { List RowView };

    ghost state = { λ all. map row_view all.rows.items };

    ghost step = { λ it. row it.version it.lists.now };

    #[tactic(auto, unfolding(crate::specs::Rows::row))]
    fn add(
        &self,
        alloc: Global,
        all: &mut NamedRows,
        path: &Place,
        value: &Value,
    ) -> Result<(), ReadFault> {
        let table = row_entry(alloc, path, value)?;
        let name = new_name_field(alloc, &all.names, path, table, "name")?;
        let row = row_lists(alloc, self.version, self.lists, name, path, table)?;
        all.push(alloc, name, row)?;
        Ok(())
    }
}

/// The rows of a document, with their names.
pub(crate) fn rows(
    alloc: Global,
    version: u32,
    lists: &Deployment,
    table: &Table,
) -> Result<NamedRows, ReadFault>
    ensures { Gives (λ all. map row_view all.rows.items) result (rows version lists.now (table_view table.now)) }
{
    let entries = RowEntries { version, lists };
    section_of(alloc, ROWS, &entries, NamedRows::new(alloc), table, "rows")
}
