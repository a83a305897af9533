//! The section of the totals.
ghost use Rattle.std.specs.Prelude.{List};
ghost use Rattle.toml.specs.View.{view, table_view};
ghost use Rattle.dds_fields.specs.Gives.{Gives};
ghost use Rattle.dds_fields.specs.Places.{place_text};
ghost use Rattle.dds_weights.specs.Named.{has_total};
ghost use Rattle.dds_weights.specs.declared.certificate.Total.{Total as TotalView};
ghost use Rattle.dds_cert.specs.Totals.{total_entry, total, totals};

use crate::bounds::row_and_bound;
use crate::keys::reader_field;
use dds_base::Names;
use dds_base::grid::ENDPOINTS;
use dds_fields::fault::{FaultKind, ReadFault, refuse};
use dds_fields::field::entry;
use dds_fields::items::{Items, section_of};
use dds_fields::place::Place;
use dds_lists::Deployment;
use dds_weights::Total;
use dds_weights::named::has_total;
use std::alloc::Global;
use toml::{Table, Value};

#[tactic(auto, unfolding(crate::specs::Totals::total_entry))]
fn total_entry<'a>(alloc: Global, path: &Place, value: &'a Value) -> Result<&'a Table, ReadFault>
    ensures { Gives (λ t. table_view t.now) result (total_entry (place_text path.now) (view value.now)) }
{
    entry(alloc, &["reader", "row", "bound"], path, value)
}

// What reads the totals of a file, whose rows have these names.
#[derive(Clone, Copy)]
struct TotalEntries<'a> {
    lists: &'a Deployment,
    rows: &'a Names,
}

impl Items for TotalEntries<'_> {
    type Read = Vec<Total>;

    ghost State = { List TotalView };

    ghost state = { λ all. all.items };

    ghost step = { λ it. total it.lists.now it.rows.now };

    // There are at most 256 totals, so those before are looked through.
    #[tactic(auto, unfolding(crate::specs::Totals::total))]
    fn add(
        &self,
        alloc: Global,
        all: &mut Vec<Total>,
        path: &Place,
        value: &Value,
    ) -> Result<(), ReadFault> {
        let table = total_entry(alloc, path, value)?;
        let reader = reader_field(alloc, self.lists, path, table)?;
        let (row, bound) = row_and_bound(alloc, self.rows, path, table)?;
        if has_total(all, reader) {
            return Err(refuse(alloc, FaultKind::Duplicate, path));
        }
        all.push(Total { reader, row, bound })?;
        Ok(())
    }
}

/// The totals of a document, whose rows have these names.
pub(crate) fn totals(
    alloc: Global,
    lists: &Deployment,
    rows: &Names,
    table: &Table,
) -> Result<Vec<Total>, ReadFault>
    ensures { Gives (λ v. v.items) result (totals lists.now rows.now (table_view table.now)) }
{
    let entries = TotalEntries { lists, rows };
    section_of(alloc, ENDPOINTS, &entries, Vec::new(alloc), table, "totals")
}
