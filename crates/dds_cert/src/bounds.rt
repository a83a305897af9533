//! The section of the bounds, and the fields that bounds and totals share.
ghost use Rattle.std.specs.Prelude.{◌≡◌, ◌++◌, List, map, true, false, IfOk};
ghost use Rattle.toml.specs.View.{view, table_view};
ghost use Rattle.dds_fields.specs.Gives.{Gives};
ghost use Rattle.dds_fields.specs.Places.{place_text};
ghost use Rattle.dds_weights.specs.Fits.{keys_differ};
ghost use Rattle.dds_weights.specs.Named.{bound_place};
ghost use Rattle.dds_weights.specs.declared.certificate.Bound.{Bound as BoundView};
ghost use Rattle.dds_cert.specs.Adding.{any_stands};
ghost use Rattle.dds_cert.specs.Bounds.{bound_number, row_and_bound, bound_entry, bounds_of, bound, bounds};

use crate::adding::{NamedOnce, Placed};
use crate::keys::{EndpointFields, ReaderFields};
use dds_base::grid::PLACES;
use dds_base::{KeyNo, Names, NoMemory, ReaderNo};
use dds_fields::fault::ReadFault;
use dds_fields::field::{entry, known_name_field, number_field};
use dds_fields::items::{Items, section_of};
use dds_fields::place::Place;
use dds_lists::Deployment;
use dds_weights::Bound;
use std::alloc::Global;
use toml::{Table, Value};

impl Placed for Bound {
    ghost place = { bound_place };

    fn place(self) -> (usize, usize) {
        (self.reader.number(), self.key.number())
    }
}

// 0 to 4,294,967,295.
#[tactic(auto, unfolding(crate::specs::Bounds::bound_number))]
fn bound_number(alloc: Global, path: &Place, table: &Table) -> Result<u32, ReadFault>
    ensures { Gives (λ n. n) result (bound_number (place_text path.now) (table_view table.now)) }
{
    number_field(alloc, 0, 4_294_967_295, path, table, "bound")
}

/// The row that an entry names, and the number that the row is to show.
#[tactic(auto, unfolding(crate::specs::Bounds::row_and_bound))]
pub(crate) fn row_and_bound(
    alloc: Global,
    rows: &Names,
    path: &Place,
    table: &Table,
) -> Result<(usize, u32), ReadFault>
    ensures { Gives (λ b. b) result (row_and_bound rows.now (place_text path.now) (table_view table.now)) }
{
    let row = known_name_field(alloc, rows, path, table, "row")?;
    let bound = bound_number(alloc, path, table)?;
    Ok((row, bound))
}

#[tactic(auto, unfolding(crate::specs::Bounds::bound_entry))]
fn bound_entry<'a>(alloc: Global, path: &Place, value: &'a Value) -> Result<&'a Table, ReadFault>
    ensures { Gives (λ t. table_view t.now) result (bound_entry (place_text path.now) (view value.now)) }
{
    entry(alloc, &["reader", "key", "row", "bound"], path, value)
}

// The same bound for each of the keys, none of which is named yet.
#[tactic(auto, using(dds_base::proofs::Lists::map_next))]
fn push_bounds(
    all: &mut NamedOnce<Bound>,
    reader: ReaderNo,
    keys: &[KeyNo],
    row: usize,
    bound: u32,
) -> Result<(), NoMemory>
    requires new { any_stands (map bound_place all.old.items.items) reader keys.now ≡ false }
    requires distinct { keys_differ keys.now ≡ true }
    ensures { IfOk result
        (λ _. all.new.items.items ≡ all.old.items.items ++ bounds_of (reader, keys.now) (row, bound)) }
{
    for key in keys {
        all.push(Bound {
            reader,
            key: *key,
            row,
            bound,
        })?;
    }
    Ok(())
}

// What reads the bounds of a file, whose rows have these names.
#[derive(Clone, Copy)]
struct BoundEntries<'a> {
    fields: ReaderFields<'a>,
    rows: &'a Names,
    list: &'a Place<'a>,
}

impl Items for BoundEntries<'_> {
    type Read = NamedOnce<Bound>;

    ghost State = { List BoundView };

    ghost state = { λ all. all.items.items };

    ghost step = { λ it. bound it.fields.version it.fields.lists.now it.rows.now (place_text it.list.now) };

    #[tactic(auto, unfolding(crate::specs::Bounds::bound, crate::specs::Adding::and_more))]
    fn add(
        &self,
        alloc: Global,
        all: &mut NamedOnce<Bound>,
        path: &Place,
        value: &Value,
    ) -> Result<(), ReadFault> {
        let table = bound_entry(alloc, path, value)?;
        let (reader, keys) = self.fields.endpoint_and_keys(alloc, path, table)?;
        let (row, bound) = row_and_bound(alloc, self.rows, path, table)?;
        all.may_add(alloc, self.list, path, reader.number(), &keys)?;
        push_bounds(all, reader, &keys, row, bound)?;
        Ok(())
    }
}

/// The bounds of a document, whose rows have these names.
#[tactic(auto, unfolding(dds_fields::specs::Paths::key_path))]
pub(crate) fn bounds(
    alloc: Global,
    version: u32,
    lists: &Deployment,
    rows: &Names,
    table: &Table,
) -> Result<Vec<Bound>, ReadFault>
    ensures { Gives (λ v. v.items) result (bounds version lists.now rows.now (table_view table.now)) }
{
    let list = Place::Key {
        parent: &Place::Root,
        key: "bounds",
    };
    let entries = BoundEntries {
        fields: ReaderFields { version, lists },
        rows,
        list: &list,
    };
    let none = NamedOnce::new(alloc);
    let all = section_of(alloc, PLACES, &entries, none, table, "bounds")?;
    Ok(all.items)
}
