//! Lists, whose items are read one after the other.
ghost use Rattle.std.specs.Prelude.{ℕ, List};
ghost use Rattle.toml.specs.Data.{Data};
ghost use Rattle.toml.specs.View.{view, table_view, items_view};
ghost use Rattle.dds_fields.specs.Gives.{Gives};
ghost use Rattle.dds_fields.specs.Places.{place_text};
ghost use Rattle.dds_fields.specs.Reading.{Read as Reading, each, a_list_of, a_section, optional};

use crate::fault::ReadFault;
use crate::field::{array_of_limit, section, value_at};
use crate::place::Place;
use std::alloc::Global;
use toml::{Table, Value};

/// What reads the items of a list, each after those before it.
pub trait Items {
    /// What is read of the items.
    type Read: Drop;

    // what that stands for
    ghost State: { Type 0 };

    ghost state: { Self.Read → State };

    // what one more item gives, after what was read before it
    ghost step: { Self → State → List ℕ → Data → Reading State };

    /// Adds one more item, or returns its first fault. Nothing is promised about `all` after a fault.
    fn add(
        &self,
        alloc: Global,
        all: &mut Self::Read,
        path: &Place,
        value: &Value,
    ) -> Result<(), ReadFault>
        ensures { Gives (λ _. state all.new) result
            (step self.now (state all.old) (place_text path.now) (view value.now)) };
}

/// The items in order, after what is there already, or the first fault.
pub fn each<I: Items>(
    alloc: Global,
    items: &I,
    mut all: I::Read,
    path: &Place,
    values: &[Value],
) -> Result<I::Read, ReadFault>
    ensures { Gives I.state result
        (each (I.step items.now) (place_text path.now) 0 (I.state all) (items_view values.now)) }
{
    for (i, value) in values.iter().enumerate() {
        let at = Place::Index {
            parent: &*path,
            index: i,
        };
        items.add(alloc, &mut all, &at, value)?;
    }
    Ok(all)
}

/// The items of the list that a value is, of which there are at most `limit`: WrongKind where it is no list, TooMany
/// where it is longer.
#[tactic(auto, unfolding(crate::specs::Reading::a_list_of))]
pub fn list_of<I: Items>(
    alloc: Global,
    limit: usize,
    items: &I,
    empty: I::Read,
    path: &Place,
    value: &Value,
) -> Result<I::Read, ReadFault>
    ensures { Gives I.state result
        (a_list_of limit (I.step items.now) (I.state empty) (place_text path.now) (view value.now)) }
{
    let values = array_of_limit(alloc, limit, path, value)?;
    each(alloc, items, empty, path, values)
}

/// The items of the list at a key, of which there are at most `limit`, `empty` where the key is absent.
#[tactic(auto, unfolding(crate::specs::Reading::optional))]
pub fn optional_list<I: Items>(
    alloc: Global,
    limit: usize,
    items: &I,
    empty: I::Read,
    path: &Place,
    table: &Table,
    key: &str,
) -> Result<I::Read, ReadFault>
    ensures { Gives I.state result
        (optional key.now (I.state empty) (a_list_of limit (I.step items.now) (I.state empty)) (place_text path.now)
        (table_view table.now)) }
{
    match value_at(table, key) {
        Some(value) => {
            let at = Place::Key { parent: path, key };
            list_of(alloc, limit, items, empty, &at, value)
        }
        None => Ok(empty),
    }
}

/// The entries of the section at a key of the document, of which there are at most `limit`, `empty` where it is absent:
/// WrongKind where it is no list, TooMany where it has more entries.
#[tactic(auto, unfolding(crate::specs::Reading::a_section, crate::specs::Paths::key_path))]
pub fn section_of<I: Items>(
    alloc: Global,
    limit: usize,
    items: &I,
    empty: I::Read,
    table: &Table,
    key: &str,
) -> Result<I::Read, ReadFault>
    ensures { Gives I.state result (a_section key.now limit (I.step items.now) (I.state empty) (table_view table.now)) }
{
    let values = section(alloc, table, key, limit)?;
    let at = Place::Key {
        parent: &Place::Root,
        key,
    };
    each(alloc, items, empty, &at, values)
}
