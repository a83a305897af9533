//! What concerns a rule with `each` as a whole: the keys that all its endpoints have, one of which there has to be.

use crate::fault::Faults;
use crate::fields::Side;
use crate::names::{PlacedNames, elements_of, text_at};
use crate::walk::Walk;
use dds_base::NoMemory;
use dds_fields::fault::FaultKind;
use dds_fields::place::Place;
use toml::{Table, Value};

/// Whether a rule has `each`.
pub(crate) fn has_each(table: &Table) -> bool {
    match table.get("each") {
        Some(each) => each.as_bool() == Some(true),
        None => false,
    }
}

fn elements_at<'a>(table: &'a Table, key: &str) -> &'a [Value] {
    match table.get(key) {
        Some(value) => elements_of(value),
        None => &[],
    }
}

// Adds the keys of the endpoint of each element. Whether it's clear for all of them which keys they have.
fn add_keys<'a>(
    walk: &Walk<'a>,
    all: &mut Vec<&'a PlacedNames>,
    side: Side,
    elements: &[Value],
) -> Result<bool, NoMemory> {
    for element in elements {
        let Some(name) = text_at(element, side.word()) else {
            return Ok(false);
        };
        let Some(keys) = walk.known.keys_at(side, name) else {
            return Ok(false);
        };
        all.push(keys)?;
    }
    Ok(true)
}

fn have_all(all: &[&PlacedNames], key: &str) -> bool {
    all.iter().all(|keys| keys.number(key).is_some())
}

// Whether the keys have one in common. There is none where there are no keys.
fn have_common(all: &[&PlacedNames]) -> bool {
    let Some(first) = all.first() else {
        return false;
    };
    for number in 0..first.len() {
        if let Some(key) = first.name(number) {
            if have_all(all, key) {
                return true;
            }
        }
    }
    false
}

/// The fault of a rule with `each` whose endpoints have no key in common, where it's clear that they have none.
pub(crate) fn check_common(
    walk: &Walk,
    faults: &mut Faults,
    at: &Place,
    table: &Table,
) -> Result<(), NoMemory> {
    let mut all = Vec::new(walk.alloc);
    let takes = elements_at(table, "takes");
    let writes = elements_at(table, "writes");
    let is_clear = add_keys(walk, &mut all, Side::Readers, takes)?
        && add_keys(walk, &mut all, Side::Writers, writes)?;
    if !is_clear || have_common(&all) {
        return Ok(());
    }
    let message = String::from_str(
        walk.alloc,
        "no key is one of each of its endpoints, so `each` stands for no rule",
    )?;
    faults.add(walk.alloc, FaultKind::RuleEntry, at, message, None)
}
