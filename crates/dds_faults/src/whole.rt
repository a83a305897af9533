//! What concerns an entry as a whole: limits that contradict each other, and entries that stand twice.

use crate::fault::Faults;
use crate::fields::{Entry, Named, Side};
use crate::names::PlacedNames;
use crate::owners::{name_at, text_in};
use crate::walk::{Walk, help_with_names};
use crate::wording::shown;
use dds_base::{NoMemory, Pairs};
use dds_fields::fault::FaultKind;
use dds_fields::place::Place;
use std::alloc::Global;
use toml::Table;

fn number_in(table: &Table, key: &str) -> Option<i64> {
    table.get(key)?.as_integer()
}

fn keeps_last(table: &Table) -> bool {
    match table.get("history") {
        Some(history) => history.as_str() == Some("KEEP_LAST"),
        None => true,
    }
}

fn depth_in(table: &Table) -> Option<i64> {
    match table.get("depth") {
        Some(depth) => depth.as_integer(),
        None => Some(1),
    }
}

// What contradicts itself in the limits of an endpoint.
#[derive(Clone, Copy)]
enum Contradiction {
    // the depth is above the limit of an instance
    Depth {
        depth: i64,
        limit: i64,
    },
    // the limit of all samples is below that of an instance, which the depth may ask for
    Samples {
        samples: i64,
        limit: i64,
        depth: i64,
    },
}

// The depth that counts: KEEP_ALL has none. `None` where it isn't clear.
fn kept_depth(table: &Table) -> Option<i64> {
    if keeps_last(table) {
        depth_in(table)
    } else {
        Some(0)
    }
}

fn find_contradiction(table: &Table) -> Option<Contradiction> {
    let limit = number_in(table, "max_samples_per_instance")?;
    let depth = kept_depth(table).unwrap_or(0);
    if limit < depth {
        return Some(Contradiction::Depth { depth, limit });
    }
    let samples = number_in(table, "max_samples")?;
    if samples < limit {
        return Some(Contradiction::Samples {
            samples,
            limit,
            depth,
        });
    }
    None
}

fn words_of(alloc: Global, found: Contradiction) -> Result<String, NoMemory> {
    match found {
        Contradiction::Depth { depth, limit } => {
            format!(in alloc; "depth {depth} is above max_samples_per_instance {limit}")
        }
        Contradiction::Samples { samples, limit, .. } => {
            format!(in alloc; "max_samples {samples} is below max_samples_per_instance {limit}")
        }
    }
}

// Which of the two to change, and to what.
fn cure_of(alloc: Global, found: Contradiction) -> Result<String, NoMemory> {
    match found {
        Contradiction::Depth { depth, limit } => {
            format!(in alloc;
                "lower `depth` to {limit}, or raise `max_samples_per_instance` to {depth}"
            )
        }
        Contradiction::Samples {
            samples,
            limit,
            depth,
        } if depth <= samples => {
            format!(in alloc;
                "raise `max_samples` to {limit}, or lower `max_samples_per_instance` to {samples}"
            )
        }
        Contradiction::Samples { limit, .. } => {
            format!(in alloc; "raise `max_samples` to {limit}")
        }
    }
}

fn check_limits(
    walk: &Walk,
    faults: &mut Faults,
    at: &Place,
    table: &Table,
) -> Result<(), NoMemory> {
    let Some(found) = find_contradiction(table) else {
        return Ok(());
    };
    let message = words_of(walk.alloc, found)?;
    let help = cure_of(walk.alloc, found)?;
    faults.add(walk.alloc, FaultKind::Qos, at, message, Some(help))
}

// Which pairs of numbers an entry stands for.
enum Standing {
    One(usize, usize),
    // with each number below the second
    All(usize, usize),
    Unclear,
}

fn numbered(names: &PlacedNames, table: &Table, key: &str) -> Option<usize> {
    names.number(text_in(table, key)?)
}

fn one(first: Option<usize>, second: Option<usize>) -> Standing {
    match (first, second) {
        (Some(first), Some(second)) => Standing::One(first, second),
        _ => Standing::Unclear,
    }
}

// The pairs of an endpoint and its keys: one key, or all of them. An element of a rule has to name one.
fn keyed(walk: &Walk, entry: Entry, side: Side, table: &Table) -> Standing {
    let Some(endpoint) = text_in(table, side.word()) else {
        return Standing::Unclear;
    };
    let (Some(number), Some(keys)) = (
        walk.known.names(side.section()).number(endpoint),
        walk.known.keys_at(side, endpoint),
    ) else {
        return Standing::Unclear;
    };
    match table.get("key") {
        Some(key) => match key.as_str() {
            Some(key) => one(Some(number), keys.number(key)),
            None => Standing::Unclear,
        },
        None if walk.version <= 1 || matches!(entry, Entry::Portion(_)) => Standing::Unclear,
        None => Standing::All(number, keys.len()),
    }
}

fn pairs_of(walk: &Walk, entry: Entry, table: &Table) -> Standing {
    let (writers, readers) = (
        walk.known.names(Named::Writers),
        walk.known.names(Named::Readers),
    );
    match entry {
        Entry::Connection => one(
            numbered(writers, table, "writer"),
            numbered(readers, table, "reader"),
        ),
        Entry::Total => one(numbered(readers, table, "reader"), Some(0)),
        Entry::Share(side) => {
            let names = walk.known.names(side.section());
            one(numbered(names, table, side.word()), Some(0))
        }
        Entry::Bound => keyed(walk, entry, Side::Readers, table),
        Entry::Weight(side) | Entry::Portion(side) => keyed(walk, entry, side, table),
        _ => Standing::Unclear,
    }
}

// Whether the pair is new. It stands from then on.
fn is_new(stood: &mut Pairs, first: usize, second: usize) -> Result<bool, NoMemory> {
    if stood.contains(first, second) {
        return Ok(false);
    }
    stood.push(first, second)?;
    Ok(true)
}

// Whether all the pairs are new. The new ones stand from then on.
fn are_new(stood: &mut Pairs, first: usize, below: usize) -> Result<bool, NoMemory> {
    for second in 0..below {
        if !is_new(stood, first, second)? {
            return Ok(false);
        }
    }
    Ok(true)
}

fn twice(alloc: Global, entry: Entry, table: &Table) -> Result<String, NoMemory> {
    let writer = shown(alloc, text_in(table, "writer").unwrap_or(""))?;
    let reader = shown(alloc, text_in(table, "reader").unwrap_or(""))?;
    let key = shown(alloc, text_in(table, "key").unwrap_or("a key of it"))?;
    match entry {
        Entry::Connection => {
            format!(in alloc; "there's already a connection of `{writer}` and `{reader}`")
        }
        Entry::Total => format!(in alloc; "there's already a total of `{reader}`"),
        Entry::Bound => format!(in alloc; "there's already a bound of `{key}` at `{reader}`"),
        Entry::Share(Side::Writers) => format!(in alloc; "`{writer}` stands in the list already"),
        Entry::Share(Side::Readers) => format!(in alloc; "`{reader}` stands in the list already"),
        Entry::Portion(Side::Writers) | Entry::Weight(Side::Writers) => {
            format!(in alloc; "`{key}` at `{writer}` stands in the list already")
        }
        _ => format!(in alloc; "`{key}` at `{reader}` stands in the list already"),
    }
}

fn kind_of_twice(entry: Entry) -> FaultKind {
    match entry {
        Entry::Portion(_) | Entry::Share(_) => FaultKind::RuleEntry,
        _ => FaultKind::Duplicate,
    }
}

fn check_once(
    walk: &Walk,
    faults: &mut Faults,
    entry: Entry,
    stood: &mut Pairs,
    at: &Place,
    table: &Table,
) -> Result<(), NoMemory> {
    let new = match pairs_of(walk, entry, table) {
        Standing::One(first, second) => is_new(stood, first, second)?,
        Standing::All(first, below) => are_new(stood, first, below)?,
        Standing::Unclear => true,
    };
    if new {
        return Ok(());
    }
    let message = twice(walk.alloc, entry, table)?;
    faults.add(walk.alloc, kind_of_twice(entry), at, message, None)
}

/// Lists what is wrong with an entry as a whole. `stood` has what the entries before it in its list stand for.
pub(crate) fn check_whole(
    walk: &Walk,
    faults: &mut Faults,
    entry: Entry,
    stood: &mut Pairs,
    at: &Place,
    table: &Table,
) -> Result<(), NoMemory> {
    match entry {
        Entry::Writer | Entry::Reader => check_limits(walk, faults, at, table),
        _ => check_once(walk, faults, entry, stood, at, table),
    }
}

fn tell_element(
    walk: &Walk,
    faults: &mut Faults,
    at: &Place,
    message: String,
    help: Option<String>,
) -> Result<(), NoMemory> {
    faults.add(walk.alloc, FaultKind::RuleEntry, at, message, help)
}

// The fault of an element whose endpoint another application owns, where one does.
fn check_element_owner(
    walk: &Walk,
    faults: &mut Faults,
    side: Side,
    rule: &Table,
    at: &Place,
    endpoint: &str,
) -> Result<(), NoMemory> {
    let alloc = walk.alloc;
    let Some(application) = text_in(rule, "application") else {
        return Ok(());
    };
    let applications = walk.known.names(Named::Applications);
    match (
        walk.known.owners(side).place(endpoint),
        applications.place(application),
    ) {
        (Some(owner), Some(own)) if owner != own => {
            let (endpoint, application) = (shown(alloc, endpoint)?, shown(alloc, application)?);
            let key = side.section().key();
            let message = format!(in alloc; "`{endpoint}` isn't one of {application}'s {key}")?;
            let owner = shown(alloc, name_at(walk, Named::Applications, owner))?;
            let help = format!(in alloc; "{owner} owns it")?;
            tell_element(walk, faults, at, message, Some(help))
        }
        _ => Ok(()),
    }
}

// The fault of an element whose key its endpoint doesn't have, where it doesn't.
fn check_element_key(
    walk: &Walk,
    faults: &mut Faults,
    side: Side,
    at: &Place,
    endpoint: &str,
    key: &str,
) -> Result<(), NoMemory> {
    let alloc = walk.alloc;
    let Some(keys) = walk.known.keys_at(side, endpoint) else {
        return Ok(());
    };
    if keys.number(key).is_some() {
        return Ok(());
    }
    let help = help_with_names(walk, faults, key, keys, "key")?;
    let (key, endpoint) = (shown(alloc, key)?, shown(alloc, endpoint)?);
    let message = format!(in alloc; "`{key}` is no key of `{endpoint}`")?;
    tell_element(walk, faults, at, message, help)
}

/// Lists what is wrong with an element of a rule as to its endpoint and key.
pub(crate) fn check_element(
    walk: &Walk,
    faults: &mut Faults,
    entry: Entry,
    rule: &Table,
    at: &Place,
    table: &Table,
) -> Result<(), NoMemory> {
    let (Entry::Portion(side) | Entry::Share(side)) = entry else {
        return Ok(());
    };
    let Some(endpoint) = text_in(table, side.word()) else {
        return Ok(());
    };
    if walk.owners_are_clear {
        check_element_owner(walk, faults, side, rule, at, endpoint)?;
    }
    match text_in(table, "key") {
        Some(key) if entry == Entry::Portion(side) => {
            check_element_key(walk, faults, side, at, endpoint, key)
        }
        _ => Ok(()),
    }
}
