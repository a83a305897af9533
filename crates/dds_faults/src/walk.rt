//! What a walk through a file knows, and the faults that many fields share.

use crate::fault::{Faults, FileKind};
use crate::names::{KnownNames, PlacedNames};
use crate::nearest::{TRIED, nearest, part_of};
use crate::wording::{choice, kind_of, shown, subject};
use dds_base::NoMemory;
use dds_fields::fault::FaultKind;
use dds_fields::place::Place;
use std::alloc::Global;
use toml::{Table, Value};

/// What a walk through a file knows.
#[derive(Clone, Copy)]
pub(crate) struct Walk<'a> {
    pub(crate) alloc: Global,
    pub(crate) file: FileKind,
    /// The version of the file, the newest where it isn't known.
    pub(crate) version: i64,
    pub(crate) document: &'a Table,
    pub(crate) known: &'a KnownNames,
    /// Whether the applications have no fault, so that it is clear what each owns.
    pub(crate) owners_are_clear: bool,
}

/// The fault of a value of another kind than what is expected.
pub(crate) fn tell_kind(
    walk: &Walk,
    faults: &mut Faults,
    expected: &str,
    at: &Place,
    value: &Value,
) -> Result<(), NoMemory> {
    let alloc = walk.alloc;
    let subject = subject(alloc, at)?;
    let kind = kind_of(value);
    let message = format!(in alloc; "`{subject}` is {kind}, and has to be {expected}")?;
    faults.add(alloc, FaultKind::WrongKind, at, message, None)
}

/// The fault of a value that is out of its range. `shown` is the value.
pub(crate) fn tell_range(
    walk: &Walk,
    faults: &mut Faults,
    expected: &str,
    at: &Place,
    shown: &str,
    help: Option<String>,
) -> Result<(), NoMemory> {
    let alloc = walk.alloc;
    let subject = subject(alloc, at)?;
    let message = format!(in alloc; "`{subject}` is {shown}, and has to be {expected}")?;
    faults.add(alloc, FaultKind::OutOfRange, at, message, help)
}

/// The fault of a list that is longer than it may be, where it is.
pub(crate) fn tell_length(
    walk: &Walk,
    faults: &mut Faults,
    noun: &str,
    limit: usize,
    at: &Place,
    values: &[Value],
) -> Result<(), NoMemory> {
    let count = values.len();
    if count <= limit {
        return Ok(());
    }
    let alloc = walk.alloc;
    let message = format!(in alloc; "{count} {noun}, and at most {limit} may be there")?;
    faults.add(alloc, FaultKind::TooMany, at, message, None)
}

/// A text of the file in quotes.
pub(crate) fn quoted(alloc: Global, text: &str) -> Result<String, NoMemory> {
    let text = shown(alloc, text)?;
    format!(in alloc; "\"{text}\"")
}

// The names that are there, where they are few.
fn all_names(alloc: Global, names: &PlacedNames, noun: &str) -> Result<Option<String>, NoMemory> {
    if names.len() > 8 {
        return Ok(None);
    }
    if names.len() == 0 {
        return Ok(Some(format!(in alloc; "there are no {noun}s")?));
    }
    let some = names.first(alloc, 8)?;
    let list = choice(alloc, &some, "`", " and ")?;
    if names.len() == 1 {
        return Ok(Some(format!(in alloc; "the only {noun} is {list}")?));
    }
    Ok(Some(format!(in alloc; "the {noun}s are {list}")?))
}

/// A help for a name that isn't there: the one that was meant, else all where they are few.
pub(crate) fn help_with_names(
    walk: &Walk,
    faults: &mut Faults,
    text: &str,
    names: &PlacedNames,
    noun: &str,
) -> Result<Option<String>, NoMemory> {
    if faults.are_many() {
        return Ok(None);
    }
    let alloc = walk.alloc;
    let tried = names.first(alloc, TRIED)?;
    match nearest(alloc, &mut faults.effort, text, &tried)? {
        Some(name) => {
            let name = shown(alloc, name)?;
            Ok(Some(format!(in alloc; "did you mean `{name}`?")?))
        }
        None => all_names(alloc, names, noun),
    }
}

/// A help for a word that isn't one of some words, which stand between marks: the one that was meant, else what leads
/// up to all of them.
pub(crate) fn help_with_words(
    walk: &Walk,
    faults: &mut Faults,
    text: &str,
    words: &[&str],
    mark: &str,
    all: &str,
) -> Result<Option<String>, NoMemory> {
    if faults.are_many() {
        return Ok(None);
    }
    let alloc = walk.alloc;
    let near = match nearest(alloc, &mut faults.effort, text, words)? {
        Some(word) => Some(word),
        None => part_of(text, words),
    };
    match near {
        Some(word) => Ok(Some(format!(in alloc; "did you mean {mark}{word}{mark}?")?)),
        None => Ok(Some(String::from_str(alloc, all)?)),
    }
}
