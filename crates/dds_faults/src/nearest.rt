//! The name that was meant where one is nearly right.

use dds_base::NoMemory;
use std::alloc::Global;
use strsim::levenshtein;

/// How many of the names are tried.
pub(crate) const TRIED: usize = 256;

// How many characters may differ: a third of the longer text, and one at least. All of them never may.
fn may_differ(text: &str, name: &str) -> usize {
    (text.len().max(name.len()) / 3).max(1)
}

fn are_comparable(text: &str, name: &str) -> bool {
    text.len() <= 64
        && name.len() <= 64
        && text.len().abs_diff(name.len()) <= may_differ(text, name)
}

// How many edits lead from one to the other, where they are few. The effort is what may still be spent.
fn edits(
    alloc: Global,
    effort: &mut usize,
    text: &str,
    name: &str,
) -> Result<Option<usize>, NoMemory> {
    if !are_comparable(text, name) {
        return Ok(None);
    }
    match effort.checked_sub((text.len() + 1).saturating_mul(name.len() + 1)) {
        Some(left) => *effort = left,
        None => return Ok(None),
    }
    let edits = levenshtein(alloc, text, name)?;
    if edits <= may_differ(text, name) && edits < text.len().max(name.len()) {
        Ok(Some(edits))
    } else {
        Ok(None)
    }
}

/// The name that is the nearest to a text, where one is near.
pub(crate) fn nearest<'a>(
    alloc: Global,
    effort: &mut usize,
    text: &str,
    names: &[&'a str],
) -> Result<Option<&'a str>, NoMemory> {
    let mut best = None;
    let mut least = usize::MAX;
    for name in names {
        if let Some(edits) = edits(alloc, effort, text, name)? {
            if edits < least {
                least = edits;
                best = Some(*name);
            }
        }
    }
    Ok(best)
}

// Whether a text ends with a word, after `_`.
fn ends_with_part(text: &str, word: &str) -> bool {
    text.strip_suffix(word)
        .is_some_and(|rest| rest.ends_with('_'))
}

/// Whether a text begins with a word, before `_`.
pub(crate) fn begins_with_part(text: &str, word: &str) -> bool {
    text.strip_prefix(word)
        .is_some_and(|rest| rest.starts_with('_'))
}

/// The first of some words with which a text ends after `_`, else with which it begins before `_`: `depth` for
/// `history_depth`, `history` for `history_kind`.
pub(crate) fn part_of<'a>(text: &str, words: &[&'a str]) -> Option<&'a str> {
    let last = words.iter().find(|word| ends_with_part(text, word));
    let found = match last {
        Some(word) => Some(word),
        None => words.iter().find(|word| begins_with_part(text, word)),
    };
    found.copied()
}
