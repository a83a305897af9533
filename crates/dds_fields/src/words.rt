//! Fields with words, and numbers that may be a word.
ghost use Rattle.std.specs.Prelude.{◌≡◌, map, List, ℕ, Option, option_map, false};
ghost use Rattle.toml.specs.View.{view, table_view};
ghost use Rattle.dds_fields.specs.Reading.{optional};
ghost use Rattle.dds_fields.specs.Words.{worded, words_view, a_word, a_flag, a_duration, a_limit, a_long};
ghost use Rattle.dds_fields.specs.Places.{place_text};
ghost use Rattle.dds_fields.specs.Gives.{Gives};

use crate::fault::{FaultKind, ReadFault, refuse};
use crate::field::{number_of, text_of, value_at};
use crate::place::Place;
use std::alloc::Global;
use toml::{Table, Value};

fn find_word<T: Copy>(words: &[(&str, T)], text: &str) -> Option<T>
    ensures { result ≡ worded (words_view words.now) text.now }
{
    for (word, meaning) in words {
        if text == *word {
            return Some(*meaning);
        }
    }
    None
}

/// What the word that a value is means: WrongKind where it is no text, OutOfRange where it is none of the words.
#[tactic(auto, unfolding(crate::specs::Words::a_word))]
pub fn word_of<T: Copy>(
    alloc: Global,
    words: &[(&str, T)],
    path: &Place,
    value: &Value,
) -> Result<T, ReadFault>
    ensures { Gives (λ x. x) result (a_word (words_view words.now) (place_text path.now) (view value.now)) }
{
    let text = text_of(alloc, path, value)?;
    match find_word(words, text) {
        Some(meaning) => Ok(meaning),
        None => Err(refuse(alloc, FaultKind::OutOfRange, path)),
    }
}

/// What the word at a key means, `absent` where the key is absent: WrongKind and OutOfRange as for a word.
#[tactic(auto, unfolding(crate::specs::Reading::optional))]
pub fn optional_word<T: Copy>(
    alloc: Global,
    words: &[(&str, T)],
    absent: T,
    path: &Place,
    table: &Table,
    key: &str,
) -> Result<T, ReadFault>
    ensures { Gives (λ x. x) result
        (optional key.now absent (a_word (words_view words.now)) (place_text path.now) (table_view table.now)) }
{
    match value_at(table, key) {
        Some(value) => {
            let at = Place::Key { parent: path, key };
            word_of(alloc, words, &at, value)
        }
        None => Ok(absent),
    }
}

/// The truth value that a value is: WrongKind where it is none.
#[tactic(auto, unfolding(crate::specs::Words::a_flag))]
pub fn flag_of(alloc: Global, path: &Place, value: &Value) -> Result<bool, ReadFault>
    ensures { Gives (λ x. x) result (a_flag (place_text path.now) (view value.now)) }
{
    match value.as_bool() {
        Some(flag) => Ok(flag),
        None => Err(refuse(alloc, FaultKind::WrongKind, path)),
    }
}

/// The truth value at a key, false where the key is absent: WrongKind where the value is none.
#[tactic(auto, unfolding(crate::specs::Reading::optional))]
pub fn optional_flag(
    alloc: Global,
    path: &Place,
    table: &Table,
    key: &str,
) -> Result<bool, ReadFault>
    ensures { Gives (λ x. x) result (optional key.now false a_flag (place_text path.now) (table_view table.now)) }
{
    match value_at(table, key) {
        Some(value) => {
            let at = Place::Key { parent: path, key };
            flag_of(alloc, &at, value)
        }
        None => Ok(false),
    }
}

#[tactic(auto, unfolding(crate::specs::Words::a_long))]
fn long_of(alloc: Global, path: &Place, value: &Value) -> Result<u64, ReadFault>
    ensures { Gives (λ n. n) result (a_long (place_text path.now) (view value.now)) }
{
    match value.as_integer() {
        None => Err(refuse(alloc, FaultKind::WrongKind, path)),
        Some(integer) => match u64::try_from(integer) {
            Ok(number) => Ok(number),
            _ => Err(refuse(alloc, FaultKind::OutOfRange, path)),
        },
    }
}

/// Nanoseconds, or none where it is infinite.
#[tactic(auto, unfolding(crate::specs::Words::a_duration))]
pub fn duration_of(alloc: Global, path: &Place, value: &Value) -> Result<Option<u64>, ReadFault>
    ensures { Gives (λ n. n) result (a_duration (place_text path.now) (view value.now)) }
{
    match value.as_str() {
        Some("infinite") => Ok(None),
        Some(_) => Err(refuse(alloc, FaultKind::OutOfRange, path)),
        None => {
            let number = long_of(alloc, path, value)?;
            Ok(Some(number))
        }
    }
}

/// The duration at a key in nanoseconds, `None` where it is infinite, and `absent` where the key is absent: WrongKind
/// and OutOfRange as for a duration.
#[tactic(auto, unfolding(crate::specs::Reading::optional))]
pub fn optional_duration(
    alloc: Global,
    absent: Option<u64>,
    path: &Place,
    table: &Table,
    key: &str,
) -> Result<Option<u64>, ReadFault>
    ensures { Gives (λ n. n) result (optional key.now absent a_duration (place_text path.now) (table_view table.now)) }
{
    match value_at(table, key) {
        Some(value) => {
            let at = Place::Key { parent: path, key };
            duration_of(alloc, &at, value)
        }
        None => Ok(absent),
    }
}

/// A limit, or none where it is unlimited.
#[tactic(auto, unfolding(crate::specs::Words::a_limit))]
pub fn limit_of(alloc: Global, path: &Place, value: &Value) -> Result<Option<u32>, ReadFault>
    ensures { Gives (λ n. n) result (a_limit (place_text path.now) (view value.now)) }
{
    match value.as_str() {
        Some("unlimited") => Ok(None),
        Some(_) => Err(refuse(alloc, FaultKind::OutOfRange, path)),
        None => {
            let number = number_of(alloc, 1, 2_147_483_647, path, value)?;
            Ok(Some(number))
        }
    }
}

/// The limit at a key, 1 to 2,147,483,647, `None` where it is unlimited, and `absent` where the key is absent:
/// WrongKind and OutOfRange as for a limit.
#[tactic(auto, unfolding(crate::specs::Reading::optional))]
pub fn optional_limit(
    alloc: Global,
    absent: Option<u32>,
    path: &Place,
    table: &Table,
    key: &str,
) -> Result<Option<u32>, ReadFault>
    ensures { Gives (λ n. n) result (optional key.now absent a_limit (place_text path.now) (table_view table.now)) }
{
    match value_at(table, key) {
        Some(value) => {
            let at = Place::Key { parent: path, key };
            limit_of(alloc, &at, value)
        }
        None => Ok(absent),
    }
}
