//! The values of fields.
ghost use Rattle.std.specs.Prelude.{◌≡◌, ◌≤◌, ◌<◌, ◌^◌, IfOk, string_bytes, ℕ, length, codes};
ghost use Rattle.toml.specs.View.{view, table_view, array_view, items_view};
ghost use Rattle.dds_fields.specs.Reading.{a_text, a_table, an_array, a_number, a_name, a_new_name, a_known_name};
ghost use Rattle.dds_fields.specs.Reading.{field, only, shown, shown_char, or_fault, each, an_array_of, section, entry};
ghost use Rattle.dds_fields.specs.Reading.{optional};
ghost use Rattle.std.specs.Prelude.{map, List, option_map};
ghost use Rattle.std.specs.List.{list_any};
ghost use Rattle.std.specs.Str.{bytes_eq};
ghost use Rattle.toml.specs.Data.{get_member};
ghost use Rattle.dds_fields.specs.declared.fault.FaultKind.TheVariants.{MissingKey};
ghost use Rattle.std.specs.Prelude.{None};
ghost use Rattle.dds_base.specs.Names.{number_of as names_number};
ghost use Rattle.dds_fields.specs.Gives.{Gives};
ghost use Rattle.dds_fields.specs.Places.{place_text};

use crate::fault::{FaultKind, ReadFault, refuse};
use crate::place::Place;
use dds_base::{Names, NoMemory, is_name};
use std::alloc::Global;
use toml::value::Array;
use toml::{Table, Value};

/// The text that a value is: WrongKind where it is none. `NoMemory`, here as in every reader of a field, where memory
/// ran out for the path of a fault.
pub fn text_of<'a>(alloc: Global, path: &Place, value: &'a Value) -> Result<&'a str, ReadFault>
    ensures { Gives (λ s. s.now) result (a_text (place_text path.now) (view value.now)) }
{
    match value.as_str() {
        Some(text) => Ok(text),
        None => Err(refuse(alloc, FaultKind::WrongKind, path)),
    }
}

/// The table that a value is: WrongKind where it is none.
pub fn table_of<'a>(alloc: Global, path: &Place, value: &'a Value) -> Result<&'a Table, ReadFault>
    ensures { Gives (λ t. table_view t.now) result (a_table (place_text path.now) (view value.now)) }
{
    match value.as_table() {
        Some(table) => Ok(table),
        None => Err(refuse(alloc, FaultKind::WrongKind, path)),
    }
}

/// The list that a value is: WrongKind where it is none.
pub fn array_of<'a>(alloc: Global, path: &Place, value: &'a Value) -> Result<&'a Array, ReadFault>
    ensures { Gives (λ v. array_view v.now) result (an_array (place_text path.now) (view value.now)) }
{
    match value.as_array() {
        Some(array) => Ok(array),
        None => Err(refuse(alloc, FaultKind::WrongKind, path)),
    }
}

/// The name that a value is: WrongKind where it is no text, BadName where the text is no name (1 to 64 letters, digits,
/// `_`, `.`, `/`, `-`).
#[tactic(auto, unfolding(crate::specs::Reading::a_name))]
pub fn name_of<'a>(alloc: Global, path: &Place, value: &'a Value) -> Result<&'a str, ReadFault>
    ensures { Gives (λ s. s.now) result (a_name (place_text path.now) (view value.now)) }
{
    let text = text_of(alloc, path, value)?;
    if is_name(text) {
        Ok(text)
    } else {
        Err(refuse(alloc, FaultKind::BadName, path))
    }
}

/// A name that isn't there yet: WrongKind and BadName as for a name, then Duplicate where it is one of `names`.
#[tactic(auto, unfolding(crate::specs::Reading::a_new_name))]
pub fn new_name_of<'a>(
    alloc: Global,
    names: &Names,
    path: &Place,
    value: &'a Value,
) -> Result<&'a str, ReadFault>
    ensures gives { Gives (λ s. s.now) result (a_new_name names.now (place_text path.now) (view value.now)) }
    ensures new { IfOk result (λ s. names_number names.now s.now ≡ None) }
{
    let name = name_of(alloc, path, value)?;
    match names.number(name) {
        Some(_) => Err(refuse(alloc, FaultKind::Duplicate, path)),
        None => Ok(name),
    }
}

/// The number of a name that is there, its place in `names`: WrongKind and BadName as for a name, then UnknownName
/// where it is none of them.
#[tactic(auto, unfolding(crate::specs::Reading::a_known_name))]
pub fn known_name_of(
    alloc: Global,
    names: &Names,
    path: &Place,
    value: &Value,
) -> Result<usize, ReadFault>
    ensures gives { Gives (λ n. n) result (a_known_name names.now (place_text path.now) (view value.now)) }
    ensures within { IfOk result (λ n. n < length names.now) }
{
    let name = name_of(alloc, path, value)?;
    match names.number(name) {
        Some(number) => Ok(number),
        None => Err(refuse(alloc, FaultKind::UnknownName, path)),
    }
}

/// A whole number from `low` to `high`: WrongKind where it is none, OutOfRange where it lies outside.
#[tactic(auto, unfolding(crate::specs::Reading::a_number))]
pub fn number_of(
    alloc: Global,
    low: u32,
    high: u32,
    path: &Place,
    value: &Value,
) -> Result<u32, ReadFault>
    ensures { Gives (λ n. n) result (a_number low high (place_text path.now) (view value.now)) }
{
    match value.as_integer() {
        None => Err(refuse(alloc, FaultKind::WrongKind, path)),
        Some(integer) => match u32::try_from(integer) {
            Ok(number) if low <= number && number <= high => Ok(number),
            _ => Err(refuse(alloc, FaultKind::OutOfRange, path)),
        },
    }
}

/// The value at a key, whose path is `at`: MissingKey where the key is absent.
pub fn require<'a>(
    alloc: Global,
    at: &Place,
    table: &'a Table,
    key: &str,
) -> Result<&'a Value, ReadFault>
    ensures { Gives (λ v. view v.now) result
        (or_fault MissingKey (place_text at.now) (get_member key.now (table_view table.now))) }
{
    match value_at(table, key) {
        Some(value) => Ok(value),
        None => Err(refuse(alloc, FaultKind::MissingKey, at)),
    }
}

/// The name at a key that isn't one of `names` yet: MissingKey where the key is absent, else as for a new name. `path`
/// is the table's.
#[tactic(auto, unfolding(crate::specs::Reading::field))]
pub fn new_name_field<'a>(
    alloc: Global,
    names: &Names,
    path: &Place,
    table: &'a Table,
    key: &str,
) -> Result<&'a str, ReadFault>
    ensures gives { Gives
        (λ s. s.now) result (field key.now (a_new_name names.now) (place_text path.now) (table_view table.now)) }
    ensures new { IfOk result (λ s. names_number names.now s.now ≡ None) }
{
    let at = Place::Key { parent: path, key };
    let value = require(alloc, &at, table, key)?;
    new_name_of(alloc, names, &at, value)
}

/// The number of the name at a key: MissingKey where the key is absent, else as for a known name.
#[tactic(auto, unfolding(crate::specs::Reading::field))]
pub fn known_name_field(
    alloc: Global,
    names: &Names,
    path: &Place,
    table: &Table,
    key: &str,
) -> Result<usize, ReadFault>
    ensures gives { Gives
        (λ n. n) result (field key.now (a_known_name names.now) (place_text path.now) (table_view table.now)) }
    ensures within { IfOk result (λ n. n < length names.now) }
{
    let at = Place::Key { parent: path, key };
    let value = require(alloc, &at, table, key)?;
    known_name_of(alloc, names, &at, value)
}

/// The whole number from `low` to `high` at a key: MissingKey where the key is absent, else as for a number.
#[tactic(auto, unfolding(crate::specs::Reading::field))]
pub fn number_field(
    alloc: Global,
    low: u32,
    high: u32,
    path: &Place,
    table: &Table,
    key: &str,
) -> Result<u32, ReadFault>
    ensures { Gives (λ n. n) result (field key.now (a_number low high) (place_text path.now) (table_view table.now)) }
{
    let at = Place::Key { parent: path, key };
    let value = require(alloc, &at, table, key)?;
    number_of(alloc, low, high, &at, value)
}

fn shown_char(c: char) -> char
    ensures value { result ≡ shown_char c }
    ensures ascii { result < 128 }
{
    match c {
        'a'..='z' | 'A'..='Z' | '0'..='9' | '_' | '.' | '/' | '-' => c,
        _ => '?',
    }
}

#[tactic(auto, unfolding(crate::specs::Reading::shown))]
fn show_key(alloc: Global, key: &str) -> Result<String, NoMemory>
    ensures { IfOk result (λ s. string_bytes s ≡ shown key.now) }
{
    let mut text = String::new(alloc);
    for c in key.chars() {
        if text.len() == 64 {
            return Ok(text);
        }
        text.push(shown_char(c))?;
    }
    Ok(text)
}

fn is_listed(key: &str, listed: &[&str]) -> bool
    ensures { result ≡ list_any (λ l. bytes_eq key.now l.now) listed.now }
{
    listed.iter().any(|l| key == *l)
}

/// Whether a table has no key but the listed ones: UnknownKey at the least other key in byte order. Of that key the
/// path shows at most 64 characters, and `?` for each that no name has.
#[tactic(auto, unfolding(crate::specs::Reading::only))]
pub fn only(alloc: Global, listed: &[&str], path: &Place, table: &Table) -> Result<(), ReadFault>
    ensures { Gives (λ u. u) result (only (map (λ l. l.now) listed.now) (place_text path.now) (table_view table.now)) }
{
    for key in table.keys() {
        if !is_listed(key.as_str(), listed) {
            let shown = show_key(alloc, key.as_str())?;
            let at = Place::Key {
                parent: path,
                key: shown.as_str(),
            };
            return Err(refuse(alloc, FaultKind::UnknownKey, &at));
        }
    }
    Ok(())
}

/// The elements of a list that has at most so many: WrongKind where it is no list, TooMany where it is longer.
#[tactic(auto, using(crate::proofs::Each::count_view), unfolding(crate::specs::Reading::an_array_of))]
pub fn array_of_limit<'a>(
    alloc: Global,
    limit: usize,
    path: &Place,
    value: &'a Value,
) -> Result<&'a [Value], ReadFault>
    ensures { Gives (λ v. items_view v.now) result (an_array_of limit (place_text path.now) (view value.now)) }
{
    let values = array_of(alloc, path, value)?.as_slice();
    if values.len() > limit {
        return Err(refuse(alloc, FaultKind::TooMany, path));
    }
    Ok(values)
}

/// The value at a key, if it is there.
pub fn value_at<'a>(table: &'a Table, key: &str) -> Option<&'a Value>
    ensures { option_map (λ v. view v.now) result ≡ get_member key.now (table_view table.now) }
{
    table.get(key)
}

/// The entries of a section of the document, none where it is absent: WrongKind where it is no list, TooMany where it
/// has more than `limit` entries.
#[tactic(auto, unfolding(crate::specs::Reading::section, crate::specs::Paths::key_path))]
pub fn section<'a>(
    alloc: Global,
    table: &'a Table,
    key: &str,
    limit: usize,
) -> Result<&'a [Value], ReadFault>
    ensures { Gives (λ v. items_view v.now) result (section key.now limit (table_view table.now)) }
{
    match value_at(table, key) {
        Some(value) => {
            let at = Place::Key {
                parent: &Place::Root,
                key,
            };
            array_of_limit(alloc, limit, &at, value)
        }
        None => Ok(&[]),
    }
}

/// The table that an entry of a section is: WrongKind where it is none, then UnknownKey where it has a key that isn't
/// listed.
#[tactic(auto, unfolding(crate::specs::Reading::entry))]
pub fn entry<'a>(
    alloc: Global,
    listed: &[&str],
    path: &Place,
    value: &'a Value,
) -> Result<&'a Table, ReadFault>
    ensures { Gives (λ t. table_view t.now) result (entry (map
        (λ l. l.now) listed.now) (place_text path.now) (view value.now)) }
{
    let table = table_of(alloc, path, value)?;
    only(alloc, listed, path, table)?;
    Ok(table)
}

/// The text at a key: MissingKey where the key is absent, WrongKind where the value is no text.
#[tactic(auto, unfolding(crate::specs::Reading::field))]
pub fn text_field<'a>(
    alloc: Global,
    path: &Place,
    table: &'a Table,
    key: &str,
) -> Result<&'a str, ReadFault>
    ensures { Gives (λ s. s.now) result (field key.now a_text (place_text path.now) (table_view table.now)) }
{
    let at = Place::Key { parent: path, key };
    let value = require(alloc, &at, table, key)?;
    text_of(alloc, &at, value)
}

/// The whole number from `low` to `high` at a key, `absent` where the key is absent: WrongKind and OutOfRange as for a
/// number.
#[tactic(auto, unfolding(crate::specs::Reading::optional))]
pub fn optional_number(
    alloc: Global,
    low: u32,
    high: u32,
    absent: u32,
    path: &Place,
    table: &Table,
    key: &str,
) -> Result<u32, ReadFault>
    ensures { Gives (λ n. n) result
        (optional key.now absent (a_number low high) (place_text path.now) (table_view table.now)) }
{
    match value_at(table, key) {
        Some(value) => {
            let at = Place::Key { parent: path, key };
            number_of(alloc, low, high, &at, value)
        }
        None => Ok(absent),
    }
}

/// A whole number from `low` to `high`: WrongKind where it is none, OutOfRange where it lies outside.
#[tactic(auto, unfolding(crate::specs::Reading::a_number))]
pub fn short_number_of(
    alloc: Global,
    low: u16,
    high: u16,
    path: &Place,
    value: &Value,
) -> Result<u16, ReadFault>
    ensures { Gives (λ n. n) result (a_number low high (place_text path.now) (view value.now)) }
{
    match value.as_integer() {
        None => Err(refuse(alloc, FaultKind::WrongKind, path)),
        Some(integer) => match u16::try_from(integer) {
            Ok(short) if low <= short && short <= high => Ok(short),
            _ => Err(refuse(alloc, FaultKind::OutOfRange, path)),
        },
    }
}

/// The whole number from `low` to `high` at a key: MissingKey where the key is absent, WrongKind and OutOfRange as
/// above.
#[tactic(auto, unfolding(crate::specs::Reading::field))]
pub fn short_number_field(
    alloc: Global,
    low: u16,
    high: u16,
    path: &Place,
    table: &Table,
    key: &str,
) -> Result<u16, ReadFault>
    ensures { Gives (λ n. n) result (field key.now (a_number low high) (place_text path.now) (table_view table.now)) }
{
    let at = Place::Key { parent: path, key };
    let value = require(alloc, &at, table, key)?;
    short_number_of(alloc, low, high, &at, value)
}

/// A whole number from `low` to `high`: WrongKind where it is none, OutOfRange where it lies outside.
#[tactic(auto, unfolding(crate::specs::Reading::a_number))]
pub fn long_number_of(
    alloc: Global,
    low: u64,
    high: u64,
    path: &Place,
    value: &Value,
) -> Result<u64, ReadFault>
    ensures { Gives (λ n. n) result (a_number low high (place_text path.now) (view value.now)) }
{
    match value.as_integer() {
        None => Err(refuse(alloc, FaultKind::WrongKind, path)),
        Some(integer) => match u64::try_from(integer) {
            Ok(long) if low <= long && long <= high => Ok(long),
            _ => Err(refuse(alloc, FaultKind::OutOfRange, path)),
        },
    }
}
