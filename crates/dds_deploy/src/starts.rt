//! How often a rule may write at the opening: a number of times, or at any time.
ghost use Rattle.std.specs.Prelude.{Some};
ghost use Rattle.toml.specs.View.{view, table_view};
ghost use Rattle.dds_fields.specs.Gives.{Gives};
ghost use Rattle.dds_fields.specs.Places.{place_text};
ghost use Rattle.dds_fields.specs.Reading.{optional};
ghost use Rattle.dds_deploy.specs.Starts.{some_times, a_start, start_field};

use crate::versions::since_third;
use dds_fields::fault::{FaultKind, ReadFault, refuse};
use dds_fields::field::{short_number_of, value_at};
use dds_fields::place::Place;
use std::alloc::Global;
use toml::{Table, Value};

#[tactic(auto, unfolding(crate::specs::Starts::some_times))]
fn some_times(alloc: Global, path: &Place, value: &Value) -> Result<Option<u16>, ReadFault>
    ensures { Gives (λ n. n) result (some_times (place_text path.now) (view value.now)) }
{
    let number = short_number_of(alloc, 0, 65_535, path, value)?;
    Ok(Some(number))
}

#[tactic(auto, unfolding(crate::specs::Starts::a_start))]
fn start_of(
    alloc: Global,
    version: u32,
    path: &Place,
    value: &Value,
) -> Result<Option<u16>, ReadFault>
    ensures { Gives (λ n. n) result (a_start version (place_text path.now) (view value.now)) }
{
    if !since_third(version) {
        return some_times(alloc, path, value);
    }
    match value.as_str() {
        Some("unlimited") => Ok(None),
        Some(_) => Err(refuse(alloc, FaultKind::OutOfRange, path)),
        None => some_times(alloc, path, value),
    }
}

#[tactic(auto, unfolding(dds_fields::specs::Reading::optional))]
fn optional_start(
    alloc: Global,
    version: u32,
    path: &Place,
    table: &Table,
    key: &str,
) -> Result<Option<u16>, ReadFault>
    ensures { Gives (λ n. n) result
        (optional key.now (Some 0) (a_start version) (place_text path.now) (table_view table.now)) }
{
    match value_at(table, key) {
        Some(value) => {
            let at = Place::Key { parent: path, key };
            start_of(alloc, version, &at, value)
        }
        None => Ok(Some(0)),
    }
}

/// The start of a rule, 0 to 65,535 and 0 where it is absent, or `None` where the rule is free, which a file can say
/// since version 3. OutOfRange where a rule that takes something would be free.
#[tactic(auto, unfolding(crate::specs::Starts::start_field))]
pub(crate) fn start_field(
    alloc: Global,
    version: u32,
    takes_nothing: bool,
    path: &Place,
    table: &Table,
) -> Result<Option<u16>, ReadFault>
    ensures { Gives (λ n. n) result
        (start_field version takes_nothing (place_text path.now) (table_view table.now)) }
{
    let start = optional_start(alloc, version, path, table, "start")?;
    if takes_nothing || start.is_some() {
        return Ok(start);
    }
    let at = Place::Key {
        parent: path,
        key: "start",
    };
    Err(refuse(alloc, FaultKind::OutOfRange, &at))
}
