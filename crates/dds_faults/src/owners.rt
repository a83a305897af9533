//! Which application owns an endpoint.

use crate::fault::Faults;
use crate::fields::{Named, Side};
use crate::names::{KnownNames, PlacedNames, elements_of, entries_of, text_at};
use crate::values::Spot;
use crate::walk::Walk;
use crate::wording::shown;
use dds_base::NoMemory;
use dds_fields::fault::FaultKind;
use dds_fields::place::Place;
use std::alloc::Global;
use toml::{Table, Value};

/// The name of the entry at a place of a section, `?` where it has none.
pub(crate) fn name_at<'a>(walk: &Walk<'a>, section: Named, place: usize) -> &'a str {
    match entries_of(walk.document, section.key()).get(place) {
        Some(entry) => text_at(entry, "name").unwrap_or("?"),
        None => "?",
    }
}

fn tell_owner(
    walk: &Walk,
    faults: &mut Faults,
    at: &Place,
    message: String,
) -> Result<(), NoMemory> {
    faults.add(walk.alloc, FaultKind::EndpointOwner, at, message, None)
}

// The fault of an endpoint at another participant than its application, where it is at one.
fn check_participant(
    walk: &Walk,
    faults: &mut Faults,
    side: Side,
    application: &Table,
    at: &Place,
    name: &str,
) -> Result<(), NoMemory> {
    let alloc = walk.alloc;
    let Some(place) = walk.known.names(side.section()).place(name) else {
        return Ok(());
    };
    let Some(endpoint) = entries_of(walk.document, side.section().key()).get(place) else {
        return Ok(());
    };
    let (Some(theirs), Some(own)) = (
        text_at(endpoint, "participant"),
        text_in(application, "participant"),
    ) else {
        return Ok(());
    };
    let participants = walk.known.names(Named::Participants);
    if theirs == own
        || participants.number(theirs).is_none()
        || participants.number(own).is_none()
    {
        return Ok(());
    }
    let (theirs, own) = (shown(alloc, theirs)?, shown(alloc, own)?);
    let name = shown(alloc, name)?;
    let application = shown(
        alloc,
        text_in(application, "name").unwrap_or("its application"),
    )?;
    let message = format!(in alloc;
        "`{name}` is at participant {theirs}, and {application} at {own}"
    )?;
    tell_owner(walk, faults, at, message)
}

/// The text at a key of a table, where there is one.
pub(crate) fn text_in<'a>(table: &'a Table, key: &str) -> Option<&'a str> {
    table.get(key)?.as_str()
}

/// The fault of an endpoint that the application may not own, where there is one: another has it already, it stands
/// in the list before, or it is at another participant.
pub(crate) fn check_owner(
    walk: &Walk,
    faults: &mut Faults,
    side: Side,
    spot: &Spot,
    is_first: bool,
    at: &Place,
    name: &str,
) -> Result<(), NoMemory> {
    let alloc = walk.alloc;
    if !is_first {
        let name = shown(alloc, name)?;
        let message = format!(in alloc; "`{name}` stands in the list already")?;
        return tell_owner(walk, faults, at, message);
    }
    match walk.known.owners(side).place(name) {
        Some(owner) if owner != spot.index => {
            let owner = shown(alloc, name_at(walk, Named::Applications, owner))?;
            let other = shown(alloc, name_at(walk, Named::Applications, spot.index))?;
            let name = shown(alloc, name)?;
            let message = format!(in alloc; "`{name}` is owned by {owner} and {other}")?;
            tell_owner(walk, faults, at, message)
        }
        _ => check_participant(walk, faults, side, spot.table, at, name),
    }
}

fn check_owned_at(
    walk: &Walk,
    faults: &mut Faults,
    side: Side,
    index: usize,
    at: &Place,
    name: &str,
) -> Result<(), NoMemory> {
    let is_named_so = walk.known.names(side.section()).place(name) == Some(index);
    if !is_named_so || walk.known.owners(side).place(name).is_some() {
        return Ok(());
    }
    let name = shown(walk.alloc, name)?;
    let list = side.section().key();
    let message = format!(in walk.alloc;
        "no application owns `{name}`: add it to the `{list}` of one at its participant"
    )?;
    tell_owner(walk, faults, at, message)
}

/// The faults of the endpoints that no application owns.
pub(crate) fn check_all_owned(
    walk: &Walk,
    faults: &mut Faults,
    side: Side,
) -> Result<(), NoMemory> {
    let key = side.section().key();
    let list = Place::Key {
        parent: &Place::Root,
        key,
    };
    for (index, endpoint) in entries_of(walk.document, key).iter().enumerate() {
        let at = Place::Index {
            parent: &list,
            index,
        };
        if let Some(name) = text_at(endpoint, "name") {
            check_owned_at(walk, faults, side, index, &at, name)?;
        }
    }
    Ok(())
}
