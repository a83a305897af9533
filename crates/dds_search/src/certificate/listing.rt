//! The lists of a certificate from rows by places.
ghost use Rattle.std.specs.Prelude.{◌≡◌, IfOk};
ghost use Rattle.dds_propose.specs.Proposal.{bound_entry, total_entry};

use crate::certificate::rows::Entry;
use crate::certificate::weights::{Carrying, WeighedRow, permit};
use crate::lists::push;
use crate::net::Net;
use crate::net::outlets::Outlet;
use crate::net::places::Place;
use dds_base::{NoMemory, ReaderNo, WriterNo};
use dds_propose::targets::Target;
use dds_weights::{Bound, Certificate, Row, Total, Weight};
use std::alloc::Global;

/// What a place's tokens weigh, listed where that is above 0.
fn push_weight(
    list: &mut Vec<Weight<ReaderNo>>,
    place: &Place,
    weight: u32,
) -> Result<(), NoMemory> {
    if weight > 0 {
        list.push(Weight {
            endpoint: place.reader,
            key: place.key,
            weight,
        })?;
    }
    Ok(())
}

/// The weights of the samples: of the tokens of each place.
fn samples(alloc: Global, net: &Net, row: &WeighedRow) -> Result<Vec<Weight<ReaderNo>>, NoMemory> {
    let mut list = Vec::new(alloc);
    for number in 0..net.places.len() {
        push_weight(&mut list, &net.places[number], row.weight(number))?;
    }
    Ok(list)
}

/// The weights of the takes: of the tokens of each place that a rule needs, and none where caps carry the samples.
fn takes(alloc: Global, net: &Net, row: &WeighedRow) -> Result<Vec<Weight<ReaderNo>>, NoMemory> {
    let mut list = Vec::new(alloc);
    if row.carrying == Carrying::Caps {
        return Ok(list);
    }
    for number in 0..net.places.len() {
        if !net.places[number].users.is_empty() {
            push_weight(&mut list, &net.places[number], row.weight(number))?;
        }
    }
    Ok(list)
}

/// The weight of a permit, listed where it is from 1 to 4,294,967,295.
fn push_permit(
    list: &mut Vec<Weight<WriterNo>>,
    outlet: &Outlet,
    weight: u64,
) -> Result<(), NoMemory> {
    if let Ok(weight) = u32::try_from(weight) {
        if weight > 0 {
            list.push(Weight {
                endpoint: outlet.writer,
                key: outlet.key,
                weight,
            })?;
        }
    }
    Ok(())
}

/// The weights of the permits, none where caps carry the samples.
fn permits(alloc: Global, net: &Net, row: &WeighedRow) -> Result<Vec<Weight<WriterNo>>, NoMemory> {
    let mut list = Vec::new(alloc);
    if row.carrying == Carrying::Caps {
        return Ok(list);
    }
    for outlet in &net.outlets {
        push_permit(&mut list, outlet, permit(outlet, &row.weights))?;
    }
    Ok(list)
}

/// A row as a certificate lists it, under this name.
fn listed(alloc: Global, net: &Net, name: String, row: &WeighedRow) -> Result<Row, NoMemory> {
    Ok(Row {
        name,
        samples: samples(alloc, net, row)?,
        takes: takes(alloc, net, row)?,
        permits: permits(alloc, net, row)?,
    })
}

/// The rows of a choice, in its order, with their places from 0 in their names.
fn rows_of(
    alloc: Global,
    net: &Net,
    rows: &[WeighedRow],
    chosen: &[usize],
) -> Result<Vec<Row>, NoMemory> {
    let mut list = Vec::new(alloc);
    for place in 0..chosen.len() {
        if let Some(row) = rows.get(chosen[place]) {
            let name = format!(in alloc; "w{place}")?;
            push(&mut list, listed(alloc, net, name, row)?)?;
        }
    }
    Ok(list)
}

/// The bounds of keys.
fn bounds_of(alloc: Global, entries: &[Entry]) -> Result<Vec<Bound>, NoMemory> {
    let mut list = Vec::new(alloc);
    for entry in entries {
        if let Target::Instance { reader, key } = entry.limited.target {
            list.push(Bound {
                reader,
                key,
                row: entry.row,
                bound: entry.bound,
            })?;
        }
    }
    Ok(list)
}

/// The totals of readers.
fn totals_of(alloc: Global, entries: &[Entry]) -> Result<Vec<Total>, NoMemory> {
    let mut list = Vec::new(alloc);
    for entry in entries {
        if let Target::Reader(reader) = entry.limited.target {
            list.push(Total {
                reader,
                row: entry.row,
                bound: entry.bound,
            })?;
        }
    }
    Ok(list)
}

/// The certificate with a choice of rows, and the bounds of the entries.
pub(crate) fn certificate_of(
    alloc: Global,
    net: &Net,
    rows: &[WeighedRow],
    chosen: &[usize],
    entries: &[Entry],
) -> Result<Certificate, NoMemory> {
    Ok(Certificate {
        rows: rows_of(alloc, net, rows, chosen)?,
        bounds: bounds_of(alloc, entries)?,
        totals: totals_of(alloc, entries)?,
    })
}

/// A certificate with one row, which claims a bound for a target. The row is named as one speaks of it, since nobody is
/// given this certificate.
pub(crate) fn claim(
    alloc: Global,
    net: &Net,
    target: &Target,
    row: &WeighedRow,
    bound: u32,
) -> Result<Certificate, NoMemory>
    ensures bounds { IfOk result (λ c. c.bounds.items ≡ bound_entry target.now 0 bound) }
    ensures totals { IfOk result (λ c. c.totals.items ≡ total_entry target.now 0 bound) }
{
    let mut rows = Vec::new(alloc);
    let mut bounds = Vec::new(alloc);
    let mut totals = Vec::new(alloc);
    let name = String::from_str(alloc, "its row")?;
    push(&mut rows, listed(alloc, net, name, row)?)?;
    match target {
        Target::Instance { reader, key } => bounds.push(Bound {
            reader: *reader,
            key: *key,
            row: 0,
            bound,
        })?,
        Target::Reader(reader) => totals.push(Total {
            reader: *reader,
            row: 0,
            bound,
        })?,
    }
    Ok(Certificate {
        rows,
        bounds,
        totals,
    })
}
