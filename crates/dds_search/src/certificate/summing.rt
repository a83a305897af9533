//! Sums of rows, where a certificate has no room for all that are needed. What two rows show of their places their sum
//! shows too, with a greater bound; it serves what they serve as long as its bounds stay within the limits.

use crate::certificate::rows::Entry;
use crate::certificate::weights::WeighedRow;
use crate::lists::push;
use crate::net::Net;
use dds_base::NoMemory;
use dds_base::limits::ROWS;
use std::alloc::Global;

/// A sum of rows.
#[derive(Drop)]
struct Sum {
    row: WeighedRow,
    /// The places of the entries that it serves.
    entries: Vec<usize>,
}

/// The places of the open entries that a row serves. They aren't open any more.
fn take_open(alloc: Global, open: &mut Vec<bool>, served: &[bool]) -> Result<Vec<usize>, NoMemory> {
    let mut taken = Vec::new(alloc);
    for place in 0..served.len() {
        if let Some(is_open) = open.get_mut(place) {
            if served[place] && *is_open {
                *is_open = false;
                taken.push(place)?;
            }
        }
    }
    Ok(taken)
}

impl Sum {
    /// Whether the sum with a row shows a bound for each of some entries that is within its limit.
    fn serves_with(&self, row: &WeighedRow, places: &[usize], entries: &[Entry]) -> bool {
        for place in places {
            if let Some(entry) = entries.get(*place) {
                match self.row.bound_with(row, &entry.limited.places) {
                    Some(bound) if bound <= entry.limited.limit => {}
                    _ => return false,
                }
            }
        }
        true
    }

    /// Adds a row, where the sum then serves its own entries and these. Returns whether it does.
    fn take(
        &mut self,
        alloc: Global,
        net: &Net,
        row: &WeighedRow,
        more: &[usize],
        entries: &[Entry],
    ) -> Result<bool, NoMemory> {
        if !self.serves_with(row, more, entries) || !self.serves_with(row, &self.entries, entries) {
            return Ok(false);
        }
        let Some(sum) = self.row.plus(alloc, net, row)? else {
            return Ok(false);
        };
        self.row = sum;
        for place in more {
            self.entries.push(*place)?;
        }
        Ok(true)
    }
}

/// Adds a row with the entries that it is to serve to the first sum that then serves them all, and else as a sum of its
/// own. `false` where there are 64 already.
fn add(
    alloc: Global,
    net: &Net,
    sums: &mut Vec<Sum>,
    row: &WeighedRow,
    own: Vec<usize>,
    entries: &[Entry],
) -> Result<bool, NoMemory> {
    for sum in sums.iter_mut() {
        if sum.take(alloc, net, row, &own, entries)? {
            return Ok(true);
        }
    }
    if sums.len() >= ROWS {
        return Ok(false);
    }
    let sum = Sum {
        row: row.copied(alloc)?,
        entries: own,
    };
    push(sums, sum)?;
    Ok(true)
}

/// At most 64 sums of the chosen rows, each of which serves what its rows serve. `None` where that isn't found.
fn sums_of(
    alloc: Global,
    net: &Net,
    rows: &[WeighedRow],
    chosen: &[usize],
    table: &[Vec<bool>],
    entries: &[Entry],
) -> Result<Option<Vec<Sum>>, NoMemory> {
    let mut open = vec![in alloc; true; entries.len()]?;
    let mut sums = Vec::new(alloc);
    for place in chosen {
        if let (Some(row), Some(served)) = (rows.get(*place), table.get(*place)) {
            let own = take_open(alloc, &mut open, served)?;
            if !add(alloc, net, &mut sums, row, own, entries)? {
                return Ok(None);
            }
        }
    }
    Ok(Some(sums))
}

/// Adds at most 64 sums of the chosen rows that serve each entry, and gives their places. `None` where such ones aren't
/// found.
pub(crate) fn summed(
    alloc: Global,
    net: &Net,
    rows: &mut Vec<WeighedRow>,
    chosen: &[usize],
    table: &[Vec<bool>],
    entries: &[Entry],
) -> Result<Option<Vec<usize>>, NoMemory> {
    let Some(sums) = sums_of(alloc, net, rows, chosen, table, entries)? else {
        return Ok(None);
    };
    let mut places = Vec::new(alloc);
    for sum in sums {
        places.push(rows.len())?;
        push(rows, sum.row)?;
    }
    Ok(Some(places))
}
