//! The rows that were found: equal ones are one, and where there are too many, some that show each limit, or sums of
//! these.
ghost use Rattle.std.specs.Prelude.{◌≡◌, Some, IfOk};
ghost use Rattle.dds_search.specs.Rows.{weights_at};

use crate::certificate::summing::summed;
use crate::certificate::weights::WeighedRow;
use crate::limits::Limited;
use crate::lists::push;
use crate::net::Net;
use dds_base::NoMemory;
use dds_base::limits::ROWS;
use std::alloc::Global;

/// A limit, and a row with the bound that it shows for it.
#[derive(Drop)]
pub(crate) struct Entry {
    /// Where the bound has to stay as it is, since it is one of a sum, it is the limit.
    pub(crate) limited: Limited,
    /// The place of the row, from 0.
    pub(crate) row: usize,
    pub(crate) bound: u32,
}

/// The place of a row among others: of the one that is the same, and else at the end, where it is added.
pub(crate) fn merged(rows: &mut Vec<WeighedRow>, row: WeighedRow) -> Result<usize, NoMemory>
    ensures { IfOk result (λ place. weights_at rows.new.items place ≡ Some row.weights.items) }
{
    for place in 0..rows.len() {
        if rows[place].is_same(&row) {
            return Ok(place);
        }
    }
    let place = rows.len();
    match rows.push(row) {
        Ok(()) => Ok(place),
        Err(_) => Err(NoMemory),
    }
}

/// Whether a row shows a bound for the places of an entry that is within its limit.
fn serves(row: &WeighedRow, entry: &Entry) -> bool {
    match row.bound(&entry.limited.places) {
        Some(bound) => bound <= entry.limited.limit,
        None => false,
    }
}

/// Which entries a row serves.
fn served_by(alloc: Global, row: &WeighedRow, entries: &[Entry]) -> Result<Vec<bool>, NoMemory> {
    let mut served = Vec::new(alloc);
    for entry in entries {
        served.push(serves(row, entry))?;
    }
    Ok(served)
}

/// Which entries each row serves.
fn served(
    alloc: Global,
    rows: &[WeighedRow],
    entries: &[Entry],
) -> Result<Vec<Vec<bool>>, NoMemory> {
    let mut table = Vec::new(alloc);
    for row in rows {
        let served = served_by(alloc, row, entries)?;
        push(&mut table, served)?;
    }
    Ok(table)
}

/// How many entries a row serves that are open.
fn count_open(served: &[bool], open: &[bool]) -> usize {
    let mut count: usize = 0;
    for (is_served, is_open) in served.iter().zip(open) {
        if *is_served && *is_open {
            count = count.saturating_add(1);
        }
    }
    count
}

/// How many open entries each row serves.
fn count_each(alloc: Global, table: &[Vec<bool>], open: &[bool]) -> Result<Vec<usize>, NoMemory> {
    let mut counts = Vec::new(alloc);
    for served in table {
        counts.push(count_open(served, open))?;
    }
    Ok(counts)
}

/// The place of the greatest count, the first of several. `None` where all are 0.
fn best(counts: &[usize]) -> Option<usize> {
    let mut most = 0;
    let mut found = None;
    for row in 0..counts.len() {
        if counts[row] > most {
            most = counts[row];
            found = Some(row);
        }
    }
    found
}

/// Each row that serves the entry with this place has one less to serve.
fn uncount(counts: &mut Vec<usize>, table: &[Vec<bool>], place: usize) {
    for row in 0..table.len() {
        if table[row].get(place) == Some(&true) {
            if let Some(count) = counts.get_mut(row) {
                *count = count.saturating_sub(1);
            }
        }
    }
}

/// What a row serves isn't open any more, and is counted no longer.
fn close(open: &mut Vec<bool>, counts: &mut Vec<usize>, table: &[Vec<bool>], served: &[bool]) {
    for place in 0..served.len() {
        if served[place] && open.get(place) == Some(&true) {
            if let Some(is_open) = open.get_mut(place) {
                *is_open = false;
            }
            uncount(counts, table, place);
        }
    }
}

/// Some of the rows, by their places, that serve each entry: the one that serves the most open entries, time and again.
/// `None` where some entry isn't served.
fn chosen(
    alloc: Global,
    table: &[Vec<bool>],
    entries: usize,
) -> Result<Option<Vec<usize>>, NoMemory> {
    let mut open = vec![in alloc; true; entries]?;
    let mut counts = count_each(alloc, table, &open)?;
    let mut chosen = Vec::new(alloc);
    for _ in 0..table.len() {
        let Some(row) = best(&counts) else {
            break;
        };
        chosen.push(row)?;
        if let Some(served) = table.get(row) {
            close(&mut open, &mut counts, table, served);
        }
    }
    if open.contains(&true) {
        return Ok(None);
    }
    Ok(Some(chosen))
}

/// The place in a choice of the row that shows the least bound for some places, and the bound.
fn least_of(rows: &[WeighedRow], chosen: &[usize], places: &[usize]) -> Option<(usize, u32)> {
    let mut found: Option<(usize, u32)> = None;
    for place in 0..chosen.len() {
        let bound = rows.get(chosen[place]).and_then(|row| row.bound(places));
        if let Some(bound) = bound {
            let is_less = match found {
                Some((_, least)) => bound < least,
                None => true,
            };
            if is_less {
                found = Some((place, bound));
            }
        }
    }
    found
}

/// Each entry gets the row of a choice that shows the least bound, by its place in the choice.
fn choose_again(entries: &mut Vec<Entry>, rows: &[WeighedRow], chosen: &[usize]) {
    for entry in entries {
        if let Some((row, bound)) = least_of(rows, chosen, &entry.limited.places) {
            entry.row = row;
            entry.bound = bound;
        }
    }
}

/// At most 64 rows, by their places, that serve each entry: some of them, or sums of some, which are added at the end.
/// `None` where no such ones are found.
fn few(
    alloc: Global,
    net: &Net,
    rows: &mut Vec<WeighedRow>,
    entries: &[Entry],
) -> Result<Option<Vec<usize>>, NoMemory> {
    let table = served(alloc, rows, entries)?;
    let Some(chosen) = chosen(alloc, &table, entries.len())? else {
        return Ok(None);
    };
    if chosen.len() <= ROWS {
        return Ok(Some(chosen));
    }
    summed(alloc, net, rows, &chosen, &table, entries)
}

/// The rows of a certificate, by their places: all of them, and where they are more than 64 some that serve each entry,
/// or sums of some, which are added to the rows. The entries name them by their places in it. `None` where no 64 such
/// rows are found.
pub(crate) fn cover(
    alloc: Global,
    net: &Net,
    rows: &mut Vec<WeighedRow>,
    entries: &mut Vec<Entry>,
) -> Result<Option<Vec<usize>>, NoMemory> {
    if rows.len() <= ROWS {
        return Ok(Some(every_place(alloc, rows.len())?));
    }
    let Some(chosen) = few(alloc, net, rows, entries)? else {
        return Ok(None);
    };
    choose_again(entries, rows, &chosen);
    Ok(Some(chosen))
}

/// The numbers below a count.
fn every_place(alloc: Global, count: usize) -> Result<Vec<usize>, NoMemory> {
    let mut places = Vec::new(alloc);
    for place in 0..count {
        places.push(place)?;
    }
    Ok(places)
}
