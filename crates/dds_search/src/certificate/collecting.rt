//! Collects rows and bounds, limit by limit.

use crate::budget::Shortage;
use crate::certificate::attempt::{Attempt, Climber};
use crate::certificate::rows::{Entry, merged};
use crate::certificate::weights::WeighedRow;
use crate::limits::Limited;
use crate::lists::push;
use dds_base::{KeyNo, NoMemory, ReaderNo};
use dds_propose::targets::Target;
use std::alloc::Global;
use std::time::Clock;

/// The rows and the bounds so far.
#[derive(Drop)]
pub(crate) struct Collected {
    pub(crate) rows: Vec<WeighedRow>,
    pub(crate) entries: Vec<Entry>,
}

/// What is found of the bound of a key, as a part of a sum that is to stay within a limit.
#[derive(Clone, Copy)]
enum Part {
    /// This bound, which is within what the sum has left.
    Within(u32),
    /// No weights show a bound within that.
    Beyond,
    /// The search gave up, since this ran out.
    Unknown(Shortage),
}

/// A bound as a part of a sum that has so much left.
fn part_within(bound: Option<u32>, left: u32) -> Part {
    match bound {
        Some(bound) if bound <= left => Part::Within(bound),
        Some(_) => Part::Beyond,
        None => Part::Unknown(Shortage::Bits),
    }
}

/// A copy of a limit.
fn copied(alloc: Global, limited: &Limited) -> Result<Limited, NoMemory> {
    Ok(Limited {
        target: limited.target,
        places: limited.places.to_vec(alloc)?,
        limit: limited.limit,
    })
}

/// The place of the entry of a key of a reader, if there is one.
fn find(entries: &[Entry], reader: ReaderNo, key: KeyNo) -> Option<usize> {
    let target = Target::Instance { reader, key };
    entries
        .iter()
        .position(|entry| entry.limited.target == target)
}

impl Collected {
    /// Nothing yet.
    pub(crate) fn none(alloc: Global) -> Collected {
        Collected {
            rows: Vec::new(alloc),
            entries: Vec::new(alloc),
        }
    }

    /// Adds the row of a limit and the bound that it shows.
    pub(crate) fn add(
        &mut self,
        limited: Limited,
        row: WeighedRow,
        bound: u32,
    ) -> Result<(), NoMemory> {
        let row = merged(&mut self.rows, row)?;
        let entry = Entry {
            limited,
            row,
            bound,
        };
        push(&mut self.entries, entry)
    }

    /// The bound of a key that has one already. From here on it counts towards a sum, so that it may not rise any more.
    fn fixed(&mut self, place: usize) -> Option<u32> {
        let entry = self.entries.get_mut(place)?;
        entry.limited.limit = entry.bound;
        Some(entry.bound)
    }

    /// Adds a bound within `left` of the key of a place as a part of a sum.
    fn add_part<C: Clock>(
        &mut self,
        alloc: Global,
        climber: &mut Climber<C>,
        place: usize,
        left: u32,
    ) -> Result<Part, NoMemory> {
        let Some(known) = climber.net.places.get(place) else {
            return Ok(Part::Unknown(Shortage::Bits));
        };
        let (reader, key) = (known.reader, known.key);
        if let Some(entry) = find(&self.entries, reader, key) {
            return Ok(part_within(self.fixed(entry), left));
        }
        let places = vec![in alloc; place]?;
        match climber.attempt(alloc, &places, left)? {
            Attempt::Row { row, bound } if bound <= left => {
                let target = Target::Instance { reader, key };
                let limited = Limited {
                    target,
                    places,
                    limit: bound,
                };
                self.add(limited, row, bound)?;
                Ok(Part::Within(bound))
            }
            Attempt::Unknown(shortage) => Ok(Part::Unknown(shortage)),
            _ => Ok(Part::Beyond),
        }
    }

    /// Bounds of the keys of a reader whose sum is within its limit, which then is the last part. Else the first part
    /// that isn't.
    fn add_parts<C: Clock>(
        &mut self,
        alloc: Global,
        climber: &mut Climber<C>,
        limited: &Limited,
    ) -> Result<Part, NoMemory> {
        let mut left = limited.limit;
        for place in &limited.places {
            match self.add_part(alloc, climber, *place, left)? {
                Part::Within(bound) => left = left.saturating_sub(bound),
                part => return Ok(part),
            }
        }
        Ok(Part::Within(limited.limit.saturating_sub(left)))
    }

    /// Adds a row for a limit with the bound that it shows, or for the samples of a reader a bound for each of its
    /// keys. `None` where that was done, and else what was found instead.
    pub(crate) fn add_limit<C: Clock>(
        &mut self,
        alloc: Global,
        climber: &mut Climber<C>,
        limited: &Limited,
    ) -> Result<Option<Attempt>, NoMemory> {
        let attempt = match climber.attempt(alloc, &limited.places, limited.limit)? {
            Attempt::Row { row, bound } if bound <= limited.limit => {
                self.add(copied(alloc, limited)?, row, bound)?;
                return Ok(None);
            }
            attempt => attempt,
        };
        if let Target::Instance { .. } = limited.target {
            return Ok(Some(attempt));
        }
        match self.add_parts(alloc, climber, limited)? {
            Part::Within(_) => Ok(None),
            Part::Beyond => Ok(Some(attempt)),
            Part::Unknown(shortage) => Ok(Some(Attempt::Unknown(shortage))),
        }
    }
}
