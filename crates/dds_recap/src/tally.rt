//! Numbers by pairs of numbers.
ghost use Rattle.std.specs.Prelude.{◌≡◌, ℕ, max, OnOk};
ghost use Rattle.dds_recap.specs.Tally.{IsMoreBy, IsSetAt, number_at, only_at};

use dds_base::NoMemory;
use std::alloc::Global;
use std::collections::BTreeMap;

/// A number for each pair of numbers, 0 where none was set.
#[derive(Drop)]
pub(crate) struct Tally {
    pub(crate) numbers: BTreeMap<(usize, usize), u64>,
}

impl Tally {
    /// Numbers that are all 0. What is set later comes from `alloc`.
    pub(crate) fn new(alloc: Global) -> Tally
        ensures { (i k : ℕ) → number_at result i k ≡ 0 }
    {
        Tally {
            numbers: BTreeMap::new(alloc),
        }
    }

    /// The number of a pair.
    pub(crate) fn at(&self, i: usize, k: usize) -> u64
        ensures { result ≡ number_at self.now i k }
    {
        self.numbers.get(&(i, k)).copied().unwrap_or(0)
    }

    // Sets the number of a pair.
    fn set(&mut self, i: usize, k: usize, number: u64) -> Result<(), NoMemory>
        ensures { OnOk result (IsSetAt i k number self.old self.new) }
    {
        self.numbers.insert((i, k), number)?;
        Ok(())
    }

    /// Adds so many to the number of a pair. `NoMemory` comes too where the sum has no room in 64 bits.
    pub(crate) fn add(&mut self, i: usize, k: usize, more: u64) -> Result<(), NoMemory>
        ensures { OnOk result (IsMoreBy (only_at i k more) self.old self.new) }
    {
        match self.at(i, k).checked_add(more) {
            Some(sum) => self.set(i, k, sum),
            None => Err(NoMemory),
        }
    }

    /// Makes the number of a pair this one, if it is less.
    pub(crate) fn raise(&mut self, i: usize, k: usize, number: u64) -> Result<(), NoMemory>
        ensures { OnOk result ((a b : ℕ)
            → number_at self.new a b ≡ max (number_at self.old a b) (only_at i k number a b)) }
    {
        if self.at(i, k) < number {
            self.set(i, k, number)?;
        }
        Ok(())
    }
}
