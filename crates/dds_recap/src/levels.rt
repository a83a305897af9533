//! What is there at pairs of numbers, and the most that was there at once.
ghost use Rattle.std.specs.Prelude.{◌≡◌, ℕ, OnOk};
ghost use Rattle.dds_recap.specs.Tally.{IsMoreBy, Rises, level_at, number_at, only_at};

use crate::tally::Tally;
use dds_base::NoMemory;
use std::alloc::Global;

/// How much came to each pair and how much went from it, and the most that was there at once.
#[derive(Drop)]
pub(crate) struct Levels {
    pub(crate) came: Tally,
    pub(crate) gone: Tally,
    pub(crate) most: Tally,
}

impl Levels {
    /// Nothing was anywhere yet.
    pub(crate) fn new(alloc: Global) -> Levels
        ensures came { (i k : ℕ) → number_at result.came i k ≡ 0 }
        ensures gone { (i k : ℕ) → number_at result.gone i k ≡ 0 }
        ensures most { (i k : ℕ) → number_at result.most i k ≡ 0 }
    {
        Levels {
            came: Tally::new(alloc),
            gone: Tally::new(alloc),
            most: Tally::new(alloc),
        }
    }

    /// How much is there at a pair.
    pub(crate) fn at(&self, i: usize, k: usize) -> u64
        ensures { result ≡ level_at self.now i k }
    {
        self.came.at(i, k).saturating_sub(self.gone.at(i, k))
    }

    /// The most that was there at once.
    pub(crate) fn most(&self, i: usize, k: usize) -> u64
        ensures { result ≡ number_at self.now.most i k }
    {
        self.most.at(i, k)
    }

    /// Adds one to a pair.
    pub(crate) fn add(&mut self, i: usize, k: usize) -> Result<(), NoMemory>
        ensures came { OnOk result (IsMoreBy (only_at i k 1) self.old.came self.new.came) }
        ensures gone { self.new.gone ≡ self.old.gone }
        ensures most { OnOk result (Rises self.old self.new) }
    {
        self.came.add(i, k, 1)?;
        let level = self.at(i, k);
        self.most.raise(i, k, level)
    }

    /// One goes from a pair.
    pub(crate) fn remove(&mut self, i: usize, k: usize) -> Result<(), NoMemory>
        ensures came { self.new.came ≡ self.old.came }
        ensures gone { OnOk result (IsMoreBy (only_at i k 1) self.old.gone self.new.gone) }
        ensures most { OnOk result (Rises self.old self.new) }
    {
        self.gone.add(i, k, 1)
    }
}
