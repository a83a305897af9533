//! Distinct pairs of numbers.
ghost use Rattle.std.specs.Prelude.{◌≡◌, ◌++◌, ◌∷◌, [], ℕ, List, false, IfOk, OnErr, length};
ghost use Rattle.dds_base.specs.Pairs.{stands};

use crate::NoMemory;
use indexmap::IndexSet;
use std::alloc::Global;
use std::marker::Model;

/// Distinct pairs of numbers, in the order in which they were added.
#[derive(Drop)]
pub struct Pairs {
    set: IndexSet<(usize, usize)>,
}

impl Model for Pairs {
    ghost Value = { List (ℕ × ℕ) };

    ghost view = { λ p. p.set.keys };
}

impl Pairs {
    /// No pairs yet.
    pub fn new(alloc: Global) -> Pairs
        ensures { result ≡ [] }
    {
        Pairs {
            set: IndexSet::new(alloc),
        }
    }

    /// Whether the pair was added.
    pub fn contains(&self, first: usize, second: usize) -> bool
        ensures { result ≡ stands self.now first second }
    {
        self.set.contains(&(first, second))
    }

    /// Adds a pair that is not there yet. An `Err` changes nothing.
    pub fn push(&mut self, first: usize, second: usize) -> Result<(), NoMemory>
        requires { stands self.old first second ≡ false }
        ensures ok { IfOk result (λ _. self.new ≡ self.old ++ (first, second) ∷ []) }
        ensures err { OnErr result (self.new ≡ self.old) }
    {
        self.set.insert((first, second))?;
        Ok(())
    }
}
