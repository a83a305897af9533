//! Sets of sequence numbers, as GAP and ACKNACK carry them.

ghost use Rattle.std.specs.Prelude.{◌≡◌, ℕ, ◌+◌, ◌<◌, ◌≤◌, ◌^◌, ◌==◌, ◌&&◌, ◌||◌, not, leb, ltb, true, false, IsTrue};
ghost use Rattle.std.specs.Prelude.{MatchOption, length};
ghost use Rattle.std.proofs.Common.{rules};
ghost use Rattle.std.specs.Cmp.Rules.{comparing};
ghost use Rattle.dds_base.specs.Sets.{has, set_of, last_number, is_listed, FitsAfter, FitsSet, set_width};

use crate::words::{clear_flag, is_set, next_flag, set_flag};
use std::marker::Model;

/// A base and any of the 256 numbers from it on: the set of a GAP or an ACKNACK. Equal sets are equal values.
///
/// The base is 1 to 2^63 and each number at most 2^63 - 1, the last of a writer; a base of 2^63 is the number after the
/// last (DDSI-RTPS 2.5, clause 8.3.5.5).
#[derive(Clone, Copy)]
pub struct SnSet {
    base: u64,
    words: [u64; 4],
}

impl Model for SnSet {
    ghost use Rattle.std.specs.Prelude.{◌≡◌, ℕ, ◌+◌, ◌≤◌, true, false, slice_index_or};
    ghost use Rattle.dds_base.specs.Sets.{NumberSet, last_number};
    ghost use Rattle.dds_base.specs.Words.{flags_in, words_of, AreWords};
    ghost use Rattle.dds_base.specs.WordLaws.{words_of_flags};

    ghost Value = { NumberSet };

    ghost view = { λ a. record { base = a.base; flags = flags_in a.words } };

    ghost inverse = { λ s. record { base = s.base; words = words_of s.flags } };

    ghost inverse_ok = { λ a h i. record { base = a.base; words = words_of_flags a.words h.0 i } };

    // its base is a number or the one after the last, and its elements are numbers
    ghost invariant = { λ a. AreWords a.words × (1 ≤ a.base) × (a.base ≤ last_number + 1)
        × ((k : ℕ) → slice_index_or (flags_in a.words) k false ≡ true → a.base + k ≤ last_number) };
}

impl PartialEq for SnSet {
    ghost use Rattle.std.specs.Prelude.{nat_eq};
    ghost use Rattle.std.specs.Cmp.Lexicographic.{pointwise};
    ghost use Rattle.std.specs.Ordering.{on, eq_of_both};
    ghost use Rattle.dds_base.specs.Words.{words_of};

    ghost eq = { eq_of_both (on (λ s. s.base) nat_eq) (on (λ s. words_of s.flags) (pointwise nat_eq)) };

    ghost laws = { Prim.search (comparing, rules) };

    fn eq(&self, other: &SnSet) -> bool {
        self.base == other.base && self.words == other.words
    }
}

impl Eq for SnSet {
    ghost laws = { Prim.search (comparing, rules) };
}

impl SnSet {
    /// The empty set with a base, 1 to 2^63.
    pub fn empty(base: u64) -> SnSet
        requires low { 1 ≤ base }
        requires high { base ≤ last_number + 1 }
        ensures { result ≡ set_of base (λ n. false) }
    {
        SnSet {
            base,
            words: [0; 4],
        }
    }

    /// The set of these numbers. `None` exactly where the base isn't 1 to 2^63, or a number is below the base, above
    /// the base + 255 or above 2^63 - 1.
    pub fn new(base: u64, numbers: &[u64]) -> Option<SnSet>
        ensures { MatchOption result (FitsSet base numbers.now → ⊥)
            (λ s. FitsSet base numbers.now × (s ≡ set_of base (is_listed numbers.now))) }
    {
        if base < 1 || base > 1 << 63 {
            return None;
        }
        let mut set = SnSet::empty(base);
        for n in numbers {
            if *n < base || *n - base > 255 || *n >= 1 << 63 {
                return None;
            }
            set.insert(*n);
        }
        Some(set)
    }

    /// Adds a number: one from the base to the base + 255, and at most 2^63 - 1.
    pub fn insert(&mut self, n: u64)
        requires { FitsAfter self.old.base n }
        ensures { self.new ≡ set_of self.old.base (λ m. has self.old m || (n == m)) }
    {
        set_flag(&mut self.words, (n - self.base) as usize);
    }

    /// The base, 1 to 2^63.
    pub fn base(&self) -> u64
        ensures base { result ≡ self.now.base }
        ensures low { 1 ≤ result }
        ensures high { result ≤ last_number + 1 }
        ensures long { length self.now.flags ≡ set_width }
    {
        self.base
    }

    /// Whether the set has the number.
    pub fn contains(&self, n: u64) -> bool
        ensures answer { result ≡ has self.now n }
        ensures in_range { IsTrue result → n ≤ last_number }
    {
        n >= self.base && n - self.base < 256 && is_set(&self.words, (n - self.base) as usize)
    }

    /// The first number of the set from one on.
    pub fn first_from(&self, from: u64) -> Option<u64>
        ensures { MatchOption result
            ((n : ℕ) → from ≤ n → has self.now n ≡ false)
            (λ m. (from ≤ m) × (m ≤ last_number) × (has self.now m ≡ true)
            × ((n : ℕ) → from ≤ n → n < m → has self.now n ≡ false)) }
    {
        let k = next_flag(&self.words, flags_below(self.base, from))?;
        Some(self.base + k as u64)
    }

    /// The set without the numbers from one to another.
    pub fn without(&self, from: u64, to: u64) -> SnSet
        ensures { result ≡ set_of self.now.base (λ n. has self.now n && not (leb from n && leb n to)) }
    {
        let mut words = self.words;
        let end = flags_up_to(self.base, to);
        for k in flags_below(self.base, from)..end {
            clear_flag(&mut words, k);
        }
        let base = self.base;
        SnSet { base, words }
    }
}

// How many of the 256 flags from a base on are of numbers below this one.
fn flags_below(base: u64, n: u64) -> usize
    ensures few { result ≤ set_width }
    ensures answer { (k : ℕ) → k < set_width → leb result k ≡ leb n (base + k) }
{
    if n < base {
        0
    } else {
        (n - base).min(256) as usize
    }
}

// How many of them are of numbers up to this one.
fn flags_up_to(base: u64, n: u64) -> usize
    ensures few { result ≤ set_width }
    ensures answer { (k : ℕ) → k < set_width → ltb k result ≡ leb (base + k) n }
{
    if n < base {
        0
    } else {
        (n - base).min(255) as usize + 1
    }
}
