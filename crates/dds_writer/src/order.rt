//! The keys and the numbers of the kept samples, in order of key and then of number, so that what comes next of a key
//! is found without a walk over the samples.

ghost use Rattle.std.specs.Prelude.{◌≡◌, ℕ, suc, ◌==◌, ◌&&◌, ◌||◌, not, false, OnOk, OnErr};
ghost use Rattle.dds_writer.specs.Order.{lists, lists_among, lesser, greater, TellsLast, TellsNext};

use dds_base::{KeyNo, NoMemory};
use std::alloc::Global;
use std::collections::BTreeSet;
use std::ops::Bound;

// Pairs of a key and a number.
#[derive(Drop)]
pub(crate) struct Order {
    pub(crate) pairs: BTreeSet<(usize, u64)>,
}

impl Order {
    // Nothing is listed. What is listed later takes its memory from `alloc`.
    pub(crate) fn new(alloc: Global) -> Order
        ensures { (k n : ℕ) → lists result.pairs k n ≡ false }
    {
        Order {
            pairs: BTreeSet::new(alloc),
        }
    }

    // Lists a number of a key.
    pub(crate) fn insert(&mut self, key: KeyNo, sn: u64) -> Result<(), NoMemory>
        ensures ok { OnOk result ((k n : ℕ)
            → lists self.new.pairs k n ≡ (lists self.old.pairs k n || ((key == k) && (sn == n)))) }
        ensures err { OnErr result ((k n : ℕ) → lists self.new.pairs k n ≡ lists self.old.pairs k n) }
    {
        self.pairs.insert((key.number(), sn))?;
        Ok(())
    }

    // Lists a number of a key no more.
    pub(crate) fn remove(&mut self, key: KeyNo, sn: u64)
        ensures { (k n : ℕ) → lists self.new.pairs k n ≡ (lists self.old.pairs k n && not ((key == k) && (sn == n))) }
    {
        self.pairs.remove(&(key.number(), sn));
    }

    // The least number of a key.
    pub(crate) fn first(&self, key: KeyNo) -> Option<u64>
        ensures { TellsNext (lists self.now.pairs key) 0 result }
    {
        let key = key.number();
        let pair = self.pairs.range((key, 0)..).next()?;
        if pair.0 != key {
            return None;
        }
        Some(pair.1)
    }

    // The least number of a key above another.
    fn next(&self, key: KeyNo, start: u64) -> Option<u64>
        ensures { TellsNext (lists self.now.pairs key) (suc start) result }
    {
        let key = key.number();
        let pair = self
            .pairs
            .range((Bound::Excluded((key, start)), Bound::Unbounded))
            .next()?;
        if pair.0 != key {
            return None;
        }
        Some(pair.1)
    }

    // The greatest number of a key up to another.
    fn last(&self, key: KeyNo, end: u64) -> Option<u64>
        ensures { TellsLast (lists self.now.pairs key) end result }
    {
        let key = key.number();
        let pair = self.pairs.range(..=(key, end)).next_back()?;
        if pair.0 != key {
            return None;
        }
        Some(pair.1)
    }

    // The least number above another of any of the keys.
    pub(crate) fn next_among(&self, keys: &[KeyNo], start: u64) -> Option<u64>
        ensures { TellsNext (lists_among self.now.pairs keys.now) (suc start) result }
    {
        let mut least = None;
        for key in keys {
            least = lesser(least, self.next(*key, start));
        }
        least
    }

    // The greatest number up to another of any of the keys.
    pub(crate) fn last_among(&self, keys: &[KeyNo], end: u64) -> Option<u64>
        ensures { TellsLast (lists_among self.now.pairs keys.now) end result }
    {
        let mut greatest = None;
        for key in keys {
            greatest = greater(greatest, self.last(*key, end));
        }
        greatest
    }
}

// The lesser of two numbers, of which there may be one alone or none.
fn lesser(m: Option<u64>, n: Option<u64>) -> Option<u64>
    ensures { result ≡ lesser m n }
{
    match (m, n) {
        (Some(m), Some(n)) => Some(m.min(n)),
        (Some(m), None) => Some(m),
        (None, n) => n,
    }
}

// The greater of them.
fn greater(m: Option<u64>, n: Option<u64>) -> Option<u64>
    ensures { result ≡ greater m n }
{
    match (m, n) {
        (Some(m), Some(n)) => Some(m.max(n)),
        (Some(m), None) => Some(m),
        (None, n) => n,
    }
}
