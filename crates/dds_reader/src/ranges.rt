//! The marked numbers of one writer: all below a base, and disjoint ranges above it, joined where they touch.

ghost use Rattle.std.specs.Prelude.{◌≡◌, ℕ, ◌+◌, ◌-◌, ◌<◌, ◌≤◌, ◌==◌, cond, not, ◌&&◌, ◌||◌, true, false, None, Some};
ghost use Rattle.std.specs.Prelude.{IfOk, OnOk, OnErr, IsTrue, MatchOption};
ghost use Rattle.std.specs.Ordering.{nat_cmp};
ghost use Rattle.std.specs.BTreeMap.{IsOrdered};
ghost use Rattle.std.proofs.Common.{◌⊎◌};
ghost use Rattle.std.proofs.Props.{props};
ghost use Rattle.dds_base.specs.Counts.{count_between};
ghost use Rattle.dds_base.specs.Messages.{covers};
ghost use Rattle.dds_base.specs.Sets.{has as has_number, last_number, set_width};
ghost use Rattle.dds_qos.specs.Admission.{admission, is_rejected, stored_after, keys_after};
ghost use Rattle.dds_qos.specs.Reading.{gap_count};
ghost use Rattle.dds_qos.specs.Samples.{IsFresh};
ghost use Rattle.dds_cache.specs.Released.{is_listed};
ghost use Rattle.dds_reader.specs.Ranges.{at, has, is_between, IsAbove, IsAbsorbed, IsApart, IsFirstIn, IsFree};
ghost use Rattle.dds_reader.specs.Ranges.{IsLastUpTo, IsLeastUnmarked, NoneIn, OnlyNumbers};

use dds_base::{GapMsg, NoMemory, Sample, SnSet};
use dds_cache::Cache;
use dds_qos::Admit;
use std::alloc::Global;
use std::collections::BTreeMap;
use std::ops::Bound;

// The marked numbers of a writer: those from 1 below the base, and ranges above it, by their first number with the
// number after their last, which neither overlap nor touch.
#[derive(Drop)]
pub(crate) struct Ranges {
    pub(crate) base: u64,
    pub(crate) above: BTreeMap<u64, u64>,
    ghost low: { 1 ≤ base },
    ghost apart: { IsApart base above } by { Prim.hlevel props },
}

// The first range that begins after a key, if it begins no later than the end.
fn first_in(ranges: &BTreeMap<u64, u64>, key: u64, until: u64) -> Option<(u64, u64)>
    requires { key < until }
    ensures { MatchOption result (NoneIn ranges.now key until) (IsFirstIn ranges.now key until) }
{
    match ranges
        .range((Bound::Excluded(key), Bound::Included(until)))
        .next()
    {
        Some((from, end)) => Some((*from, *end)),
        None => None,
    }
}

// The last range that begins no later than a number.
fn last_up_to(ranges: &BTreeMap<u64, u64>, n: u64) -> Option<(u64, u64)>
    ensures { MatchOption result ((q : ℕ) → q ≤ n → at ranges.now q ≡ None) (IsLastUpTo ranges.now n) }
{
    match ranges.range(..=n).next_back() {
        Some((from, end)) => Some((*from, *end)),
        None => None,
    }
}

// Takes out the ranges after a key that begin no later than the end, which moves on with them.
// Returns the end, and how many numbers the ranges had.
fn absorb(ranges: &mut BTreeMap<u64, u64>, key: u64, start: u64, until: u64) -> (u64, u64)
    requires order { start ≤ until }
    requires beyond { key < until }
    requires above { IsAbove ranges.old key start }
    requires ordered { IsOrdered nat_cmp ranges.old }
    ensures { IsAbsorbed ranges.old ranges.new key start until result.0 result.1 }
{
    let mut at = start;
    let mut end = until;
    let mut known = 0;
    while let Some((from, to)) = first_in(ranges, key, end) {
        ranges.remove(&from);
        known += to - from;
        at = to;
        if end < to {
            end = to;
        }
    }
    (end, known)
}

impl Ranges {
    // No number is marked. What is marked later takes its memory from `alloc`.
    pub(crate) fn new(alloc: Global) -> Ranges
        ensures { (n : ℕ) → has result.base result.above n ≡ false }
    {
        Ranges {
            base: 1,
            above: BTreeMap::new(alloc),
        }
    }

    // The same numbers, in memory of their own.
    fn try_clone(&self) -> Result<Ranges, NoMemory>
        ensures { IfOk result (λ r. (n : ℕ) → has r.base r.above n ≡ has self.now.base self.now.above n) }
    {
        Ok(Ranges {
            base: self.base,
            above: self.above.clone()?,
        })
    }

    // Whether a number is marked.
    pub(crate) fn is_marked(&self, n: u64) -> bool
        ensures { result ≡ has self.now.base self.now.above n }
    {
        if n < self.base {
            return 1 <= n;
        }
        match last_up_to(&self.above, n) {
            Some((_, end)) => n < end,
            None => false,
        }
    }

    // The least number that is not marked.
    pub(crate) fn base(&self) -> u64
        ensures { IsLeastUnmarked (has self.now.base self.now.above) result }
    {
        self.base
    }

    // Marks the numbers from one to another less one, and counts those that were not marked. It needs no memory where
    // the first is not above the base or joins a range.
    pub(crate) fn mark(&mut self, from: u64, until: u64) -> Result<u64, NoMemory>
        requires { 1 ≤ from }
        ensures marks { OnOk result ((n : ℕ)
            → has self.new.base self.new.above n ≡ (has self.old.base self.old.above n || is_between from until n)) }
        ensures count { IfOk result
            (λ k. k ≡ count_between (λ n. not (has self.old.base self.old.above n)) from until) }
        ensures only_free { OnErr result (IsFree self.old.above from) }
        ensures only_above { OnErr result (self.old.base < from) }
        ensures err_base { OnErr result (self.new.base ≡ self.old.base) }
        ensures err_above { OnErr result (self.new.above.entries ≡ self.old.above.entries) }
    {
        if until <= from || until <= self.base {
            return Ok(0);
        }
        if from <= self.base {
            let start = self.base;
            let (end, known) = absorb(&mut self.above, start, start, until);
            self.base = end;
            return Ok(end - start - known);
        }
        if let Some((key, start)) = last_up_to(&self.above, from) {
            if until <= start {
                return Ok(0);
            }
            if from <= start {
                let (end, known) = absorb(&mut self.above, key, start, until);
                self.above.insert(key, end)?;
                return Ok(end - start - known);
            }
        }
        self.above.insert(from, until)?;
        let (end, known) = absorb(&mut self.above, from, from, until);
        self.above.insert(from, end)?;
        Ok(end - from - known)
    }

    // Whether a range that begins at the number joins what is marked before it, so that marking it needs no memory.
    fn touches(&self, n: u64) -> bool
        ensures touch { IsTrue result → (n ≤ self.now.base) ⊎ ((q : ℕ) × (q < n) × (at self.now.above q ≡ Some n)) }
        ensures free { result ≡ false → (self.now.base < n) × ((q : ℕ) → q < n → at self.now.above q ≡ Some n → ⊥) }
    {
        if n <= self.base {
            return true;
        }
        match last_up_to(&self.above, n) {
            Some((key, end)) => key < n && end == n,
            None => false,
        }
    }

    // Admits a sample that is not over a limit and whose number is not marked, and marks the numbers from one up to its
    // own: from its own on, or from one that is not above the base. What it answers is the cache's answer. Where it
    // fails nothing changes.
    pub(crate) fn store(
        &mut self,
        from: u64,
        sample: &Sample,
        cache: &mut Cache,
    ) -> Result<Admit, NoMemory>
        requires listed { IsTrue (is_listed sample.now.writer cache.old.writers) }
        requires fresh { IsFresh cache.old.stored sample.now }
        requires accepted { is_rejected (admission cache.old.limits cache.old.stored cache.old.keys sample.now)
            ≡ false }
        requires unmarked { has self.old.base self.old.above sample.now.sn ≡ false }
        requires low { 1 ≤ from }
        requires alone { (from ≤ self.old.base) ⊎ (from ≡ sample.now.sn) }
        requires high { sample.now.sn ≤ last_number }
        ensures answer { IfOk result (λ a. a ≡ admission cache.old.limits cache.old.stored cache.old.keys sample.now) }
        ensures marks { OnOk result ((n : ℕ)
            → has self.new.base self.new.above n
            ≡ (has self.old.base self.old.above n || is_between from (sample.now.sn + 1) n)) }
        ensures cache { IfOk result (λ a. cache.new ≡ record cache.old {
          stored = stored_after a cache.old.stored sample.now;
          keys = keys_after a cache.old.keys sample.now;
        }) }
        ensures err_base { OnErr result (self.new.base ≡ self.old.base) }
        ensures err_above { OnErr result (self.new.above.entries ≡ self.old.above.entries) }
        ensures err_cache { OnErr result (cache.new ≡ cache.old) }
    {
        let until = sample.sn + 1;
        if self.touches(from) {
            let answer = cache.admit(*sample)?;
            self.mark(from, until)?;
            return Ok(answer);
        }
        self.above.insert(from, until)?;
        let Ok(answer) = cache.admit(*sample) else {
            self.above.remove(&from);
            return Err(NoMemory);
        };
        let (end, _) = absorb(&mut self.above, from, from, until);
        self.above.insert(from, end)?;
        Ok(answer)
    }

    // Marks a number where the set has it, and counts it where it was not marked: 1, or 0.
    fn mark_one(&mut self, set: &SnSet, n: u64) -> Result<u64, NoMemory>
        requires { 1 ≤ n }
        ensures marks { OnOk result ((m : ℕ)
            → has self.new.base self.new.above m
            ≡ (has self.old.base self.old.above m || (has_number set.now m && (m == n)))) }
        ensures count { IfOk result
            (λ k. k ≡ cond (has_number set.now n && not (has self.old.base self.old.above n)) 1 0) }
        ensures one { IfOk result (λ k. k ≤ 1) }
        ensures number { OnOk result (has_number set.now n ≡ true → n ≤ last_number) }
    {
        if !set.contains(n) {
            return Ok(0);
        }
        self.mark(n, n + 1)
    }

    // Marks the numbers of a set, and counts those that were not marked. Where it fails, some may be marked.
    fn mark_set(&mut self, set: &SnSet) -> Result<u64, NoMemory>
        ensures marks { OnOk result ((n : ℕ)
            → has self.new.base self.new.above n ≡ (has self.old.base self.old.above n || has_number set.now n)) }
        ensures count { IfOk result
            (λ k. k ≡ count_between
            (λ m. has_number set.now m
            && not (has self.old.base self.old.above m)) set.now.base (set.now.base + set_width)) }
        ensures small { IfOk result (λ k. k ≤ set_width) }
        ensures numbers { OnOk result (OnlyNumbers (has_number set.now)) }
    {
        let base = set.base();
        let mut count = 0;
        for i in 0..256u64 {
            count += self.mark_one(set, base + i)?;
        }
        Ok(count)
    }

    // Marks the numbers that a GAP covers, and counts those that were not marked. It marks them on a copy, so that none
    // is marked where it fails.
    pub(crate) fn mark_gap(&mut self, gap: &GapMsg) -> Result<u64, NoMemory>
        ensures marks { OnOk result ((n : ℕ)
            → has self.new.base self.new.above n ≡ (has self.old.base self.old.above n || covers gap.now n)) }
        ensures count { IfOk result (λ k. k ≡ gap_count (has self.old.base self.old.above) gap.now) }
        ensures numbers { OnOk result (OnlyNumbers (covers gap.now)) }
        ensures err_base { OnErr result (self.new.base ≡ self.old.base) }
        ensures err_above { OnErr result (self.new.above.entries ≡ self.old.above.entries) }
    {
        let mut next = self.try_clone()?;
        let before = next.mark(gap.start, gap.set.base())?;
        let within = next.mark_set(&gap.set)?;
        *self = next;
        Ok(before + within)
    }
}
