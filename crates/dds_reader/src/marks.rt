//! Which numbers of each writer are marked.

ghost use Rattle.std.specs.Prelude.{◌≡◌, ℕ, ◌+◌, ◌<◌, ◌≤◌, ◌==◌, true, false, not, IfOk, OnOk, OnErr, IsTrue};
ghost use Rattle.std.proofs.Common.{◌⊎◌};
ghost use Rattle.std.specs.List.{list_any};
ghost use Rattle.dds_base.specs.Counts.{count_between};
ghost use Rattle.dds_base.specs.Messages.{covers};
ghost use Rattle.dds_base.specs.Sets.{last_number, set_of, set_width};
ghost use Rattle.dds_qos.specs.Admission.{admission, is_rejected, stored_after, keys_after};
ghost use Rattle.dds_qos.specs.Reading.{base_of, gap_count};
ghost use Rattle.dds_qos.specs.Samples.{IsFresh};
ghost use Rattle.dds_cache.specs.Released.{is_listed};
ghost use Rattle.dds_reader.specs.Marks.{in_marks, has_marks, is_wanted, AddsMarks};
ghost use Rattle.dds_reader.specs.Ranges.{is_between, IsLeastUnmarked, OnlyNumbers};

use crate::ranges::Ranges;
use dds_base::{GapMsg, NoMemory, Sample, SnSet, WriterNo};
use dds_cache::Cache;
use dds_qos::Admit;
use std::alloc::Global;
use std::collections::BTreeMap;
use std::marker::Model;

// The marked numbers of each writer, by its number.
#[derive(Drop)]
pub(crate) struct Marks {
    of: BTreeMap<usize, Ranges>,
}

impl Model for Marks {
    ghost use Rattle.std.specs.Prelude.{List};
    ghost use Rattle.std.specs.Ordering.{nat_cmp};
    ghost use Rattle.std.specs.BTreeMap.{IsOrdered};
    ghost use Rattle.dds_reader.specs.Marks.{Marked, listed};

    ghost Value = { List Marked };

    ghost view = { λ a. listed a.of };

    ghost invariant = { λ a. IsOrdered nat_cmp a.of };
}

impl Marks {
    // No number of these writers is marked.
    pub(crate) fn new(alloc: Global, writers: &[WriterNo]) -> Result<Marks, NoMemory>
        ensures unmarked { IfOk result (λ m. (w n : ℕ) → in_marks m w n ≡ false) }
        ensures writers { IfOk result (λ m. (w : ℕ) → has_marks w m ≡ list_any (λ v. v == w) writers.now) }
    {
        let mut of = BTreeMap::new(alloc);
        for writer in writers {
            of.insert(writer.number(), Ranges::new(alloc))?;
        }
        Ok(Marks { of })
    }

    // Whether a number is marked.
    pub(crate) fn is_marked(&self, writer: WriterNo, n: u64) -> bool
        ensures { result ≡ in_marks self.now writer n }
    {
        match self.of.get(&writer.number()) {
            Some(ranges) => ranges.is_marked(n),
            None => false,
        }
    }

    // The least number that is not marked, 1 for a writer that has no marks.
    pub(crate) fn base(&self, writer: WriterNo) -> u64
        requires { (n : ℕ) → in_marks self.now writer n ≡ true → n ≤ last_number }
        ensures least { IsLeastUnmarked (in_marks self.now writer) result }
        ensures base { result ≡ base_of (in_marks self.now writer) }
        ensures high { result ≤ last_number + 1 }
    {
        match self.of.get(&writer.number()) {
            Some(ranges) => ranges.base(),
            None => 1,
        }
    }

    // Marks the numbers from one to another less one, and counts those that were not marked. It needs no memory where
    // the first is not above the base or joins a range.
    pub(crate) fn mark(&mut self, writer: WriterNo, from: u64, until: u64) -> Result<u64, NoMemory>
        requires listed { IsTrue (has_marks writer self.old) }
        requires low { 1 ≤ from }
        ensures marks { OnOk result (AddsMarks (in_marks self.old) (in_marks self.new) writer (is_between from until)) }
        ensures count { IfOk result (λ k. k ≡ count_between (λ n. not (in_marks self.old writer n)) from until) }
        ensures writers { (v : ℕ) → has_marks v self.new ≡ has_marks v self.old }
        ensures err { OnErr result (self.new ≡ self.old) }
    {
        match self.of.get_mut(&writer.number()) {
            Some(ranges) => ranges.mark(from, until),
            None => unreachable!(),
        }
    }

    // Marks the numbers that a GAP covers, and counts those that were not marked.
    pub(crate) fn mark_gap(&mut self, gap: &GapMsg) -> Result<u64, NoMemory>
        requires { IsTrue (has_marks gap.now.writer self.old) }
        ensures marks { OnOk result
            (AddsMarks (in_marks self.old) (in_marks self.new) gap.now.writer (covers gap.now)) }
        ensures count { IfOk result (λ gone. gone ≡ gap_count (in_marks self.old gap.now.writer) gap.now) }
        ensures numbers { OnOk result (OnlyNumbers (covers gap.now)) }
        ensures writers { (v : ℕ) → has_marks v self.new ≡ has_marks v self.old }
        ensures err { OnErr result (self.new ≡ self.old) }
    {
        match self.of.get_mut(&gap.writer.number()) {
            Some(ranges) => ranges.mark_gap(gap),
            None => unreachable!(),
        }
    }

    // Admits a sample that is not over a limit and whose number is not marked, and marks the numbers from one up to its
    // own: from the first of all, or its own alone.
    pub(crate) fn store(
        &mut self,
        from: u64,
        sample: &Sample,
        cache: &mut Cache,
    ) -> Result<Admit, NoMemory>
        requires known { IsTrue (has_marks sample.now.writer self.old) }
        requires listed { IsTrue (is_listed sample.now.writer cache.old.writers) }
        requires fresh { IsFresh cache.old.stored sample.now }
        requires accepted { is_rejected (admission cache.old.limits cache.old.stored cache.old.keys sample.now)
            ≡ false }
        requires unmarked { in_marks self.old sample.now.writer sample.now.sn ≡ false }
        requires first { (from ≡ 1) ⊎ (from ≡ sample.now.sn) }
        requires low { 1 ≤ sample.now.sn }
        requires high { sample.now.sn ≤ last_number }
        ensures answer { IfOk result (λ a. a ≡ admission cache.old.limits cache.old.stored cache.old.keys sample.now) }
        ensures marks { OnOk result
            (AddsMarks (in_marks self.old) (in_marks self.new) sample.now.writer
            (is_between from (sample.now.sn + 1))) }
        ensures cache { IfOk result (λ a. cache.new ≡ record cache.old {
          stored = stored_after a cache.old.stored sample.now;
          keys = keys_after a cache.old.keys sample.now;
        }) }
        ensures writers { (v : ℕ) → has_marks v self.new ≡ has_marks v self.old }
        ensures err { OnErr result (self.new ≡ self.old) }
        ensures err_cache { OnErr result (cache.new ≡ cache.old) }
    {
        match self.of.get_mut(&sample.writer.number()) {
            Some(ranges) => ranges.store(from, sample, cache),
            None => unreachable!(),
        }
    }
}

fn wants(marks: &Marks, writer: WriterNo, n: u64, heard: u64) -> bool
    ensures { result ≡ is_wanted (in_marks marks.now writer) heard n }
{
    n <= heard && !marks.is_marked(writer, n)
}

// How many of the 256 numbers from the base on are heard of.
fn heard_of(base: u64, heard: u64) -> usize
    ensures few { result ≤ set_width }
    ensures rest { (k : ℕ) → result ≤ k → k < set_width → heard < base + k }
{
    if heard < base {
        return 0;
    }
    (heard - base).min(255) as usize + 1
}

// The numbers to ask for: of the 256 from the base on those that are heard of and not marked.
pub(crate) fn missing(marks: &Marks, writer: WriterNo, base: u64, heard: u64) -> SnSet
    requires low { 1 ≤ base }
    requires high { base ≤ last_number + 1 }
    requires heard { heard ≤ last_number }
    ensures { result ≡ set_of base (is_wanted (in_marks marks.now writer) heard) }
{
    let mut set = SnSet::empty(base);
    for i in 0..heard_of(base, heard) {
        let n = base + i as u64;
        if wants(marks, writer, n, heard) {
            set.insert(n);
        }
    }
    set
}
