//! The marks of a plain reader and its cache, which belong together: each writer's samples are released up to its base
//! less one.

ghost use Rattle.std.specs.Prelude.{◌≡◌, ◌+◌, ◌-◌, ◌<◌, ◌≤◌, ◌==◌, ◌&&◌, [], ◌∷◌, ◌++◌, cond, not, true, false, IfOk};
ghost use Rattle.std.specs.Prelude.{OnOk, OnErr, IsTrue, MatchOption, vec_len, vec_capacity};
ghost use Rattle.std.specs.FinSet as set;
ghost use Rattle.dds_base.specs.Counts.{count_between};
ghost use Rattle.dds_base.specs.Messages.{covers};
ghost use Rattle.dds_base.specs.Sets.{has, last_number};
ghost use Rattle.dds_qos.specs.Admission.{admission, is_rejected};
ghost use Rattle.dds_qos.specs.Reading.{base_of, below_first, gap_count, heartbeat_count, missing_of};
ghost use Rattle.dds_qos.specs.Taking.{IsLeastOfWriter};
ghost use Rattle.dds_cache.specs.Released.{is_listed, opened};
ghost use Rattle.dds_reader.specs.Marks.{in_marks, AddsMarks};
ghost use Rattle.dds_reader.specs.Ranges.{is_between};
ghost use Rattle.dds_reader.specs.Held.{IsTied, SameCache, CacheAfter, CacheTaken};
ghost use Rattle.dds_reader.specs.Reader.{available_in};

use crate::cache::PlainCache;
use crate::marks::{Range, base_in, count_unmarked, is_in, missing};
use dds_base::{GapMsg, KeyNo, NoMemory, Sample, SnSet, WriterNo};
use dds_qos::{Admit, ReaderLimits};
use std::alloc::Global;

// The marks, and the cache, whose released numbers are those below the bases.
#[derive(Drop)]
pub(crate) struct Held {
    pub(crate) marks: Vec<Range>,
    pub(crate) cache: PlainCache,
    ghost tied: { IsTied (in_marks marks.items) cache },
}

impl Held {
    // No number is marked, and no sample stored.
    pub(crate) fn new(
        alloc: Global,
        limits: ReaderLimits,
        writers: &[WriterNo],
    ) -> Result<Held, NoMemory>
        ensures marks { IfOk result (λ h. h.marks.items ≡ []) }
        ensures cache { IfOk result (λ h. h.cache ≡ record {
          limits = limits;
          stored = [];
          keys = set.empty;
          writers = opened writers.now;
        }) }
    {
        let cache = PlainCache::new(alloc, limits, writers)?;
        Ok(Held {
            marks: Vec::new(alloc),
            cache,
        })
    }

    pub(crate) fn is_marked(&self, writer: WriterNo, n: u64) -> bool
        ensures { result ≡ in_marks self.now.marks.items writer n }
    {
        is_in(&self.marks, writer, n)
    }

    pub(crate) fn base(&self, writer: WriterNo) -> u64
        ensures value { result ≡ base_of (in_marks self.now.marks.items writer) }
        ensures low { 1 ≤ result }
        ensures high { result ≤ last_number + 1 }
    {
        base_in(&self.marks, writer)
    }

    // What an ACKNACK to a writer says.
    pub(crate) fn missing(&self, writer: WriterNo, heard: u64) -> SnSet
        requires { heard ≤ last_number }
        ensures { result ≡ missing_of (in_marks self.now.marks.items writer) heard }
    {
        let base = base_in(&self.marks, writer);
        missing(&self.marks, writer, base, heard)
    }

    // Admits a sample, and where it is stored marks the numbers from one on up to its own. A sample over a limit needs
    // no memory and changes nothing.
    pub(crate) fn store(&mut self, sample: &Sample, from: u64) -> Result<Admit, NoMemory>
        requires listed { IsTrue (is_listed sample.now.writer self.old.cache.writers) }
        requires unmarked { in_marks self.old.marks.items sample.now.writer sample.now.sn ≡ false }
        requires low { 1 ≤ from }
        requires order { from ≤ sample.now.sn }
        requires high { sample.now.sn ≤ last_number }
        ensures answer { IfOk result
            (λ a. a ≡ admission self.old.cache.limits self.old.cache.stored self.old.cache.keys sample.now) }
        ensures marks { IfOk result
            (λ a. AddsMarks (in_marks self.old.marks.items) (in_marks self.new.marks.items) sample.now.writer
            (λ n. not (is_rejected a) && is_between from (sample.now.sn + 1) n)) }
        ensures cache { IfOk result (λ a. CacheAfter a sample.now self.old.cache self.new.cache) }
        ensures rejected_marks { IfOk result (λ a. is_rejected a ≡ true → self.new.marks.items ≡ self.old.marks.items) }
        ensures rejected_cache { IfOk result (λ a. is_rejected a ≡ true → self.new.cache ≡ self.old.cache) }
        ensures err_marks { OnErr result (self.new.marks.items ≡ self.old.marks.items) }
        ensures err_cache { OnErr result (self.new.cache ≡ self.old.cache) }
    {
        let writer = sample.writer;
        let until = sample.sn + 1;
        let answer = self.cache.admission(sample);
        if answer.is_rejected() {
            return Ok(answer);
        }
        self.marks.reserve(1)?;
        let answer = self.cache.admit(*sample)?;
        self.marks.push_reserved(Range::new(writer, from, until));
        let least = base_in(&self.marks, writer);
        self.cache.release(writer, least - 1);
        Ok(answer)
    }

    // What the cache gives.
    pub(crate) fn take(&mut self, key: KeyNo) -> Option<Sample>
        ensures answer { MatchOption result (available_in (in_marks self.old.marks.items) self.old.cache.stored key
            ≡ []) (λ x. IsLeastOfWriter x (available_in (in_marks self.old.marks.items) self.old.cache.stored key)) }
        ensures marks { self.new.marks.items ≡ self.old.marks.items }
        ensures cache { MatchOption result (self.new.cache ≡ self.old.cache)
            (λ x. CacheTaken x self.old.cache self.new.cache) }
    {
        self.cache.take(key)
    }

    // Marks the numbers from one to another, which is irrelevant.
    pub(crate) fn mark_upto(&mut self, writer: WriterNo, from: u64, n: u64) -> Result<(), NoMemory>
        requires listed { IsTrue (is_listed writer self.old.cache.writers) }
        requires low { 1 ≤ from }
        requires order { from ≤ n }
        requires high { n ≤ last_number }
        ensures marks { OnOk result
            (AddsMarks (in_marks self.old.marks.items) (in_marks self.new.marks.items) writer
            (is_between from (n + 1))) }
        ensures cache { SameCache self.old.cache self.new.cache }
        ensures err_marks { OnErr result (self.new.marks.items ≡ self.old.marks.items) }
        ensures err_cache { OnErr result (self.new.cache ≡ self.old.cache) }
    {
        self.marks.reserve(1)?;
        self.mark(writer, from, n + 1);
        Ok(())
    }

    // Marks the numbers below a HEARTBEAT's first, and counts those that were not marked. Where there is none, it needs
    // no memory.
    pub(crate) fn mark_below(&mut self, writer: WriterNo, first: u64) -> Result<u64, NoMemory>
        requires listed { IsTrue (is_listed writer self.old.cache.writers) }
        requires low { 1 ≤ first }
        requires high { first ≤ last_number + 1 }
        ensures count { IfOk result (λ lost. lost ≡ heartbeat_count (in_marks self.old.marks.items writer) first) }
        ensures marks { OnOk result
            (AddsMarks (in_marks self.old.marks.items) (in_marks self.new.marks.items) writer (below_first first)) }
        ensures cache { SameCache self.old.cache self.new.cache }
        ensures err_marks { OnErr result (self.new.marks.items ≡ self.old.marks.items) }
        ensures err_cache { OnErr result (self.new.cache ≡ self.old.cache) }
    {
        let lost = count_unmarked(&self.marks, writer, 1, first);
        if lost == 0 {
            return Ok(0);
        }
        self.marks.reserve(1)?;
        self.mark(writer, 1, first);
        Ok(lost)
    }

    // Marks the numbers that a GAP covers, and counts those that were not marked.
    pub(crate) fn mark_gap(&mut self, gap: &GapMsg) -> Result<u64, NoMemory>
        requires { IsTrue (is_listed gap.now.writer self.old.cache.writers) }
        ensures count { IfOk result (λ gone. gone ≡ gap_count (in_marks self.old.marks.items gap.now.writer) gap.now) }
        ensures marks { OnOk result
            (AddsMarks (in_marks self.old.marks.items) (in_marks self.new.marks.items) gap.now.writer
            (covers gap.now)) }
        ensures cache { SameCache self.old.cache self.new.cache }
        ensures err_marks { OnErr result (self.new.marks.items ≡ self.old.marks.items) }
        ensures err_cache { OnErr result (self.new.cache ≡ self.old.cache) }
    {
        let writer = gap.writer;
        self.marks.reserve(257)?;
        let before = self.mark_range(writer, gap.start, gap.set.base());
        let within = self.mark_set(writer, &gap.set);
        Ok(before + within)
    }

    // Marks the numbers from `from` to `until` less one, and counts those that were not marked. Where there is none,
    // nothing is added.
    fn mark_range(&mut self, writer: WriterNo, from: u64, until: u64) -> u64
        requires room { vec_len self.old.marks < vec_capacity self.old.marks }
        requires listed { IsTrue (is_listed writer self.old.cache.writers) }
        requires low { 1 ≤ from }
        requires order { from ≤ until }
        requires high { until ≤ last_number + 1 }
        ensures count { result ≡ count_between (λ n. not (in_marks self.old.marks.items writer n)) from until }
        ensures small { result ≤ until - from }
        ensures marks { AddsMarks (in_marks self.old.marks.items) (in_marks self.new.marks.items) writer
            (is_between from until) }
        ensures len { vec_len self.new.marks ≤ vec_len self.old.marks + 1 }
        ensures capacity { vec_capacity self.new.marks ≡ vec_capacity self.old.marks }
        ensures cache { SameCache self.old.cache self.new.cache }
    {
        let fresh = count_unmarked(&self.marks, writer, from, until);
        if fresh == 0 {
            return 0;
        }
        self.mark(writer, from, until);
        fresh
    }

    // Marks the numbers from one to another less one, and releases what is below the new base.
    fn mark(&mut self, writer: WriterNo, from: u64, until: u64)
        requires room { vec_len self.old.marks < vec_capacity self.old.marks }
        requires listed { IsTrue (is_listed writer self.old.cache.writers) }
        requires low { 1 ≤ from }
        requires high { until ≤ last_number + 1 }
        ensures marks { self.new.marks.items ≡ self.old.marks.items ++ (record {
          writer = writer;
          from = from;
          until = until;
        }) ∷ [] }
        ensures capacity { vec_capacity self.new.marks ≡ vec_capacity self.old.marks }
        ensures cache { SameCache self.old.cache self.new.cache }
    {
        self.marks.push_reserved(Range::new(writer, from, until));
        let base = base_in(&self.marks, writer);
        self.cache.release(writer, base - 1);
    }

    // Marks one number where the set has it, and counts it where it was not marked. What is marked already is not added
    // again.
    fn mark_one(&mut self, writer: WriterNo, set: &SnSet, n: u64) -> u64
        requires room { vec_len self.old.marks < vec_capacity self.old.marks }
        requires listed { IsTrue (is_listed writer self.old.cache.writers) }
        requires low { 1 ≤ n }
        ensures marks { AddsMarks (in_marks self.old.marks.items) (in_marks self.new.marks.items) writer
            (λ m. has set.now m && (m == n)) }
        ensures len { vec_len self.new.marks ≤ vec_len self.old.marks + 1 }
        ensures capacity { vec_capacity self.new.marks ≡ vec_capacity self.old.marks }
        ensures cache { SameCache self.old.cache self.new.cache }
        ensures one { result ≤ 1 }
        ensures count { result ≡ cond (has set.now n && not (in_marks self.old.marks.items writer n)) 1 0 }
    {
        if !set.contains(n) {
            return 0;
        }
        if is_in(&self.marks, writer, n) {
            return 0;
        }
        self.mark(writer, n, n + 1);
        1
    }

    // Marks the numbers of a set, and counts those that were not marked.
    fn mark_set(&mut self, writer: WriterNo, set: &SnSet) -> u64
        requires room { vec_len self.old.marks + 256 ≤ vec_capacity self.old.marks }
        requires listed { IsTrue (is_listed writer self.old.cache.writers) }
        ensures marks { AddsMarks (in_marks self.old.marks.items) (in_marks self.new.marks.items) writer (has set.now) }
        ensures cache { SameCache self.old.cache self.new.cache }
        ensures count { result
            ≡ count_between (λ m. has set.now m
            && not (in_marks self.old.marks.items writer m)) set.now.base (set.now.base + 256) }
        ensures small { result ≤ 256 }
    {
        let base = set.base();
        let mut count = 0;
        for i in 0..256u64 {
            count += self.mark_one(writer, set, base + i);
        }
        count
    }
}
