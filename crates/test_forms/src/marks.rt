//! Which numbers of each writer of a plain reader are marked: a list of ranges, which may overlap and stand in any
//! order.

ghost use Rattle.std.specs.Prelude.{◌≡◌, ℕ, ◌+◌, ◌-◌, ◌<◌, ◌≤◌, true, false, not, MatchOption};
ghost use Rattle.dds_base.specs.Counts.{count_between};
ghost use Rattle.dds_base.specs.Sets.{last_number, set_of};
ghost use Rattle.dds_qos.specs.Reading.{base_of};
ghost use Rattle.dds_reader.specs.Marks.{in_marks, in_range, is_wanted};
ghost use Rattle.dds_reader.specs.Ranges.{IsLeastUnmarked};

use dds_base::{SnSet, WriterNo};
use std::marker::Model;

// Numbers of a writer that are marked: those from `from` to `until` less one.
#[derive(Drop)]
pub(crate) struct Range {
    writer: WriterNo,
    // the first of them, 1 to 2^63
    from: u64,
    // the number after the last of them, at most 2^63
    until: u64,
}

impl Model for Range {
    ghost use Rattle.dds_reader.specs.Marks.{Marked};

    ghost Value = { Marked };

    ghost view = { λ a. record { writer = a.writer; from = a.from; until = a.until } };
}

impl Range {
    pub(crate) fn new(writer: WriterNo, from: u64, until: u64) -> Range
        ensures { result ≡ record {
          writer = writer;
          from = from;
          until = until;
        } }
    {
        Range {
            writer,
            from,
            until,
        }
    }

    // Whether it has the writer's number.
    fn has(&self, writer: WriterNo, n: u64) -> bool
        ensures { result ≡ in_range writer n self.now }
    {
        self.writer == writer && (self.from <= n && n < self.until)
    }

    // The number after its last.
    fn until(&self) -> u64
        ensures { result ≡ self.now.until }
    {
        self.until
    }

    // Its first number, where it is of the writer, and the number is between two others.
    fn start_between(&self, writer: WriterNo, low: u64, high: u64) -> Option<u64>
        ensures { MatchOption result ((self.now.writer ≡ writer) → (low < self.now.from) → (self.now.from < high) → ⊥)
            (λ s. (s ≡ self.now.from) × (low < s) × (s < high)) }
    {
        if self.writer == writer && low < self.from && self.from < high {
            Some(self.from)
        } else {
            None
        }
    }
}

// Whether a number is marked.
pub(crate) fn is_in(marks: &[Range], writer: WriterNo, n: u64) -> bool
    ensures { result ≡ in_marks marks.now writer n }
{
    marks.iter().any(|m| m.has(writer, n))
}

// The end of a range that has the number.
fn end_of(marks: &[Range], writer: WriterNo, n: u64) -> Option<u64>
    ensures { MatchOption result (in_marks marks.now writer n ≡ false)
        (λ e. (n < e) × ((k : ℕ) → n ≤ k → k < e → in_marks marks.now writer k ≡ true)) }
{
    for m in marks {
        if m.has(writer, n) {
            return Some(m.until());
        }
    }
    None
}

// From a number that is not marked to the next one that is, or to the limit.
fn next_marked(marks: &[Range], writer: WriterNo, n: u64, limit: u64) -> u64
    requires free { in_marks marks.now writer n ≡ false }
    requires below { n < limit }
    ensures further { n < result }
    ensures within { result ≤ limit }
    ensures free { (k : ℕ) → n ≤ k → k < result → in_marks marks.now writer k ≡ false }
{
    let mut next = limit;
    for m in marks {
        if let Some(start) = m.start_between(writer, n, next) {
            next = start;
        }
    }
    next
}

// How many of the numbers from `from` to `until` less one are not marked.
pub(crate) fn count_unmarked(marks: &[Range], writer: WriterNo, from: u64, until: u64) -> u64
    requires { from ≤ until }
    ensures exact { result ≡ count_between (λ n. not (in_marks marks.now writer n)) from until }
    ensures small { result ≤ until - from }
{
    let mut at = from;
    let mut count = 0;
    while at < until {
        match end_of(marks, writer, at) {
            Some(end) if end < until => at = end,
            Some(_) => at = until,
            None => {
                let next = next_marked(marks, writer, at, until);
                count += next - at;
                at = next;
            }
        }
    }
    count
}

// The least number that is not marked.
pub(crate) fn base_in(marks: &[Range], writer: WriterNo) -> u64
    requires { (n : ℕ) → in_marks marks.now writer n ≡ true → n ≤ last_number }
    ensures least { IsLeastUnmarked (in_marks marks.now writer) result }
    ensures base { result ≡ base_of (in_marks marks.now writer) }
    ensures high { result ≤ last_number + 1 }
{
    let mut at = 1;
    while let Some(end) = end_of(marks, writer, at) {
        at = end;
    }
    at
}

fn wants(marks: &[Range], writer: WriterNo, n: u64, heard: u64) -> bool
    ensures { result ≡ is_wanted (in_marks marks.now writer) heard n }
{
    n <= heard && !is_in(marks, writer, n)
}

// The numbers to ask for: of the 256 from the base on those that are heard of and not marked.
pub(crate) fn missing(marks: &[Range], writer: WriterNo, base: u64, heard: u64) -> SnSet
    requires low { 1 ≤ base }
    requires high { base ≤ last_number + 1 }
    requires heard { heard ≤ last_number }
    ensures { result ≡ set_of base (is_wanted (in_marks marks.now writer) heard) }
{
    let mut set = SnSet::empty(base);
    for i in 0..256 {
        let n = base + i;
        if wants(marks, writer, n, heard) {
            set.insert(n);
        }
    }
    set
}
