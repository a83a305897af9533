//! The tables of a plan, filled once, so that each question is answered by one look.
ghost use Rattle.std.specs.Prelude.{◌≡◌, ◌+◌, ◌*◌, ◌<◌, ◌==◌, ◌&&◌, All, length, IfOk};
ghost use Rattle.std.specs.List.{list_any};
ghost use Rattle.dds_base.specs.Grid.{most_keys};
ghost use Rattle.dds_lists.specs.Views.{rule_view};
ghost use Rattle.dds_lists.specs.WellFormed.{IsWellFormed};
ghost use Rattle.dds_match.specs.Marks.{AddsMarks};
ghost use Rattle.dds_match.specs.Matching.{why_not};
ghost use Rattle.dds_match.specs.Network.{is_named, is_written, reach};
ghost use Rattle.dds_match.specs.Plan.{frees, hears, is_free, matched, network_of};
ghost use Rattle.dds_match.specs.Tables.{ShowsPlan, ShowsHearing, ShowsReasons};

use crate::caps::capped_of;
use crate::key_table::KeyTable;
use crate::matching::{WhyNot, why_not_by_lists};
use crate::neighbours::Neighbours;
use crate::writes::{PacedWrite, writes_at_each};
use dds_base::grid::ENDPOINTS;
use dds_base::{KeyNo, NoMemory, Portion, ReaderNo, RuleNo, WriterNo};
use dds_lists::{Deployment, Rule};
use std::alloc::Global;

/// The answers of matching.
#[derive(Drop)]
pub(crate) struct Tables {
    /// Why a writer and a reader do not match, in rows of 256 readers.
    pub(crate) reasons: Vec<Option<WhyNot>>,
    /// The keys of each reader's filter.
    pub(crate) hearing: KeyTable,
    /// The keys that some rule writes at a writer matched with the reader, and that the reader hears.
    pub(crate) reached: KeyTable,
    /// The keys that some rule writes at the writer.
    pub(crate) written: KeyTable,
    /// The keys that some free rule names at the writer.
    pub(crate) free: KeyTable,
    /// Which endpoints match each endpoint, and which are each participant's.
    pub(crate) neighbours: Neighbours,
    /// For each writer what rules write there, in their order.
    pub(crate) writes: Vec<Vec<PacedWrite>>,
    /// At most how many samples of each key are in flight to each reader, by caps: in rows of 64 keys.
    pub(crate) capped: Vec<Option<u64>>,
}

/// The reasons of all pairs.
fn reasons_of(alloc: Global, lists: &Deployment) -> Result<Vec<Option<WhyNot>>, NoMemory>
    ensures { IfOk result (λ reasons. ShowsReasons lists.now reasons.items) }
{
    let places = lists.writers() * ENDPOINTS;
    let mut reasons = Vec::with_capacity(alloc, places)?;
    for place in 0..places {
        reasons.push(reason_of(lists, place / ENDPOINTS, place % ENDPOINTS))?;
    }
    Ok(reasons)
}

/// The reason of a pair, `None` where there is no such pair.
fn reason_of(lists: &Deployment, w: usize, r: usize) -> Option<WhyNot>
    ensures { result ≡ why_not lists.now w r }
{
    if w < lists.writers() && r < lists.readers() {
        why_not_by_lists(lists, WriterNo::new(w), ReaderNo::new(r))
    } else {
        None
    }
}

/// Whether a pair matches, by the reasons.
pub(crate) fn is_matched(
    reasons: &[Option<WhyNot>],
    lists: &Deployment,
    w: WriterNo,
    r: ReaderNo,
) -> bool
    requires reasons { ShowsReasons lists.now reasons.now }
    ensures { result ≡ matched lists.now w r }
{
    w.number() < lists.writers()
        && r.number() < lists.readers()
        && reasons[w.number() * ENDPOINTS + r.number()].is_none()
}

/// Marks the keys of a filter at a reader.
fn mark_filter(hearing: &mut KeyTable, r: ReaderNo, filter: &[KeyNo])
    requires reader { r * most_keys < length hearing.old }
    requires keys { All (λ k. k < most_keys) filter.now }
    ensures { AddsMarks hearing.old hearing.new (λ i k. (r == i) && list_any (λ y. y == k) filter.now) }
{
    for key in filter {
        hearing.mark(r.number(), key.number());
    }
}

/// Marks the keys of all filters.
fn mark_filters(hearing: &mut KeyTable, lists: &Deployment)
    requires { length hearing.old ≡ length lists.now.readers.entries * most_keys }
    ensures { AddsMarks hearing.old hearing.new (hears lists.now) }
{
    for r in 0..lists.readers() {
        mark_filter(
            hearing,
            ReaderNo::new(r),
            &lists.reader(ReaderNo::new(r)).filter,
        );
    }
}

/// Marks what a rule writes.
fn mark_writes(written: &mut KeyTable, writes: &[Portion<WriterNo>])
    requires { All (λ e. (e.endpoint * most_keys < length written.old) × (e.key < most_keys)) writes.now }
    ensures { AddsMarks written.old written.new (is_named writes.now) }
{
    for portion in writes {
        written.mark(portion.endpoint.number(), portion.key.number());
    }
}

/// Marks what all rules write.
fn mark_written(written: &mut KeyTable, lists: &Deployment)
    requires well_formed { IsWellFormed lists.now }
    requires size { length written.old ≡ length lists.now.writers.entries * most_keys }
    ensures { AddsMarks written.old written.new (is_written (network_of lists.now)) }
{
    for u in 0..lists.rules() {
        mark_writes(written, &lists.rule(RuleNo::new(u)).writes);
    }
}

/// Marks what a rule frees: what it writes, where it is free.
fn mark_freed(free: &mut KeyTable, rule: &Rule)
    requires { All (λ e. (e.endpoint * most_keys < length free.old) × (e.key < most_keys)) rule.now.writes.items }
    ensures { AddsMarks free.old free.new (frees (rule_view rule.now)) }
{
    if rule.free {
        mark_writes(free, &rule.writes);
    }
}

/// Marks what all free rules name.
fn mark_free(free: &mut KeyTable, lists: &Deployment)
    requires well_formed { IsWellFormed lists.now }
    requires size { length free.old ≡ length lists.now.writers.entries * most_keys }
    ensures { AddsMarks free.old free.new (is_free lists.now) }
{
    for u in 0..lists.rules() {
        mark_freed(free, lists.rule(RuleNo::new(u)));
    }
}

/// Whether a key of a writer reaches a reader, which hears the key and matches the writer.
fn comes_to(
    lists: &Deployment,
    reasons: &[Option<WhyNot>],
    hearing: &KeyTable,
    w: WriterNo,
    key: KeyNo,
    r: ReaderNo,
) -> bool
    requires reasons { ShowsReasons lists.now reasons.now }
    requires hearing { ShowsHearing lists.now hearing.now }
    ensures { result ≡ (hears lists.now r key && matched lists.now w r) }
{
    hearing.has(r.number(), key.number()) && is_matched(reasons, lists, w, r)
}

/// Marks a key of a writer at each reader that it reaches.
fn mark_readers(
    reached: &mut KeyTable,
    lists: &Deployment,
    reasons: &[Option<WhyNot>],
    hearing: &KeyTable,
    w: WriterNo,
    key: KeyNo,
)
    requires size { length reached.old ≡ length lists.now.readers.entries * most_keys }
    requires key { key < most_keys }
    requires reasons { ShowsReasons lists.now reasons.now }
    requires hearing { ShowsHearing lists.now hearing.now }
    ensures { AddsMarks reached.old reached.new (λ r k. hears lists.now r k && ((key == k) && matched lists.now w r)) }
{
    for r in 0..lists.readers() {
        if comes_to(lists, reasons, hearing, w, key, ReaderNo::new(r)) {
            reached.mark(r, key.number());
        }
    }
}

/// Marks what comes of a rule's writes.
fn mark_coming(
    reached: &mut KeyTable,
    lists: &Deployment,
    reasons: &[Option<WhyNot>],
    hearing: &KeyTable,
    writes: &[Portion<WriterNo>],
)
    requires size { length reached.old ≡ length lists.now.readers.entries * most_keys }
    requires keys { All (λ e. e.key < most_keys) writes.now }
    requires reasons { ShowsReasons lists.now reasons.now }
    requires hearing { ShowsHearing lists.now hearing.now }
    ensures { AddsMarks reached.old reached.new
        (λ r k. hears lists.now r k && list_any (λ e. (e.key == k) && matched lists.now e.endpoint r) writes.now) }
{
    for portion in writes {
        mark_readers(
            reached,
            lists,
            reasons,
            hearing,
            portion.endpoint,
            portion.key,
        );
    }
}

/// Marks what comes of all rules.
fn mark_reached(
    reached: &mut KeyTable,
    lists: &Deployment,
    reasons: &[Option<WhyNot>],
    hearing: &KeyTable,
)
    requires well_formed { IsWellFormed lists.now }
    requires size { length reached.old ≡ length lists.now.readers.entries * most_keys }
    requires reasons { ShowsReasons lists.now reasons.now }
    requires hearing { ShowsHearing lists.now hearing.now }
    ensures { AddsMarks reached.old reached.new (reach (network_of lists.now)) }
{
    for u in 0..lists.rules() {
        mark_coming(
            reached,
            lists,
            reasons,
            hearing,
            &lists.rule(RuleNo::new(u)).writes,
        );
    }
}

impl Tables {
    /// The tables of a deployment.
    pub(crate) fn of(alloc: Global, lists: &Deployment) -> Result<Tables, NoMemory>
        ensures { IfOk result (ShowsPlan lists.now) }
    {
        let reasons = reasons_of(alloc, lists)?;
        let mut hearing = KeyTable::new(alloc, lists.readers())?;
        let mut reached = KeyTable::new(alloc, lists.readers())?;
        let mut written = KeyTable::new(alloc, lists.writers())?;
        let mut free = KeyTable::new(alloc, lists.writers())?;
        mark_filters(&mut hearing, lists);
        mark_reached(&mut reached, lists, &reasons, &hearing);
        mark_written(&mut written, lists);
        mark_free(&mut free, lists);
        let neighbours = Neighbours::of(alloc, lists, &reasons)?;
        let writes = writes_at_each(alloc, lists)?;
        let capped = capped_of(alloc, lists, &reasons, &hearing, &writes, &neighbours)?;
        Ok(Tables {
            reasons,
            hearing,
            reached,
            written,
            free,
            neighbours,
            writes,
            capped,
        })
    }
}
