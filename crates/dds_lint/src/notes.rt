//! What a yes doesn't say: who may miss samples, what can grow, and what never happens.
ghost use Rattle.std.specs.Prelude.{◌≡◌, ◌++◌, ◌<◌, ◌==◌, ◌&&◌, false, length, nat_le, nat_lt, not, slice_index};
ghost use Rattle.std.specs.Prelude.{ℕ, IfOk, OnOk};
ghost use Rattle.std.specs.List.{list_any};
ghost use Rattle.dds_base.specs.Sums.{any_below};
ghost use Rattle.dds_match.specs.Network.{is_named, is_written};
ghost use Rattle.dds_match.specs.Plan.{network_of};
ghost use Rattle.dds_lists.specs.Lists.{writer_topic};
ghost use Rattle.dds_weights.specs.Views.{certificate_view};
ghost use Rattle.dds_check.specs.Limits.{all_bounded};
ghost use Rattle.dds_lint.specs.Delivery.{is_latched};
ghost use Rattle.dds_lint.specs.Every.{every_below, those_below, those_in};
ghost use Rattle.dds_lint.specs.Firings.{AreLimits, limits_of, most_firings, opens};
ghost use Rattle.dds_lint.specs.Notes.{absent_notes, all_notes, certificate_notes, finite, grows, held_up, idle_limit};
ghost use Rattle.dds_lint.specs.Notes.{has_end, has_rival, idle_reader, idle_writer, incompatible, is_key_written};
ghost use Rattle.dds_lint.specs.Notes.{is_lossy, is_rival, is_stuck};
ghost use Rattle.dds_lint.specs.Notes.{late_reader, lossy_take, needless_bound, needless_total, no_rules, no_start};
ghost use Rattle.dds_lint.specs.Notes.{no_strict_reader, noted, notes_of_pairs, pace_unused, pair_notes};
ghost use Rattle.dds_lint.specs.Notes.{reader_notes, share_take, stops};
ghost use Rattle.dds_lint.specs.Notes.{rule_notes, span_unused, span_unused_by, stalled, stuck_rule, unheard_writer};
ghost use Rattle.dds_lint.specs.Notes.{unused_row, unwritten_key, unwritten_keys, watcher, watcher_span, writer_notes};

use crate::delivery::{
    are_incompatible, is_held_up, is_latched, is_unheard, may_lose, misses_history, stalls,
};
use crate::every::{push_below, push_some};
use crate::firings::{MOST_FIRINGS, has_takes, limits_of, opens};
use crate::pacing::{is_pace_unused, is_span_of_watcher, is_span_unused};
use crate::renewal::is_finite;
use dds_base::limits::RULES;
use dds_base::{KeyNo, NoMemory, ReaderNo, RuleNo, TopicNo, WriterNo};
use dds_check::below::first_below;
use dds_check::limits::{all_bounded, is_over};
use dds_check::shown::{bound_at, total_at};
use dds_check::{Bounds, find_total, instance_limit, reached, written};
use dds_conditions::{readers_of, rules_of, writers_of};
use dds_match::Plan;
use dds_weights::{Bound, Certificate, Total};
use std::alloc::Global;

/// What a yes doesn't say of something.
#[derive(Clone, Copy, Debug, PartialEq, Eq)]
pub enum Note {
    /// The reader is a watcher, without a word of the deployment that it may lose samples.
    Watcher(ReaderNo),
    /// The reader is a watcher, and the deployment says that it may lose samples.
    MayLose(ReaderNo),
    /// The reader has no limit of samples, and no bound or total says how many it may have unread.
    Unlimited(ReaderNo),
    /// The reader keeps the last samples of a key alone, and fewer than its limit of an instance, which does nothing.
    IdleLimit(ReaderNo),
    /// No sample can come to the reader: no rule writes a key that it takes at a writer that matches it.
    IdleReader(ReaderNo),
    /// The reader may lose samples, and yet its writers repeat to it what it refuses when it's full.
    Stalls(ReaderNo),
    /// The deployment says how soon the reader takes each sample, but that bounds nothing that the rule writes, which
    /// has no pace.
    SpanUnused { reader: ReaderNo, rule: RuleNo },
    /// The deployment says how soon the reader takes each sample, but that's a watcher, of which nothing is bounded.
    WatcherSpan(ReaderNo),
    /// No rule writes the key at a writer of its topic.
    UnwrittenKey { topic: TopicNo, key: KeyNo },
    /// No rule writes at the writer.
    IdleWriter(WriterNo),
    /// Rules write at the writer, and no reader matches it.
    UnheardWriter(WriterNo),
    /// There is no rule, so that nothing is written.
    NoRules,
    /// No rule starts and none is free, so that nothing is ever written.
    NoStart,
    /// Every reader is a watcher, so that no sample of any is promised.
    NoStrictReader,
    /// The rule can never fire.
    StuckRule(RuleNo),
    /// The rule can fire so often at most, and competes with no other rule for what it takes.
    Stops { rule: RuleNo, firings: u16 },
    /// The rule takes nothing and isn't free, so that it lets nothing be written once its start is used up, and there's
    /// something of that which no other rule lets be written again.
    Finite(RuleNo),
    /// The rule takes at a watcher: if that misses a sample, the rule may wait for it for ever.
    LossyTake(RuleNo),
    /// The rule has a pace, but feeds no strict reader of which the deployment says how soon it takes each sample.
    PaceUnused(RuleNo),
    /// No bound and no total is shown by the row with this place in the certificate, from 0.
    UnusedRow(usize),
    /// No condition asks for the bound with this place, from 0: its reader is a watcher, or no sample of its key can
    /// come.
    NeedlessBound(usize),
    /// No condition asks for the total with this place, from 0: its reader is a watcher, or no sample can come.
    NeedlessTotal(usize),
    /// Nothing but their policies keeps the writer and the reader apart, and no connection names them.
    Incompatible { writer: WriterNo, reader: ReaderNo },
    /// The writer keeps all within a limit, and waits for the reader where that is slow.
    HeldUp { writer: WriterNo, reader: ReaderNo },
    /// The writer keeps what it wrote for readers to come, and its rules end; but the reader asks for nothing that was
    /// written before it came. Of a pair one of which may come at any time, which is refused, nothing is said.
    LateReader { reader: ReaderNo, writer: WriterNo },
}

/// The note where the test is true.
fn note_if(test: bool, note: Note) -> Option<Note>
    ensures { result ≡ noted test note }
{
    if test { Some(note) } else { None }
}

fn watcher(plan: &Plan, reader: ReaderNo) -> Option<Note>
    ensures { result ≡ watcher plan.now reader }
{
    let note = if may_lose(plan, reader) {
        Note::MayLose(reader)
    } else {
        Note::Watcher(reader)
    };
    note_if(plan.watcher(reader), note)
}

fn grows(plan: &Plan, certificate: &Certificate, reader: ReaderNo) -> Option<Note>
    requires { reader < (network_of plan.now).readers }
    ensures { result ≡ grows (network_of plan.now) (certificate_view certificate.now) reader }
{
    let limits = plan.reader_limits(reader);
    let is_unlimited = limits.max_samples.is_none() && instance_limit(&limits).is_none();
    let is_open = is_unlimited
        && find_total(&certificate.totals, reader).is_none()
        && !all_bounded(plan, &Bounds::new(&certificate.bounds), reader);
    note_if(is_open, Note::Unlimited(reader))
}

fn idle_limit(plan: &Plan, reader: ReaderNo) -> Option<Note>
    requires { reader < (network_of plan.now).readers }
    ensures { result ≡ idle_limit (network_of plan.now) reader }
{
    let limits = plan.reader_limits(reader);
    let is_idle = is_over(limits.max_samples_per_instance, limits.keep_last);
    note_if(is_idle, Note::IdleLimit(reader))
}

fn idle_reader(plan: &Plan, reader: ReaderNo) -> Option<Note>
    ensures { result ≡ idle_reader (network_of plan.now) reader }
{
    note_if(reached(plan, reader) == 0, Note::IdleReader(reader))
}

fn stalled(plan: &Plan, reader: ReaderNo) -> Option<Note>
    requires { reader < (network_of plan.now).readers }
    ensures { result ≡ stalled plan.now reader }
{
    note_if(stalls(plan, reader), Note::Stalls(reader))
}

fn span_unused_by(plan: &Plan, reader: ReaderNo, rule: RuleNo) -> Option<Note>
    requires { rule < (network_of plan.now).rules }
    ensures { result ≡ span_unused_by plan.now reader rule }
{
    note_if(
        is_span_unused(plan, reader, rule),
        Note::SpanUnused { reader, rule },
    )
}

fn span_unused(plan: &Plan, reader: ReaderNo) -> Option<Note>
    ensures { result ≡ span_unused plan.now reader }
{
    if plan.taken_within(reader).is_none() {
        return None;
    }
    first_below(
        rules_of(plan),
        |u| span_unused_by(plan, reader, RuleNo::new(u)),
    )
}

fn watcher_span(plan: &Plan, reader: ReaderNo) -> Option<Note>
    ensures { result ≡ watcher_span plan.now reader }
{
    note_if(is_span_of_watcher(plan, reader), Note::WatcherSpan(reader))
}

/// Whether a writer is one of the topic, and a rule writes the key there.
fn is_written_by(plan: &Plan, writer: WriterNo, topic: TopicNo, key: KeyNo) -> bool
    requires { writer < (network_of plan.now).writers }
    ensures { result ≡ ((writer_topic plan.now.writers writer == topic)
        && is_written (network_of plan.now) writer key) }
{
    plan.lists().writer(writer).topic == topic && plan.is_written(writer, key)
}

fn is_key_written(plan: &Plan, topic: TopicNo, key: KeyNo) -> bool
    ensures { result ≡ is_key_written plan.now topic key }
{
    let mut any = false;
    for w in 0..writers_of(plan) {
        let here = is_written_by(plan, WriterNo::new(w), topic, key);
        any = here || any;
    }
    any
}

fn unwritten_key(plan: &Plan, topic: TopicNo, key: KeyNo) -> Option<Note>
    ensures { result ≡ unwritten_key plan.now topic key }
{
    note_if(
        !is_key_written(plan, topic, key),
        Note::UnwrittenKey { topic, key },
    )
}

fn idle_writer(plan: &Plan, writer: WriterNo) -> Option<Note>
    ensures { result ≡ idle_writer (network_of plan.now) writer }
{
    note_if(written(plan, writer) == 0, Note::IdleWriter(writer))
}

fn unheard_writer(plan: &Plan, writer: WriterNo) -> Option<Note>
    ensures { result ≡ unheard_writer (network_of plan.now) writer }
{
    note_if(is_unheard(plan, writer), Note::UnheardWriter(writer))
}

fn no_rules(plan: &Plan) -> Option<Note>
    ensures { result ≡ no_rules (network_of plan.now) }
{
    note_if(rules_of(plan) == 0, Note::NoRules)
}

/// Whether some rule opens.
fn some_opens(plan: &Plan) -> bool
    ensures { result ≡ any_below (network_of plan.now).rules (opens (network_of plan.now)) }
{
    let mut any = false;
    for u in 0..rules_of(plan) {
        let here = opens(plan, RuleNo::new(u));
        any = here || any;
    }
    any
}

fn no_start(plan: &Plan) -> Option<Note>
    ensures { result ≡ no_start (network_of plan.now) }
{
    note_if(0 < rules_of(plan) && !some_opens(plan), Note::NoStart)
}

/// Whether some reader isn't a watcher.
fn has_strict_reader(plan: &Plan) -> bool
    ensures { result ≡ any_below (network_of plan.now).readers (λ r. not ((network_of plan.now).watcher r)) }
{
    let mut any = false;
    for r in 0..readers_of(plan) {
        let here = !plan.watcher(ReaderNo::new(r));
        any = here || any;
    }
    any
}

fn no_strict_reader(plan: &Plan) -> Option<Note>
    ensures { result ≡ no_strict_reader (network_of plan.now) }
{
    note_if(!has_strict_reader(plan), Note::NoStrictReader)
}

/// Whether a rule can never fire and, where it takes nothing, doesn't open.
fn is_stuck(plan: &Plan, limits: &[u16; RULES], rule: RuleNo) -> bool
    requires inside { rule < (network_of plan.now).rules }
    requires few { rule < 256 }
    ensures { result ≡ is_stuck (network_of plan.now) (slice_index limits.now) rule }
{
    if has_takes(plan, rule) {
        limits[rule.number()] == 0
    } else {
        !opens(plan, rule)
    }
}

fn stuck_rule(plan: &Plan, limits: &[u16; RULES], rule: RuleNo) -> Option<Note>
    requires inside { rule < (network_of plan.now).rules }
    requires few { rule < 256 }
    ensures { result ≡ stuck_rule (network_of plan.now) (slice_index limits.now) rule }
{
    note_if(is_stuck(plan, limits, rule), Note::StuckRule(rule))
}

/// Whether a rule takes a key of a reader.
fn takes_there(plan: &Plan, rule: RuleNo, reader: ReaderNo, key: KeyNo) -> bool
    requires { rule < (network_of plan.now).rules }
    ensures { result ≡ is_named ((network_of plan.now).rule rule).takes reader key }
{
    plan.rule(rule)
        .takes
        .iter()
        .any(|e| e.endpoint == reader && e.key == key)
}

/// Whether two rules take a key of one reader.
fn share_take(plan: &Plan, one: RuleNo, other: RuleNo) -> bool
    requires one { one < (network_of plan.now).rules }
    requires other { other < (network_of plan.now).rules }
    ensures { result ≡ share_take (network_of plan.now) one other }
{
    plan.rule(one)
        .takes
        .iter()
        .any(|e| takes_there(plan, other, e.endpoint, e.key))
}

/// Whether a rule competes with another one for a take.
fn is_rival(plan: &Plan, rule: RuleNo, other: RuleNo) -> bool
    requires one { rule < (network_of plan.now).rules }
    requires other { other < (network_of plan.now).rules }
    ensures { result ≡ is_rival (network_of plan.now) rule other }
{
    other != rule && share_take(plan, rule, other)
}

/// Whether a rule competes with some other for a take.
fn has_rival(plan: &Plan, rule: RuleNo) -> bool
    requires { rule < (network_of plan.now).rules }
    ensures { result ≡ has_rival (network_of plan.now) rule }
{
    let mut any = false;
    for u in 0..rules_of(plan) {
        let here = is_rival(plan, rule, RuleNo::new(u));
        any = here || any;
    }
    any
}

/// Whether a rule can fire, but so often at most, and competes with no other.
fn has_end(plan: &Plan, rule: RuleNo, firings: u16) -> bool
    requires { rule < (network_of plan.now).rules }
    ensures { (limit : ℕ → ℕ) → limit rule ≡ firings → result ≡ has_end (network_of plan.now) limit rule }
{
    0 < firings && firings <= MOST_FIRINGS && !has_rival(plan, rule)
}

fn stops(plan: &Plan, limits: &[u16; RULES], rule: RuleNo) -> Option<Note>
    requires inside { rule < (network_of plan.now).rules }
    requires few { rule < 256 }
    ensures { result ≡ stops (network_of plan.now) (slice_index limits.now) rule }
{
    let firings = limits[rule.number()];
    note_if(has_end(plan, rule, firings), Note::Stops { rule, firings })
}

fn finite(plan: &Plan, rule: RuleNo) -> Option<Note>
    requires { rule < (network_of plan.now).rules }
    ensures { result ≡ finite (network_of plan.now) rule }
{
    note_if(is_finite(plan, rule), Note::Finite(rule))
}

/// Whether a rule takes at a watcher.
fn is_lossy(plan: &Plan, rule: RuleNo) -> bool
    requires { rule < (network_of plan.now).rules }
    ensures { result ≡ is_lossy (network_of plan.now) rule }
{
    plan.rule(rule)
        .takes
        .iter()
        .any(|e| plan.watcher(e.endpoint))
}

fn lossy_take(plan: &Plan, rule: RuleNo) -> Option<Note>
    requires { rule < (network_of plan.now).rules }
    ensures { result ≡ lossy_take (network_of plan.now) rule }
{
    note_if(is_lossy(plan, rule), Note::LossyTake(rule))
}

fn pace_unused(plan: &Plan, rule: RuleNo) -> Option<Note>
    requires { rule < (network_of plan.now).rules }
    ensures { result ≡ pace_unused plan.now rule }
{
    note_if(is_pace_unused(plan, rule), Note::PaceUnused(rule))
}

/// Whether a bound names the row.
fn is_bounding(bounds: &[Bound], row: usize) -> bool
    ensures { result ≡ list_any (λ b. b.row == row) bounds.now }
{
    bounds.iter().any(|b| b.row == row)
}

/// Whether a total names the row.
fn is_totalling(totals: &[Total], row: usize) -> bool
    ensures { result ≡ list_any (λ t. t.row == row) totals.now }
{
    totals.iter().any(|t| t.row == row)
}

fn unused_row(certificate: &Certificate, row: usize) -> Option<Note>
    ensures { result ≡ unused_row (certificate_view certificate.now) row }
{
    let is_used = is_bounding(&certificate.bounds, row) || is_totalling(&certificate.totals, row);
    note_if(!is_used, Note::UnusedRow(row))
}

fn needless_bound(plan: &Plan, bound: &Bound, place: usize) -> Option<Note>
    ensures { result ≡ needless_bound (network_of plan.now) bound.now place }
{
    let is_needless = plan.watcher(bound.reader) || !plan.reaches(bound.reader, bound.key);
    note_if(is_needless, Note::NeedlessBound(place))
}

fn needless_total(plan: &Plan, total: &Total, place: usize) -> Option<Note>
    ensures { result ≡ needless_total (network_of plan.now) total.now place }
{
    let is_needless = plan.watcher(total.reader) || reached(plan, total.reader) == 0;
    note_if(is_needless, Note::NeedlessTotal(place))
}

fn incompatible(plan: &Plan, writer: WriterNo, reader: ReaderNo) -> Option<Note>
    ensures { result ≡ incompatible plan.now writer reader }
{
    note_if(
        are_incompatible(plan, writer, reader),
        Note::Incompatible { writer, reader },
    )
}

fn held_up(plan: &Plan, writer: WriterNo, reader: ReaderNo) -> Option<Note>
    requires { writer < (network_of plan.now).writers }
    ensures { result ≡ held_up plan.now writer reader }
{
    note_if(
        is_held_up(plan, writer, reader),
        Note::HeldUp { writer, reader },
    )
}

/// The note of a reader that comes late, where it's known whether the writer is latched.
fn late_reader(plan: &Plan, latched: bool, writer: WriterNo, reader: ReaderNo) -> Option<Note>
    requires latched { latched ≡ is_latched plan.now writer }
    requires writer { writer < (network_of plan.now).writers }
    requires reader { reader < (network_of plan.now).readers }
    ensures { result ≡ late_reader plan.now writer reader }
{
    note_if(
        latched && misses_history(plan, writer, reader),
        Note::LateReader { reader, writer },
    )
}

fn push_watchers(notes: &mut Vec<Note>, plan: &Plan) -> Result<(), NoMemory>
    ensures { OnOk result (notes.new.items ≡ notes.old.items
        ++ those_below (network_of plan.now).readers (watcher plan.now)) }
{
    push_below(notes, readers_of(plan), |r| watcher(plan, ReaderNo::new(r)))
}

fn push_growing(
    notes: &mut Vec<Note>,
    plan: &Plan,
    certificate: &Certificate,
) -> Result<(), NoMemory>
    ensures { OnOk result (notes.new.items ≡ notes.old.items
        ++ those_below (network_of plan.now).readers
        (grows (network_of plan.now) (certificate_view certificate.now))) }
{
    push_below(
        notes,
        readers_of(plan),
        |r| grows(plan, certificate, ReaderNo::new(r)),
    )
}

fn push_idle_limits(notes: &mut Vec<Note>, plan: &Plan) -> Result<(), NoMemory>
    ensures { OnOk result (notes.new.items ≡ notes.old.items
        ++ those_below (network_of plan.now).readers (idle_limit (network_of plan.now))) }
{
    push_below(
        notes,
        readers_of(plan),
        |r| idle_limit(plan, ReaderNo::new(r)),
    )
}

fn push_idle_readers(notes: &mut Vec<Note>, plan: &Plan) -> Result<(), NoMemory>
    ensures { OnOk result (notes.new.items ≡ notes.old.items
        ++ those_below (network_of plan.now).readers (idle_reader (network_of plan.now))) }
{
    push_below(
        notes,
        readers_of(plan),
        |r| idle_reader(plan, ReaderNo::new(r)),
    )
}

fn push_stalled(notes: &mut Vec<Note>, plan: &Plan) -> Result<(), NoMemory>
    ensures { OnOk result (notes.new.items ≡ notes.old.items
        ++ those_below (network_of plan.now).readers (stalled plan.now)) }
{
    push_below(notes, readers_of(plan), |r| stalled(plan, ReaderNo::new(r)))
}

fn push_unused_spans(notes: &mut Vec<Note>, plan: &Plan) -> Result<(), NoMemory>
    ensures { OnOk result (notes.new.items ≡ notes.old.items
        ++ those_below (network_of plan.now).readers (span_unused plan.now)) }
{
    push_below(
        notes,
        readers_of(plan),
        |r| span_unused(plan, ReaderNo::new(r)),
    )
}

fn push_watcher_spans(notes: &mut Vec<Note>, plan: &Plan) -> Result<(), NoMemory>
    ensures { OnOk result (notes.new.items ≡ notes.old.items
        ++ those_below (network_of plan.now).readers (watcher_span plan.now)) }
{
    push_below(
        notes,
        readers_of(plan),
        |r| watcher_span(plan, ReaderNo::new(r)),
    )
}

fn push_readers(
    notes: &mut Vec<Note>,
    plan: &Plan,
    certificate: &Certificate,
) -> Result<(), NoMemory>
    ensures { OnOk result (notes.new.items ≡ notes.old.items
        ++ reader_notes plan.now (certificate_view certificate.now)) }
{
    push_watchers(notes, plan)?;
    push_growing(notes, plan, certificate)?;
    push_idle_limits(notes, plan)?;
    push_idle_readers(notes, plan)?;
    push_stalled(notes, plan)?;
    push_unused_spans(notes, plan)?;
    push_watcher_spans(notes, plan)
}

fn push_keys(notes: &mut Vec<Note>, plan: &Plan) -> Result<(), NoMemory>
    ensures { OnOk result (notes.new.items ≡ notes.old.items
        ++ every_below (length plan.now.topics.entries) (unwritten_keys plan.now)) }
{
    for t in 0..plan.lists().topics() {
        let topic = TopicNo::new(t);
        let keys = plan.lists().keys(topic).len();
        push_below(notes, keys, |k| unwritten_key(plan, topic, KeyNo::new(k)))?;
    }
    Ok(())
}

fn push_idle(notes: &mut Vec<Note>, plan: &Plan) -> Result<(), NoMemory>
    ensures { OnOk result (notes.new.items ≡ notes.old.items
        ++ those_below (network_of plan.now).writers (idle_writer (network_of plan.now))) }
{
    push_below(
        notes,
        writers_of(plan),
        |w| idle_writer(plan, WriterNo::new(w)),
    )
}

fn push_unheard(notes: &mut Vec<Note>, plan: &Plan) -> Result<(), NoMemory>
    ensures { OnOk result (notes.new.items ≡ notes.old.items
        ++ those_below (network_of plan.now).writers (unheard_writer (network_of plan.now))) }
{
    push_below(
        notes,
        writers_of(plan),
        |w| unheard_writer(plan, WriterNo::new(w)),
    )
}

fn push_writers(notes: &mut Vec<Note>, plan: &Plan) -> Result<(), NoMemory>
    ensures { OnOk result (notes.new.items ≡ notes.old.items ++ writer_notes plan.now) }
{
    push_keys(notes, plan)?;
    push_idle(notes, plan)?;
    push_unheard(notes, plan)
}

fn push_absent(notes: &mut Vec<Note>, plan: &Plan) -> Result<(), NoMemory>
    ensures { OnOk result (notes.new.items ≡ notes.old.items ++ absent_notes (network_of plan.now)) }
{
    push_some(notes, no_rules(plan))?;
    push_some(notes, no_start(plan))?;
    push_some(notes, no_strict_reader(plan))
}

fn push_stuck(notes: &mut Vec<Note>, plan: &Plan, limits: &[u16; RULES]) -> Result<(), NoMemory>
    ensures { OnOk result (notes.new.items ≡ notes.old.items ++ those_below (network_of plan.now).rules
        (stuck_rule (network_of plan.now) (slice_index limits.now))) }
{
    push_below(
        notes,
        rules_of(plan),
        |u| stuck_rule(plan, limits, RuleNo::new(u)),
    )
}

fn push_stops(notes: &mut Vec<Note>, plan: &Plan, limits: &[u16; RULES]) -> Result<(), NoMemory>
    ensures { OnOk result (notes.new.items ≡ notes.old.items ++ those_below (network_of plan.now).rules
        (stops (network_of plan.now) (slice_index limits.now))) }
{
    push_below(
        notes,
        rules_of(plan),
        |u| stops(plan, limits, RuleNo::new(u)),
    )
}

fn push_finite(notes: &mut Vec<Note>, plan: &Plan) -> Result<(), NoMemory>
    ensures { OnOk result (notes.new.items ≡ notes.old.items
        ++ those_below (network_of plan.now).rules (finite (network_of plan.now))) }
{
    push_below(notes, rules_of(plan), |u| finite(plan, RuleNo::new(u)))
}

fn push_lossy(notes: &mut Vec<Note>, plan: &Plan) -> Result<(), NoMemory>
    ensures { OnOk result (notes.new.items ≡ notes.old.items
        ++ those_below (network_of plan.now).rules (lossy_take (network_of plan.now))) }
{
    push_below(notes, rules_of(plan), |u| lossy_take(plan, RuleNo::new(u)))
}

fn push_unused_paces(notes: &mut Vec<Note>, plan: &Plan) -> Result<(), NoMemory>
    ensures { OnOk result (notes.new.items ≡ notes.old.items
        ++ those_below (network_of plan.now).rules (pace_unused plan.now)) }
{
    push_below(notes, rules_of(plan), |u| pace_unused(plan, RuleNo::new(u)))
}

fn push_rules(notes: &mut Vec<Note>, plan: &Plan, limits: &[u16; RULES]) -> Result<(), NoMemory>
    ensures { OnOk result (notes.new.items ≡ notes.old.items
        ++ rule_notes plan.now (slice_index limits.now)) }
{
    push_absent(notes, plan)?;
    push_stuck(notes, plan, limits)?;
    push_stops(notes, plan, limits)?;
    push_finite(notes, plan)?;
    push_lossy(notes, plan)?;
    push_unused_paces(notes, plan)
}

fn push_unused_rows(notes: &mut Vec<Note>, certificate: &Certificate) -> Result<(), NoMemory>
    ensures { OnOk result (notes.new.items ≡ notes.old.items
        ++ those_below (length (certificate_view certificate.now).rows)
        (unused_row (certificate_view certificate.now))) }
{
    push_below(
        notes,
        certificate.rows.len(),
        |n| unused_row(certificate, n),
    )
}

fn push_needless_bounds(
    notes: &mut Vec<Note>,
    plan: &Plan,
    certificate: &Certificate,
) -> Result<(), NoMemory>
    ensures { OnOk result (notes.new.items ≡ notes.old.items
        ++ those_in (certificate_view certificate.now).bounds (needless_bound (network_of plan.now))) }
{
    push_below(
        notes,
        certificate.bounds.len(),
        |i| needless_bound(plan, bound_at(certificate, i), i),
    )
}

fn push_needless_totals(
    notes: &mut Vec<Note>,
    plan: &Plan,
    certificate: &Certificate,
) -> Result<(), NoMemory>
    ensures { OnOk result (notes.new.items ≡ notes.old.items
        ++ those_in (certificate_view certificate.now).totals (needless_total (network_of plan.now))) }
{
    push_below(
        notes,
        certificate.totals.len(),
        |i| needless_total(plan, total_at(certificate, i), i),
    )
}

fn push_certificate(
    notes: &mut Vec<Note>,
    plan: &Plan,
    certificate: &Certificate,
) -> Result<(), NoMemory>
    ensures { OnOk result (notes.new.items ≡ notes.old.items
        ++ certificate_notes (network_of plan.now) (certificate_view certificate.now)) }
{
    push_unused_rows(notes, certificate)?;
    push_needless_bounds(notes, plan, certificate)?;
    push_needless_totals(notes, plan, certificate)
}

fn push_incompatible(notes: &mut Vec<Note>, plan: &Plan) -> Result<(), NoMemory>
    ensures { OnOk result (notes.new.items ≡ notes.old.items
        ++ notes_of_pairs (network_of plan.now) (incompatible plan.now)) }
{
    for w in 0..writers_of(plan) {
        let writer = WriterNo::new(w);
        push_below(
            notes,
            readers_of(plan),
            |r| incompatible(plan, writer, ReaderNo::new(r)),
        )?;
    }
    Ok(())
}

fn push_held_up(notes: &mut Vec<Note>, plan: &Plan) -> Result<(), NoMemory>
    ensures { OnOk result (notes.new.items ≡ notes.old.items
        ++ notes_of_pairs (network_of plan.now) (held_up plan.now)) }
{
    for w in 0..writers_of(plan) {
        let writer = WriterNo::new(w);
        push_below(
            notes,
            readers_of(plan),
            |r| held_up(plan, writer, ReaderNo::new(r)),
        )?;
    }
    Ok(())
}

fn push_late(notes: &mut Vec<Note>, plan: &Plan) -> Result<(), NoMemory>
    ensures { OnOk result (notes.new.items ≡ notes.old.items
        ++ notes_of_pairs (network_of plan.now) (late_reader plan.now)) }
{
    for w in 0..writers_of(plan) {
        let writer = WriterNo::new(w);
        let latched = is_latched(plan, writer);
        push_below(
            notes,
            readers_of(plan),
            |r| late_reader(plan, latched, writer, ReaderNo::new(r)),
        )?;
    }
    Ok(())
}

fn push_pairs(notes: &mut Vec<Note>, plan: &Plan) -> Result<(), NoMemory>
    ensures { OnOk result (notes.new.items ≡ notes.old.items ++ pair_notes plan.now) }
{
    push_incompatible(notes, plan)?;
    push_held_up(notes, plan)?;
    push_late(notes, plan)
}

#[tactic(auto, unfolding(crate::specs::Notes::all_notes))]
fn push_all(
    notes: &mut Vec<Note>,
    plan: &Plan,
    certificate: &Certificate,
    limits: &[u16; RULES],
) -> Result<(), NoMemory>
    ensures { OnOk result (notes.new.items ≡ notes.old.items
        ++ all_notes plan.now (slice_index limits.now) (certificate_view certificate.now)) }
{
    push_readers(notes, plan, certificate)?;
    push_writers(notes, plan)?;
    push_rules(notes, plan, limits)?;
    push_certificate(notes, plan, certificate)?;
    push_pairs(notes, plan)
}

/// What a yes doesn't say of a plan and a certificate, which may be empty: readers that may miss samples, and whether
/// all may, or that grow without end or get nothing, limits and spans that do nothing, keys and writers that no rule
/// writes or that nobody hears, rules that never fire or that end, what of the certificate nothing needs, and pairs
/// whose policies don't agree, make one wait for the other or keep it from what was written. Which rules can fire goes
/// by counts without amounts: what can come once is taken to come as often as a rule needs it. `NoMemory` is the only
/// error.
pub fn all_notes(
    alloc: Global,
    plan: &Plan,
    certificate: &Certificate,
) -> Result<Vec<Note>, NoMemory>
    ensures limits { AreLimits (network_of plan.now) (limits_of (network_of plan.now)) }
    ensures all { IfOk result
        (λ notes. notes.items
        ≡ all_notes plan.now (limits_of (network_of plan.now)) (certificate_view certificate.now)) }
{
    // Its lists name nothing that isn't there.
    plan.assert_well_formed();
    let limits = limits_of(alloc, plan)?;
    let mut notes = Vec::new(alloc);
    push_all(&mut notes, plan, certificate, &limits)?;
    Ok(notes)
}
