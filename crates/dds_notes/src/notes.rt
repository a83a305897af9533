//! What a yes doesn't say, in words.
ghost use Rattle.std.specs.Prelude.{◌≡◌, [], IfOk, flat_map, option_map, slice_get, string_bytes};
ghost use Rattle.std.specs.Option.{option_map_or};
ghost use Rattle.dds_weights.specs.Views.{certificate_view};
ghost use Rattle.dds_notes.specs.Notes.{bound_words, endless_text, entry_name, finite_words, held_up_words};
ghost use Rattle.dds_notes.specs.Notes.{incompatible_words, late_words, lossy_words, note_line, note_lines};
ghost use Rattle.dds_notes.specs.Notes.{note_subject, note_terms, note_text, pace_words, span_words, stalls_words};
ghost use Rattle.dds_notes.specs.Notes.{stops_words, stuck_words, takes_nothing, times, total_words, unwritten_words};
ghost use Rattle.dds_notes.specs.Notes.{watcher_span_words};

use dds_base::{KeyNo, ReaderNo, RuleNo, TopicNo, WriterNo};
use dds_explain::{mismatch_lines, why_not_text};
use dds_lint::{EndlessRule, Note, all_notes};
use dds_lists::Deployment;
use dds_match::Plan;
use dds_text::names::{name_at, reader_key, reader_name, rule_text, writer_name};
use dds_text::texts::{TextResult, text_of_each};
use dds_weights::naming::row_name;
use dds_weights::{Bound, Certificate, Total};
use std::alloc::Global;

/// Whether the rule is there, and takes nothing.
fn takes_nothing(lists: &Deployment, rule: RuleNo) -> bool
    ensures { result ≡ takes_nothing lists.now rule }
{
    rule.number() < lists.rules() && lists.rule(rule).takes.is_empty()
}

/// A rule that never lets anything be written.
fn stuck_words(alloc: Global, lists: &Deployment, rule: RuleNo) -> TextResult
    ensures { IfOk result (λ text. string_bytes text ≡ stuck_words lists.now rule) }
{
    let name = rule_text(alloc, lists, rule)?;
    if takes_nothing(lists, rule) {
        format!(in alloc;
            "{name} takes nothing and has no start, so it never lets anything be written"
        )
    } else {
        format!(in alloc; "{name} can never fire: too little of what it takes can come")
    }
}

/// The word for so many times.
fn times(count: u16) -> &'static str
    ensures { result.now ≡ times count }
{
    if count == 1 { " time" } else { " times" }
}

/// A rule that fires so often at most.
fn stops_words(alloc: Global, lists: &Deployment, rule: RuleNo, firings: u16) -> TextResult
    ensures { IfOk result (λ text. string_bytes text ≡ stops_words lists.now rule firings) }
{
    let name = rule_text(alloc, lists, rule)?;
    let times = times(firings);
    format!(in alloc; "{name} stops: it can't fire more than {firings}{times}")
}

/// A key that no rule writes.
fn unwritten_words(alloc: Global, lists: &Deployment, topic: TopicNo, key: KeyNo) -> TextResult
    ensures { IfOk result (λ text. string_bytes text ≡ unwritten_words lists.now topic key) }
{
    let key = lists.key_name(topic, key);
    let topic = name_at(lists.topic_names(), topic.number());
    format!(in alloc; "no rule writes {key} of topic {topic}")
}

/// The bound at this place of a certificate, if there is one.
fn find_bound(certificate: &Certificate, place: usize) -> Option<&Bound>
    ensures { option_map (λ bound. bound.now) result ≡ slice_get (certificate_view certificate.now).bounds place }
{
    certificate.bounds.get(place)
}

/// The total at this place of a certificate, if there is one.
fn find_total(certificate: &Certificate, place: usize) -> Option<&Total>
    ensures { option_map (λ total. total.now) result ≡ slice_get (certificate_view certificate.now).totals place }
{
    certificate.totals.get(place)
}

/// A bound that nothing needs.
fn bound_words(alloc: Global, plan: &Plan, bound: &Bound) -> TextResult
    ensures { IfOk result (λ text. string_bytes text ≡ bound_words plan.now bound.now) }
{
    let key = reader_key(plan.lists(), bound.reader, bound.key);
    let reader = reader_name(plan.lists(), bound.reader);
    format!(in alloc; "nothing needs the bound of {key} at {reader}")
}

/// The bound at this place of a certificate, where nothing needs it.
fn needless_bound(alloc: Global, plan: &Plan, certificate: &Certificate, place: usize) -> TextResult
    ensures { IfOk result
        (λ text. string_bytes text
        ≡ option_map_or (bound_words plan.now) (slice_get (certificate_view certificate.now).bounds place) []) }
{
    match find_bound(certificate, place) {
        Some(bound) => bound_words(alloc, plan, bound),
        None => Ok(String::new(alloc)),
    }
}

/// A total that nothing needs.
fn total_words(alloc: Global, plan: &Plan, total: &Total) -> TextResult
    ensures { IfOk result (λ text. string_bytes text ≡ total_words plan.now total.now) }
{
    let reader = reader_name(plan.lists(), total.reader);
    format!(in alloc; "nothing needs the total of {reader}")
}

/// The total at this place of a certificate, where nothing needs it.
fn needless_total(alloc: Global, plan: &Plan, certificate: &Certificate, place: usize) -> TextResult
    ensures { IfOk result
        (λ text. string_bytes text
        ≡ option_map_or (total_words plan.now) (slice_get (certificate_view certificate.now).totals place) []) }
{
    match find_total(certificate, place) {
        Some(total) => total_words(alloc, plan, total),
        None => Ok(String::new(alloc)),
    }
}

/// A writer that waits for a reader.
fn held_up_words(alloc: Global, plan: &Plan, writer: WriterNo, reader: ReaderNo) -> TextResult
    ensures { IfOk result (λ text. string_bytes text ≡ held_up_words plan.now writer reader) }
{
    let writer = writer_name(plan.lists(), writer);
    let reader = reader_name(plan.lists(), reader);
    format!(in alloc; "{writer} keeps all within a limit, so it waits where {reader} is slow")
}

/// A rule that has a start alone.
fn finite_words(alloc: Global, lists: &Deployment, rule: RuleNo) -> TextResult
    ensures { IfOk result (λ text. string_bytes text ≡ finite_words lists.now rule) }
{
    let rule = rule_text(alloc, lists, rule)?;
    format!(in alloc; "{rule} takes nothing, so it writes no more once its start is used up")
}

/// A rule that takes at a watcher.
fn lossy_words(alloc: Global, lists: &Deployment, rule: RuleNo) -> TextResult
    ensures { IfOk result (λ text. string_bytes text ≡ lossy_words lists.now rule) }
{
    let rule = rule_text(alloc, lists, rule)?;
    format!(in alloc;
        "{rule} takes at a reader that may miss samples, and may wait for one for ever"
    )
}

/// A rule that writes without end to a reader that must lose nothing, in words, on one line. `NoMemory` is the only
/// error.
pub fn endless_text(alloc: Global, plan: &Plan, endless: EndlessRule) -> TextResult
    ensures { IfOk result (λ text. string_bytes text ≡ endless_text plan.now endless) }
{
    let reader = reader_name(plan.lists(), endless.reader);
    let rule = rule_text(alloc, plan.lists(), endless.rule)?;
    format!(in alloc; "{rule} writes whatever was taken, so no bound holds at {reader}")
}

/// A pair whose policies don't agree.
fn incompatible_words(alloc: Global, plan: &Plan, writer: WriterNo, reader: ReaderNo) -> TextResult
    ensures { IfOk result (λ text. string_bytes text ≡ incompatible_words plan.now writer reader) }
{
    let reason = why_not_text(alloc, plan, writer, reader)?;
    let writer = writer_name(plan.lists(), writer);
    let reader = reader_name(plan.lists(), reader);
    format!(in alloc; "{writer} and {reader} don't match: {reason}")
}

/// A reader that may lose samples and is sent again what it refuses.
fn stalls_words(alloc: Global, lists: &Deployment, reader: ReaderNo) -> TextResult
    ensures { IfOk result (λ text. string_bytes text ≡ stalls_words lists.now reader) }
{
    let reader = reader_name(lists, reader);
    format!(in alloc;
        "{reader} is RELIABLE, so what it refuses when it's full is sent again and again, and other readers may wait"
    )
}

/// A reader that takes soon what a rule without a pace writes.
fn span_words(alloc: Global, lists: &Deployment, reader: ReaderNo, rule: RuleNo) -> TextResult
    ensures { IfOk result (λ text. string_bytes text ≡ span_words lists.now reader rule) }
{
    let rule = rule_text(alloc, lists, rule)?;
    let reader = reader_name(lists, reader);
    format!(in alloc;
        "{rule} has no period, so taken_within of {reader} bounds nothing that it writes"
    )
}

/// A watcher that takes soon.
fn watcher_span_words(alloc: Global, lists: &Deployment, reader: ReaderNo) -> TextResult
    ensures { IfOk result (λ text. string_bytes text ≡ watcher_span_words lists.now reader) }
{
    let reader = reader_name(lists, reader);
    format!(in alloc; "{reader} may miss samples, so nothing needs its taken_within")
}

/// A rule with a pace that bounds nothing.
fn pace_words(alloc: Global, lists: &Deployment, rule: RuleNo) -> TextResult
    ensures { IfOk result (λ text. string_bytes text ≡ pace_words lists.now rule) }
{
    let rule = rule_text(alloc, lists, rule)?;
    format!(in alloc;
        "nothing needs the period of {rule}: no strict reader that hears it has taken_within"
    )
}

/// A reader that comes too late for what a writer wrote.
fn late_words(alloc: Global, lists: &Deployment, reader: ReaderNo, writer: WriterNo) -> TextResult
    ensures { IfOk result (λ text. string_bytes text ≡ late_words lists.now reader writer) }
{
    let writer = writer_name(lists, writer);
    let reader = reader_name(lists, reader);
    format!(in alloc;
        "{reader} is VOLATILE, and gets nothing that {writer} writes before the two match"
    )
}

/// A note in words, on one line: what a yes doesn't say of something. Of a bound or a total that isn't there, nothing.
/// `NoMemory` is the only error.
pub fn note_text(alloc: Global, plan: &Plan, certificate: &Certificate, note: Note) -> TextResult
    ensures { IfOk result
        (λ text. string_bytes text ≡ note_text plan.now (certificate_view certificate.now) note) }
{
    match note {
        Note::Watcher(reader) | Note::MayLose(reader) => {
            let reader = reader_name(plan.lists(), reader);
            format!(in alloc; "{reader} may miss samples, and a yes says nothing of that")
        }
        Note::Unlimited(reader) => {
            let reader = reader_name(plan.lists(), reader);
            format!(in alloc; "{reader} has no limit, and no bound says how much it may store")
        }
        Note::IdleLimit(reader) => {
            let reader = reader_name(plan.lists(), reader);
            format!(in alloc; "{reader} never reaches max_samples_per_instance: its depth is lower")
        }
        Note::IdleReader(reader) => {
            let reader = reader_name(plan.lists(), reader);
            format!(in alloc; "no sample can come to {reader}")
        }
        Note::Stalls(reader) => stalls_words(alloc, plan.lists(), reader),
        Note::SpanUnused { reader, rule } => span_words(alloc, plan.lists(), reader, rule),
        Note::WatcherSpan(reader) => watcher_span_words(alloc, plan.lists(), reader),
        Note::UnwrittenKey { topic, key } => unwritten_words(alloc, plan.lists(), topic, key),
        Note::IdleWriter(writer) => {
            let writer = writer_name(plan.lists(), writer);
            format!(in alloc; "no rule writes at {writer}")
        }
        Note::UnheardWriter(writer) => {
            let writer = writer_name(plan.lists(), writer);
            format!(in alloc; "no reader matches {writer}")
        }
        Note::NoRules => { String::from_str(alloc, "there's no rule, so nothing is ever written") }
        Note::NoStart => {
            String::from_str(alloc, "no rule has a start, so nothing is ever written")
        }
        Note::NoStrictReader => {
            String::from_str(
                alloc,
                "no reader is strict, so a yes says nothing of lost samples",
            )
        }
        Note::StuckRule(rule) => stuck_words(alloc, plan.lists(), rule),
        Note::Stops { rule, firings } => stops_words(alloc, plan.lists(), rule, firings),
        Note::Finite(rule) => finite_words(alloc, plan.lists(), rule),
        Note::LossyTake(rule) => lossy_words(alloc, plan.lists(), rule),
        Note::PaceUnused(rule) => pace_words(alloc, plan.lists(), rule),
        Note::UnusedRow(row) => {
            let name = row_name(certificate, row);
            format!(in alloc; "no bound and no total names row {name}")
        }
        Note::NeedlessBound(place) => needless_bound(alloc, plan, certificate, place),
        Note::NeedlessTotal(place) => needless_total(alloc, plan, certificate, place),
        Note::Incompatible { writer, reader } => incompatible_words(alloc, plan, writer, reader),
        Note::HeldUp { writer, reader } => held_up_words(alloc, plan, writer, reader),
        Note::LateReader { reader, writer } => late_words(alloc, plan.lists(), reader, writer),
    }
}

/// The terms of a note, a line each behind two blanks: of policies that don't agree what is offered and what is
/// requested; of any other note none. `NoMemory` is the only error.
pub fn note_terms(alloc: Global, plan: &Plan, note: Note) -> TextResult
    ensures { IfOk result (λ text. string_bytes text ≡ note_terms plan.now note) }
{
    match note {
        Note::Incompatible { writer, reader } => mismatch_lines(alloc, plan, writer, reader),
        _ => Ok(String::new(alloc)),
    }
}

/// The name of a rule's entry, where it stands for one rule or for several.
fn entry_name(lists: &Deployment, rule: RuleNo) -> &str
    ensures { result.now ≡ entry_name lists.now rule }
{
    match lists.rule_origin(rule) {
        Some(origin) => name_at(lists.rule_names(), origin.name),
        None => "",
    }
}

/// The name of what a note is about: of a reader, a writer, a topic, a rule's entry or a row. Empty where it's about
/// the whole deployment, or about a bound or a total, which have no names.
pub fn note_subject<'a>(plan: &'a Plan, certificate: &'a Certificate, note: Note) -> &'a str
    ensures { result.now ≡ note_subject plan.now (certificate_view certificate.now) note }
{
    let lists = plan.lists();
    match note {
        Note::Watcher(reader)
        | Note::MayLose(reader)
        | Note::Unlimited(reader)
        | Note::IdleLimit(reader)
        | Note::IdleReader(reader)
        | Note::Stalls(reader)
        | Note::SpanUnused { reader, .. }
        | Note::WatcherSpan(reader)
        | Note::LateReader { reader, .. } => reader_name(lists, reader),
        Note::UnwrittenKey { topic, .. } => name_at(lists.topic_names(), topic.number()),
        Note::IdleWriter(writer)
        | Note::UnheardWriter(writer)
        | Note::Incompatible { writer, .. }
        | Note::HeldUp { writer, .. } => writer_name(lists, writer),
        Note::StuckRule(rule)
        | Note::Stops { rule, .. }
        | Note::Finite(rule)
        | Note::LossyTake(rule)
        | Note::PaceUnused(rule) => entry_name(lists, rule),
        Note::UnusedRow(row) => row_name(certificate, row),
        Note::NoRules
        | Note::NoStart
        | Note::NoStrictReader
        | Note::NeedlessBound(_)
        | Note::NeedlessTotal(_) => "",
    }
}

/// The line of a note, and those of its terms.
fn note_line(alloc: Global, plan: &Plan, certificate: &Certificate, note: &Note) -> TextResult
    ensures { IfOk result
        (λ text. string_bytes text ≡ note_line plan.now (certificate_view certificate.now) note.now) }
{
    let words = note_text(alloc, plan, certificate, *note)?;
    let terms = note_terms(alloc, plan, *note)?;
    format!(in alloc; "note: {words}\n{terms}")
}

/// The lines of these notes.
fn lines_of(alloc: Global, plan: &Plan, certificate: &Certificate, notes: &[Note]) -> TextResult
    ensures { IfOk result
        (λ text. string_bytes text
        ≡ flat_map (note_line plan.now (certificate_view certificate.now)) notes.now) }
{
    text_of_each(
        alloc,
        notes,
        |note|
            ensures { IfOk result (λ text. string_bytes text
                ≡ note_line plan.entry.now (certificate_view certificate.entry.now) note.now) }
        { note_line(alloc, plan, certificate, note) },
    )
}

/// What a yes to a plan and a certificate doesn't say: a line for each note, in the order of `dds_lint::all_notes`,
/// `note: ` and the words of `note_text`, and below it those of `note_terms`. `NoMemory` is the only error.
#[tactic(auto, unfolding(crate::specs::Notes::note_lines))]
pub fn note_lines(alloc: Global, plan: &Plan, certificate: &Certificate) -> TextResult
    ensures { IfOk result
        (λ text. string_bytes text ≡ note_lines plan.now (certificate_view certificate.now)) }
{
    let notes = all_notes(alloc, plan, certificate)?;
    lines_of(alloc, plan, certificate, &notes)
}
