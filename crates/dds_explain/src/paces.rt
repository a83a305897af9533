//! What paces show: at most how many samples of a key, written at a writer, a reader lacks, with the terms of that sum.
ghost use Rattle.std.specs.Prelude.{◌≡◌, ◌<◌, ◌≤◌, ◌^◌, IfOk, IfSome, string_bytes};
ghost use Rattle.dds_match.specs.Network.{named};
ghost use Rattle.dds_match.specs.Paces.{turns};
ghost use Rattle.dds_match.specs.Plan.{network_of};
ghost use Rattle.dds_explain.specs.Paces.{cap_lines, capped_lines, is_capped, pace_line, pace_lines, rule_line};
ghost use Rattle.dds_explain.specs.Paces.{rule_lines, span_text, turns_text};

use crate::weights::named;
use dds_base::grid::KEYS;
use dds_base::{KeyNo, ReaderNo, RuleNo, WriterNo};
use dds_check::rule_at;
use dds_lists::Pace;
use dds_match::Plan;
use dds_show::times::time_text;
use dds_text::names::rule_text;
use dds_text::texts::{TextResult, text_below};
use std::alloc::Global;

/// So many nanoseconds, in the greatest unit that makes them a whole number. None are `0 ms`.
pub fn span_text(alloc: Global, nanoseconds: u64) -> TextResult
    ensures { IfOk result (λ text. string_bytes text ≡ span_text nanoseconds) }
{
    if nanoseconds == 0 {
        return String::from_str(alloc, "0 ms");
    }
    time_text(alloc, nanoseconds)
}

/// How many turns a pace has at most in a span, in words.
fn turns_text(alloc: Global, span: u64, pace: Pace) -> TextResult
    ensures { IfOk result (λ text. string_bytes text ≡ turns_text span pace) }
{
    let span = span_text(alloc, span)?;
    let jitter = span_text(alloc, pace.jitter)?;
    let period = span_text(alloc, pace.period)?;
    format!(in alloc; "(1 + ({span} + {jitter}) / {period})")
}

/// How many turns a pace has at most in a span.
fn turns(pace: Pace, span: u64) -> u128
    requires { 1 ≤ pace.period }
    ensures value { result ≡ turns pace span }
    ensures small { result ≤ 2 ^ 65 }
{
    1 + (u128::from(span) + u128::from(pace.jitter)) / u128::from(pace.period)
}

/// What a rule of this pace writes at most in a span, if it writes so many in a turn.
fn pace_line(
    alloc: Global,
    plan: &Plan,
    u: RuleNo,
    count: u128,
    span: u64,
    pace: Pace,
) -> TextResult
    requires small { count ≤ 2 ^ 20 }
    requires period { 1 ≤ pace.period }
    ensures { IfOk result (λ text. string_bytes text ≡ pace_line plan.now u count span pace) }
{
    if count == 0 {
        return Ok(String::new(alloc));
    }
    let most = count * turns(pace, span);
    let turns = turns_text(alloc, span, pace)?;
    let rule = rule_text(alloc, plan.lists(), u)?;
    format!(in alloc; "  paces show {most}: {count} x {turns} of {rule}\n")
}

/// The pace of a rule.
fn pace_of(plan: &Plan, u: RuleNo) -> Option<Pace>
    requires { u < (network_of plan.now).rules }
    ensures value { result ≡ ((network_of plan.now).rule u).pace }
    ensures period { IfSome result (λ pace. 1 ≤ pace.period) }
{
    // A pace has a period.
    plan.lists().assert_well_formed();
    plan.rule(u).pace
}

/// What the rule with this number writes at most of a key at a writer in a span, if it has a pace.
fn rule_line(
    alloc: Global,
    plan: &Plan,
    writer: WriterNo,
    key: KeyNo,
    span: u64,
    u: RuleNo,
) -> TextResult
    requires { u < (network_of plan.now).rules }
    ensures { IfOk result (λ text. string_bytes text ≡ rule_line plan.now writer key span u) }
{
    match pace_of(plan, u) {
        Some(pace) => {
            let count = named(&rule_at(plan, u).writes, writer, key);
            pace_line(alloc, plan, u, count, span, pace)
        }
        None => Ok(String::new(alloc)),
    }
}

/// What each rule with a pace writes at most of a key at a writer in a span.
fn rule_lines(alloc: Global, plan: &Plan, writer: WriterNo, key: KeyNo, span: u64) -> TextResult
    ensures { IfOk result (λ text. string_bytes text ≡ rule_lines plan.now writer key span) }
{
    text_below(
        alloc,
        plan.lists().rules(),
        |u|
            requires { u < (network_of plan.now).rules }
            ensures { IfOk result (λ text. string_bytes text ≡ rule_line plan.entry.now writer key span u) }
        { rule_line(alloc, plan, writer, key, span, RuleNo::new(u)) },
    )
}

/// The terms of a number that paces show for a span, if both are there.
pub(crate) fn pace_lines(
    alloc: Global,
    plan: &Plan,
    writer: WriterNo,
    key: KeyNo,
    number: Option<u32>,
    span: Option<u64>,
) -> TextResult
    ensures { IfOk result (λ text. string_bytes text ≡ pace_lines plan.now writer key number span) }
{
    match (number, span) {
        (Some(_), Some(span)) => rule_lines(alloc, plan, writer, key, span),
        _ => Ok(String::new(alloc)),
    }
}

/// The terms of a writer's cap at a reader.
fn cap_lines(
    alloc: Global,
    plan: &Plan,
    writer: WriterNo,
    reader: ReaderNo,
    key: KeyNo,
) -> TextResult
    ensures { IfOk result (λ text. string_bytes text ≡ cap_lines plan.now writer reader key) }
{
    let cap = plan.cap(writer, reader, key);
    pace_lines(alloc, plan, writer, key, cap, plan.taken_within(reader))
}

/// Whether there are such a reader and such a key, and caps bound how many samples of the key the reader has yet to
/// take.
fn is_capped(plan: &Plan, reader: ReaderNo, key: KeyNo) -> bool
    ensures { result ≡ is_capped (network_of plan.now) reader key }
{
    reader.number() < plan.lists().readers()
        && key.number() < KEYS
        && plan.capped(reader, key).is_some()
}

/// The terms of the caps that bound how many samples of a key a reader has yet to take.
pub(crate) fn capped_lines(alloc: Global, plan: &Plan, reader: ReaderNo, key: KeyNo) -> TextResult
    ensures { IfOk result (λ text. string_bytes text ≡ capped_lines plan.now reader key) }
{
    if !is_capped(plan, reader, key) {
        return Ok(String::new(alloc));
    }
    text_below(
        alloc,
        plan.lists().writers(),
        |w|
            ensures { IfOk result (λ text. string_bytes text ≡ cap_lines plan.entry.now w reader key) }
        { cap_lines(alloc, plan, WriterNo::new(w), reader, key) },
    )
}
