//! What a yes takes for granted of clocks: how soon readers take, and how often rules write.
ghost use Rattle.std.specs.Prelude.{◌≡◌, ◌<◌, [], IfOk, length, string_bytes};
ghost use Rattle.std.specs.Option.{option_map_or};
ghost use Rattle.dds_match.specs.Plan.{network_of};
ghost use Rattle.dds_text.specs.Texts.{each_below};
ghost use Rattle.dds_explain.specs.Premises.{pace_premise, premise_lines, reader_premises, rule_premise, soon_line};

use crate::paces::span_text;
use dds_base::{ReaderNo, RuleNo};
use dds_lists::Pace;
use dds_match::Plan;
use dds_text::names::{reader_name, rule_text};
use dds_text::texts::{TextResult, text_below};
use std::alloc::Global;

/// How soon a reader does something with each sample, if that's said.
fn soon_line(
    alloc: Global,
    plan: &Plan,
    reader: ReaderNo,
    does: &str,
    span: Option<u64>,
) -> TextResult
    ensures { IfOk result
        (λ text. string_bytes text ≡ option_map_or (soon_line plan.now reader does.now) span []) }
{
    match span {
        Some(span) => {
            let name = reader_name(plan.lists(), reader);
            let span = span_text(alloc, span)?;
            format!(in alloc; "premise {name} {does} each sample within {span}\n")
        }
        None => Ok(String::new(alloc)),
    }
}

/// How soon a strict reader takes each sample, and how soon it can, if that's said.
fn reader_premises(alloc: Global, plan: &Plan, reader: ReaderNo) -> TextResult
    ensures { IfOk result (λ text. string_bytes text ≡ reader_premises plan.now reader) }
{
    if plan.watcher(reader) {
        return Ok(String::new(alloc));
    }
    let taken = soon_line(alloc, plan, reader, "takes", plan.taken_within(reader))?;
    let available = soon_line(
        alloc,
        plan,
        reader,
        "can take",
        plan.available_within(reader),
    )?;
    format!(in alloc; "{taken}{available}")
}

/// How often a rule of this pace writes.
fn pace_premise(alloc: Global, plan: &Plan, u: RuleNo, pace: Pace) -> TextResult
    ensures { IfOk result (λ text. string_bytes text ≡ pace_premise plan.now u pace) }
{
    let rule = rule_text(alloc, plan.lists(), u)?;
    let period = span_text(alloc, pace.period)?;
    let jitter = span_text(alloc, pace.jitter)?;
    format!(in alloc; "premise rule {rule}: every {period}, jitter {jitter}\n")
}

/// How often the rule with this number writes, if it has a pace.
fn rule_premise(alloc: Global, plan: &Plan, u: RuleNo) -> TextResult
    requires { u < (network_of plan.now).rules }
    ensures { IfOk result (λ text. string_bytes text ≡ rule_premise plan.now u) }
{
    match plan.rule(u).pace {
        Some(pace) => pace_premise(alloc, plan, u, pace),
        None => Ok(String::new(alloc)),
    }
}

/// The premises of the readers.
fn readers_premises(alloc: Global, plan: &Plan) -> TextResult
    ensures { IfOk result
        (λ text. string_bytes text ≡ each_below (length plan.now.readers.entries) (reader_premises plan.now)) }
{
    text_below(
        alloc,
        plan.lists().readers(),
        |r|
            ensures { IfOk result (λ text. string_bytes text ≡ reader_premises plan.entry.now r) }
        { reader_premises(alloc, plan, ReaderNo::new(r)) },
    )
}

/// The premises of the rules.
fn rules_premises(alloc: Global, plan: &Plan) -> TextResult
    ensures { IfOk result
        (λ text. string_bytes text ≡ each_below (length plan.now.rules.entries) (rule_premise plan.now)) }
{
    text_below(
        alloc,
        plan.lists().rules(),
        |u|
            requires { u < (network_of plan.now).rules }
            ensures { IfOk result (λ text. string_bytes text ≡ rule_premise plan.entry.now u) }
        { rule_premise(alloc, plan, RuleNo::new(u)) },
    )
}

/// What a yes takes for granted of clocks: a line for each strict reader of which the file says how soon it takes, and
/// how soon it can, in file order; then one for each rule with a pace. Times are in the greatest of the units ns, us,
/// ms and s that makes them whole. There is no line where the file says nothing of clocks. `NoMemory` is the only
/// error.
#[tactic(auto, unfolding(crate::specs::Premises::premise_lines))]
pub fn premise_lines(alloc: Global, plan: &Plan) -> TextResult
    ensures { IfOk result (λ text. string_bytes text ≡ premise_lines plan.now) }
{
    let readers = readers_premises(alloc, plan)?;
    let rules = rules_premises(alloc, plan)?;
    format!(in alloc; "{readers}{rules}")
}
