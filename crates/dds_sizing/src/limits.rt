//! What `limits` finds of a plan, and what it answers.
ghost use Rattle.std.specs.Prelude.{◌≡◌, IfErr, IfOk, Some, false, option_map, string_bytes};
ghost use Rattle.dds_match.specs.Plan.{network_of};
ghost use Rattle.dds_weights.specs.Views.{certificate_view};
ghost use Rattle.dds_answers.specs.Answers.{Gives};
ghost use Rattle.dds_sizing.specs.Limits.{IsLimitsReport, IsSaid, claim_end, cure_of, limits_end, needs_told};
ghost use Rattle.dds_sizing.specs.Limits.{none_told, reasons_told, text_told};
ghost use Rattle.dds_sizing.specs.Needs.{are_met, needs_of};
ghost use Rattle.dds_sizing.specs.Reasons.{sizes_of};

use crate::limits_document::{claim_line, limits_line, none_line};
use crate::needs::{Need, are_met, has_unbounded, needs_of};
use crate::needs_text::needs_text;
use crate::reasons::{Explained, explain_sizes, reasons_text, sizes_of};
use crate::reasons_document::reasons_line;
use crate::thorough::length_text;
use dds_answers::{Answer, MAX_FILE, ToolFault, answer_with};
use dds_base::NoMemory;
use dds_lists::Deployment;
use dds_match::Plan;
use dds_options::Style;
use dds_request::Sizing;
use dds_search::{Budget, Size, Sizes, find_limits_certificate, find_sizes};
use dds_weights::{Certificate, certificate_text};
use std::alloc::Global;
use std::time::Clock;

/// What is found of the limits that a deployment needs.
#[derive(Drop)]
pub enum LimitsReport {
    /// The least bounds that weights show.
    Bounds(Vec<Size>),
    /// The same, each with the reason for it.
    Reasons(Vec<Explained>),
    /// The same, with a certificate that shows them, if there is one.
    Certificate(Sizes),
}

/// What is found of the limits that a plan needs: how much room each strict reader and each writer with KEEP_LAST
/// needs, with the reasons or with a certificate that shows as much where that is asked for. `NoMemory` is the only
/// error.
pub fn find_limits<C: Clock>(
    alloc: Global,
    plan: &Plan,
    what: Sizing,
    budget: Budget<C>,
) -> Result<LimitsReport, NoMemory>
    ensures { IfOk result (IsLimitsReport what plan.now) }
{
    match what {
        Sizing::Bounds => {
            let sizes = find_sizes(alloc, plan, budget)?;
            Ok(LimitsReport::Bounds(sizes))
        }
        Sizing::Reasons => {
            let explained = explain_sizes(alloc, plan, budget)?;
            Ok(LimitsReport::Reasons(explained))
        }
        Sizing::Certificate => {
            let found = find_limits_certificate(alloc, plan, budget)?;
            Ok(LimitsReport::Certificate(found))
        }
    }
}

/// The line that says what helps where something is unbounded.
const CURE: &str =
    "ddscheck: no limit is enough for what's unbounded: let a rule take there before it goes on, \
    or let the reader lose samples; `--explain` names the rules that fill it\n";

/// The line that says that there is no certificate.
const NO_ROWS: &str = "ddscheck: no 64 rows were found that show these bounds\n";

/// What is needed, in this style.
fn needs_in_style(
    alloc: Global,
    lists: &Deployment,
    needs: &[Need],
    style: Style,
) -> Result<String, NoMemory>
    ensures { IfOk result (λ text. string_bytes text ≡ needs_told style lists.now needs.now) }
{
    match style {
        Style::Text => needs_text(alloc, lists, needs),
        Style::Json => limits_line(alloc, lists, needs),
    }
}

/// What helps where something is unbounded.
fn cure_text(alloc: Global, needs: &[Need]) -> Result<Option<String>, NoMemory>
    ensures { IfOk result (λ cure. option_map string_bytes cure ≡ cure_of needs.now) }
{
    if has_unbounded(needs) {
        Ok(Some(String::from_str(alloc, CURE)?))
    } else {
        Ok(None)
    }
}

/// The answer with what is needed by the sizes of a plan: yes where a bound is known of each need
/// and no limit is lower. Where something is unbounded, a note says what helps.
fn answer_bounds(
    alloc: Global,
    plan: &Plan,
    sizes: &[Size],
    style: Style,
) -> Result<Answer, ToolFault>
    ensures said { IfOk result
        (IsSaid (needs_told style plan.now (needs_of (network_of plan.now) sizes.now))
        (are_met (needs_of (network_of plan.now) sizes.now))) }
    ensures cure { IfOk result
        (λ a. option_map string_bytes a.note ≡ cure_of (needs_of (network_of plan.now) sizes.now)) }
    ensures memory { IfErr result (λ e. e ≡ ToolFault.NoMemory) }
{
    let Ok(needs) = needs_of(alloc, plan, sizes) else {
        return Err(ToolFault::NoMemory);
    };
    let text = needs_in_style(alloc, plan.lists(), needs.as_slice(), style);
    match (text, cure_text(alloc, needs.as_slice())) {
        (Ok(text), Ok(note)) => Ok(Answer {
            text,
            is_yes: are_met(needs.as_slice()),
            note,
        }),
        _ => Err(ToolFault::NoMemory),
    }
}

/// What is needed and why, in lines.
fn explained_text(
    alloc: Global,
    plan: &Plan,
    explained: &[Explained],
    needs: &[Need],
) -> Result<String, NoMemory>
    ensures { IfOk result
        (λ text. string_bytes text ≡ reasons_told Style.Text plan.now explained.now needs.now) }
{
    let lines = needs_text(alloc, plan.lists(), needs)?;
    let reasons = reasons_text(alloc, plan, explained, needs)?;
    format!(in alloc; "{lines}{reasons}")
}

/// What is needed and why, in this style.
fn reasons_in_style(
    alloc: Global,
    plan: &Plan,
    explained: &[Explained],
    needs: &[Need],
    style: Style,
) -> Result<String, NoMemory>
    ensures { IfOk result (λ text. string_bytes text ≡ reasons_told style plan.now explained.now needs.now) }
{
    match style {
        Style::Text => explained_text(alloc, plan, explained, needs),
        Style::Json => reasons_line(alloc, plan, explained, needs),
    }
}

/// What is needed by sizes that are explained. `NoMemory` is the only error.
fn explained_needs(
    alloc: Global,
    plan: &Plan,
    explained: &[Explained],
) -> Result<Vec<Need>, NoMemory>
    ensures { IfOk result
        (λ needs. needs.items ≡ needs_of (network_of plan.now) (sizes_of explained.now)) }
{
    let sizes = sizes_of(alloc, explained)?;
    needs_of(alloc, plan, &sizes)
}

/// The answer with what is needed and why, by sizes of a plan that are explained: yes where a bound is known of
/// each need and no limit is lower.
fn answer_reasons(
    alloc: Global,
    plan: &Plan,
    explained: &[Explained],
    style: Style,
) -> Result<Answer, ToolFault>
    ensures said { IfOk result
        (IsSaid (reasons_told style plan.now explained.now (needs_of (network_of plan.now) (sizes_of explained.now)))
        (are_met (needs_of (network_of plan.now) (sizes_of explained.now)))) }
    ensures memory { IfErr result (λ e. e ≡ ToolFault.NoMemory) }
{
    let Ok(needs) = explained_needs(alloc, plan, explained) else {
        return Err(ToolFault::NoMemory);
    };
    answer_with(
        reasons_in_style(alloc, plan, explained, needs.as_slice(), style),
        are_met(needs.as_slice()),
    )
}

/// That there is no certificate, in this style.
fn none_text(alloc: Global, style: Style) -> Result<String, NoMemory>
    ensures { IfOk result (λ text. string_bytes text ≡ none_told style) }
{
    match style {
        Style::Text => String::from_str(alloc, "none\n"),
        Style::Json => none_line(alloc),
    }
}

/// The answer where there is no certificate, with this note for the user.
fn answer_none(
    alloc: Global,
    style: Style,
    note: Result<String, NoMemory>,
) -> Result<Answer, ToolFault>
    ensures said { IfOk result (IsSaid (none_told style) false) }
    ensures memory { IfErr result (λ e. e ≡ ToolFault.NoMemory) }
{
    let Ok(note) = note else {
        return Err(ToolFault::NoMemory);
    };
    match none_text(alloc, style) {
        Ok(text) => Ok(Answer {
            text,
            is_yes: false,
            note: Some(note),
        }),
        Err(_) => Err(ToolFault::NoMemory),
    }
}

/// The text of a certificate, in this style.
fn claim_text(alloc: Global, text: String, is_met: bool, style: Style) -> Result<String, NoMemory>
    ensures { IfOk result (λ told. string_bytes told ≡ text_told style (string_bytes text) is_met) }
{
    match style {
        Style::Text => Ok(text),
        Style::Json => claim_line(alloc, text.as_str(), is_met),
    }
}

/// The answer with a certificate, unless its text is longer than a file may be, so that `check` couldn't read it: then
/// it is `none`, and a line says why.
fn answer_claim(
    alloc: Global,
    plan: &Plan,
    certificate: &Certificate,
    is_met: bool,
    style: Style,
) -> Result<Answer, ToolFault>
    ensures gives { Gives result (claim_end style plan.now is_met (Some (certificate_view certificate.now))) }
    ensures memory { IfErr result (λ e. e ≡ ToolFault.NoMemory) }
{
    let Ok(text) = certificate_text(alloc, plan, certificate) else {
        return Err(ToolFault::NoMemory);
    };
    let length = text.len();
    if length <= MAX_FILE {
        return answer_with(claim_text(alloc, text, is_met, style), is_met);
    }
    drop(text);
    answer_none(alloc, style, length_text(alloc, length))
}

/// The answer to whether there is a certificate.
fn answer_found(
    alloc: Global,
    plan: &Plan,
    certificate: &Option<Certificate>,
    is_met: bool,
    style: Style,
) -> Result<Answer, ToolFault>
    ensures gives { Gives result (claim_end style plan.now is_met (option_map certificate_view certificate.now)) }
    ensures memory { IfErr result (λ e. e ≡ ToolFault.NoMemory) }
{
    match certificate {
        Some(certificate) => answer_claim(alloc, plan, certificate, is_met, style),
        None => answer_none(alloc, style, String::from_str(alloc, NO_ROWS)),
    }
}

/// The answer to whether there is a certificate of these sizes: yes where there is one, a bound is known of each need,
/// and no limit is lower.
fn answer_sizes(
    alloc: Global,
    plan: &Plan,
    found: &Sizes,
    style: Style,
) -> Result<Answer, ToolFault>
    ensures gives { Gives result
        (claim_end style plan.now (are_met (needs_of (network_of plan.now) found.now.list.items))
        (option_map certificate_view found.now.certificate)) }
    ensures memory { IfErr result (λ e. e ≡ ToolFault.NoMemory) }
{
    let Ok(needs) = needs_of(alloc, plan, &found.list) else {
        return Err(ToolFault::NoMemory);
    };
    let is_met = are_met(&needs);
    answer_found(alloc, plan, &found.certificate, is_met, style)
}

/// The answer to what was found of a plan.
fn answer_report(
    alloc: Global,
    plan: &Plan,
    report: &LimitsReport,
    style: Style,
) -> Result<Answer, ToolFault>
    ensures gives { Gives result (limits_end style plan.now report.now) }
    ensures memory { IfErr result (λ e. e ≡ ToolFault.NoMemory) }
{
    match report {
        LimitsReport::Bounds(sizes) => answer_bounds(alloc, plan, sizes.as_slice(), style),
        LimitsReport::Reasons(explained) => {
            answer_reasons(alloc, plan, explained.as_slice(), style)
        }
        LimitsReport::Certificate(found) => answer_sizes(alloc, plan, found, style),
    }
}

/// The answer of `limits` to what was found of a plan, both of which are needed no longer, in this style: how much room
/// each strict reader and each writer with KEEP_LAST needs, beside its limits, or a certificate of at most 1,048,576
/// bytes. It is yes where a bound is known of each need and no limit is lower, and what was asked for is there.
pub fn answer_limits(
    alloc: Global,
    plan: Plan,
    report: LimitsReport,
    style: Style,
) -> Result<Answer, ToolFault>
    ensures gives { Gives result (limits_end style plan report) }
    ensures memory { IfErr result (λ e. e ≡ ToolFault.NoMemory) }
{
    let answer = answer_report(alloc, &plan, &report, style);
    drop(plan);
    drop(report);
    answer
}
