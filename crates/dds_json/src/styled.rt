//! Answers in lines or as a document, as they are asked for.
ghost use Rattle.std.specs.Prelude.{◌≡◌, ◌⊎◌, IfErr, IsErrOf};
ghost use Rattle.dds_answers.specs.Answers.{Gives};
ghost use Rattle.dds_answers.specs.Fault.{IsAnswerFault};
ghost use Rattle.dds_answers.specs.Outcome.{Outcome, compared, told};
ghost use Rattle.dds_answers.specs.Report.{outcome_of};
ghost use Rattle.dds_json.specs.Ends.{EndsProposal, in_style};

use crate::checking::answer_report_in_json;
use crate::matching::answer_pairs_in_json;
use crate::proposing::answer_proposal_in_json;
use dds_answers::{Answer, Report, ToolFault, answer_pairs, answer_report};
use dds_match::Plan;
use dds_options::{Detail, Style};
use std::alloc::Global;

/// The answer for a report, which is needed no longer, in this style: yes where the certificate is accepted. Its reason
/// comes with it where it is asked for.
pub fn report_in_style(
    alloc: Global,
    report: Report,
    detail: Detail,
    style: Style,
) -> Result<Answer, ToolFault>
    ensures gives { Gives result (in_style style (told detail (outcome_of report))) }
    ensures fault { IfErr result IsAnswerFault }
    ensures memory { IfErr result (λ e. e ≡ ToolFault.NoMemory) }
{
    match style {
        Style::Text => answer_report(alloc, report, detail),
        Style::Json => answer_report_in_json(alloc, report, detail),
    }
}

/// The answer of `match` to a plan, which is needed no longer, in this style: yes where exactly the pairs of the
/// connections match.
pub fn pairs_in_style(alloc: Global, plan: Plan, style: Style) -> Result<Answer, ToolFault>
    ensures gives { Gives result (in_style style (compared plan)) }
    ensures memory { IfErr result (λ e. e ≡ ToolFault.NoMemory) }
{
    match style {
        Style::Text => answer_pairs(alloc, plan),
        Style::Json => answer_pairs_in_json(alloc, plan),
    }
}

/// What a search for a certificate answers, in this style. What the answer has besides stays, as does a fault. Its own
/// only error is `NoMemory`.
pub fn proposal_in_style(
    alloc: Global,
    answer: Result<Answer, ToolFault>,
    style: Style,
) -> Result<Answer, ToolFault>
    ensures gives { (end : Outcome) → EndsProposal end → Gives answer end → Gives result (in_style style end) }
    ensures fault { IfErr result (λ e. (e ≡ ToolFault.NoMemory) ⊎ IsErrOf answer e) }
{
    match style {
        Style::Text => answer,
        Style::Json => answer_proposal_in_json(alloc, answer),
    }
}
