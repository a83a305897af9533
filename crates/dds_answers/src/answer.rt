//! What each command answers to the bytes of its files.
ghost use Rattle.std.specs.Prelude.{◌≡◌, ◌≤◌, IfErr, IfOk, IsOk, Ok, OnOk, option_map, string_bytes, true};
ghost use Rattle.dds_weights.specs.Views.{certificate_view};
ghost use Rattle.dds_answers.specs.Answers.{Gives, GivesOneOf, answer_exit};
ghost use Rattle.dds_answers.specs.Fault.{IsAnswerFault};
ghost use Rattle.dds_answers.specs.Outcome.{Outcome, compared, match_outcome, migrated, outcome, proposed, shown};
ghost use Rattle.dds_answers.specs.Outcome.{told, unproposed};
ghost use Rattle.dds_answers.specs.Migrations.{MayMigrate};
ghost use Rattle.dds_answers.specs.Notes.{length_note};
ghost use Rattle.dds_answers.specs.Proposals.{MayPropose, proposal_end};
ghost use Rattle.dds_answers.specs.Report.{outcome_of, shown_text};
ghost use Rattle.dds_answers.specs.Syntax.{IsFaultTold};
ghost use Rattle.dds_deploy.specs.Document.{read as deployment_read, read_up_to};

use crate::exit::Exit;
use crate::fault::ToolFault;
use crate::matches::{is_as_intended, match_text};
use crate::planning::read_plan;
use crate::reading::MAX_FILE;
use crate::report::{Report, deployment_fault, detailed_check, detailed_text};
use dds_base::NoMemory;
use dds_deploy::migrate;
use dds_lists::Deployment;
use dds_match::Plan;
use dds_options::{Detail, Format};
use dds_propose::propose;
use dds_show::deployment_json;
use dds_weights::{Certificate, certificate_text};
use dds_xml::deployment_xml;
use std::alloc::Global;

/// A text for the output, and whether the answer is yes.
#[derive(Drop)]
pub struct Answer {
    pub text: String,
    pub is_yes: bool,
    /// What goes to standard error besides.
    pub note: Option<String>,
}

impl Answer {
    /// How a command ends with it: yes or no.
    pub fn exit(&self) -> Exit
        ensures { result ≡ answer_exit self.now.is_yes }
    {
        if self.is_yes { Exit::Yes } else { Exit::No }
    }
}

/// The answer with a text, if there was memory for it.
pub fn answer_with(text: Result<String, NoMemory>, is_yes: bool) -> Result<Answer, ToolFault>
    ensures answer { IfOk result (λ a. (a.is_yes ≡ is_yes) × IfOk text (λ t. a.text ≡ t)) }
    ensures text { OnOk result (IsOk text) }
    ensures memory { IfErr result (λ e. e ≡ ToolFault.NoMemory) }
{
    match text {
        Ok(text) => Ok(Answer {
            text,
            is_yes,
            note: None,
        }),
        Err(_) => Err(ToolFault::NoMemory),
    }
}

/// The answer for a report, which is needed no longer: yes where the certificate is accepted. Its reason comes
/// after it where it is asked for.
#[tactic(auto, unfolding(crate::specs::Report::status_of))]
pub fn answer_report(alloc: Global, report: Report, detail: Detail) -> Result<Answer, ToolFault>
    ensures gives { Gives result (told detail (outcome_of report)) }
    ensures fault { IfErr result IsAnswerFault }
    ensures memory { IfErr result (λ e. e ≡ ToolFault.NoMemory) }
{
    let is_yes = matches!(&report, Report::Yes(_));
    let answer = answer_with(detailed_text(alloc, &report, detail), is_yes);
    drop(report);
    answer
}

/// The answer of `check` to the bytes of a deployment and of a certificate: yes where the certificate is accepted. It
/// is that of the report on them, with its reason where it is asked for; so is the fault of a file that is no TOML.
pub fn check_answer(
    alloc: Global,
    deployment: &[u8],
    certificate: &[u8],
    detail: Detail,
) -> Result<Answer, ToolFault>
    ensures gives { Gives result (told detail (outcome deployment.now certificate.now)) }
    ensures fault { IfErr result IsAnswerFault }
    ensures told { IfErr result (IsFaultTold detail deployment.now certificate.now) }
{
    match detailed_check(alloc, deployment, certificate, detail) {
        Ok(report) => answer_report(alloc, report, detail),
        Err(fault) => Err(fault),
    }
}

/// The answer to which endpoints of a plan match, which is needed no longer.
#[tactic(auto, unfolding(crate::specs::Report::output_of, crate::specs::Report::status_of))]
pub fn answer_pairs(alloc: Global, plan: Plan) -> Result<Answer, ToolFault>
    ensures gives { Gives result (compared plan) }
    ensures fault { IfErr result IsAnswerFault }
    ensures memory { IfErr result (λ e. e ≡ ToolFault.NoMemory) }
{
    let answer = answer_with(match_text(alloc, &plan), is_as_intended(&plan));
    drop(plan);
    answer
}

/// The answer of `match` to the bytes of a deployment: yes where exactly the pairs of the connections match.
pub fn match_answer(alloc: Global, deployment: &[u8]) -> Result<Answer, ToolFault>
    ensures gives { Gives result (match_outcome deployment.now) }
    ensures fault { IfErr result IsAnswerFault }
{
    let plan = read_plan(alloc, deployment)?;
    answer_pairs(alloc, plan)
}

/// A deployment in a format.
fn lists_text(alloc: Global, lists: &Deployment, format: Format) -> Result<String, NoMemory>
    ensures { IfOk result (λ text. string_bytes text ≡ shown_text format lists.now) }
{
    match format {
        Format::Json => deployment_json(alloc, lists),
        Format::DdsXml => deployment_xml(alloc, lists),
    }
}

/// The answer that shows a deployment, which is needed no longer.
#[tactic(auto, unfolding(crate::specs::Report::output_of, crate::specs::Report::status_of))]
pub fn answer_lists(alloc: Global, lists: Deployment, format: Format) -> Result<Answer, ToolFault>
    ensures gives { Gives result (shown format lists) }
    ensures memory { IfErr result (λ e. e ≡ ToolFault.NoMemory) }
{
    let answer = answer_with(lists_text(alloc, &lists, format), true);
    drop(lists);
    answer
}

/// The line for a text that commands read: that it's longer than a file may be, if it is.
fn length_note(alloc: Global, text: &str) -> Result<Option<String>, NoMemory>
    ensures { IfOk result (λ note. option_map string_bytes note ≡ length_note text.now) }
{
    let length = text.len();
    if length <= MAX_FILE {
        return Ok(None);
    }
    let note = format!(in alloc;
        "ddscheck: this text has {length} bytes, and a file may have at most 1048576\n"
    )?;
    Ok(Some(note))
}

/// Yes with a text that commands read, if there was memory for it. A line says so where it's longer than a file may
/// be.
fn answer_file(alloc: Global, text: Result<String, NoMemory>) -> Result<Answer, ToolFault>
    ensures answer { IfOk result (λ a. (a.is_yes ≡ true) × IfOk text (λ t. a.text ≡ t)) }
    ensures text { OnOk result (IsOk text) }
    ensures note { IfOk result (λ a. option_map string_bytes a.note ≡ length_note (string_bytes a.text)) }
    ensures memory { IfErr result (λ e. e ≡ ToolFault.NoMemory) }
{
    let Ok(text) = text else {
        return Err(ToolFault::NoMemory);
    };
    match length_note(alloc, text.as_str()) {
        Ok(note) => Ok(Answer {
            text,
            is_yes: true,
            note,
        }),
        Err(_) => Err(ToolFault::NoMemory),
    }
}

/// The answer with the text of a certificate that was proposed. A line says so where it's longer than a file may be.
#[tactic(auto, unfolding(crate::specs::Report::output_of, crate::specs::Report::status_of))]
pub fn answer_certificate(
    alloc: Global,
    plan: &Plan,
    certificate: &Certificate,
) -> Result<Answer, ToolFault>
    ensures gives { Gives result (proposed plan.now (certificate_view certificate.now)) }
    ensures note { IfOk result (λ a. option_map string_bytes a.note ≡ length_note (string_bytes a.text)) }
    ensures fault { IfErr result IsAnswerFault }
    ensures memory { IfErr result (λ e. e ≡ ToolFault.NoMemory) }
{
    answer_file(alloc, certificate_text(alloc, plan, certificate))
}

/// The answer where no certificate was found.
#[tactic(auto, unfolding(crate::specs::Report::output_of, crate::specs::Report::status_of))]
fn answer_none(alloc: Global) -> Result<Answer, ToolFault>
    ensures gives { Gives result unproposed }
    ensures memory { IfErr result (λ e. e ≡ ToolFault.NoMemory) }
{
    answer_with(String::from_str(alloc, "none\n"), false)
}

/// The answer with the text of the certificate that was proposed, or that none was.
fn answer_found(
    alloc: Global,
    plan: &Plan,
    certificate: &Option<Certificate>,
) -> Result<Answer, ToolFault>
    ensures gives { Gives result (proposal_end plan.now (option_map certificate_view certificate.now)) }
    ensures memory { IfErr result (λ e. e ≡ ToolFault.NoMemory) }
{
    match certificate {
        Some(certificate) => answer_certificate(alloc, plan, certificate),
        None => answer_none(alloc),
    }
}

/// The answer to what the rounds proposed for a plan, both of which are needed no longer: yes with the text of the
/// certificate, or no where there's none.
pub fn answer_proposal(
    alloc: Global,
    plan: Plan,
    certificate: Option<Certificate>,
) -> Result<Answer, ToolFault>
    ensures gives { Gives result (proposal_end plan (option_map certificate_view certificate)) }
    ensures fault { IfErr result IsAnswerFault }
    ensures memory { IfErr result (λ e. e ≡ ToolFault.NoMemory) }
{
    let answer = answer_found(alloc, &plan, &certificate);
    drop(plan);
    drop(certificate);
    answer
}

/// The answer to what is proposed for a plan.
fn propose_for(alloc: Global, plan: Plan) -> Result<Answer, ToolFault>
    ensures gives { (end : Outcome) × MayPropose (Ok plan) end × Gives result end }
    ensures fault { IfErr result IsAnswerFault }
{
    match propose(alloc, &plan) {
        Ok(certificate) => answer_proposal(alloc, plan, certificate),
        Err(_) => {
            drop(plan);
            Err(ToolFault::NoMemory)
        }
    }
}

/// The answer of `propose` to the bytes of a deployment: yes with the text of a certificate that is accepted, or no
/// where none was found.
pub fn propose_answer(alloc: Global, deployment: &[u8]) -> Result<Answer, ToolFault>
    ensures gives { (end : Outcome) × MayPropose (deployment_read deployment.now) end × Gives result end }
    ensures fault { IfErr result IsAnswerFault }
{
    let plan = read_plan(alloc, deployment)?;
    propose_for(alloc, plan)
}

/// The answer with the text of a deployment that was migrated. A line says so where it's longer than a file may be.
#[tactic(auto, unfolding(crate::specs::Report::output_of, crate::specs::Report::status_of))]
pub fn answer_migration(alloc: Global, text: String) -> Result<Answer, ToolFault>
    ensures gives { Gives result (migrated (string_bytes text)) }
    ensures note { IfOk result (λ a. option_map string_bytes a.note ≡ length_note (string_bytes a.text)) }
    ensures fault { IfErr result IsAnswerFault }
    ensures memory { IfErr result (λ e. e ≡ ToolFault.NoMemory) }
{
    answer_file(alloc, Ok(text))
}

/// The answer of `migrate` to the bytes of a deployment of version 1: yes with a text of version 2 that stands for the
/// same lists. A line says so where it's longer than a file may be.
pub fn migrate_answer(alloc: Global, deployment: &[u8]) -> Result<Answer, ToolFault>
    ensures gives { GivesOneOf (MayMigrate 2 deployment.now (read_up_to 1 deployment.now)) result }
    ensures note { IfOk result (λ a. option_map string_bytes a.note ≡ length_note (string_bytes a.text)) }
    ensures fault { IfErr result IsAnswerFault }
{
    match migrate(alloc, deployment, 2) {
        Ok(text) => answer_migration(alloc, text),
        Err(fault) => Err(deployment_fault(fault)),
    }
}
