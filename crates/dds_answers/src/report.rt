//! The answer to two files, and its text.
ghost use Rattle.std.specs.Prelude.{◌≡◌, ◌++◌, Err, IfErr, IfOk, string_bytes, true};
ghost use Rattle.dds_match.specs.Plan.{network_of};
ghost use Rattle.dds_weights.specs.Fits.{fits};
ghost use Rattle.dds_weights.specs.Views.{certificate_view};
ghost use Rattle.dds_check.specs.Accepts.{first_no};
ghost use Rattle.dds_answers.specs.Outcome.{Outcome, judged, outcome, told, verdict};
ghost use Rattle.dds_cert.specs.Document.{read as certificate_read};
ghost use Rattle.dds_answers.specs.Report.{IsCertificateFault, IsDeploymentFault, Tells, acceptance_reason};
ghost use Rattle.dds_answers.specs.Report.{because_lines, outcome_of, output_of, report_text_of};
ghost use Rattle.dds_answers.specs.Syntax.{IsFaultTold};

use crate::fault::ToolFault;
use crate::planning::read_plan;
use crate::syntax::explain_syntax;
use dds_base::NoMemory;
use dds_cert::{CertFault, CertKind, read_certificate};
use dds_check::{Checked, No, check};
use dds_deploy::DeployFault;
use dds_explain::{margins, premise_lines, reason};
use dds_fields::fault::FaultKind;
use dds_match::Plan;
use dds_notes::note_lines;
use dds_options::Detail;
use dds_report::{acceptance_text, refusal_text};
use dds_weights::Certificate;
use std::alloc::Global;

/// What a check of two files that could be read answers.
#[derive(Drop)]
pub enum Report {
    /// The certificate is accepted.
    Yes(Checked),
    /// The first condition that fails, for this plan and this certificate.
    Refused(No, Plan, Certificate),
}

/// The fault of a deployment that could not be read.
pub fn deployment_fault(fault: DeployFault) -> ToolFault
    ensures { IsDeploymentFault fault result }
{
    match fault {
        DeployFault::At(flaw) => ToolFault::Deployment { flaw, syntax: None },
        DeployFault::NoMemory => ToolFault::NoMemory,
    }
}

/// The fault of a certificate that could not be read.
pub fn certificate_fault(fault: CertFault) -> ToolFault
    ensures { IsCertificateFault fault result }
{
    match fault {
        CertFault::At(flaw) => ToolFault::Certificate { flaw, syntax: None },
        CertFault::NoMemory => ToolFault::NoMemory,
    }
}

/// The report on a plan and a certificate that fits it.
fn verdict(plan: Plan, certificate: Certificate) -> Report
    requires { fits (network_of plan) (certificate_view certificate) ≡ true }
    ensures { outcome_of result
        ≡ verdict (first_no plan (certificate_view certificate)) plan (certificate_view certificate) }
{
    match check(plan, certificate) {
        Ok(checked) => Report::Yes(checked),
        Err((no, plan, certificate)) => Report::Refused(no, plan, certificate),
    }
}

/// The report on a plan and the bytes of a certificate.
fn judge(alloc: Global, plan: Plan, certificate: &[u8]) -> Result<Report, ToolFault>
    ensures { Tells result (judged plan (certificate_read plan certificate.now)) }
{
    match read_certificate(alloc, &plan, certificate) {
        Ok(certificate) => Ok(verdict(plan, certificate)),
        Err(fault) => {
            drop(plan);
            Err(certificate_fault(fault))
        }
    }
}

/// The report on the bytes of a deployment and of a certificate. The deployment is read, then the certificate for its
/// lists, then the conditions of the checker are asked in their order. The first fault of a file is `Deployment` or
/// `Certificate`, and `NoMemory` comes where memory ran out.
#[tactic(auto, unfolding(crate::specs::Outcome::outcome))]
pub fn answer_check(
    alloc: Global,
    deployment: &[u8],
    certificate: &[u8],
) -> Result<Report, ToolFault>
    ensures { Tells result (outcome deployment.now certificate.now) }
{
    match read_plan(alloc, deployment) {
        Ok(plan) => judge(alloc, plan, certificate),
        Err(fault) => Err(fault),
    }
}

/// The fault of a check of these bytes, with what the parser says where a reason is asked for and a file is no TOML.
fn detailed_fault(
    alloc: Global,
    fault: ToolFault,
    deployment: &[u8],
    certificate: &[u8],
    detail: Detail,
) -> ToolFault
    ensures same { (end : Outcome) → Tells (Err fault) end → Tells (Err result) end }
    ensures told { IsFaultTold detail deployment.now certificate.now result }
{
    match fault {
        ToolFault::Deployment { flaw, .. } => {
            let is_not_toml = matches!(flaw.kind, FaultKind::NotToml);
            match explain_syntax(alloc, detail, is_not_toml, deployment) {
                Ok(syntax) => ToolFault::Deployment { flaw, syntax },
                Err(_) => ToolFault::NoMemory,
            }
        }
        ToolFault::Certificate { flaw, .. } => {
            let is_not_toml = matches!(flaw.kind, CertKind::NotToml);
            match explain_syntax(alloc, detail, is_not_toml, certificate) {
                Ok(syntax) => ToolFault::Certificate { flaw, syntax },
                Err(_) => ToolFault::NoMemory,
            }
        }
        other => other,
    }
}

/// The report on the bytes of a deployment and of a certificate, as `answer_check` makes it. Where a reason is asked
/// for, the fault of a file that is no TOML comes with what the parser says of it.
pub fn detailed_check(
    alloc: Global,
    deployment: &[u8],
    certificate: &[u8],
    detail: Detail,
) -> Result<Report, ToolFault>
    ensures tells { Tells result (outcome deployment.now certificate.now) }
    ensures told { IfErr result (IsFaultTold detail deployment.now certificate.now) }
{
    match answer_check(alloc, deployment, certificate) {
        Ok(report) => Ok(report),
        Err(fault) => Err(detailed_fault(alloc, fault, deployment, certificate, detail)),
    }
}

/// How near each bound is to its limit, what the yes takes for granted of clocks, and what it doesn't say.
fn accepted_because(alloc: Global, checked: &Checked) -> Result<String, NoMemory>
    ensures { IfOk result
        (λ text. string_bytes text ≡ acceptance_reason checked.now.plan checked.now.certificate) }
{
    let margins = margins(alloc, checked.plan(), checked.certificate())?;
    let premises = premise_lines(alloc, checked.plan())?;
    let notes = note_lines(alloc, checked.plan(), checked.certificate())?;
    format!(in alloc; "{margins}{premises}{notes}")
}

/// The lines of the reason of a report. `NoMemory` is the only error.
pub fn because_text(alloc: Global, report: &Report) -> Result<String, NoMemory>
    ensures { IfOk result (λ text. string_bytes text ≡ because_lines report.now) }
{
    match report {
        Report::Yes(checked) => accepted_because(alloc, checked),
        Report::Refused(no, plan, certificate) => reason(alloc, plan, certificate, *no),
    }
}

/// The lines of a report, with those of its reason after them where they are asked for. `NoMemory` is the only error.
#[tactic(auto, unfolding(crate::specs::Report::output_of))]
pub fn detailed_text(alloc: Global, report: &Report, detail: Detail) -> Result<String, NoMemory>
    ensures { IfOk result (λ text. string_bytes text ≡ output_of (told detail (outcome_of report.now))) }
{
    let text = report_text(alloc, report)?;
    match detail {
        Detail::Plain => Ok(text),
        Detail::Explained => {
            let because = because_text(alloc, report)?;
            format!(in alloc; "{text}{because}")
        }
    }
}

/// The lines of a report. `NoMemory` is the only error.
#[tactic(auto, unfolding(crate::specs::Report::output_of))]
pub fn report_text(alloc: Global, report: &Report) -> Result<String, NoMemory>
    ensures { IfOk result (λ text. string_bytes text ≡ report_text_of report.now) }
{
    match report {
        Report::Yes(checked) => acceptance_text(
            alloc,
            checked.plan().lists(),
            checked.certificate(),
        ),
        Report::Refused(no, plan, certificate) => refusal_text(
            alloc,
            *no,
            plan.lists(),
            certificate,
        ),
    }
}
