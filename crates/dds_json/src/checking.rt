//! The documents of a check.
ghost use Rattle.std.specs.Prelude.{◌≡◌, IfErr, IfOk, false, map, option_map, string_bytes};
ghost use Rattle.serde_json.specs.Data.{array};
ghost use Rattle.serde_json.specs.View.{items_of, view};
ghost use Rattle.serde_json.specs.Written.{has_float};
ghost use Rattle.dds_weights.specs.Views.{certificate_view};
ghost use Rattle.dds_answers.specs.Answers.{Gives};
ghost use Rattle.dds_answers.specs.Fault.{IsAnswerFault};
ghost use Rattle.dds_answers.specs.Outcome.{told};
ghost use Rattle.dds_answers.specs.Report.{because_lines, outcome_of};
ghost use Rattle.dds_json.specs.Checking.{acceptance_document, bound_document, is_accepted, pair_key_document};
ghost use Rattle.dds_json.specs.Checking.{reason_of, refusal_document, report_document, subject_document};
ghost use Rattle.dds_json.specs.Checking.{total_document};
ghost use Rattle.dds_json.specs.Ends.{in_json};
ghost use Rattle.dds_json.specs.Line.{line_of};

use crate::line::line_of;
use dds_answers::{Answer, Report, ToolFault, answer_with, because_text};
use dds_base::{KeyNo, NoMemory, ReaderNo, WriterNo};
use dds_check::{No, Subject};
use dds_lists::Deployment;
use dds_options::Detail;
use dds_text::names::{reader_key, reader_name, rule_text, writer_key, writer_name};
use dds_weights::naming::row_name;
use dds_weights::{Bound, Certificate, Total};
use serde_json::{Value, json};
use std::alloc::Global;

/// The bound of an instance.
fn bound_document(alloc: Global, lists: &Deployment, bound: &Bound) -> Result<Value, NoMemory>
    ensures { IfOk result (λ v. view v ≡ bound_document lists.now bound.now) }
{
    let reader = reader_name(lists, bound.reader);
    let key = reader_key(lists, bound.reader, bound.key);
    json!(in alloc; {"reader": reader, "key": key, "bound": bound.bound})
}

/// The bounds of instances.
fn bounds_array(alloc: Global, lists: &Deployment, bounds: &[Bound]) -> Result<Value, NoMemory>
    ensures { IfOk result (λ v. view v ≡ array (items_of (map (bound_document lists.now) bounds.now))) }
{
    let mut documents = Vec::new(alloc);
    for bound in bounds {
        documents.push(bound_document(alloc, lists, bound)?)?;
    }
    Ok(Value::Array(documents))
}

/// The bound of all samples of a reader.
fn total_document(alloc: Global, lists: &Deployment, total: &Total) -> Result<Value, NoMemory>
    ensures { IfOk result (λ v. view v ≡ total_document lists.now total.now) }
{
    let reader = reader_name(lists, total.reader);
    json!(in alloc; {"reader": reader, "bound": total.bound})
}

/// The bounds of all samples of readers.
fn totals_array(alloc: Global, lists: &Deployment, totals: &[Total]) -> Result<Value, NoMemory>
    ensures { IfOk result (λ v. view v ≡ array (items_of (map (total_document lists.now) totals.now))) }
{
    let mut documents = Vec::new(alloc);
    for total in totals {
        documents.push(total_document(alloc, lists, total)?)?;
    }
    Ok(Value::Array(documents))
}

/// The document of an acceptance, with its reason where there is one.
fn acceptance_document(
    alloc: Global,
    lists: &Deployment,
    certificate: &Certificate,
    because: Option<String>,
) -> Result<Value, NoMemory>
    ensures { IfOk result
        (λ v. view v ≡ acceptance_document lists.now (certificate_view certificate.now)
        (option_map string_bytes because)) }
{
    let bounds = bounds_array(alloc, lists, certificate.bounds.as_slice())?;
    let totals = totals_array(alloc, lists, certificate.totals.as_slice())?;
    match because {
        None => json!(in alloc; {"answer": "yes", "bounds": bounds, "totals": totals}),
        Some(because) => json!(in alloc;
            {"answer": "yes", "because": because, "bounds": bounds, "totals": totals}
        ),
    }
}

/// A writer, a reader and a key of it, by name.
fn pair_key_document(
    alloc: Global,
    lists: &Deployment,
    writer: WriterNo,
    reader: ReaderNo,
    key: KeyNo,
) -> Result<Value, NoMemory>
    ensures { IfOk result (λ v. view v ≡ pair_key_document lists.now writer reader key) }
{
    let key = reader_key(lists, reader, key);
    let writer = writer_name(lists, writer);
    let reader = reader_name(lists, reader);
    json!(in alloc; {"writer": writer, "reader": reader, "key": key})
}

/// What a condition speaks of, by name.
fn subject_document(
    alloc: Global,
    lists: &Deployment,
    certificate: &Certificate,
    subject: Subject,
) -> Result<Value, NoMemory>
    ensures { IfOk result (λ v. view v ≡ subject_document lists.now (certificate_view certificate.now) subject) }
{
    match subject {
        Subject::Pair { writer, reader } => {
            let writer = writer_name(lists, writer);
            let reader = reader_name(lists, reader);
            json!(in alloc; {"writer": writer, "reader": reader})
        }
        Subject::PairKey {
            writer,
            reader,
            key,
        } => pair_key_document(alloc, lists, writer, reader, key),
        Subject::Instance { reader, key } => {
            let key = reader_key(lists, reader, key);
            let reader = reader_name(lists, reader);
            json!(in alloc; {"reader": reader, "key": key})
        }
        Subject::Reader(reader) => {
            let reader = reader_name(lists, reader);
            json!(in alloc; {"reader": reader})
        }
        Subject::Writer(writer) => {
            let writer = writer_name(lists, writer);
            json!(in alloc; {"writer": writer})
        }
        Subject::RowInstance { row, reader, key } => {
            let row = row_name(certificate, row);
            let key = reader_key(lists, reader, key);
            let reader = reader_name(lists, reader);
            json!(in alloc; {"row": row, "reader": reader, "key": key})
        }
        Subject::RowRule { row, rule } => {
            let row = row_name(certificate, row);
            let rule = rule_text(alloc, lists, rule)?;
            json!(in alloc; {"row": row, "rule": rule})
        }
        Subject::RowWriterKey { row, writer, key } => {
            let row = row_name(certificate, row);
            let key = writer_key(lists, writer, key);
            let writer = writer_name(lists, writer);
            json!(in alloc; {"row": row, "writer": writer, "key": key})
        }
    }
}

/// The document of a refusal, with its reason where there is one.
pub(crate) fn refusal_document(
    alloc: Global,
    lists: &Deployment,
    certificate: &Certificate,
    no: No,
    because: Option<String>,
) -> Result<Value, NoMemory>
    ensures { IfOk result
        (λ v. view v ≡ refusal_document lists.now (certificate_view certificate.now) no
        (option_map string_bytes because)) }
{
    let subject = subject_document(alloc, lists, certificate, no.subject)?;
    let number = no.number.number();
    let name = no.number.name();
    match because {
        None =>
            json!(in alloc; {"answer": "no", "number": number, "name": name, "subject": subject}),
        Some(because) => json!(in alloc;
            {"answer": "no", "because": because, "number": number, "name": name, "subject": subject}
        ),
    }
}

/// The document of a report, with its reason where there is one.
fn report_document(
    alloc: Global,
    report: &Report,
    because: Option<String>,
) -> Result<Value, NoMemory>
    ensures { IfOk result (λ v. view v ≡ report_document report.now (option_map string_bytes because)) }
{
    match report {
        Report::Yes(checked) => acceptance_document(
            alloc,
            checked.plan().lists(),
            checked.certificate(),
            because,
        ),
        Report::Refused(no, plan, certificate) => refusal_document(
            alloc,
            plan.lists(),
            certificate,
            *no,
            because,
        ),
    }
}

/// The reason of a report, where it is asked for.
fn reason_of(alloc: Global, report: &Report, detail: Detail) -> Result<Option<String>, NoMemory>
    ensures { IfOk result (λ because. option_map string_bytes because ≡ reason_of report.now detail) }
{
    match detail {
        Detail::Plain => Ok(None),
        Detail::Explained => {
            let because = because_text(alloc, report)?;
            Ok(Some(because))
        }
    }
}

/// The line of a report's document.
fn report_line(alloc: Global, report: &Report, detail: Detail) -> Result<String, NoMemory>
    ensures { IfOk result
        (λ text. string_bytes text ≡ line_of (report_document report.now (reason_of report.now detail))) }
{
    let because = reason_of(alloc, report, detail)?;
    let document = report_document(alloc, report, because)?;
    line_of(alloc, &document)
}

/// Whether a report is that the certificate is accepted.
fn is_accepted(report: &Report) -> bool
    ensures { result ≡ is_accepted report.now }
{
    matches!(report, Report::Yes(_))
}

/// The answer for a report, which is needed no longer, as a document: yes where the certificate is accepted. Its
/// reason is a member of it where it is asked for.
pub(crate) fn answer_report_in_json(
    alloc: Global,
    report: Report,
    detail: Detail,
) -> Result<Answer, ToolFault>
    ensures gives { Gives result (in_json (told detail (outcome_of report))) }
    ensures fault { IfErr result IsAnswerFault }
    ensures memory { IfErr result (λ e. e ≡ ToolFault.NoMemory) }
{
    let answer = answer_with(report_line(alloc, &report, detail), is_accepted(&report));
    drop(report);
    answer
}
