//! Findings as a JSON document.
ghost use Rattle.std.specs.Prelude.{◌≡◌, IfOk, map, string_bytes};
ghost use Rattle.serde_json.specs.Data.{array, string};
ghost use Rattle.serde_json.specs.View.{items_of, view};
ghost use Rattle.dds_json.specs.Line.{line_of};
ghost use Rattle.dds_findings.specs.Documents.{explanation_document, finding_document, findings_document};
ghost use Rattle.dds_findings.specs.Documents.{place_document};
ghost use Rattle.dds_findings.specs.Answers.{is_clean};

use crate::answer::is_clean;
use crate::block::{FileNames, errors_of, file_name, notes_of};
use crate::finding::Finding;
use dds_base::NoMemory;
use dds_json::{answer_word, line_of};
use dds_options::Deny;
use serde_json::{Value, json};
use std::alloc::Global;

/// The terms of a number.
fn details_array(alloc: Global, details: &[String]) -> Result<Value, NoMemory>
    ensures { IfOk result (λ v. view v ≡ array (items_of (map (λ detail. string (string_bytes detail)) details.now))) }
{
    let mut texts = Vec::new(alloc);
    for detail in details {
        let detail = detail.as_str();
        texts.push(json!(in alloc; detail)?)?;
    }
    Ok(Value::Array(texts))
}

/// Where a finding is.
fn place_document(alloc: Global, names: &FileNames, finding: &Finding) -> Result<Value, NoMemory>
    ensures { IfOk result (λ v. view v ≡ place_document names.now finding.now) }
{
    let file = file_name(names, finding.role);
    let path = finding.path.as_str();
    let line = finding.spot.line;
    let column = finding.spot.column;
    let end = finding.spot.end;
    json!(in alloc;
        {"file": file, "path": path, "line": line, "column": column, "end_column": end}
    )
}

/// What would be right, and the terms of the numbers.
fn explanation_document(alloc: Global, finding: &Finding) -> Result<Value, NoMemory>
    ensures { IfOk result (λ v. view v ≡ explanation_document finding.now) }
{
    let details = details_array(alloc, &finding.details)?;
    let help = finding.help.as_str();
    json!(in alloc; {"details": details, "help": help})
}

/// A finding, and whether it makes the answer no.
fn finding_document(
    alloc: Global,
    names: &FileNames,
    deny: &Deny,
    finding: &Finding,
) -> Result<Value, NoMemory>
    ensures { IfOk result (λ v. view v ≡ finding_document names.now deny.now finding.now) }
{
    let denied = finding.is_denied(deny);
    let explanation = explanation_document(alloc, finding)?;
    let place = place_document(alloc, names, finding)?;
    let level = finding.about.level().word();
    let name = finding.name;
    let subject = finding.subject.as_str();
    let message = finding.message.as_str();
    json!(in alloc; {
        "denied": denied, "level": level, "name": name, "subject": subject, "message": message, "place": place,
        "explanation": explanation
    })
}

/// The findings, in their order.
fn findings_array(
    alloc: Global,
    names: &FileNames,
    deny: &Deny,
    findings: &[Finding],
) -> Result<Value, NoMemory>
    ensures { IfOk result (λ v. view v ≡ array (items_of (map (finding_document names.now deny.now) findings.now))) }
{
    let mut documents = Vec::new(alloc);
    for finding in findings {
        documents.push(finding_document(alloc, names, deny, finding)?)?;
    }
    Ok(Value::Array(documents))
}

/// The document of findings.
fn findings_document(
    alloc: Global,
    names: &FileNames,
    findings: &[Finding],
    deny: &Deny,
) -> Result<Value, NoMemory>
    ensures { IfOk result
        (λ v. view v ≡ findings_document names.now deny.now findings.now (is_clean deny.now findings.now)) }
{
    let documents = findings_array(alloc, names, deny, findings)?;
    let answer = answer_word(is_clean(deny, findings));
    let errors = errors_of(findings);
    let notes = notes_of(findings);
    json!(in alloc;
        {"answer": answer, "errors": errors, "notes": notes, "findings": documents}
    )
}

/// The line of the document of findings. `NoMemory` is the only error.
pub(crate) fn findings_line(
    alloc: Global,
    names: &FileNames,
    findings: &[Finding],
    deny: &Deny,
) -> Result<String, NoMemory>
    ensures { IfOk result
        (λ text. string_bytes text
        ≡ line_of (findings_document names.now deny.now findings.now (is_clean deny.now findings.now))) }
{
    let document = findings_document(alloc, names, findings, deny)?;
    line_of(alloc, &document)
}
