//! Findings as SARIF 2.1.0 (OASIS), which code hosts show at their lines.
ghost use Rattle.std.specs.Prelude.{◌≡◌, ◌∷◌, ◌++◌, [], IfOk, codes, map, string_bytes};
ghost use Rattle.serde_json.specs.Data.{array};
ghost use Rattle.serde_json.specs.View.{items_of, view};
ghost use Rattle.dds_json.specs.Line.{line_of};
ghost use Rattle.dds_findings.specs.Documents.{artifact_document, driver_document, location_document};
ghost use Rattle.dds_findings.specs.Documents.{message_document, physical_document, region_document, result_document};
ghost use Rattle.dds_findings.specs.Documents.{result_level, result_words, run_document, sarif_document};
ghost use Rattle.dds_findings.specs.Documents.{suppression_document, suppressions, term_lines, tool_document, uri_of};

use crate::block::{FileNames, file_name};
use crate::finding::Finding;
use dds_base::NoMemory;
use dds_json::line_of;
use dds_options::{Deny, VERSION};
use percent_encoding::{AsciiSet, NON_ALPHANUMERIC, ascii_set, utf8_percent_encode};
use serde_json::{Value, json};
use std::alloc::Global;

/// What has an escape in the path of a URI: all but letters, digits, the other unreserved characters (RFC 3986,
/// clause 2.3) and the `/` between segments.
pub const ESCAPED: AsciiSet = ascii_set!(
    NON_ALPHANUMERIC
        .remove(b'-')
        .remove(b'.')
        .remove(b'_')
        .remove(b'~')
        .remove(b'/')
);

/// The URI reference to the file with this path.
fn uri_of(alloc: Global, path: &str) -> Result<String, NoMemory>
    ensures { IfOk result (λ uri. string_bytes uri ≡ uri_of path.now) }
{
    let mut uri = String::new(alloc);
    utf8_percent_encode(path, ESCAPED).append_to(&mut uri)?;
    Ok(uri)
}

/// The columns and the line of a finding.
fn region_document(alloc: Global, finding: &Finding) -> Result<Value, NoMemory>
    ensures { IfOk result (λ v. view v ≡ region_document finding.now) }
{
    let line = finding.spot.line;
    let column = finding.spot.column;
    let end = finding.spot.end;
    json!(in alloc; {"startLine": line, "startColumn": column, "endColumn": end})
}

/// The file of a finding.
fn artifact_document(alloc: Global, names: &FileNames, finding: &Finding) -> Result<Value, NoMemory>
    ensures { IfOk result (λ v. view v ≡ artifact_document names.now finding.now) }
{
    let uri = uri_of(alloc, file_name(names, finding.role))?;
    json!(in alloc; {"uri": uri})
}

/// The file of a finding, and the place in it.
fn physical_document(alloc: Global, names: &FileNames, finding: &Finding) -> Result<Value, NoMemory>
    ensures { IfOk result (λ v. view v ≡ physical_document names.now finding.now) }
{
    let artifact = artifact_document(alloc, names, finding)?;
    let region = region_document(alloc, finding)?;
    json!(in alloc; {"artifactLocation": artifact, "region": region})
}

/// Where a finding is.
fn location_document(alloc: Global, names: &FileNames, finding: &Finding) -> Result<Value, NoMemory>
    ensures { IfOk result (λ v. view v ≡ location_document names.now finding.now) }
{
    let place = physical_document(alloc, names, finding)?;
    json!(in alloc; {"physicalLocation": place})
}

/// What a finding says, and what would be right.
fn result_text(alloc: Global, message: &str, help: &str) -> Result<String, NoMemory>
    ensures { IfOk result (λ text. string_bytes text ≡ result_words message.now help.now) }
{
    if help.is_empty() {
        String::from_str(alloc, message)
    } else {
        format!(in alloc; "{message}: {help}")
    }
}

/// The line of a term of a number.
fn term_line(alloc: Global, detail: &str) -> Result<String, NoMemory>
    ensures { IfOk result (λ text. string_bytes text ≡ codes "\n" ++ detail.now) }
{
    format!(in alloc; "\n{detail}")
}

/// The terms of the numbers, a line each.
fn term_lines(alloc: Global, details: &[String]) -> Result<String, NoMemory>
    ensures { IfOk result (λ text. string_bytes text ≡ term_lines details.now) }
{
    let mut text = String::new(alloc);
    for detail in details {
        let line = term_line(alloc, detail.as_str())?;
        text.push_str(line.as_str())?;
    }
    Ok(text)
}

/// What a finding says, with the terms of its numbers.
fn message_document(alloc: Global, finding: &Finding) -> Result<Value, NoMemory>
    ensures { IfOk result (λ v. view v ≡ message_document finding.now) }
{
    let said = result_text(alloc, finding.message.as_str(), finding.help.as_str())?;
    let terms = term_lines(alloc, &finding.details)?;
    let text = format!(in alloc; "{said}{terms}")?;
    json!(in alloc; {"text": text})
}

/// The level of a result: an error, where it makes the answer no.
fn result_level(finding: &Finding, deny: &Deny) -> &'static str
    ensures { result.now ≡ result_level deny.now finding.now }
{
    if finding.is_denied(deny) {
        "error"
    } else {
        finding.about.level().word()
    }
}

/// That a result is let pass.
fn suppression_document(alloc: Global) -> Result<Value, NoMemory>
    ensures { IfOk result (λ v. view v ≡ suppression_document) }
{
    json!(in alloc; {"kind": "external"})
}

/// Whether a result is let pass, as a list of one or of none.
fn suppressions_array(alloc: Global, is_passed: bool) -> Result<Value, NoMemory>
    ensures { IfOk result (λ v. view v ≡ array (items_of (suppressions is_passed))) }
{
    if is_passed {
        let suppression = suppression_document(alloc)?;
        json!(in alloc; [suppression])
    } else {
        json!(in alloc; [])
    }
}

/// Where a finding is, as a list of one place.
fn locations_array(alloc: Global, names: &FileNames, finding: &Finding) -> Result<Value, NoMemory>
    ensures { IfOk result (λ v. view v ≡ array (items_of (location_document names.now finding.now ∷ []))) }
{
    let location = location_document(alloc, names, finding)?;
    json!(in alloc; [location])
}

/// A finding as a result.
fn result_document(
    alloc: Global,
    names: &FileNames,
    deny: &Deny,
    finding: &Finding,
) -> Result<Value, NoMemory>
    ensures { IfOk result (λ v. view v ≡ result_document names.now deny.now finding.now) }
{
    let suppressions = suppressions_array(alloc, finding.is_passed(deny))?;
    let locations = locations_array(alloc, names, finding)?;
    let message = message_document(alloc, finding)?;
    let name = finding.name;
    let level = result_level(finding, deny);
    json!(in alloc; {
        "ruleId": name, "level": level, "message": message, "locations": locations, "suppressions": suppressions
    })
}

/// The findings as results, in their order.
fn results_array(
    alloc: Global,
    names: &FileNames,
    deny: &Deny,
    findings: &[Finding],
) -> Result<Value, NoMemory>
    ensures { IfOk result (λ v. view v ≡ array (items_of (map (result_document names.now deny.now) findings.now))) }
{
    let mut documents = Vec::new(alloc);
    for finding in findings {
        documents.push(result_document(alloc, names, deny, finding)?)?;
    }
    Ok(Value::Array(documents))
}

/// The name and the version of the tool.
fn driver_document(alloc: Global) -> Result<Value, NoMemory>
    ensures { IfOk result (λ v. view v ≡ driver_document) }
{
    json!(in alloc; {"name": "ddscheck", "version": VERSION})
}

/// The tool that found them.
fn tool_document(alloc: Global) -> Result<Value, NoMemory>
    ensures { IfOk result (λ v. view v ≡ tool_document) }
{
    let driver = driver_document(alloc)?;
    json!(in alloc; {"driver": driver})
}

/// The run that found them.
fn run_document(
    alloc: Global,
    names: &FileNames,
    deny: &Deny,
    findings: &[Finding],
) -> Result<Value, NoMemory>
    ensures { IfOk result (λ v. view v ≡ run_document names.now deny.now findings.now) }
{
    let results = results_array(alloc, names, deny, findings)?;
    let tool = tool_document(alloc)?;
    json!(in alloc; {"tool": tool, "columnKind": "unicodeCodePoints", "results": results})
}

/// That run, as a list of one.
fn runs_array(
    alloc: Global,
    names: &FileNames,
    deny: &Deny,
    findings: &[Finding],
) -> Result<Value, NoMemory>
    ensures { IfOk result (λ v. view v ≡ array (items_of (run_document names.now deny.now findings.now ∷ []))) }
{
    let run = run_document(alloc, names, deny, findings)?;
    json!(in alloc; [run])
}

/// The document of findings.
fn sarif_document(
    alloc: Global,
    names: &FileNames,
    deny: &Deny,
    findings: &[Finding],
) -> Result<Value, NoMemory>
    ensures { IfOk result (λ v. view v ≡ sarif_document names.now deny.now findings.now) }
{
    let runs = runs_array(alloc, names, deny, findings)?;
    let schema = "https://json.schemastore.org/sarif-2.1.0.json";
    json!(in alloc; {"$schema": schema, "version": "2.1.0", "runs": runs})
}

/// The line of the SARIF document of findings. `NoMemory` is the only error.
pub(crate) fn sarif_line(
    alloc: Global,
    names: &FileNames,
    findings: &[Finding],
    deny: &Deny,
) -> Result<String, NoMemory>
    ensures { IfOk result (λ text. string_bytes text ≡ line_of (sarif_document names.now deny.now findings.now)) }
{
    let document = sarif_document(alloc, names, deny, findings)?;
    line_of(alloc, &document)
}
