//! The document of whether a trace keeps the rules.
ghost use Rattle.std.specs.Prelude.{◌≡◌, IfOk, map, string_bytes};
ghost use Rattle.serde_json.specs.Data.{array};
ghost use Rattle.serde_json.specs.View.{items_of, view};
ghost use Rattle.dds_json.specs.Line.{line_of};
ghost use Rattle.dds_tool.specs.Conforming.{conformance_document, early_document, late_document};
ghost use Rattle.dds_tool.specs.Conforming.{refused_document, shortage_document};

use dds_base::NoMemory;
use dds_conform::{Conformance, Early, Late, Refused, Shortage, field_of};
use dds_json::line_of;
use dds_lists::Deployment;
use dds_text::names::{reader_key, reader_name, rule_text, writer_key, writer_name};
use serde_json::{Value, json};
use std::alloc::Global;

/// So many takes that a rule lacks.
fn shortage_document(alloc: Global, lists: &Deployment, short: &Shortage) -> Result<Value, NoMemory>
    ensures { IfOk result (λ v. view v ≡ shortage_document lists.now short.now) }
{
    let rule = rule_text(alloc, lists, short.rule)?;
    let key = reader_key(lists, short.reader, short.key);
    let reader = reader_name(lists, short.reader);
    let missing = short.missing;
    json!(in alloc; {"rule": rule, "missing": missing, "reader": reader, "key": key})
}

/// What the rules lack, in their order.
fn shortages_array(alloc: Global, lists: &Deployment, short: &[Shortage]) -> Result<Value, NoMemory>
    ensures { IfOk result (λ v. view v ≡ array (items_of (map (shortage_document lists.now) short.now))) }
{
    let mut documents = Vec::new(alloc);
    for one in short {
        documents.push(shortage_document(alloc, lists, one)?)?;
    }
    Ok(Value::Array(documents))
}

/// A write that has no permit, with its line and what the rules lack.
fn refused_document(alloc: Global, lists: &Deployment, refused: &Refused) -> Result<Value, NoMemory>
    ensures { IfOk result (λ v. view v ≡ refused_document lists.now refused.now) }
{
    let short = shortages_array(alloc, lists, &refused.short)?;
    let key = writer_key(lists, refused.writer, refused.key);
    let writer = writer_name(lists, refused.writer);
    let line = refused.line;
    json!(in alloc; {"answer": "no", "line": line, "writer": writer, "key": key, "short": short})
}

/// A write that comes too soon, with its line.
fn early_document(alloc: Global, lists: &Deployment, early: &Early) -> Result<Value, NoMemory>
    ensures { IfOk result (λ v. view v ≡ early_document lists.now early.now) }
{
    let line = early.line;
    let writer = writer_name(lists, early.writer);
    let key = writer_key(lists, early.writer, early.key);
    let reader = reader_name(lists, early.reader);
    let span = field_of(early.within);
    let by = early.by;
    json!(in alloc; {
        "answer": "no", "line": line, "writer": writer, "key": key, "reader": reader, "span": span, "early": by
    })
}

/// A sample that waits too long, with the first line that is too late for it.
fn late_document(alloc: Global, lists: &Deployment, late: &Late) -> Result<Value, NoMemory>
    ensures { IfOk result (λ v. view v ≡ late_document lists.now late.now) }
{
    let line = late.line;
    let reader = reader_name(lists, late.reader);
    let key = reader_key(lists, late.reader, late.key);
    let written = late.written;
    let span = field_of(late.within);
    let by = late.by;
    json!(in alloc; {
        "answer": "no", "line": line, "reader": reader, "key": key, "written": written, "span": span, "late": by
    })
}

/// The document of an answer.
fn conformance_document(
    alloc: Global,
    lists: &Deployment,
    conformance: &Conformance,
) -> Result<Value, NoMemory>
    ensures { IfOk result (λ v. view v ≡ conformance_document lists.now conformance.now) }
{
    match conformance {
        Conformance::Kept => json!(in alloc; {"answer": "yes"}),
        Conformance::NoPermit(refused) => refused_document(alloc, lists, refused),
        Conformance::TooSoon(early) => early_document(alloc, lists, early),
        Conformance::TooLate(late) => late_document(alloc, lists, late),
        Conformance::Unknown => json!(in alloc; {"answer": "no", "unknown": "budget"}),
    }
}

/// The line of that document.
pub(crate) fn conformance_line(
    alloc: Global,
    lists: &Deployment,
    conformance: &Conformance,
) -> Result<String, NoMemory>
    ensures { IfOk result (λ text. string_bytes text ≡ line_of (conformance_document lists.now conformance.now)) }
{
    let document = conformance_document(alloc, lists, conformance)?;
    line_of(alloc, &document)
}
