//! The document of needs and why they are there.
ghost use Rattle.std.specs.Prelude.{◌≡◌, IfOk, map, string_bytes};
ghost use Rattle.serde_json.specs.Data.{array};
ghost use Rattle.serde_json.specs.View.{items_of, view};
ghost use Rattle.dds_json.specs.Line.{line_of};
ghost use Rattle.dds_sizing.specs.ReasonsDocument.{reason_document, reasons_document};

use crate::limits_document::{least_document, limit_document, subject_document};
use crate::needs::{Need, are_met, room_of};
use crate::reasons::{Explained, because_of};
use dds_base::NoMemory;
use dds_json::{answer_word, line_of};
use dds_match::Plan;
use serde_json::{Value, json};
use std::alloc::Global;

/// The document of a need with its line.
fn reason_document(
    alloc: Global,
    plan: &Plan,
    explained: &[Explained],
    need: &Need,
) -> Result<Value, NoMemory>
    ensures { IfOk result (λ v. view v ≡ reason_document plan.now explained.now need.now) }
{
    let room = room_of(need);
    let line = because_of(alloc, plan, explained, need)?;
    let because = line.as_str();
    let subject = subject_document(alloc, plan.lists(), need)?;
    let bound = least_document(alloc, room.least)?;
    match &room.limit {
        None => json!(in alloc; {"because": because, "subject": subject, "bound": bound}),
        Some(limit) => {
            let limit = limit_document(alloc, room.least, limit)?;
            json!(in alloc; {"because": because, "subject": subject, "bound": bound, "limit": limit})
        }
    }
}

/// The documents of needs, in their order.
fn reasons_array(
    alloc: Global,
    plan: &Plan,
    explained: &[Explained],
    needs: &[Need],
) -> Result<Value, NoMemory>
    ensures { IfOk result
        (λ v. view v ≡ array (items_of (map (reason_document plan.now explained.now) needs.now))) }
{
    let mut documents = Vec::new(alloc);
    for need in needs {
        documents.push(reason_document(alloc, plan, explained, need)?)?;
    }
    Ok(Value::Array(documents))
}

/// The document of all needs: yes where a bound is known of each.
fn reasons_document(
    alloc: Global,
    plan: &Plan,
    explained: &[Explained],
    needs: &[Need],
) -> Result<Value, NoMemory>
    ensures { IfOk result (λ v. view v ≡ reasons_document plan.now explained.now needs.now) }
{
    let documents = reasons_array(alloc, plan, explained, needs)?;
    let answer = answer_word(are_met(needs));
    json!(in alloc; {"answer": answer, "needs": documents})
}

/// The line of that document. `NoMemory` is the only error.
pub(crate) fn reasons_line(
    alloc: Global,
    plan: &Plan,
    explained: &[Explained],
    needs: &[Need],
) -> Result<String, NoMemory>
    ensures { IfOk result
        (λ text. string_bytes text ≡ line_of (reasons_document plan.now explained.now needs.now)) }
{
    let document = reasons_document(alloc, plan, explained, needs)?;
    line_of(alloc, &document)
}
