//! The document of a comparison of endpoints.
ghost use Rattle.std.specs.Prelude.{◌≡◌, ◌++◌, IfErr, IfOk, None, Some, length, map, string_bytes};
ghost use Rattle.serde_json.specs.View.{view};
ghost use Rattle.dds_match.specs.Plan.{network_of};
ghost use Rattle.dds_answers.specs.Answers.{Gives};
ghost use Rattle.dds_answers.specs.Matches.{is_as_intended};
ghost use Rattle.dds_answers.specs.Outcome.{compared};
ghost use Rattle.dds_json.specs.Ends.{in_json};
ghost use Rattle.dds_json.specs.Line.{line_of};
ghost use Rattle.dds_json.specs.Matching.{answer_word, match_document, named_pair, pair_document, pairs, writer_pairs};

use crate::line::line_of;
use dds_answers::{Answer, ToolFault, answer_with, is_as_intended};
use dds_base::{NoMemory, ReaderNo, WriterNo};
use dds_match::{Plan, WhyNot};
use dds_show::reasons::reason_text;
use dds_text::names::{reader_name, writer_name};
use serde_json::{Value, json};
use std::alloc::Global;

/// A writer and a reader that match.
fn matching_pair(alloc: Global, writer: &str, reader: &str) -> Result<Value, NoMemory>
    ensures { IfOk result (λ v. view v ≡ named_pair writer.now reader.now None) }
{
    json!(in alloc; {"writer": writer, "reader": reader, "matches": true})
}

/// A writer and a reader that don't match, for this reason.
fn mismatched_pair(
    alloc: Global,
    writer: &str,
    reader: &str,
    reason: WhyNot,
) -> Result<Value, NoMemory>
    ensures { IfOk result (λ v. view v ≡ named_pair writer.now reader.now (Some reason)) }
{
    let because = reason_text(alloc, reason)?;
    json!(in alloc; {"writer": writer, "reader": reader, "matches": false, "because": because})
}

/// A writer and a reader, and why they don't match, if they don't.
fn pair_document(
    alloc: Global,
    plan: &Plan,
    writer: WriterNo,
    reader: ReaderNo,
) -> Result<Value, NoMemory>
    ensures { IfOk result (λ v. view v ≡ pair_document plan.now writer reader) }
{
    let lists = plan.lists();
    let why_not = plan.why_not(writer, reader);
    let writer = writer_name(lists, writer);
    let reader = reader_name(lists, reader);
    match why_not {
        None => matching_pair(alloc, writer, reader),
        Some(reason) => mismatched_pair(alloc, writer, reader, reason),
    }
}

/// Adds the pairs of a writer, by readers in file order.
fn push_writer(
    alloc: Global,
    documents: &mut Vec<Value>,
    plan: &Plan,
    writer: WriterNo,
    readers: usize,
) -> Result<(), NoMemory>
    ensures { IfOk result
        (λ _. map view documents.new.items ≡ map view documents.old.items ++ writer_pairs plan.now readers writer) }
{
    for r in 0..readers {
        documents.push(pair_document(alloc, plan, writer, ReaderNo::new(r))?)?;
    }
    Ok(())
}

/// The pairs of all writers and readers, in file order.
fn pairs_of(alloc: Global, plan: &Plan) -> Result<Vec<Value>, NoMemory>
    ensures { IfOk result
        (λ documents. map view documents.items
        ≡ pairs plan.now (length plan.now.writers.entries) (length plan.now.readers.entries)) }
{
    let writers = plan.lists().writers();
    let readers = plan.lists().readers();
    let mut documents = Vec::new(alloc);
    for w in 0..writers {
        push_writer(alloc, &mut documents, plan, WriterNo::new(w), readers)?;
    }
    Ok(documents)
}

/// The word for yes or no.
pub fn answer_word(is_yes: bool) -> &'static str
    ensures { result.now ≡ answer_word is_yes }
{
    if is_yes { "yes" } else { "no" }
}

/// The document of a plan's pairs.
fn match_document(alloc: Global, plan: &Plan) -> Result<Value, NoMemory>
    ensures { IfOk result (λ v. view v ≡ match_document plan.now) }
{
    let pairs = Value::Array(pairs_of(alloc, plan)?);
    let answer = answer_word(is_as_intended(plan));
    json!(in alloc; {"answer": answer, "pairs": pairs})
}

/// The line of the document of a plan's pairs.
fn match_line(alloc: Global, plan: &Plan) -> Result<String, NoMemory>
    ensures { IfOk result (λ text. string_bytes text ≡ line_of (match_document plan.now)) }
{
    let document = match_document(alloc, plan)?;
    line_of(alloc, &document)
}

/// The answer to which endpoints of a plan match, which is needed no longer, as a document.
pub(crate) fn answer_pairs_in_json(alloc: Global, plan: Plan) -> Result<Answer, ToolFault>
    ensures gives { Gives result (in_json (compared plan)) }
    ensures memory { IfErr result (λ e. e ≡ ToolFault.NoMemory) }
{
    let answer = answer_with(match_line(alloc, &plan), is_as_intended(&plan));
    drop(plan);
    answer
}
