//! The documents of a proposal.
ghost use Rattle.std.specs.Prelude.{◌≡◌, ◌⊎◌, IfErr, IfOk, IsErrOf, string_bytes};
ghost use Rattle.serde_json.specs.View.{view};
ghost use Rattle.dds_answers.specs.Answers.{Gives, IsAnswer};
ghost use Rattle.dds_answers.specs.Outcome.{Outcome};
ghost use Rattle.dds_json.specs.Ends.{EndsProposal, in_json};
ghost use Rattle.dds_json.specs.Line.{line_of};
ghost use Rattle.dds_json.specs.Proposing.{none_document, proposal_document, proposed_document};

use crate::line::line_of;
use dds_answers::{Answer, ToolFault};
use dds_base::NoMemory;
use serde_json::{Value, json};
use std::alloc::Global;

/// The document of a proposal with this text.
fn proposal_document(alloc: Global, text: &str) -> Result<Value, NoMemory>
    ensures { IfOk result (λ v. view v ≡ proposal_document text.now) }
{
    json!(in alloc; {"answer": "yes", "certificate": text})
}

/// The document where none was found.
fn none_document(alloc: Global) -> Result<Value, NoMemory>
    ensures { IfOk result (λ v. view v ≡ none_document) }
{
    json!(in alloc; {"answer": "no"})
}

/// The document of what was proposed, or that nothing was.
fn proposed_document(alloc: Global, answer: &Answer) -> Result<Value, NoMemory>
    ensures { IfOk result (λ v. view v ≡ proposed_document answer.now) }
{
    if answer.is_yes {
        proposal_document(alloc, answer.text.as_str())
    } else {
        none_document(alloc)
    }
}

/// The line of that document.
fn proposed_line(alloc: Global, answer: &Answer) -> Result<String, NoMemory>
    ensures { IfOk result (λ line. string_bytes line ≡ line_of (proposed_document answer.now)) }
{
    let document = proposed_document(alloc, answer)?;
    line_of(alloc, &document)
}

/// An answer of `propose`, as a document. What it has besides stays.
fn restate_in_json(alloc: Global, answer: Answer) -> Result<Answer, ToolFault>
    ensures gives { (end : Outcome) → EndsProposal end → IsAnswer answer end
        → IfOk result (λ told. IsAnswer told (in_json end)) }
    ensures fault { IfErr result (λ e. e ≡ ToolFault.NoMemory) }
{
    match proposed_line(alloc, &answer) {
        Ok(text) => Ok(Answer {
            text,
            is_yes: answer.is_yes,
            note: answer.note,
        }),
        Err(_) => Err(ToolFault::NoMemory),
    }
}

/// What `propose` answers, as a document. What an answer has besides stays, as does a fault. Its own only
/// error is `NoMemory`.
pub(crate) fn answer_proposal_in_json(
    alloc: Global,
    answer: Result<Answer, ToolFault>,
) -> Result<Answer, ToolFault>
    ensures gives { (end : Outcome) → EndsProposal end → Gives answer end → Gives result (in_json end) }
    ensures fault { IfErr result (λ e. (e ≡ ToolFault.NoMemory) ⊎ IsErrOf answer e) }
{
    match answer {
        Ok(answer) => restate_in_json(alloc, answer),
        Err(fault) => Err(fault),
    }
}
