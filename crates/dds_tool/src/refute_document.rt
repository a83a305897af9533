//! The document of what is known of the runs of a plan.
ghost use Rattle.std.specs.Prelude.{◌≡◌, IfOk, string_bytes};
ghost use Rattle.serde_json.specs.View.{view};
ghost use Rattle.dds_json.specs.Line.{line_of};
ghost use Rattle.dds_tool.specs.Refuting.{known_document, loss_document, unknown_document, unsafe_document};

use crate::refuting::loss_name;
use crate::summary::summary_text;
use dds_base::NoMemory;
use dds_events::lines_text;
use dds_json::{line_of, structure_document};
use dds_lists::Deployment;
use dds_match::Plan;
use dds_search::{Counterexample, Refutation, Unknown};
use dds_sizing::shortage_word;
use dds_text::names::{reader_key, reader_name};
use serde_json::{Value, json};
use std::alloc::Global;

/// The document of a run that loses a sample: the reader, the key, the loss, what sums the run up, and the lines of its
/// events with their replies.
fn loss_document(
    alloc: Global,
    reader: &str,
    key: &str,
    loss: &str,
    summary: &str,
    events: &str,
) -> Result<Value, NoMemory>
    ensures { IfOk result (λ v. view v ≡ loss_document reader.now key.now loss.now summary.now events.now) }
{
    json!(in alloc; {
        "answer": "no", "reader": reader, "key": key, "loss": loss, "summary": summary, "events": events
    })
}

/// The document of a counterexample.
fn unsafe_document(
    alloc: Global,
    lists: &Deployment,
    found: &Counterexample,
) -> Result<Value, NoMemory>
    ensures { IfOk result (λ v. view v ≡ unsafe_document lists.now found.now) }
{
    let key = reader_key(lists, found.reader, found.key);
    let reader = reader_name(lists, found.reader);
    let loss = loss_name(found.loss);
    let summary = summary_text(alloc, lists, &found.events, &found.replies)?;
    let events = lines_text(alloc, lists, &found.events, &found.replies)?;
    loss_document(alloc, reader, key, loss, summary.as_str(), events.as_str())
}

/// The document where neither a certificate nor a run that loses a sample was found.
fn unknown_document(alloc: Global, why: Unknown) -> Result<Value, NoMemory>
    ensures { IfOk result (λ v. view v ≡ unknown_document why) }
{
    match why {
        Unknown::Exhausted => json!(in alloc; {"answer": "no", "unknown": "exhausted"}),
        Unknown::Budget(shortage) => {
            let word = shortage_word(shortage);
            json!(in alloc; {"answer": "no", "spent": word, "unknown": "budget"})
        }
    }
}

/// The document for what is known.
fn known_document(alloc: Global, plan: &Plan, refutation: &Refutation) -> Result<Value, NoMemory>
    ensures { IfOk result (λ v. view v ≡ known_document plan.now refutation.now) }
{
    match refutation {
        Refutation::Safe(_) => json!(in alloc; {"answer": "yes"}),
        Refutation::Structure(no) => structure_document(alloc, plan.lists(), *no),
        Refutation::Unsafe(found) => unsafe_document(alloc, plan.lists(), found),
        Refutation::Unknown(why) => unknown_document(alloc, *why),
    }
}

/// The line of the document for what is known.
pub(crate) fn known_line(
    alloc: Global,
    plan: &Plan,
    refutation: &Refutation,
) -> Result<String, NoMemory>
    ensures { IfOk result (λ text. string_bytes text ≡ line_of (known_document plan.now refutation.now)) }
{
    let document = known_document(alloc, plan, refutation)?;
    line_of(alloc, &document)
}
