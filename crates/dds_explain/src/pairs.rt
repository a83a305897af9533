//! Why numbers 10 and 11 refuse a pair.
ghost use Rattle.std.specs.Prelude.{◌≡◌, [], IfOk, string_bytes};
ghost use Rattle.std.specs.Option.{option_map_or};
ghost use Rattle.dds_match.specs.Matching.{why_not};
ghost use Rattle.dds_show.specs.Reasons.{reason_words};
ghost use Rattle.dds_explain.specs.Pairs.{mismatch_lines, not_intended_line, not_matched_lines, reason_lines};

use crate::places::{domain_line, partitions_line, topic_line};
use crate::values::value_lines;
use dds_base::{ReaderNo, WriterNo};
use dds_match::{Plan, WhyNot};
use dds_show::reasons::reason_text;
use dds_text::names::{reader_name, writer_name};
use dds_text::texts::TextResult;
use std::alloc::Global;

/// Why a pair doesn't match, in words: none where there is no reason. `NoMemory` is the only error.
pub fn why_not_text(alloc: Global, plan: &Plan, writer: WriterNo, reader: ReaderNo) -> TextResult
    ensures { IfOk result (λ text. string_bytes text ≡ option_map_or reason_words (why_not plan.now writer reader) []) }
{
    match plan.why_not(writer, reader) {
        Some(reason) => reason_text(alloc, reason),
        None => Ok(String::new(alloc)),
    }
}

/// What a writer and a reader have that keeps them apart: of each its domain, its topic or its partitions, or of
/// policies what is offered and what is requested.
fn reason_lines(
    alloc: Global,
    plan: &Plan,
    writer: WriterNo,
    reader: ReaderNo,
    reason: WhyNot,
) -> TextResult
    ensures { IfOk result (λ text. string_bytes text ≡ reason_lines plan.now writer reader reason) }
{
    match reason {
        WhyNot::OtherDomain => domain_line(alloc, plan.lists(), writer, reader),
        WhyNot::OtherTopic => topic_line(alloc, plan.lists(), writer, reader),
        WhyNot::Partitions => partitions_line(alloc, plan.lists(), writer, reader),
        WhyNot::Policies(set) => value_lines(alloc, plan, set, writer, reader),
    }
}

/// What a writer and a reader have that keeps them apart, none where they match. `NoMemory` is the only error.
pub fn mismatch_lines(alloc: Global, plan: &Plan, writer: WriterNo, reader: ReaderNo) -> TextResult
    ensures { IfOk result (λ text. string_bytes text ≡ mismatch_lines plan.now writer reader) }
{
    match plan.why_not(writer, reader) {
        Some(reason) => reason_lines(alloc, plan, writer, reader, reason),
        None => Ok(String::new(alloc)),
    }
}

/// A connection whose endpoints don't match, and why.
pub(crate) fn not_matched_lines(
    alloc: Global,
    plan: &Plan,
    writer: WriterNo,
    reader: ReaderNo,
) -> TextResult
    ensures { IfOk result (λ text. string_bytes text ≡ not_matched_lines plan.now writer reader) }
{
    let reason = why_not_text(alloc, plan, writer, reader)?;
    let terms = mismatch_lines(alloc, plan, writer, reader)?;
    let writer = writer_name(plan.lists(), writer);
    let reader = reader_name(plan.lists(), reader);
    format!(in alloc; "because {writer} and {reader} don't match: {reason}\n{terms}")
}

/// A pair that matches and is no connection.
pub(crate) fn not_intended_line(
    alloc: Global,
    plan: &Plan,
    writer: WriterNo,
    reader: ReaderNo,
) -> TextResult
    ensures { IfOk result (λ text. string_bytes text ≡ not_intended_line plan.now writer reader) }
{
    let writer = writer_name(plan.lists(), writer);
    let reader = reader_name(plan.lists(), reader);
    format!(in alloc; "because {writer} and {reader} match, and no connection names them\n")
}
