//! Pieces of a reason: names, limits, rows, and terms of sums.
ghost use Rattle.std.specs.Prelude.{◌≡◌, ℕ, List, [], IfOk, slice_get, string_bytes};
ghost use Rattle.std.specs.Option.{option_map_or};
ghost use Rattle.dds_match.specs.Plan.{network_of};
ghost use Rattle.dds_weights.specs.Views.{certificate_view, row_view};
ghost use Rattle.dds_explain.specs.Pieces.{instance_limit_name, key_line, limit_text, weighed_term};

use dds_base::{ReaderNo, WriterNo};
use dds_check::shown::find_row;
use dds_match::Plan;
use dds_qos::{ReaderLimits, WriterLimits};
use dds_text::texts::{TextResult, number_or};
use dds_weights::{Certificate, Row};
use std::alloc::Global;

/// The limits of a writer, none where there is no such writer.
pub(crate) fn writer_limits(plan: &Plan, writer: WriterNo) -> WriterLimits
    ensures { result ≡ (network_of plan.now).writer_limits writer }
{
    if writer.number() < plan.lists().writers() {
        plan.writer_limits(writer)
    } else {
        WriterLimits {
            keep_last: None,
            max_samples: None,
            max_instances: None,
            max_samples_per_instance: None,
        }
    }
}

/// The limits of a reader, none where there is no such reader.
pub(crate) fn reader_limits(plan: &Plan, reader: ReaderNo) -> ReaderLimits
    ensures { result ≡ (network_of plan.now).reader_limits reader }
{
    if reader.number() < plan.lists().readers() {
        plan.reader_limits(reader)
    } else {
        ReaderLimits {
            keep_last: None,
            max_samples: None,
            max_instances: None,
            max_samples_per_instance: None,
        }
    }
}

/// A limit: a number, or "unlimited".
pub(crate) fn limit_text(alloc: Global, limit: Option<u32>) -> TextResult
    ensures { IfOk result (λ text. string_bytes text ≡ limit_text limit) }
{
    number_or(alloc, limit, "unlimited")
}

/// The policy that the limit of an instance comes from.
pub(crate) fn instance_limit_name(limits: &ReaderLimits) -> &'static str
    ensures { result.now ≡ instance_limit_name limits.now }
{
    match limits.keep_last {
        Some(_) => "depth",
        None => "max_samples_per_instance",
    }
}

/// What the row at this place of a certificate gives, nothing where there is no such row.
pub(crate) fn text_of_row<F: Fn(&Row) -> TextResult>(
    alloc: Global,
    certificate: &Certificate,
    n: usize,
    piece: F,
) -> TextResult
    requires { F.IsAlwaysCallable piece }
    ensures { (text_of : _ → List ℕ)
        → ((row : _) (r : _) → F.post piece row r → IfOk r (λ text. string_bytes text ≡ text_of (row_view row.now)))
        → IfOk result (λ text. string_bytes text
        ≡ option_map_or text_of (slice_get (certificate_view certificate.now).rows n) []) }
{
    match find_row(certificate, n) {
        Some(row) => piece(row),
        None => Ok(String::new(alloc)),
    }
}

/// A key in a line of its own.
pub(crate) fn key_line(alloc: Global, key: &str) -> TextResult
    ensures { IfOk result (λ text. string_bytes text ≡ key_line key.now) }
{
    format!(in alloc; "  {key}\n")
}

/// A term of a weighed sum.
pub(crate) fn weighed_term(
    alloc: Global,
    what: &str,
    count: u128,
    weight: u32,
    key: &str,
    endpoint: &str,
) -> TextResult
    ensures { IfOk result (λ text. string_bytes text ≡ weighed_term what.now count weight key.now endpoint.now) }
{
    format!(in alloc; "  {what} {count} x {weight} of {key} at {endpoint}\n")
}
