//! Why numbers 12 and 14 to 17 refuse an endpoint: the policy that the running profile doesn't have, and what it has
//! instead.
ghost use Rattle.std.specs.Prelude.{◌≡◌, IfOk, string_bytes};
ghost use Rattle.dds_explain.specs.Policies.{best_effort_line, exclusive_line, keeps_last_line, ordered_line};
ghost use Rattle.dds_explain.specs.Policies.{policy_line, source_order_line};

use dds_text::texts::TextResult;
use std::alloc::Global;

/// What an endpoint has that it must not have.
fn policy_line(alloc: Global, endpoint: &str, policy: &str) -> TextResult
    ensures { IfOk result (λ text. string_bytes text ≡ policy_line endpoint.now policy.now) }
{
    format!(in alloc; "because {endpoint} {policy}\n")
}

/// A writer that keeps the last samples alone.
pub(crate) fn keeps_last_line(alloc: Global, endpoint: &str) -> TextResult
    ensures { IfOk result (λ text. string_bytes text ≡ keeps_last_line endpoint.now) }
{
    policy_line(alloc, endpoint, "has history KEEP_LAST, not KEEP_ALL")
}

/// A writer or a reader of exclusive ownership.
pub(crate) fn exclusive_line(alloc: Global, endpoint: &str) -> TextResult
    ensures { IfOk result (λ text. string_bytes text ≡ exclusive_line endpoint.now) }
{
    policy_line(alloc, endpoint, "has ownership EXCLUSIVE, not SHARED")
}

/// A reader that orders by source timestamps.
pub(crate) fn source_order_line(alloc: Global, endpoint: &str) -> TextResult
    ensures { IfOk result (λ text. string_bytes text ≡ source_order_line endpoint.now) }
{
    policy_line(
        alloc,
        endpoint,
        "has destination_order BY_SOURCE_TIMESTAMP, not BY_RECEPTION_TIMESTAMP",
    )
}

/// A reader that asks for order or coherent sets.
pub(crate) fn ordered_line(alloc: Global, endpoint: &str) -> TextResult
    ensures { IfOk result (λ text. string_bytes text ≡ ordered_line endpoint.now) }
{
    policy_line(alloc, endpoint, "asks for ordered or coherent access")
}

/// A writer that is best-effort.
pub(crate) fn best_effort_line(alloc: Global, endpoint: &str) -> TextResult
    ensures { IfOk result (λ text. string_bytes text ≡ best_effort_line endpoint.now) }
{
    policy_line(alloc, endpoint, "has reliability BEST_EFFORT, not RELIABLE")
}
