//! Pieces of a deployment's XML. Names and partitions have no character that XML escapes.
ghost use Rattle.std.specs.Prelude.{◌≡◌, ◌<◌, ℕ, List, IfOk, string_bytes};
ghost use Rattle.dds_text.specs.Texts.{each_below};
ghost use Rattle.dds_xml.specs.Pieces.{duration_element, library, limit_element, limit_text, nanoseconds_text};
ghost use Rattle.dds_xml.specs.Pieces.{seconds_text};

use dds_qos::Duration;
use dds_text::texts::{TextResult, number_or, text_below};
use std::alloc::Global;

/// So many nanoseconds are a second.
const SECOND: u64 = 1_000_000_000;

/// The whole seconds of a length of time.
fn seconds_text(alloc: Global, duration: Duration) -> TextResult
    ensures { IfOk result (λ text. string_bytes text ≡ seconds_text duration) }
{
    match duration {
        Duration::Nanoseconds(n) => {
            let seconds = n / SECOND;
            format!(in alloc; "{seconds}")
        }
        Duration::Infinite => String::from_str(alloc, "DURATION_INFINITE_SEC"),
    }
}

/// The nanoseconds of a length of time beyond its whole seconds.
fn nanoseconds_text(alloc: Global, duration: Duration) -> TextResult
    ensures { IfOk result (λ text. string_bytes text ≡ nanoseconds_text duration) }
{
    match duration {
        Duration::Nanoseconds(n) => {
            let rest = n % SECOND;
            format!(in alloc; "{rest}")
        }
        Duration::Infinite => String::from_str(alloc, "DURATION_INFINITE_NSEC"),
    }
}

/// A length of time.
pub(crate) fn duration_element(alloc: Global, name: &str, duration: Duration) -> TextResult
    ensures { IfOk result (λ text. string_bytes text ≡ duration_element name.now duration) }
{
    let seconds = seconds_text(alloc, duration)?;
    let rest = nanoseconds_text(alloc, duration)?;
    format!(in alloc;
        "          <{name}>\n            <sec>{seconds}</sec>\n            \
         <nanosec>{rest}</nanosec>\n          </{name}>\n"
    )
}

/// A limit: a number, or that there is none.
fn limit_text(alloc: Global, limit: Option<u32>) -> TextResult
    ensures { IfOk result (λ text. string_bytes text ≡ limit_text limit) }
{
    number_or(alloc, limit, "LENGTH_UNLIMITED")
}

/// A limit of what is kept.
pub(crate) fn limit_element(alloc: Global, name: &str, limit: Option<u32>) -> TextResult
    ensures { IfOk result (λ text. string_bytes text ≡ limit_element name.now limit) }
{
    let limit = limit_text(alloc, limit)?;
    format!(in alloc; "          <{name}>{limit}</{name}>\n")
}

/// The library of this kind and name, with the entries below `n`.
pub(crate) fn library<F: Fn(usize) -> TextResult>(
    alloc: Global,
    kind: &str,
    name: &str,
    n: usize,
    entry: F,
) -> TextResult
    requires { (i : ℕ) → i < n → F.pre entry i }
    ensures { (text_of : ℕ → List ℕ)
        → ((i : ℕ) (r : _) → i < n → F.post entry i r → IfOk r (λ text. string_bytes text ≡ text_of i))
        → IfOk result (λ text. string_bytes text ≡ library kind.now name.now (each_below n text_of)) }
{
    let entries = text_below(alloc, n, entry)?;
    format!(in alloc; "  <{kind} name=\"{name}\">\n{entries}  </{kind}>\n")
}
