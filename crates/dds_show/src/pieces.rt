//! Pieces of a deployment's JSON. Names and partitions have no byte that JSON escapes.
ghost use Rattle.std.specs.Prelude.{◌≡◌, ◌++◌, ◌<◌, ℕ, List, IfOk, map, string_bytes};
ghost use Rattle.dds_text.specs.Texts.{each_below, start_of};
ghost use Rattle.dds_text.specs.Words.{flag_word};
ghost use Rattle.dds_show.specs.Pieces.{comma, duration_text, limit_text, line_start, name_items, quoted};

use dds_base::Names;
use dds_qos::Duration;
use dds_text::names::name_at;
use dds_text::texts::{TextResult, number_or, start_of, text_below};
use std::alloc::Global;

/// The items below `n`, with `first` before the first and `next` before each other.
fn listed_below<F: Fn(usize) -> TextResult>(
    alloc: Global,
    n: usize,
    first: &str,
    next: &str,
    item: F,
) -> TextResult
    requires { (i : ℕ) → i < n → F.pre item i }
    ensures { (item_of : ℕ → List ℕ)
        → ((i : ℕ) (r : _) → i < n → F.post item i r
        → IfOk r (λ text. start_of first.now next.now i ++ string_bytes text ≡ item_of i))
        → IfOk result (λ text. string_bytes text ≡ each_below n item_of) }
{
    text_below(
        alloc,
        n,
        |i|
            requires { F.pre item i }
        {
            let start = start_of(i, first, next);
            let item = item(i)?;
            format!(in alloc; "{start}{item}")
        },
    )
}

/// The items below `n` in one line, with commas between them.
pub(crate) fn items_below<F: Fn(usize) -> TextResult>(
    alloc: Global,
    n: usize,
    item: F,
) -> TextResult
    requires { (i : ℕ) → i < n → F.pre item i }
    ensures { (item_of : ℕ → List ℕ)
        → ((i : ℕ) (r : _) → i < n → F.post item i r → IfOk r (λ text. comma i ++ string_bytes text ≡ item_of i))
        → IfOk result (λ text. string_bytes text ≡ each_below n item_of) }
{
    listed_below(alloc, n, "", ", ", item)
}

/// The items below `n`, each in a line of its own.
pub(crate) fn lines_below<F: Fn(usize) -> TextResult>(
    alloc: Global,
    n: usize,
    line: F,
) -> TextResult
    requires { (i : ℕ) → i < n → F.pre line i }
    ensures { (line_of : ℕ → List ℕ)
        → ((i : ℕ) (r : _) → i < n → F.post line i r → IfOk r (λ text. line_start i ++ string_bytes text ≡ line_of i))
        → IfOk result (λ text. string_bytes text ≡ each_below n line_of) }
{
    listed_below(alloc, n, "\n    ", ",\n    ", line)
}

/// A text in quotes.
pub(crate) fn quoted(alloc: Global, text: &str) -> TextResult
    ensures { IfOk result (λ quote. string_bytes quote ≡ quoted text.now) }
{
    format!(in alloc; "\"{text}\"")
}

/// The names of a list, in quotes.
pub(crate) fn name_items(alloc: Global, names: &Names) -> TextResult
    ensures { IfOk result (λ text. string_bytes text ≡ name_items names.now) }
{
    items_below(alloc, names.len(), |i| quoted(alloc, name_at(names, i)))
}

/// The texts of a list in quotes, with commas between them: as JSON and TOML have them between brackets. `NoMemory` is
/// the only error.
pub fn text_items(alloc: Global, texts: &[String]) -> TextResult
    ensures { IfOk result (λ text. string_bytes text ≡ name_items (map string_bytes texts.now)) }
{
    items_below(alloc, texts.len(), |i| quoted(alloc, texts[i].as_str()))
}

/// A length of time: nanoseconds, or "infinite".
pub(crate) fn duration_text(alloc: Global, duration: Duration) -> TextResult
    ensures { IfOk result (λ text. string_bytes text ≡ duration_text duration) }
{
    match duration {
        Duration::Nanoseconds(n) => format!(in alloc; "{n}"),
        Duration::Infinite => String::from_str(alloc, "\"infinite\""),
    }
}

/// A limit: a number, or "unlimited".
pub(crate) fn limit_text(alloc: Global, limit: Option<u32>) -> TextResult
    ensures { IfOk result (λ text. string_bytes text ≡ limit_text limit) }
{
    number_or(alloc, limit, "\"unlimited\"")
}
