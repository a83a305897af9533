//! Texts of a number that may be missing, and texts made of a text for each number below a bound, or for each element
//! of a list.
ghost use Rattle.std.specs.Prelude.{◌≡◌, ◌<◌, ℕ, List, IfOk, flat_map, string_bytes};
ghost use Rattle.dds_text.specs.Names.{name_at};
ghost use Rattle.dds_text.specs.Texts.{each_below, number_or, start_of};

use crate::names::name_at;
use dds_base::{Endpoint, Names, NoMemory};
use std::alloc::Global;

/// A text, unless memory runs out.
pub type TextResult = Result<String, NoMemory>;

/// A number, or this text where there is none. `NoMemory` is the only error.
pub fn number_or(alloc: Global, number: Option<u32>, none: &str) -> TextResult
    ensures { IfOk result (λ text. string_bytes text ≡ number_or number none.now) }
{
    match number {
        Some(n) => format!(in alloc; "{n}"),
        None => String::from_str(alloc, none),
    }
}

/// What stands before the item at this place of a list: `first` before the first, `next` before each other.
pub fn start_of<'a>(place: usize, first: &'a str, next: &'a str) -> &'a str
    ensures { result.now ≡ start_of first.now next.now place }
{
    if place == 0 { first } else { next }
}

/// The texts of the numbers below `n`, one after another. The only errors are `NoMemory` and what `piece` returns.
pub fn text_below<F: Fn(usize) -> TextResult>(alloc: Global, n: usize, piece: F) -> TextResult
    requires { (i : ℕ) → i < n → F.pre piece i }
    ensures { (text_of : ℕ → List ℕ)
        → ((i : ℕ) (r : _) → i < n → F.post piece i r → IfOk r (λ text. string_bytes text ≡ text_of i))
        → IfOk result (λ text. string_bytes text ≡ each_below n text_of) }
{
    let mut text = String::new(alloc);
    for i in 0..n {
        let next = piece(i)?;
        text.push_str(next.as_str())?;
    }
    Ok(text)
}

/// The texts of these elements, one after another. The only errors are `NoMemory` and what `piece` returns.
pub fn text_of_each<T, F: Fn(&T) -> TextResult>(alloc: Global, xs: &[T], piece: F) -> TextResult
    requires { F.IsAlwaysCallable piece }
    ensures { (text_of : T → List ℕ)
        → ((x : _) (r : _) → F.post piece x r → IfOk r (λ text. string_bytes text ≡ text_of x.now))
        → IfOk result (λ text. string_bytes text ≡ flat_map text_of xs.now) }
{
    let mut text = String::new(alloc);
    for x in xs {
        let next = piece(x)?;
        text.push_str(next.as_str())?;
    }
    Ok(text)
}

/// The texts of the names of these writers or readers, one after another. The only errors are `NoMemory` and what
/// `piece` returns.
pub fn text_of_endpoints<E: Endpoint, F: Fn(&str) -> TextResult>(
    alloc: Global,
    names: &Names,
    endpoints: &[E],
    piece: F,
) -> TextResult
    requires { F.IsAlwaysCallable piece }
    ensures { (text_of : List ℕ → List ℕ)
        → ((name : _) (r : _) → F.post piece name r → IfOk r (λ text. string_bytes text ≡ text_of name.now))
        → IfOk result (λ text. string_bytes text
        ≡ flat_map (λ e. text_of (name_at names.now (E.number_of e))) endpoints.now) }
{
    text_of_each(
        alloc,
        endpoints,
        |endpoint| piece(name_at(names, endpoint.place())),
    )
}
