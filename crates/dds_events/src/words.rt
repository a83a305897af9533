//! What the words of a text stand for: names by their numbers, and numbers. No word is cut off at a blank: a text is
//! compared with each name that it may begin with, at most 256 of them, so what is found here doesn't rest on names
//! that hold no blanks.
ghost use Rattle.std.specs.Prelude.{◌≡◌, ◌≢◌, ◌<◌, ◌↔◌, ◌^◌, ℕ, true, List, length, IfNone, IfSome};
ghost use Rattle.std.specs.Fmt.{decimal};
ghost use Rattle.dds_text.specs.Names.{name_at};
ghost use Rattle.dds_text.specs.Texts.{three_words, two_words};
ghost use Rattle.dds_events.specs.Words.{IsPlain};

use dds_base::Names;
use dds_text::names::name_at;

/// What stands after this word and a blank, `None` where the text doesn't begin with them.
pub(crate) fn after_word<'a>(text: &'a str, word: &str) -> Option<&'a str>
    ensures some { IfSome result (λ rest. two_words word.now rest.now ≡ text.now) }
    ensures none { IfNone result ((rest : List ℕ) → two_words word.now rest ≢ text.now) }
{
    text.strip_prefix(word)?.strip_prefix(" ")
}

/// Whether no plus stands first, and a zero only where it is all of the text.
fn is_plain(text: &str) -> bool
    ensures { result ≡ true ↔ IsPlain text.now }
{
    let bytes = text.as_bytes();
    bytes.is_empty() || (bytes[0] != b'+' && (bytes[0] != b'0' || bytes.len() == 1))
}

/// The number whose decimal text this is.
#[tactic(auto, using(crate::proofs::WordLaws::decimal_plain, crate::proofs::WordLaws::parsed_none))]
pub(crate) fn number_of(text: &str) -> Option<u64>
    ensures some { IfSome result (λ n. decimal n ≡ text.now) }
    ensures none { IfNone result ((n : ℕ) → n < 2 ^ 64 → decimal n ≢ text.now) }
{
    if !is_plain(text) {
        return None;
    }
    text.parse().ok()
}

/// The number of the name that the text is.
#[tactic(auto, using(crate::proofs::WordLaws::place_some, crate::proofs::WordLaws::place_none))]
fn place_of(names: &Names, text: &str) -> Option<usize>
    ensures within { IfSome result (λ n. n < length names.now) }
    ensures some { IfSome result (λ n. name_at names.now n ≡ text.now) }
    ensures none { IfNone result ((n : ℕ) → n < length names.now → name_at names.now n ≢ text.now) }
{
    names.number(text)
}

/// The number of the name that stands after this word and a blank.
pub(crate) fn place_after(names: &Names, word: &str, text: &str) -> Option<usize>
    ensures within { IfSome result (λ n. n < length names.now) }
    ensures some { IfSome result (λ n. two_words word.now (name_at names.now n) ≡ text.now) }
    ensures none { IfNone result ((n : ℕ) → n < length names.now
        → two_words word.now (name_at names.now n) ≢ text.now) }
{
    place_of(names, after_word(text, word)?)
}

/// The number that stands after this word and a blank.
fn number_after(word: &str, text: &str) -> Option<u64>
    ensures some { IfSome result (λ n. two_words word.now (decimal n) ≡ text.now) }
    ensures none { IfNone result ((n : ℕ) → n < 2 ^ 64 → two_words word.now (decimal n) ≢ text.now) }
{
    number_of(after_word(text, word)?)
}

/// The numbers of the two names that the text is, with a blank between them.
#[tactic(auto, using(crate::proofs::WordLaws::one_more))]
pub(crate) fn pair_of(firsts: &Names, seconds: &Names, text: &str) -> Option<(usize, usize)>
    ensures within { IfSome result (λ x. (x.0 < length firsts.now) × (x.1 < length seconds.now)) }
    ensures some { IfSome result (λ x. two_words (name_at firsts.now x.0) (name_at seconds.now x.1) ≡ text.now) }
    ensures none { IfNone result ((m n : ℕ) → m < length firsts.now → n < length seconds.now
        → two_words (name_at firsts.now m) (name_at seconds.now n) ≢ text.now) }
{
    for first in 0..firsts.len() {
        if let Some(second) = place_after(seconds, name_at(firsts, first), text) {
            return Some((first, second));
        }
    }
    None
}

/// The number of the name, and the number, that the text is, with a blank between them.
#[tactic(auto, using(crate::proofs::WordLaws::one_more))]
fn numbered_of(names: &Names, text: &str) -> Option<(usize, u64)>
    ensures within { IfSome result (λ x. x.0 < length names.now) }
    ensures some { IfSome result (λ x. two_words (name_at names.now x.0) (decimal x.1) ≡ text.now) }
    ensures none { IfNone result ((m n : ℕ) → m < length names.now → n < 2 ^ 64
        → two_words (name_at names.now m) (decimal n) ≢ text.now) }
{
    for name in 0..names.len() {
        if let Some(number) = number_after(name_at(names, name), text) {
            return Some((name, number));
        }
    }
    None
}

/// The same of what stands after this word and a blank.
fn numbered_after(names: &Names, word: &str, text: &str) -> Option<(usize, u64)>
    ensures within { IfSome result (λ x. x.0 < length names.now) }
    ensures some { IfSome result (λ x. three_words word.now (name_at names.now x.0) (decimal x.1) ≡ text.now) }
    ensures none { IfNone result ((m n : ℕ) → m < length names.now → n < 2 ^ 64
        → three_words word.now (name_at names.now m) (decimal n) ≢ text.now) }
{
    numbered_of(names, after_word(text, word)?)
}

/// The numbers of the two names, and the number, that the text is, with blanks between them.
#[tactic(auto, using(crate::proofs::WordLaws::one_more))]
pub(crate) fn numbered_pair_of(
    firsts: &Names,
    seconds: &Names,
    text: &str,
) -> Option<(usize, usize, u64)>
    ensures within { IfSome result (λ x. (x.0 < length firsts.now) × (x.1 < length seconds.now)) }
    ensures some { IfSome result
        (λ x. three_words (name_at firsts.now x.0) (name_at seconds.now x.1) (decimal x.2) ≡ text.now) }
    ensures none { IfNone result ((l m n : ℕ) → l < length firsts.now → m < length seconds.now → n < 2 ^ 64
        → three_words (name_at firsts.now l) (name_at seconds.now m) (decimal n) ≢ text.now) }
{
    for first in 0..firsts.len() {
        if let Some((second, number)) = numbered_after(seconds, name_at(firsts, first), text) {
            return Some((first, second, number));
        }
    }
    None
}
