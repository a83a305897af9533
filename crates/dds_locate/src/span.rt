//! Stretches of a text, and their lines and columns.
ghost use Rattle.std.specs.Prelude.{◌≡◌, ◌≤◌, length, take};
ghost use Rattle.dds_locate.specs.Spans.{begins_character, column_after, line_after, IsWithin};

/// A stretch of a text, by its bytes: from `start` up to `end`, which isn't part of it.
#[derive(Clone, Copy, Debug, PartialEq, Eq)]
pub struct Span {
    pub start: usize,
    pub end: usize,
}

impl Span {
    /// The stretch of a text with so many bytes that comes nearest to these ends.
    pub fn within(length: usize, start: usize, end: usize) -> Span
        ensures { IsWithin length result }
    {
        if length < end {
            return Span {
                start: length,
                end: length,
            };
        }
        if end < start {
            return Span { start: end, end };
        }
        Span { start, end }
    }
}

/// The line of a place of a text, from 1.
pub fn line_at(bytes: &[u8], at: usize) -> usize
    requires { at ≤ length bytes.now }
    ensures { result ≡ line_after (take at bytes.now) }
{
    1 + bytes[..at].iter().filter(|byte| **byte == b'\n').count()
}

/// Whether a byte begins a character, and doesn't continue one.
fn begins_character(byte: u8) -> bool
    ensures { result ≡ begins_character byte }
{
    byte < 128 || 191 < byte
}

/// The column of the place after these bytes.
#[tactic(auto, using(crate::proofs::Columns::column_more))]
fn column_after(before: &[u8]) -> usize
    ensures { result ≡ column_after before.now }
{
    let mut column = 1;
    for byte in before {
        if *byte == b'\n' {
            column = 1;
        } else if begins_character(*byte) {
            column += 1;
        }
    }
    column
}

/// The column of a place of a text, from 1, in characters.
pub fn column_at(bytes: &[u8], at: usize) -> usize
    requires { at ≤ length bytes.now }
    ensures { result ≡ column_after (take at bytes.now) }
{
    column_after(&bytes[..at])
}

/// The line in which a place of a text stands, without its line feed.
pub fn line_span(bytes: &[u8], at: usize) -> Span
    requires { at ≤ length bytes.now }
    ensures { IsWithin (length bytes.now) result }
{
    let start = match bytes[..at].iter().rposition(|byte| *byte == b'\n') {
        Some(last) => last + 1,
        None => 0,
    };
    let end = match bytes[at..].iter().position(|byte| *byte == b'\n') {
        Some(next) => at + next,
        None => bytes.len(),
    };
    Span::within(bytes.len(), start, end)
}
