//! What the parser of TOML says of a text that it refuses.
ghost use Rattle.std.specs.Prelude.{◌≡◌, IfOk};
ghost use Rattle.dds_answers.specs.Syntax.{IsSyntaxOf, IsSyntaxTold, begins_character, column_after, line_after};

use dds_base::NoMemory;
use dds_options::Detail;
use std::alloc::Global;

/// Where a text is no TOML, and why.
#[derive(Debug, Drop)]
pub struct SyntaxError {
    /// The line, from 1.
    pub line: usize,
    /// The column in that line, from 1, in characters.
    pub column: usize,
    /// What the parser says, in its own words.
    pub message: String,
}

/// The line of the place after these bytes.
fn line_after(before: &[u8]) -> usize
    ensures { result ≡ line_after before.now }
{
    1 + before.iter().filter(|byte| **byte == b'\n').count()
}

/// Whether a byte begins a character, and doesn't continue one.
fn begins_character(byte: u8) -> bool
    ensures { result ≡ begins_character byte }
{
    byte < 128 || 191 < byte
}

/// The column of the place after these bytes.
#[tactic(auto, using(crate::proofs::Columns::column_more))]
fn column_after(before: &[u8]) -> usize
    ensures { result ≡ column_after before.now }
{
    let mut column = 1;
    for byte in before {
        if *byte == b'\n' {
            column = 1;
        } else if begins_character(*byte) {
            column += 1;
        }
    }
    column
}

/// What the parser says of bytes that are no TOML; of others nothing. `NoMemory` is the only error.
fn syntax_error(alloc: Global, bytes: &[u8]) -> Result<Option<SyntaxError>, NoMemory>
    ensures { IfOk result (IsSyntaxOf bytes.now) }
{
    let error = match toml::table_from_slice(alloc, bytes) {
        Ok(table) => {
            drop(table);
            return Ok(None);
        }
        Err(error) => error,
    };
    let Some(span) = error.span() else {
        return Err(NoMemory);
    };
    let before = &bytes[..span.start];
    Ok(Some(SyntaxError {
        line: line_after(before),
        column: column_after(before),
        message: String::from_str(alloc, error.message())?,
    }))
}

/// What is printed about the syntax of a file: nothing where no reason is asked for, or its fault is another one.
/// `NoMemory` is the only error.
pub(crate) fn explain_syntax(
    alloc: Global,
    detail: Detail,
    is_not_toml: bool,
    bytes: &[u8],
) -> Result<Option<SyntaxError>, NoMemory>
    ensures { IfOk result (IsSyntaxTold detail is_not_toml bytes.now) }
{
    match detail {
        Detail::Explained if is_not_toml => syntax_error(alloc, bytes),
        _ => Ok(None),
    }
}
