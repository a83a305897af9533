//! Texts that findings are made of.

use dds_base::NoMemory;
use std::alloc::Global;

/// The lines after the first of a reason, without the blanks before them.
pub(crate) fn later_lines(alloc: Global, reason: &str) -> Result<Vec<String>, NoMemory> {
    let mut later = Vec::new(alloc);
    for (i, line) in reason.lines().enumerate() {
        if 0 < i {
            later.push(String::from_str(alloc, without_blanks(line))?)?;
        }
    }
    Ok(later)
}

/// The lines of a text, without the blanks before them.
pub(crate) fn every_line(alloc: Global, text: &str) -> Result<Vec<String>, NoMemory> {
    let mut lines = Vec::new(alloc);
    for line in text.lines() {
        lines.push(String::from_str(alloc, without_blanks(line))?)?;
    }
    Ok(lines)
}

/// A line without the two blanks that it begins with.
fn without_blanks(line: &str) -> &str {
    match line.strip_prefix("  ") {
        Some(rest) => rest,
        None => line,
    }
}

/// The first line of a reason, without the word `because` before it.
pub(crate) fn first_line(alloc: Global, reason: &str) -> Result<String, NoMemory> {
    let line = match reason.split_once("\n") {
        Some((line, _)) => line,
        None => reason,
    };
    let line = match line.strip_prefix("because ") {
        Some(rest) => rest,
        None => line,
    };
    let text = String::from_str(alloc, line)?;
    Ok(text)
}
