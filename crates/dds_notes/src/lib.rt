//! What a yes doesn't say, in words: a line for each note, what it's about, and its terms.
#![tactic(auto)]

mod notes;

pub use notes::{endless_text, note_lines, note_subject, note_terms, note_text};
