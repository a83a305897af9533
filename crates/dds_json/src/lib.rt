//! Answers in lines or as JSON documents: what `check`, `match` and `propose` answer, in the style that is asked for,
//! and the document of a fault. A document is built as a `serde_json` value, and its text is that value's, without
//! blanks, on a line of its own.
#![tactic(auto)]

mod checking;
mod fault;
mod line;
mod matching;
mod proposing;
mod structure;
mod styled;

pub use fault::fault_line;
pub use line::line_of;
pub use matching::answer_word;
pub use structure::structure_document;
pub use styled::{pairs_in_style, proposal_in_style, report_in_style};
