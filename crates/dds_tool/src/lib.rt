//! The command line of `ddscheck`, over any files and any two outputs: what its words ask for, the answer of each
//! command on files (`dds_answers`), and runs. What the words ask for, the text of every answer and its exit status are
//! stated functions of words and files, and, where a deployment runs, of the journal of its run and of how the threads
//! of its applications ended.
#![tactic(auto)]

mod checking;
mod commands;
mod comparing;
mod conformance_document;
mod conforming;
mod linting;
mod outcome;
mod proposing;
mod refute_document;
mod refuting;
mod rendering;
mod replaying;
mod run_document;
mod running;
mod showing;
mod sizing;
mod summary;
mod telling;

pub use commands::tool;
pub use dds_answers::{Counted, Report, ToolFault, answer_check, read_all, report_text};
