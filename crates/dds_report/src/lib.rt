//! The lines of a report on two files: yes with each bound and total, or no with the number, the name and the subject
//! of the first condition that fails.
#![tactic(auto)]

mod acceptance;
mod refusal;

pub use acceptance::acceptance_text;
pub use refusal::refusal_text;
