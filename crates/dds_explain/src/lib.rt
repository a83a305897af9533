//! The lines of a check's answer and its reasons: an acceptance with its bounds and totals, or a refusal; then the
//! numbers behind a refusal, how tight what is accepted is, and what a yes doesn't say.
#![tactic(auto, using(dds_runs::proofs::Sums::total_start, dds_runs::proofs::Sums::total_more))]

mod budgets;
mod explanation;
mod joins;
mod limits;
mod margin;
mod paces;
mod pairs;
mod pieces;
mod places;
mod policies;
mod premises;
mod rows;
mod shown;
mod values;
mod weights;

pub use explanation::{margins, reason};
pub use margin::Budgets;
pub use paces::span_text;
pub use pairs::{mismatch_lines, why_not_text};
pub use premises::premise_lines;
