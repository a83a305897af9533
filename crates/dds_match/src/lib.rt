//! Which endpoints match, and the plan that every later layer rests on.
#![tactic(auto)]

mod caps;
mod key_table;
pub mod matching;
mod neighbours;
mod paces;
pub mod partitions;
pub mod plan;
pub mod planning;
mod right_parts;
mod tables;
mod writes;

pub use matching::WhyNot;
pub use partitions::{lists_match, name_matches};
pub use plan::Plan;
