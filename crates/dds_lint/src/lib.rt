//! What `lint` finds in a plan and a certificate: every condition that fails, not the first alone, rules for which no
//! certificate is accepted, and what a yes doesn't say.
#![tactic(auto, using(crate::proofs::LoopLaws::loop_laws))]

mod conditions;
mod delivery;
pub mod endless;
mod every;
mod firings;
mod joins;
mod limits;
pub mod notes;
mod pacing;
mod pairs;
mod profile;
mod renewal;
mod rows;
mod shown;

pub use conditions::{all_nos, bare_nos};
pub use endless::{EndlessRule, endless_rules};
pub use notes::{Note, all_notes};
