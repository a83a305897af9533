//! What the journal of a run shows afterwards: how full each reader was, and what an application waits for that
//! can do no more. Both are read off the world that the journal leads to, event by event; no other part of the run is
//! looked at.
#![tactic(auto)]

mod ends;
mod explaining;
mod fullest;
mod idling;
mod levels;
mod recap;
mod tally;
mod waits;

pub use ends::all_good;
pub use explaining::explain_run;
