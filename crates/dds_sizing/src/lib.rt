//! What the searches for bounds come to: `propose --thorough` answers a certificate or why there is none, `limits` how
//! much room each reader and each writer's history needs, and why.
#![tactic(auto)]

mod limits;
mod limits_document;
mod needs;
mod needs_text;
mod reasons;
mod reasons_document;
mod shortages;
mod spans;
mod thorough;

pub use limits::{LimitsReport, answer_limits, find_limits};
pub use needs::{Limit, Need, Policy, Room};
pub use reasons::Explained;
pub use shortages::shortage_word;
pub use thorough::answer_search;
