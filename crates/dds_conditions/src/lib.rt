//! The conditions of a check at one place, which the checker asks at all places: whether a weight shows a bound,
//! whether a key lacks the bound that it needs, and what a reader adds to what writes put in flight. A yes rests on
//! these first of all.
#![tactic(auto)]

mod enough;
mod heard;
mod lacking;
mod sizes;

pub use enough::is_enough;
pub use heard::add_heard;
pub use lacking::lacks_bound;
pub use sizes::{readers_of, rules_of, writers_of};
