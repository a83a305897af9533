//! What is under way from the writers of a plan to readers that lag behind by a cap or a lag: how many samples of a key
//! a reader has yet to take, and how many are not available there yet. A writer without a cap and a lag has no flight,
//! and then nothing is counted.
//!
//! The layer above sees for each writer a list of flights, one for each reader and key with a cap or a lag. A write and
//! a take change the flights of one writer. After `open` no call takes memory.
#![tactic(auto)]

pub mod flight;
pub mod flights;

pub use flight::Flight;
pub use flights::Flights;
