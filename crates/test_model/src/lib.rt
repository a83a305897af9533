//! A small plain program of the running system, that tests compare the other crates with: each event does what the
//! definitions of the world of runs say, worked out over the whole history each time, with no thought of speed.
//!
//! This is a test oracle and plain on purpose. It is written from the definitions and knows nothing of the cache, the
//! reader, the writer or the ledger. It is proved to be safe and to end; that it does what the definitions say is shown
//! by worked runs alone, and nothing that is proved elsewhere rests on it.
#![tactic(auto)]

mod arrivals;
mod counts;
pub mod layout;
mod notes;
mod reading;
mod rules;
mod sends;
pub mod stepping;
mod takes;
pub mod worked;
pub mod world;
mod writes;
mod writing;

pub use layout::{FlightLayout, Layout, ReaderLayout, RuleLayout, WriterLayout};
pub use stepping::{step, step_as};
pub use world::{BUS_PLACES, World, empty_bus};
