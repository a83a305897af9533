//! A deployment that is run, event by event: the writers and readers of a plan, its rule ledger, and a bus between them
//! that may lose, repeat and reorder what it carries.
//!
//! A simulator runs any plan. What is done to it is a run of the plan, and it stands for the world that this run leads
//! to; a reply may report that a reader rejects or overwrites a sample.
//!
//! A domain belongs to a checked plan. It stands for the last world of some run of its plan, and for the notes that the
//! run leaves. The layer above sees that each step that is made is a step of the world, and that the domain stands for
//! the world and the notes after it; so whatever holds of every run of an accepted certificate holds of what a domain
//! does. `Domain::due` names what a participant is to do next, by that world and those notes.
#![tactic(auto)]

mod bus;
mod delivering;
pub mod domain;
mod opening;
mod parts;
mod schedule;
mod sending;
pub mod simulator;
mod stepping;
mod taking;
mod waiting;
mod writing;

pub use domain::Domain;
pub use simulator::Simulator;
