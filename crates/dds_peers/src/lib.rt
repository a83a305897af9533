//! A checked deployment that runs: boxed applications and participants on threads of their own, over a book and the
//! lossy bus of its domain.
//!
//! An application decides what it does next and hears what came of it; it keeps a diary of both. Each participant moves
//! packets and sends what is due, by a schedule of fates. When the run has ended, each application's diary is its part
//! of the journal of the book, and that journal is a run of the plan: what the checker promises of every run is
//! promised of this one.
#![tactic(auto)]

mod carrier;
mod circle;
mod delays;
mod gauges;
mod run;
mod settling;
mod steady;
mod threads;

pub use dds_apps::{Act, App, AppEnd, Diary, Gate, Limits};
pub use dds_options::Fates;
pub use delays::draw_delays;
pub use gauges::gauge_of;
pub use run::{Outcome, RunFault, run_peers};
pub use steady::Steady;
