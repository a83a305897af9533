//! The book of a run, and the applications that run.

pub use dds_book::{Book, BookFault, BookState, Gauge, GaugeSeat, Journal, Kit, Name, Seat};
pub use dds_peers::{
    Act, App, AppEnd, Diary, Fates, Gate, Limits, Outcome, RunFault, Steady, draw_delays, run_peers,
};
