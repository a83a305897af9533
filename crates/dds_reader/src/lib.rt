//! A stateful reader: it marks each number of its writers once and for good, stores what its cache admits, and gives
//! samples in the order of their writer, never past a number that it has not accounted for (DDSI-RTPS 2.5, clause
//! 8.4.12).
//!
//! The layer above sees its number, limits and filter, which stay; for each writer which numbers are marked, the
//! greatest last number heard and whether an ACKNACK is owed; the stored samples in order of admission; and the keys of
//! all samples ever stored (`specs/Reader.antt`). Each call says what becomes of each of these. A call that answers
//! `Err` found no memory, and changed nothing.
#![tactic(auto)]

mod held;
mod marks;
pub mod notes;
mod ranges;
pub mod reader;

pub use notes::WriterProxy;
pub use reader::Reader;
