//! The reliable stateful writer (DDSI-RTPS 2.5, clause 8.4.9). It numbers what is written, keeps each sample until
//! every matched reader acknowledged it, answers DATA, GAP and HEARTBEAT messages, and notes what is to be sent to each
//! reader next.
//!
//! The layer above sees a writer as one state: the matched readers with their filters, acknowledged bases and notes,
//! the kept samples in order of number, the written keys and the count of written numbers. Each call is one change of
//! that state, in the words that runs are defined by.
//!
//! No call walks over what is kept, nor over the span of numbers: a sample is found by halving, and the next one that a
//! reader takes by a search for each key of its filter. Where the oldest sample of a key is dropped the shorter side of
//! the ring moves, and an ACKNACK takes out what it lets go one by one. The memory is what the kept samples take and
//! the written keys.
#![tactic(auto)]

mod history;
mod order;
pub mod proxies;
pub mod refused;
mod sending;
pub mod writer;

pub use proxies::Proxy;
pub use refused::WriteRefused;
pub use writer::Writer;
