//! A run that loses a sample.

pub(crate) mod crowding;
pub(crate) mod giving_up;
pub(crate) mod history;
pub(crate) mod making;
pub mod refuting;
pub(crate) mod witness;

use dds_base::{Event, KeyNo, ReaderNo, Rejection, Reply};

/// How a strict reader, one that is no watcher, lost a sample.
#[derive(Clone, Copy, Debug, PartialEq, Eq)]
pub enum Loss {
    /// The cache was full, and rejected the arriving sample.
    Rejected(Rejection),
    /// By KEEP_LAST the arriving sample took the place of one that was not taken yet.
    Overwrote,
    /// By KEEP_LAST a writer dropped the sample before it came, and the reader gave its number up when a HEARTBEAT said
    /// so.
    Lost,
}

/// A run at whose end a strict reader loses a sample of this key: each event with its reply. The last event delivers a
/// sample to the reader, or the HEARTBEAT after which it gives a sample up.
#[derive(Drop)]
pub struct Counterexample {
    pub reader: ReaderNo,
    pub key: KeyNo,
    pub loss: Loss,
    pub events: Vec<Event>,
    /// As many as there are events.
    pub replies: Vec<Reply>,
}
