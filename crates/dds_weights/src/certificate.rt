//! A certificate: rows of whole-number weights, and the bounds and totals that they show.

use dds_base::{KeyNo, ReaderNo, WriterNo};

/// The weight of one key of one endpoint.
#[derive(Clone, Copy, Debug, PartialEq, Eq)]
pub struct Weight<E> {
    /// A writer or a reader.
    pub endpoint: E,
    pub key: KeyNo,
    /// 0 to 4,294,967,295.
    pub weight: u32,
}

/// A place invariant's weights. What is not named weighs 0.
#[derive(Debug, Drop)]
pub struct Row {
    pub name: String,
    /// On samples that were written for a reader and not taken.
    pub samples: Vec<Weight<ReaderNo>>,
    /// On takes that no rule has spent.
    pub takes: Vec<Weight<ReaderNo>>,
    /// On writes that are permitted and not made.
    pub permits: Vec<Weight<WriterNo>>,
}

/// At most so many unread samples of a key at a reader, which a row shows.
#[derive(Clone, Copy, Debug, PartialEq, Eq)]
pub struct Bound {
    pub reader: ReaderNo,
    pub key: KeyNo,
    /// The place of the row, from 0.
    pub row: usize,
    /// 0 to 4,294,967,295 samples.
    pub bound: u32,
}

/// At most so many stored samples at a reader, which a row shows.
#[derive(Clone, Copy, Debug, PartialEq, Eq)]
pub struct Total {
    pub reader: ReaderNo,
    /// The place of the row, from 0.
    pub row: usize,
    /// 0 to 4,294,967,295 samples.
    pub bound: u32,
}

/// A certificate.
#[derive(Debug, Drop)]
pub struct Certificate {
    pub rows: Vec<Row>,
    pub bounds: Vec<Bound>,
    pub totals: Vec<Total>,
}
