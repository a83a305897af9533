//! The messages between a writer and a reader. A message is in range by its constructor; each names its writer and its
//! reader.

ghost use Rattle.std.specs.Prelude.{◌≡◌, ℕ, ◌+◌, ◌<◌, ◌≤◌, MatchOption};
ghost use Rattle.dds_base.specs.Messages.{FitsData, FitsGap, FitsHeartbeat};

use crate::numbers::{ReaderNo, WriterNo};
use crate::sample::Sample;
use crate::sets::SnSet;
use std::marker::Model;

/// DATA: a sample of its writer, for a reader (DDSI-RTPS 2.5, clause 8.3.8.2).
#[derive(Clone, Copy, PartialEq, Eq)]
pub struct DataMsg {
    pub reader: ReaderNo,
    pub sample: Sample,
}

impl Model for DataMsg {
    ghost use Rattle.dds_base.specs.Messages.{DataFor, FitsData};

    ghost Value = { DataFor };

    ghost view = { λ a. record { reader = a.reader; sample = a.sample } };

    ghost inverse = { λ d. record { reader = d.reader; sample = d.sample } };

    ghost invariant = { λ a. FitsData a.sample };
}

impl DataMsg {
    /// The DATA of a sample. `None` exactly where its number isn't 1 to 2^63 - 1.
    pub fn new(reader: ReaderNo, sample: Sample) -> Option<DataMsg>
        ensures { MatchOption result (FitsData sample → ⊥)
            (λ d. FitsData sample × (d ≡ record { reader = reader; sample = sample })) }
    {
        if sample.sn < 1 || sample.sn >= 1 << 63 {
            return None;
        }
        Some(DataMsg { reader, sample })
    }
}

/// GAP: the numbers from `start` to the base of the set less one, and those of the set, are irrelevant to the reader
/// (DDSI-RTPS 2.5, clause 8.3.8.4).
#[derive(Clone, Copy, PartialEq, Eq)]
pub struct GapMsg {
    pub writer: WriterNo,
    pub reader: ReaderNo,
    pub start: u64,
    pub set: SnSet,
}

impl Model for GapMsg {
    ghost use Rattle.dds_base.specs.Messages.{GapFor, FitsGap};

    ghost Value = { GapFor };

    ghost view = { λ a. record { writer = a.writer; reader = a.reader; start = a.start; set = a.set } };

    ghost inverse = { λ g. record { writer = g.writer; reader = g.reader; start = g.start; set = g.set } };

    ghost invariant = { λ a. FitsGap a.start a.set };
}

impl GapMsg {
    /// A GAP. `None` exactly where `start` is 0 or above the base of the set.
    pub fn new(writer: WriterNo, reader: ReaderNo, start: u64, set: SnSet) -> Option<GapMsg>
        ensures { MatchOption result (FitsGap start set → ⊥)
            (λ g. FitsGap start set × (g ≡ record { writer = writer; reader = reader; start = start; set = set })) }
    {
        if start < 1 || start > set.base() {
            return None;
        }
        Some(GapMsg {
            writer,
            reader,
            start,
            set,
        })
    }
}

/// HEARTBEAT: the least number that the writer still has, and the greatest that it wrote (DDSI-RTPS 2.5, clause
/// 8.3.8.6).
#[derive(Clone, Copy, PartialEq, Eq)]
pub struct Heartbeat {
    pub writer: WriterNo,
    pub reader: ReaderNo,
    pub first: u64,
    pub last: u64,
}

impl Model for Heartbeat {
    ghost use Rattle.dds_base.specs.Messages.{HeartbeatFor, FitsHeartbeat};

    ghost Value = { HeartbeatFor };

    ghost view = { λ a. record { writer = a.writer; reader = a.reader; first = a.first; last = a.last } };

    ghost inverse = { λ h. record { writer = h.writer; reader = h.reader; first = h.first; last = h.last } };

    ghost invariant = { λ a. FitsHeartbeat a.first a.last };
}

impl Heartbeat {
    /// A HEARTBEAT. `None` exactly where `first` is 0 or above `last` + 1, or `last` is above 2^63 - 1.
    pub fn new(writer: WriterNo, reader: ReaderNo, first: u64, last: u64) -> Option<Heartbeat>
        ensures { MatchOption result (FitsHeartbeat first last → ⊥)
            (λ h. FitsHeartbeat first last
            × (h ≡ record { writer = writer; reader = reader; first = first; last = last })) }
    {
        if first < 1 || last >= 1 << 63 || first > last + 1 {
            return None;
        }
        Some(Heartbeat {
            writer,
            reader,
            first,
            last,
        })
    }
}

/// ACKNACK: the base of the set is the least number that the reader misses, and it asks for those of the set (DDSI-RTPS
/// 2.5, clause 8.3.8.1). Its set is in range by itself.
#[derive(Clone, Copy, PartialEq, Eq)]
pub struct AckNack {
    pub reader: ReaderNo,
    pub writer: WriterNo,
    pub set: SnSet,
}

/// What the bus carries.
#[derive(Clone, Copy, PartialEq, Eq)]
pub enum Packet {
    Data(DataMsg),
    Gap(GapMsg),
    Heartbeat(Heartbeat),
    AckNack(AckNack),
}
