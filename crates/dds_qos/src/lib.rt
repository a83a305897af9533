//! Quality of service of one writer and one reader: the policies, whether an endpoint is consistent, which policies
//! make two endpoints incompatible, what an endpoint may keep, and which endpoints the running profile has. Nothing
//! here takes memory.
//!
//! Its specs also hold the words that speak of one writer or one reader alone (samples, admission, taking, reading,
//! writing and the notes of what to send), on which the cache, the reader, the writer and the world of runs rest.
#![tactic(auto)]

pub mod admission;
pub mod compatibility;
pub mod consistency;
pub mod limits;
pub mod notes;
pub mod policies;
pub mod profile;

pub use admission::Admit;
pub use compatibility::{Policy, PolicySet, incompatible};
pub use consistency::{QosFault, consistent_reader, consistent_writer};
pub use limits::{ReaderLimits, WriterLimits, reader_limits, writer_limits};
pub use notes::Due;
pub use policies::{
    AccessScope, DestinationOrder, Durability, Duration, History, HistoryKind, Liveliness,
    LivelinessKind, Ownership, Policies, Presentation, ReaderQos, Reliability, ResourceLimits,
    WriterQos,
};
pub use profile::{Outside, Profile, outside_reader, outside_writer};
