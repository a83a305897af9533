//! The plain things that every layer speaks of: names with their numbers, entries under names, the numbers of endpoints
//! and keys, samples, messages, events and replies. A layer above sees `Names` as a list of distinct names, a number as
//! the number itself, and a message as its plain content, which is in range.
#![tactic(auto)]

pub mod events;
pub mod grid;
pub mod limits;
pub mod messages;
pub mod names;
pub mod numbered;
pub mod numbers;
pub mod pairs;
pub mod portion;
pub mod sample;
pub mod section;
pub mod sets;
mod words;

pub use events::{Event, Fate, Refusal, Reply};
pub use messages::{AckNack, DataMsg, GapMsg, Heartbeat, Packet};
pub use names::{NameFault, Names, is_name, is_name_byte};
pub use numbered::{Numbered, are_rising, place_of};
pub use numbers::{AppNo, Endpoint, KeyNo, ParticipantNo, ReaderNo, RuleNo, TopicNo, WriterNo};
pub use pairs::Pairs;
pub use portion::Portion;
pub use sample::{Arrival, Data, Rejection, Sample};
pub use section::Section;
pub use sets::SnSet;

/// Memory ran out: an allocation was refused. Every public call that can run out of memory returns it; one that refuses
/// for other reasons too has a case for it in an error of its own.
pub use std::alloc::AllocError as NoMemory;
