//! Why a file of events could not be read.
ghost use Rattle.dds_events.specs.declared.fault.EventsFault.TheVariants.{NoMemory};
ghost use Rattle.std.specs.Prelude.{◌≡◌};

use std::alloc::{AllocError, AllocFailed};

/// What is wrong with a file of events. No kind says that there are too many: each event takes a line, so a file of at
/// most 1,048,576 bytes has fewer.
#[derive(Clone, Copy, Debug, PartialEq, Eq)]
pub enum EventsFaultKind {
    /// The bytes are not UTF-8.
    NotText,
    /// A line says something that is no event of the deployment.
    NotAnEvent,
}

impl EventsFaultKind {
    ghost use Rattle.dds_events.specs.Faults.{number_of, name_of};

    /// The number that users see, 1 and 2 in the order of the kinds.
    pub fn number(self) -> u8
        ensures { result ≡ number_of self }
    {
        match self {
            EventsFaultKind::NotText => 1,
            EventsFaultKind::NotAnEvent => 2,
        }
    }

    /// The word that users see beside the number.
    pub fn name(self) -> &'static str
        ensures { result.now ≡ name_of self }
    {
        match self {
            EventsFaultKind::NotText => "NotText",
            EventsFaultKind::NotAnEvent => "NotAnEvent",
        }
    }
}

/// Why no events are read.
#[derive(Debug, Drop, PartialEq, Eq)]
pub enum EventsFault {
    /// The first fault, and the number of its line, from 1. Where the bytes are no text, that is 0.
    At { kind: EventsFaultKind, line: usize },
    /// Memory ran out.
    NoMemory,
}

impl From<AllocError> for EventsFault {
    ghost from_gives = { λ _ e. e ≡ NoMemory };

    fn from(_e: AllocError) -> EventsFault {
        EventsFault::NoMemory
    }
}

impl<T: Drop> From<AllocFailed<T>> for EventsFault {
    ghost from_gives = { λ _ e. e ≡ NoMemory };

    fn from(_e: AllocFailed<T>) -> EventsFault {
        EventsFault::NoMemory
    }
}
