//! Why a document could not be read.
ghost use Rattle.std.specs.Prelude.{◌≡◌, string_bytes};
ghost use Rattle.dds_fields.specs.declared.fault.ReadFault.TheVariants.{NoMemory};

use crate::place::{Place, place_string};
use std::alloc::{AllocError, AllocFailed, Global};

/// What is wrong with a document.
#[derive(Clone, Copy, Debug, PartialEq, Eq)]
pub enum FaultKind {
    NotToml,
    WrongVersion,
    UnknownKey,
    MissingKey,
    WrongKind,
    OutOfRange,
    Duplicate,
    UnknownName,
    BadName,
    Qos,
    TooMany,
    EndpointOwner,
    RuleEntry,
}

impl FaultKind {
    ghost use Rattle.dds_fields.specs.FaultTable.{number_of, name_of};

    /// The number that users see, 1 to 13 in the order of the kinds.
    pub fn number(self) -> u8
        ensures { result ≡ number_of self }
    {
        match self {
            FaultKind::NotToml => 1,
            FaultKind::WrongVersion => 2,
            FaultKind::UnknownKey => 3,
            FaultKind::MissingKey => 4,
            FaultKind::WrongKind => 5,
            FaultKind::OutOfRange => 6,
            FaultKind::Duplicate => 7,
            FaultKind::UnknownName => 8,
            FaultKind::BadName => 9,
            FaultKind::Qos => 10,
            FaultKind::TooMany => 11,
            FaultKind::EndpointOwner => 12,
            FaultKind::RuleEntry => 13,
        }
    }

    /// The word that users see beside the number.
    pub fn name(self) -> &'static str
        ensures { result.now ≡ name_of self }
    {
        match self {
            FaultKind::NotToml => "NotToml",
            FaultKind::WrongVersion => "WrongVersion",
            FaultKind::UnknownKey => "UnknownKey",
            FaultKind::MissingKey => "MissingKey",
            FaultKind::WrongKind => "WrongKind",
            FaultKind::OutOfRange => "OutOfRange",
            FaultKind::Duplicate => "Duplicate",
            FaultKind::UnknownName => "UnknownName",
            FaultKind::BadName => "BadName",
            FaultKind::Qos => "Qos",
            FaultKind::TooMany => "TooMany",
            FaultKind::EndpointOwner => "EndpointOwner",
            FaultKind::RuleEntry => "RuleEntry",
        }
    }
}

/// The first fault, and where it is.
#[derive(Debug, Drop)]
pub struct Fault {
    pub kind: FaultKind,
    pub path: String,
}

/// Why nothing is read.
#[derive(Debug, Drop)]
pub enum ReadFault {
    At(Fault),
    NoMemory,
}

impl From<AllocError> for ReadFault {
    ghost from_gives = { λ _ e. e ≡ NoMemory };

    fn from(_e: AllocError) -> ReadFault {
        ReadFault::NoMemory
    }
}

impl<T: Drop> From<AllocFailed<T>> for ReadFault {
    ghost from_gives = { λ _ e. e ≡ NoMemory };

    fn from(_e: AllocFailed<T>) -> ReadFault {
        ReadFault::NoMemory
    }
}

ghost use Rattle.dds_fields.specs.Gives.{IsAt};
ghost use Rattle.dds_fields.specs.Places.{place_text};

/// The fault at this path.
pub fn refuse(alloc: Global, kind: FaultKind, path: &Place) -> ReadFault
    ensures { IsAt result (kind, place_text path.now) }
{
    match place_string(alloc, path) {
        Ok(path) => ReadFault::At(Fault { kind, path }),
        Err(_) => ReadFault::NoMemory,
    }
}
