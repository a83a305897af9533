//! The faults of a file with words for them.

use dds_base::{Names, NoMemory};
use dds_fields::fault::FaultKind;
use dds_fields::place::{Place, place_string};
use std::alloc::Global;

/// So many faults of a file are listed.
const MOST_FAULTS: usize = 1_000;

/// A fault of a file with words for it.
#[derive(Drop)]
pub struct FileFault {
    /// The number and the name that users see, as `docs/FORMAT.md` lists them for the kind of file. 0 and `MoreFaults`
    /// where there may be more faults than are listed.
    pub number: u8,
    pub name: &'static str,
    /// Where it is, as `rules[2].takes[0].count`.
    pub path: String,
    /// What is wrong, on one line.
    pub message: String,
    /// What would be right, on one line, where that can be said.
    pub help: Option<String>,
}

/// The first fault of a file, as its reader gave it.
#[derive(Clone, Copy)]
pub struct Known<'a> {
    pub number: u8,
    pub name: &'static str,
    pub path: &'a str,
}

/// What a file is.
#[derive(Clone, Copy, PartialEq, Eq)]
pub(crate) enum FileKind {
    Deployment,
    Certificate,
}

fn certificate_number(kind: FaultKind) -> u8 {
    match kind {
        FaultKind::UnknownName => 7,
        FaultKind::Duplicate => 8,
        FaultKind::TooMany => 9,
        FaultKind::BadName => 10,
        _ => kind.number(),
    }
}

impl FileKind {
    /// The number that users see for a kind of fault.
    pub(crate) fn number(self, kind: FaultKind) -> u8 {
        match self {
            FileKind::Deployment => kind.number(),
            FileKind::Certificate => certificate_number(kind),
        }
    }
}

/// The faults that are found so far, none of them twice.
#[derive(Drop)]
pub(crate) struct Faults {
    file: FileKind,
    all: Vec<FileFault>,
    // the name and the path of each, with a blank between them
    told: Names,
    // whether there was one that isn't listed
    has_more: bool,
    /// How much may still be spent on looking for names that are nearly right.
    pub(crate) effort: usize,
}

impl Faults {
    /// No faults yet.
    pub(crate) fn new(alloc: Global, file: FileKind) -> Faults {
        Faults {
            file,
            all: Vec::new(alloc),
            told: Names::new(alloc),
            has_more: false,
            effort: 10_000_000,
        }
    }

    /// How many there are.
    pub(crate) fn len(&self) -> usize {
        self.all.len()
    }

    /// Whether there are so many that no more are listed.
    pub(crate) fn are_many(&self) -> bool {
        self.all.len() >= MOST_FAULTS
    }

    /// Adds a fault, unless one of the kind is there already at the place, or so many are that no more are listed.
    pub(crate) fn add(
        &mut self,
        alloc: Global,
        kind: FaultKind,
        at: &Place,
        message: String,
        help: Option<String>,
    ) -> Result<(), NoMemory> {
        if self.are_many() {
            self.has_more = true;
            return Ok(());
        }
        let path = place_string(alloc, at)?;
        let name = kind.name();
        let told = format!(in alloc; "{name} {path}")?;
        if self.told.number(told.as_str()).is_some() {
            return Ok(());
        }
        self.told.push(told)?;
        self.all.push(FileFault {
            number: self.file.number(kind),
            name,
            path,
            message,
            help,
        })?;
        Ok(())
    }

    /// Adds that there may be more than are listed, if that's so.
    pub(crate) fn tell_more(&mut self, alloc: Global) -> Result<(), NoMemory> {
        if self.has_more {
            self.all.push(FileFault {
                number: 0,
                name: "MoreFaults",
                path: String::new(alloc),
                message: format!(in alloc; "there may be more faults: {MOST_FAULTS} are listed")?,
                help: None,
            })?;
        }
        Ok(())
    }

    /// All of them, in the order in which they were added.
    pub(crate) fn into_all(self) -> Vec<FileFault> {
        self.all
    }
}
