//! The numbers of `ddscheck_status` in the header.
ghost use Rattle.std.specs.Prelude.{◌≡◌, ◌<◌, Some};
ghost use Rattle.dds_guard_c.specs.Status.{fault_status, firing_status, take_status, undo_status, write_status};

use dds_guard::{FiringRefused, OpenFault, TakeRefused, UndoRefused, WriteRefused};

pub(crate) const OK: u32 = 0;

pub(crate) const FAULT: u32 = 1;

pub(crate) const NO_MEMORY: u32 = 2;

pub(crate) const UNKNOWN_NAME: u32 = 3;

pub(crate) const NOT_OPEN: u32 = 4;

pub(crate) const ALREADY_OPEN: u32 = 5;

pub(crate) const FOREIGN: u32 = 6;

pub(crate) const NO_PERMIT: u32 = 7;

pub(crate) const NOT_ENOUGH: u32 = 8;

pub(crate) const COUNT_LIMIT: u32 = 9;

pub(crate) const NOT_WRITTEN: u32 = 13;

pub(crate) fn fault_status(fault: OpenFault) -> u32
    ensures value { result ≡ fault_status fault }
    ensures some { 0 < result }
{
    match fault {
        OpenFault::Deployment(_) => FAULT,
        OpenFault::UnknownApplication => UNKNOWN_NAME,
        OpenFault::NoMemory => NO_MEMORY,
    }
}

pub(crate) fn take_status(refused: TakeRefused) -> u32
    ensures value { result ≡ take_status (Some refused) }
    ensures some { 0 < result }
{
    match refused {
        TakeRefused::Foreign => FOREIGN,
        TakeRefused::CountLimit => COUNT_LIMIT,
    }
}

pub(crate) fn firing_status(refused: FiringRefused) -> u32
    ensures value { result ≡ firing_status (Some refused) }
    ensures some { 0 < result }
{
    match refused {
        FiringRefused::Foreign => FOREIGN,
        FiringRefused::NotEnough => NOT_ENOUGH,
        FiringRefused::CountLimit => COUNT_LIMIT,
    }
}

pub(crate) fn write_status(refused: WriteRefused) -> u32
    ensures value { result ≡ write_status (Some refused) }
    ensures some { 0 < result }
{
    match refused {
        WriteRefused::Foreign => FOREIGN,
        WriteRefused::NoPermit => NO_PERMIT,
    }
}

pub(crate) fn undo_status(refused: UndoRefused) -> u32
    ensures value { result ≡ undo_status (Some refused) }
    ensures some { 0 < result }
{
    match refused {
        UndoRefused::Foreign => FOREIGN,
        UndoRefused::NotWritten => NOT_WRITTEN,
    }
}
