//! Why a guard isn't opened, and why a call of one is refused. A refused call changes nothing.
ghost use Rattle.std.specs.Prelude.{◌≡◌};
ghost use Rattle.dds_guard.specs.Refusals.{firing_refused};

use dds_deploy::FaultKind;
use dds_rules::FireRefused;

/// Why no guard is opened.
#[derive(Clone, Copy, Debug, PartialEq, Eq)]
pub enum OpenFault {
    /// The deployment file has a fault, the first one is of this kind.
    Deployment(FaultKind),
    /// The deployment has no application of this name.
    UnknownApplication,
    /// Memory ran out.
    NoMemory,
}

/// Why a take isn't counted, in the order in which it is tested.
#[derive(Clone, Copy, Debug, PartialEq, Eq)]
pub enum TakeRefused {
    /// 1: the application has no such reader, or the reader has no such key in its filter.
    Foreign,
    /// 2: 2^64 - 1 takes of the key are unspent.
    CountLimit,
}

/// Why a rule isn't fired, in the order in which it is tested.
#[derive(Clone, Copy, Debug, PartialEq, Eq)]
pub enum FiringRefused {
    /// 1: the application has no such rule.
    Foreign,
    /// 2: a needed take is missing, or the rule needs none: then it has its start alone.
    NotEnough,
    /// 3: a count of permits would pass 2^64 - 1.
    CountLimit,
}

/// Why a sample may not be written, in the order in which it is tested.
#[derive(Clone, Copy, Debug, PartialEq, Eq)]
pub enum WriteRefused {
    /// 1: the application has no such writer.
    Foreign,
    /// 2: there is no permit, the write isn't free, and no rule that can be fired gives a permit.
    NoPermit,
}

/// Why a write isn't taken back, in the order in which it is tested.
#[derive(Clone, Copy, Debug, PartialEq, Eq)]
pub enum UndoRefused {
    /// 1: the application has no such writer.
    Foreign,
    /// 2: the last write that used a permit isn't one of this writer and key, or is taken back already.
    NotWritten,
}

/// The refusal of a ledger, as a guard reports it.
pub(crate) fn firing_refused(refused: FireRefused) -> FiringRefused
    ensures { result ≡ firing_refused refused }
{
    match refused {
        FireRefused::NotEnough => FiringRefused::NotEnough,
        FireRefused::CountLimit => FiringRefused::CountLimit,
    }
}
