//! Why a call of a ledger is refused. A refused call changes nothing.

use thiserror::Error;

/// A count of takes would pass 2^64 - 1.
#[derive(Clone, Copy, Debug, PartialEq, Eq)]
pub struct CountLimit;

/// The writer has no permit for the key.
#[derive(Clone, Copy, Debug, PartialEq, Eq)]
pub struct NoPermit;

/// Why a rule is not fired, in the order in which it is tested.
#[derive(Clone, Copy, Debug, PartialEq, Eq, Error)]
pub enum FireRefused {
    /// 1: a needed take is missing, or the rule needs none: then it has its start alone.
    #[error("a needed take is missing, or the rule needs none")]
    NotEnough,
    /// 2: a count of permits would pass 2^64 - 1.
    #[error("a count of permits would pass 2^64 - 1")]
    CountLimit,
}
