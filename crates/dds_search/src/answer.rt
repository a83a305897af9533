//! What a search answers.

use crate::budget::Shortage;
use dds_check::No;
use dds_propose::targets::Target;
use dds_weights::Certificate;

/// What is known of the bounds that weights show for a key of a reader, or for all its samples.
#[derive(Clone, Copy, Debug, PartialEq, Eq)]
pub enum Least {
    /// Some weights show this bound, the least that one row of weights was found to show. For the samples of a reader a
    /// sum of bounds of its keys may be less.
    Shown(u32),
    /// There is a ray, so that no weights show a bound: firings and free writes that bring more and more samples.
    Unbounded,
    /// The search gave up: a number passed its bits, or the budget ran out.
    Unknown,
}

/// Why no certificate was found.
#[derive(Clone, Copy, Debug, PartialEq, Eq)]
pub enum Missing {
    /// A condition fails that no certificate can change: the deployment has to be changed.
    Structure(No),
    /// No weights were found that show a bound within this limit.
    Limit { target: Target, least: Least },
    /// No weights were found that show a bound within this limit, since this ran out.
    Short { target: Target, shortage: Shortage },
    /// Each limit has weights, but they make no certificate: no 64 rows were found that show all limits, neither among
    /// theirs nor among sums of these.
    Rows,
    /// What was found isn't accepted, for this reason.
    Refused(No),
}

/// The answer of a search.
#[derive(Drop)]
pub enum Found {
    /// A certificate that is accepted.
    Certificate(Certificate),
    /// None, and why.
    Missing(Missing),
}
