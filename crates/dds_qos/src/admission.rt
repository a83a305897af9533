//! What a cache answers on a sample.
ghost use Rattle.std.specs.Prelude.{◌≡◌};
ghost use Rattle.dds_qos.specs.Admission.{is_overwrote, is_reached, is_rejected};

use dds_base::{Rejection, Sample};

/// What a bounded cache answers on a sample.
#[derive(Clone, Copy, Debug, PartialEq, Eq)]
pub enum Admit {
    Stored,
    /// By KEEP_LAST it is stored in the place of this one.
    Overwrote(Sample),
    /// It met a limit, and nothing changed.
    Rejected(Rejection),
}

impl Admit {
    /// Whether the sample met a limit.
    pub fn is_rejected(&self) -> bool
        ensures { result ≡ is_rejected self.now }
    {
        matches!(self, Admit::Rejected(_))
    }

    /// Whether the sample took another's place.
    pub fn is_overwrote(&self) -> bool
        ensures { result ≡ is_overwrote self.now }
    {
        matches!(self, Admit::Overwrote(_))
    }
}

/// Whether so many reach a limit, `None` where there is none: one more would pass it (OMG DDS 1.4, clause 2.2.3.19).
pub fn is_reached(limit: Option<u32>, count: usize) -> bool
    ensures { result ≡ is_reached limit count }
{
    match limit {
        Some(limit) => limit as usize <= count,
        None => false,
    }
}
