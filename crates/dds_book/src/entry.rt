//! What stands in a journal.
ghost use Rattle.std.specs.Prelude.{◌≡◌};
ghost use Rattle.dds_book.specs.Journal.{is_refused};

use crate::halves::Owned;
use dds_base::{Event, Reply};

/// What a seat did, and what came of it.
#[derive(Clone, Copy, Debug, PartialEq, Eq)]
pub struct Entry {
    /// The place of the seat in the list of seats, from 0.
    pub seat: usize,
    pub event: Event,
    pub reply: Reply,
}

impl Owned for Entry {
    ghost use Rattle.dds_book.specs.Journal.{seat_of};

    ghost owner = { seat_of };
}

/// Whether the event was refused, so that it changed nothing.
pub(crate) fn is_refused(reply: &Reply) -> bool
    ensures { result ≡ is_refused reply.now }
{
    matches!(reply, Reply::Refused(_))
}
