//! Seats.
ghost use Rattle.std.specs.Prelude.{◌≡◌};

use crate::entry::Entry;
use crate::halves::Half;
use crate::kit::Name;
use std::marker::{Model, PhantomData};

/// What one thread makes events with, at the book of its name. A contract sees its place in the list of seats, and its
/// front: the journal as the seat's last entered call left it.
#[derive(Drop)]
pub struct Seat<N: Name> {
    pub(crate) number: usize,
    pub(crate) half: Half<Entry>,
    pub(crate) of: PhantomData<N>,
}

impl<N: Name> Model for Seat<N> {
    ghost use Rattle.std.specs.Prelude.{◌≡◌, ◌<◌, length};
    ghost use Rattle.dds_book.specs.Seat.{SeatState, table_at};

    ghost Value = { SeatState };

    ghost view = { λ s. record { number = s.number; front = s.half.front } };

    ghost invariant = { λ s. (s.number < length N.tables) × (s.half.table ≡ table_at N.tables s.number) };
}

impl<N: Name> Seat<N> {
    /// The place of the seat in the list of seats, from 0: those of the applications come first, by number, and then
    /// those of the participants.
    pub fn number(&self) -> usize
        ensures { result ≡ self.now.number }
    {
        self.number
    }
}
