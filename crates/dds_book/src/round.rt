//! Rounds: turns of a participant, one after another, in one hold of a book's lock.
ghost use Rattle.std.specs.Prelude.{◌≡◌};
ghost use Rattle.dds_book.specs.Round.{counted, is_excess, next_turn};

use crate::fault::BookFault;
use dds_base::Event;

/// How many events a round enters at most. A hold of the lock and a wake-up cost about as much as ten events, so spread
/// over 32 they are small beside the events; and whoever waits for the lock meanwhile waits about as long as a thread
/// takes to wake.
pub(crate) const MOST_EVENTS: u64 = 32;

/// After so many turns in a row with nothing due there is nothing to do until something changes: in eight turns a
/// participant has looked at each kind of packet.
pub(crate) const QUIET_TURNS: u64 = 8;

/// After so many HEARTBEATs in a row, with nothing else sent between them, a round ends with each: no one else acts
/// while it lasts, so nobody could have answered.
const HEARTBEATS: u32 = 1;

/// How a participant goes on: what its turns count.
#[derive(Clone, Copy, Debug, Default, PartialEq, Eq)]
pub struct Pace {
    /// The number of the next turn. After 2^64 - 1 comes 0.
    pub turn: u64,
    /// How many packets of the bus were moved, by which the fates go. After 2^64 - 1 comes 0.
    pub moved: usize,
    /// How many HEARTBEATs were sent with nothing else sent since, up to 2^32 - 1.
    pub heartbeats: u32,
}

impl Pace {
    // Counts a turn.
    pub(crate) fn turn(&mut self)
        ensures { self.new ≡ next_turn self.old }
    {
        self.turn = self.turn.wrapping_add(1);
    }

    // Counts an event that was entered.
    pub(crate) fn count(&mut self, event: &Event)
        ensures { self.new ≡ counted self.old event.now }
    {
        match event {
            Event::Deliver { .. } | Event::Lose { .. } => self.moved = self.moved.wrapping_add(1),
            Event::SendHeartbeat { .. } => self.heartbeats = self.heartbeats.saturating_add(1),
            _ => self.heartbeats = 0,
        }
    }

    // Whether the event, which was the last to be counted, is a HEARTBEAT in excess.
    pub(crate) fn is_excess(&self, event: &Event) -> bool
        ensures { result ≡ is_excess self.now event.now }
    {
        self.heartbeats > HEARTBEATS && matches!(event, Event::SendHeartbeat { .. })
    }
}

/// Why a round ended.
#[derive(Clone, Copy, Debug, PartialEq, Eq)]
pub enum RoundEnd {
    /// It entered as many events as it may.
    Full,
    /// There is nothing to do until something changes: eight turns in a row had nothing due.
    Quiet,
    /// The participant has sent a HEARTBEAT again, with nothing else sent since the last one: others are to act first.
    GivesWay,
    /// The last turn ended with this fault, and entered nothing.
    Fault(BookFault),
}

/// The result of a round.
#[derive(Clone, Copy, Debug, PartialEq, Eq)]
pub struct Round {
    /// How many events it entered.
    pub entered: u64,
    /// How many entries of the book are no refusals at its end.
    pub changes: u64,
    /// Why it ended.
    pub end: RoundEnd,
}
