//! The thread of a participant.
ghost use Rattle.std.specs.Prelude.{◌≡◌, true};
ghost use Rattle.dds_book.specs.Owning.{is_participant};

use dds_base::Fate;
use dds_book::{Book, BookFault, Name, Pace, RoundEnd, Seat};
use dds_options::Fates;
use rand_core::utils::NextWord;
use rand_pcg::Pcg32;
use std::sync::Wait;
use std::time::{Clock, Duration};

/// After so many HEARTBEATs in a row, with nothing else sent between them, a participant gives way for longer after
/// each: whoever is to answer may not have the processor, and the events that a participant may make would be used up
/// meanwhile.
const HEARTBEATS: u32 = 8;

/// How many events a short round enters at most.
const SHORT: u32 = 4;

/// A participant's seat, and how far its thread has come.
#[derive(Drop)]
pub(crate) struct Carrier<N: Name> {
    seat: Seat<N>,
    pace: Pace,
    random: Pcg32,
    events: u64,
    is_full: bool,
    ghost carries: { is_participant N.plan seat.number ≡ true },
}

impl<N: Name> Carrier<N> {
    pub(crate) fn new(seat: Seat<N>) -> Carrier<N>
        requires { is_participant N.plan seat.number ≡ true }
    {
        let random = Pcg32::new(0, seat.number() as u64);
        Carrier {
            seat,
            pace: Pace::default(),
            random,
            events: 0,
            is_full: false,
        }
    }

    /// The place of its seat, after those of the applications.
    pub(crate) fn number(&self) -> usize
        ensures { result ≡ self.now.seat.number }
    {
        self.seat.number()
    }

    /// Whether it has met a full journal.
    pub(crate) fn is_full(&self) -> bool
        ensures { result ≡ self.now.is_full }
    {
        self.is_full
    }

    // After how many events the next round ends, if it's a short one. Where packets are lost, rounds that are all alike
    // can lose the same packet each time, so that it never arrives: of these every other one is short, at random.
    fn cut(&mut self, fates: &[Fate]) -> Option<u64> {
        let word = self.random.next_word();
        if word % 2 == 1 || !fates.contains(&Fate::Lose) {
            return None;
        }
        Some(1 + u64::from(word / 2 % SHORT))
    }

    // Whether nobody can answer it: every packet is lost, and for a while it has sent nothing but HEARTBEATs, which it
    // would do until its events are used up.
    fn is_unheard(&self, fates: &[Fate]) -> bool {
        self.pace.heartbeats > HEARTBEATS && fates.iter().all(|&fate| fate == Fate::Lose)
    }

    // Makes a round. It says whether the thread goes on.
    fn round<R: Wait + Clock>(
        &mut self,
        rt: &R,
        book: &Book<N>,
        fates: &Fates,
        pumps: u64,
    ) -> bool {
        let cut = self.cut(fates.as_slice());
        if self.events >= pumps || self.is_unheard(fates.as_slice()) {
            return false;
        }
        let left = pumps - self.events;
        let limit = left.min(cut.unwrap_or(left));
        let round = book.turns(rt, &mut self.seat, &mut self.pace, fates.as_slice(), limit);
        self.events += round.entered;
        match round.end {
            RoundEnd::Full => {
                if cut.is_some() {
                    let _ = book.give_way(rt, round.changes, self.patience());
                }
                true
            }
            RoundEnd::Quiet | RoundEnd::Fault(BookFault::NoMemory) => {
                let _ = book.rest(rt, round.changes);
                true
            }
            RoundEnd::GivesWay => {
                let _ = book.give_way(rt, round.changes, self.patience());
                true
            }
            RoundEnd::Fault(fault) => {
                self.is_full = matches!(fault, BookFault::JournalFull);
                false
            }
        }
    }

    // For how long it gives way to the others.
    fn patience(&self) -> Duration {
        if self.pace.heartbeats > HEARTBEATS {
            Duration::from_millis(1)
        } else {
            Duration::from_micros(100)
        }
    }

    /// Makes rounds, until the book is stopped.
    pub(crate) fn carry<R: Wait + Clock>(
        self,
        rt: &R,
        book: &Book<N>,
        fates: &Fates,
        pumps: u64,
    ) -> Carrier<N> {
        let mut carrier = self;
        for _ in rt.forever() {
            if !carrier.round(rt, book, fates, pumps) {
                break;
            }
        }
        carrier
    }
}
