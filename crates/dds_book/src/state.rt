//! What lies under the lock of a book: the domain, and the journal of what was done to it.
ghost use Rattle.std.specs.Prelude.{◌≡◌, ◌+◌, ◌<◌, ◌≤◌, ◌^◌, true, false, Some, [], length, if◌then◌else◌, slice_get};
ghost use Rattle.std.specs.Prelude.{slice_set, IfOk, IfErr, map, min, All};
ghost use Rattle.std.specs.List.{range_with_len};
ghost use Rattle.std.specs.Vec.{vec_len, vec_capacity};
ghost use Rattle.dds_book.specs.Halves.{HolderState, entries_by, half_of, holder_of};
ghost use Rattle.dds_book.specs.Journal.{IsFront, IsJournal, changes_in, is_refused, most_entries, seat_of};
ghost use Rattle.dds_book.specs.Kit.{IsKitOf, new_half};
ghost use Rattle.dds_book.specs.Owning.{is_participant};
ghost use Rattle.dds_book.specs.Round.{IsRound, IsTurn, most_events, pace_after};
ghost use Rattle.dds_book.specs.Seat.{new_seat};
ghost use Rattle.dds_book.specs.State.{Enters, Pumped, Refuses, due_at};

use crate::entry::{Entry, is_refused};
use crate::fault::BookFault;
use crate::halves::{Half, Holder};
use crate::journal::Journal;
use crate::kit::{Kit, Name};
use crate::owning::{is_participant, owns, participant_of};
use crate::round::{MOST_EVENTS, Pace, QUIET_TURNS, Round, RoundEnd};
use crate::seat::Seat;
use dds_base::{Event, Fate, NoMemory, Reply};
use dds_domain::Domain;
use std::alloc::Global;
use std::marker::{Model, PhantomData};

/// How many entries a journal has at most.
const MOST: usize = 1 << 20;

/// A domain, and the journal of all that was done to it; the domain always stands for where the journal leads to. It
/// also holds the other half of each seat's pair, so it knows each seat's front. A contract sees whether it is closed,
/// and the entries.
#[derive(Drop)]
pub struct BookState<N: Name> {
    domain: Domain,
    journal: Vec<Entry>,
    holders: Vec<Holder<Entry>>,
    changes: u64,
    closed: bool,
    of: PhantomData<N>,
}

impl<N: Name> Model for BookState<N> {
    ghost use Rattle.dds_book.specs.State.{BookContent, IsBook};

    ghost Value = { BookContent };

    ghost view = { λ s. record { closed = s.closed; entries = s.journal.items } };

    ghost invariant = { λ s. IsBook N.plan N.tables s.journal.items s.domain s.holders.items s.changes };
}

impl<N: Name> BookState<N> {
    /// An open book without entries, of the kit that is named, and a seat for each of its pairs: the applications' come
    /// first, and then the participants'. An `Err` means that memory ran out, and gives the kit back.
    pub fn open(alloc: Global, kit: Kit) -> Result<(BookState<N>, Vec<Seat<N>>), (NoMemory, Kit)>
        requires { IsKitOf N.plan N.tables kit }
        ensures state { IfOk result (λ r. r.0 ≡ record { closed = false; entries = [] }) }
        ensures seats { IfOk result (λ r. r.1.items ≡ map new_seat (range_with_len 0 (length N.tables))) }
        ensures back { IfErr result (λ e. e.1 ≡ kit) }
    {
        let Ok(mut seats) = Vec::with_capacity(alloc, kit.halves.len()) else {
            return Err((NoMemory, kit));
        };
        let Kit {
            domain,
            holders,
            halves,
        } = kit;
        sit(halves, &mut seats);
        let state = BookState {
            domain,
            journal: Vec::new(alloc),
            holders,
            changes: 0,
            closed: false,
            of: PhantomData,
        };
        Ok((state, seats))
    }

    /// Makes an event of a seat and enters it, with what came of it; a refusal by the domain is entered too. A fault
    /// enters nothing and changes nothing: of several the first is returned, and `NoMemory` is the last.
    pub fn enter(&mut self, seat: &mut Seat<N>, event: Event) -> Result<Reply, BookFault>
        ensures entered { IfOk result (λ reply. Enters N.plan self.old self.new seat.old seat.new event reply) }
        ensures refused { IfErr result (λ f. Refuses N.plan self.old self.new seat.old seat.new event f) }
    {
        if self.closed {
            return Err(BookFault::Closed);
        }
        if self.journal.len() >= MOST {
            return Err(BookFault::JournalFull);
        }
        if !owns(self.domain.plan().lists(), seat.number, &event) {
            return Err(BookFault::NotYours);
        }
        if self.journal.reserve(1).is_err() {
            return Err(BookFault::NoMemory);
        }
        let entered = event;
        let Ok(reply) = self.domain.step(event) else {
            return Err(BookFault::NoMemory);
        };
        self.changes = count_change(self.changes, &reply);
        let told = reply;
        self.journal.push_reserved(Entry {
            seat: seat.number,
            event: entered,
            reply,
        });
        note(
            &mut self.holders,
            seat.number,
            &mut seat.half,
            self.journal.as_slice(),
        );
        Ok(told)
    }

    /// Enters what the seat's participant is to do in its turn, as `enter` does, and returns it. `None` where there is
    /// nothing to do, and then nothing is changed. Of a closed book the answer is `Closed`.
    pub fn pump(
        &mut self,
        seat: &mut Seat<N>,
        turn: u64,
        fate: Fate,
    ) -> Result<Option<(Event, Reply)>, BookFault>
        requires { is_participant N.plan seat.old.number ≡ true }
        ensures { Pumped N.plan self.old self.new seat.old seat.new
            (due_at N.plan self.old.entries seat.old.number turn fate) result }
    {
        if self.closed {
            return Err(BookFault::Closed);
        }
        let participant = participant_of(self.domain.plan().lists(), seat.number);
        let Some(event) = self.domain.due(participant, turn, fate) else {
            return Ok(None);
        };
        let told = event;
        let reply = self.enter(seat, event)?;
        Ok(Some((told, reply)))
    }

    // Makes the participant's turn at this pace, and counts it and what was entered.
    fn turn(
        &mut self,
        seat: &mut Seat<N>,
        pace: &mut Pace,
        fates: &[Fate],
    ) -> Result<Option<(Event, Reply)>, BookFault>
        requires participant { is_participant N.plan seat.old.number ≡ true }
        requires fates { 0 < length fates.now }
        ensures turn { IsTurn N.plan fates.now self.old self.new seat.old seat.new pace.old result }
        ensures pace { pace.new ≡ pace_after pace.old result }
    {
        let fate = fates[pace.moved % fates.len()];
        let answer = self.pump(seat, pace.turn, fate);
        pace.turn();
        if let Ok(Some((event, _))) = &answer {
            pace.count(event);
        }
        answer
    }

    /// Makes turns of the seat's participant, one after another, each as `pump` makes it, with the fates in a circle:
    /// as long as there is something to do, fewer events than the limit and than 32 were entered, and nobody else is to
    /// act first. A fault ends the round too; what was entered before stays.
    pub fn turns(
        &mut self,
        seat: &mut Seat<N>,
        pace: &mut Pace,
        fates: &[Fate],
        limit: u64,
    ) -> Round
        requires participant { is_participant N.plan seat.old.number ≡ true }
        requires fates { 0 < length fates.now }
        ensures { IsRound N.plan fates.now (min limit most_events) self.old self.new seat.old seat.new pace.old pace.new
            result }
    {
        let most = limit.min(MOST_EVENTS);
        let mut entered = 0;
        let mut quiet = 0;
        while entered < most && quiet < QUIET_TURNS {
            match self.turn(seat, pace, fates) {
                Ok(None) => quiet += 1,
                Ok(Some((event, _))) => {
                    entered += 1;
                    quiet = 0;
                    if pace.is_excess(&event) {
                        return self.round(entered, RoundEnd::GivesWay);
                    }
                }
                Err(fault) => return self.round(entered, RoundEnd::Fault(fault)),
            }
        }
        let end = if quiet < QUIET_TURNS {
            RoundEnd::Full
        } else {
            RoundEnd::Quiet
        };
        self.round(entered, end)
    }

    // A round that ends now.
    fn round(&self, entered: u64, end: RoundEnd) -> Round
        ensures { result ≡ record { entered = entered; changes = changes_in self.now.entries; end = end } }
    {
        Round {
            entered,
            changes: self.changes,
            end,
        }
    }

    /// From now on each event is refused as `Closed`.
    pub fn stop(&mut self)
        ensures { self.new ≡ record { closed = true; entries = self.old.entries } }
    {
        self.closed = true;
    }

    /// Whether the book was stopped.
    pub fn is_closed(&self) -> bool
        ensures { result ≡ self.now.closed }
    {
        self.closed
    }

    /// Whether the seat is a participant's.
    pub fn is_participant(&self, seat: &Seat<N>) -> bool
        ensures { result ≡ is_participant N.plan seat.now.number }
    {
        is_participant(self.domain.plan().lists(), seat.number)
    }

    /// How many entries are no refusals. What was entered is always a journal of the plan.
    pub fn changes(&self) -> u64
        ensures count { result ≡ changes_in self.now.entries }
        ensures journal { IsJournal N.plan self.now.entries }
    {
        self.changes
    }

    /// The journal. It begins with the front of each of these seats, and has no later entry of that seat.
    pub(crate) fn close(self, seats: Vec<Seat<N>>) -> Journal
        ensures entries { result ≡ self.entries }
        ensures journal { IsJournal N.plan result }
        ensures fronts { All (λ s. IsFront s.number s.front result) seats.items }
    {
        let BookState {
            mut holders,
            journal,
            ..
        } = self;
        for seat in seats {
            let Seat { number, half, .. } = seat;
            same(&mut holders, number, half);
        }
        Journal { entries: journal }
    }
}

// A seat for each half.
fn sit<N: Name>(halves: Vec<Half<Entry>>, seats: &mut Vec<Seat<N>>)
    requires halves { halves.items ≡ map new_half N.tables }
    requires seats { (seats.old.items ≡ []) × (vec_len halves ≤ vec_capacity seats.old) }
    ensures { seats.new.items ≡ map new_seat (range_with_len 0 (length N.tables)) }
{
    let mut number = 0;
    for half in halves {
        seats.push_reserved(Seat {
            number,
            half,
            of: PhantomData,
        });
        number += 1;
    }
}

// Gives both halves of a seat's pair the journal for their front.
fn note(holders: &mut Vec<Holder<Entry>>, number: usize, half: &mut Half<Entry>, journal: &[Entry])
    requires number { number < length holders.old.items }
    requires holder { (h : HolderState Entry) → slice_get holders.old.items number ≡ Some h
        → (half.old.table ≡ h.table) × (h.owner ≡ number)
        × (entries_by seat_of number journal.now ≡ entries_by seat_of number h.front + 1) }
    requires room { length journal.now < 2 ^ 63 }
    ensures front { (h : HolderState Entry) → slice_get holders.old.items number ≡ Some h → half.old.front ≡ h.front }
    ensures half { half.new ≡ half_of half.old.table journal.now }
    ensures holders { holders.new.items
        ≡ slice_set holders.old.items number (holder_of half.old.table number journal.now) }
{
    let holder = &mut holders[number];
    holder.advance(half, journal);
}

// The half's front is the front of the other half of its pair.
fn same(holders: &mut Vec<Holder<Entry>>, number: usize, half: Half<Entry>)
    requires number { number < length holders.old.items }
    requires holder { (h : HolderState Entry) → slice_get holders.old.items number ≡ Some h → half.table ≡ h.table }
    ensures front { (h : HolderState Entry) → slice_get holders.old.items number ≡ Some h → half.front ≡ h.front }
    ensures same { holders.new.items ≡ holders.old.items }
{
    let holder = &mut holders[number];
    holder.compare(half);
}

// One change more, if the event was not refused.
fn count_change(changes: u64, reply: &Reply) -> u64
    requires { changes < 2 ^ 63 }
    ensures { result ≡ changes + (if is_refused reply.now then 0 else 1) }
{
    if is_refused(reply) {
        changes
    } else {
        changes + 1
    }
}
