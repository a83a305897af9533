//! The thread of an application.
ghost use Rattle.std.specs.Prelude.{◌≡◌, Some, [], ◌∷◌, ◌++◌, IfOk, OnErr};
ghost use Rattle.dds_apps.specs.Ends.{end_of};
ghost use Rattle.dds_apps.specs.Kept.{IsCounted, done_by};

use crate::app::{Act, App, Gate};
use dds_base::{AppNo, Event, Reply};
use dds_book::{Book, BookFault, Gauge, GaugeSeat, Name, Seat};
use std::sync::Wait;
use std::time::Clock;

/// What ends the threads.
#[derive(Clone, Copy, Debug, PartialEq, Eq)]
pub struct Limits {
    /// How many calls each application makes at most.
    pub calls: u64,
    /// After so many waits in a row in which nothing changed an application ends.
    pub idle_waits: u64,
    /// How many events each participant makes at most.
    pub pumps: u64,
}

/// Why an application's thread ended.
#[derive(Clone, Copy, Debug, PartialEq, Eq)]
pub enum AppEnd {
    /// The application asked for it.
    Stopped,
    /// The application had made as many calls as it may make, and asked for another.
    CallLimit,
    /// Nothing changed in so many waits in a row.
    Idle,
    /// Memory ran out, in the application or in the book.
    NoMemory,
    /// The application asked for an event that isn't its own.
    NotYours,
    /// The book was stopped, or its journal is full. The book of a run is stopped when no application plays any more,
    /// and a run whose journal was full gives a fault in place of its ends; so no end that `run_peers` gives is this
    /// one.
    Cut,
}

/// An application with its two seats, and how far its thread has come.
#[derive(Drop)]
pub struct Player<A: App + Drop, N: Name> {
    /// The application.
    pub app: A,
    /// Its seat at the book, where it makes its calls.
    pub seat: Seat<N>,
    /// Its seat at the gauge, which counts them.
    pub counter: GaugeSeat,
    /// How many calls it has asked for.
    pub calls: u64,
    /// In how many waits in a row nothing changed.
    pub idle: u64,
    /// How many changes of the book it has seen, its own among them.
    pub seen: u64,
    /// Why its thread ended, once it has.
    pub end: AppEnd,
    /// Whether it met a full journal.
    pub is_full: bool,
}

impl<A: App, N: Name> Player<A, N> {
    /// An application that has made no call yet, at its two seats.
    pub fn new(app: A, seat: Seat<N>, counter: GaugeSeat) -> Player<A, N>
        ensures { (result.app ≡ app) × (result.seat ≡ seat) × (result.counter ≡ counter) }
    {
        Player {
            app,
            seat,
            counter,
            calls: 0,
            idle: 0,
            seen: 0,
            end: AppEnd::Stopped,
            is_full: false,
        }
    }

    /// The place of its seat, which is the application's number.
    pub fn number(&self) -> usize
        ensures { result ≡ self.now.seat.number }
    {
        self.seat.number()
    }

    // Makes the call, and counts it. After a fault nothing is counted.
    fn enter<R: Wait>(
        &mut self,
        rt: &R,
        book: &Book<N>,
        gauge: &Gauge,
        event: Event,
    ) -> Result<Reply, BookFault>
        requires counted { IsCounted gauge.now.table self.old.seat self.old.counter }
        ensures counted { IsCounted gauge.now.table self.new.seat self.new.counter }
        ensures number { self.new.seat.number ≡ self.old.seat.number }
        ensures app { self.new.app ≡ self.old.app }
        ensures done { IfOk result (λ reply. done_by self.new.seat ≡ done_by self.old.seat ++ (event, reply) ∷ []) }
        ensures undone { OnErr result (done_by self.new.seat ≡ done_by self.old.seat) }
    {
        let reply = book.call(rt, &mut self.seat, event)?;
        let Ok(_) = gauge.bump(&mut self.counter) else {
            unreachable!()
        };
        Ok(reply)
    }

    // Makes the call, and lets the application hear what came of it. After a fault nothing is heard.
    fn make<R: Wait>(
        &mut self,
        rt: &R,
        book: &Book<N>,
        gauge: &Gauge,
        event: Event,
    ) -> Result<(), BookFault>
        requires pending { (A.notes self.old.app).pending ≡ Some event }
        requires counted { IsCounted gauge.now.table self.old.seat self.old.counter }
        ensures counted { IsCounted gauge.now.table self.new.seat self.new.counter }
        ensures number { self.new.seat.number ≡ self.old.seat.number }
        ensures identity { A.identity self.new.app ≡ A.identity self.old.app }
        ensures diary { done_by self.old.seat ≡ (A.notes self.old.app).entries
            → done_by self.new.seat ≡ (A.notes self.new.app).entries }
    {
        let reply = self.enter(rt, book, gauge, event)?;
        if !matches!(reply, Reply::Refused(_)) {
            self.seen = self.seen.saturating_add(1);
            self.idle = 0;
        }
        self.app.hear(&reply);
        Ok(())
    }

    // Passes the gate and makes the call that the application asks for, unless it has made too many. Returns whether
    // the thread goes on.
    fn call<R: Wait, G: Gate>(
        &mut self,
        rt: &R,
        book: &Book<N>,
        gauge: &Gauge,
        gate: &G,
        calls: u64,
        event: Event,
    ) -> bool
        requires pending { (A.notes self.old.app).pending ≡ Some event }
        requires counted { IsCounted gauge.now.table self.old.seat self.old.counter }
        ensures counted { IsCounted gauge.now.table self.new.seat self.new.counter }
        ensures number { self.new.seat.number ≡ self.old.seat.number }
        ensures identity { A.identity self.new.app ≡ A.identity self.old.app }
        ensures diary { done_by self.old.seat ≡ (A.notes self.old.app).entries
            → done_by self.new.seat ≡ (A.notes self.new.app).entries }
    {
        if self.calls >= calls {
            self.end = AppEnd::CallLimit;
            return false;
        }
        self.calls += 1;
        gate.pass(AppNo::new(self.seat.number()));
        match self.make(rt, book, gauge, event) {
            Ok(()) => true,
            Err(fault) => {
                self.is_full = matches!(fault, BookFault::JournalFull);
                self.end = end_of(fault);
                false
            }
        }
    }

    // Waits for a change. It says whether the thread goes on.
    fn rest<R: Wait + Clock>(&mut self, rt: &R, book: &Book<N>, idle_waits: u64) -> bool
        ensures { (self.new.app ≡ self.old.app) × (self.new.seat ≡ self.old.seat)
            × (self.new.counter ≡ self.old.counter) }
    {
        match book.wait_arrival(rt, self.seen) {
            Ok(Some(seen)) => {
                self.seen = seen;
                self.idle = 0;
                true
            }
            Ok(None) => {
                self.idle = self.idle.saturating_add(1);
                if self.idle >= idle_waits {
                    self.end = AppEnd::Idle;
                    return false;
                }
                true
            }
            Err(fault) => {
                self.end = end_of(fault);
                false
            }
        }
    }

    // Asks the application once. It says whether the thread goes on.
    fn turn<R: Wait + Clock, G: Gate>(
        &mut self,
        rt: &R,
        book: &Book<N>,
        gauge: &Gauge,
        gate: &G,
        limits: Limits,
    ) -> bool
        requires counted { IsCounted gauge.now.table self.old.seat self.old.counter }
        ensures counted { IsCounted gauge.now.table self.new.seat self.new.counter }
        ensures number { self.new.seat.number ≡ self.old.seat.number }
        ensures identity { A.identity self.new.app ≡ A.identity self.old.app }
        ensures diary { done_by self.old.seat ≡ (A.notes self.old.app).entries
            → done_by self.new.seat ≡ (A.notes self.new.app).entries }
    {
        let Ok(act) = self.app.act() else {
            self.end = AppEnd::NoMemory;
            return false;
        };
        match act {
            Act::Stop => {
                self.end = AppEnd::Stopped;
                false
            }
            Act::Rest => self.rest(rt, book, limits.idle_waits),
            Act::Do(event) => self.call(rt, book, gauge, gate, limits.calls, event),
        }
    }

    /// Lets the application play until its thread ends.
    pub fn play<R: Wait + Clock, G: Gate>(
        self,
        rt: &R,
        book: &Book<N>,
        gauge: &Gauge,
        gate: &G,
        limits: Limits,
    ) -> Player<A, N>
        requires counted { IsCounted gauge.now.table self.seat self.counter }
        ensures counted { IsCounted gauge.now.table result.seat result.counter }
        ensures number { result.seat.number ≡ self.seat.number }
        ensures identity { A.identity result.app ≡ A.identity self.app }
        ensures diary { done_by self.seat ≡ (A.notes self.app).entries
            → done_by result.seat ≡ (A.notes result.app).entries }
    {
        let mut player = self;
        for _ in rt.forever() {
            if !player.turn(rt, book, gauge, gate, limits) {
                break;
            }
        }
        player
    }
}

// How an application's thread ends after a fault of the book.
fn end_of(fault: BookFault) -> AppEnd
    ensures { result ≡ end_of fault }
{
    match fault {
        BookFault::Closed | BookFault::JournalFull => AppEnd::Cut,
        BookFault::NotYours => AppEnd::NotYours,
        BookFault::NoMemory => AppEnd::NoMemory,
    }
}
