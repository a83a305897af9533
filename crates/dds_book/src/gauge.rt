//! Counts that are each raised by their owner alone, while everyone with a seat reads them. A count is one word that
//! changes in single atomic steps, so nobody waits: neither `bump` nor `read` takes a lock, and neither takes memory.
ghost use Rattle.std.specs.Prelude.{◌≡◌, ◌≢◌, ℕ, ◌+◌, ◌-◌, ◌<◌, ◌≤◌, ◌^◌, Some, None, IsSome, [], map, IfOk};
ghost use Rattle.std.specs.Prelude.{MatchResult};
ghost use Rattle.std.specs.List.{range_with_len};
ghost use Rattle.dds_book.specs.Gauge.{fresh_seat, seat_of, seen_at, view_of};

mod steps;

use crate::gauge::steps::{Counts, Look, NewMonitor, NextOwner, OneMore};
use atomic_table::{Seat, Shared, Table};
use dds_base::{AppNo, NoMemory};
use std::alloc::Global;
use std::collections::LinkedList;
use std::marker::Model;

/// The greatest value of a count, which is not raised any more.
const LAST: u64 = (1 << 63) - 1;

/// What a seat knows of the counts: it owns those from `from` to before `to`, which have this value, and it has seen
/// these values by application. No value of it is made: it stands in proofs alone.
pub struct GaugeView {
    pub from: u64,
    pub to: u64,
    pub count: u64,
    pub seen: LinkedList<u64>,
}

/// The count stands at 2^63 - 1, the greatest value that it may have.
#[derive(Clone, Copy, Debug, PartialEq, Eq)]
pub struct GaugeFull;

/// The counts of the applications, 0 at first. A contract sees which gauge it is, by its table, and how many
/// applications it has.
#[derive(Drop)]
pub struct Gauge {
    // the last word is no application's: it makes that there is one
    table: Table<(), GaugeView, usize, Counts, Global>,
}

impl Model for Gauge {
    ghost use Rattle.std.specs.Prelude.{◌≡◌, ◌+◌};
    ghost use Rattle.dds_book.specs.Gauge.{GaugeState};

    ghost Value = { GaugeState };

    ghost view = { λ g. record { table = g.table.shared.table_id; apps = g.table.shared.key } };

    ghost invariant = { λ g. g.table.shared.table_id.words ≡ g.table.shared.key + 1 };
}

/// What one thread raises its count with, or reads with. A contract sees the gauge's table, the application whose count
/// it owns, that count, and what it has read of each application.
#[derive(Drop)]
pub struct GaugeSeat {
    owner: Option<AppNo>,
    count: u64,
    seat: Seat<(), GaugeView>,
}

impl Model for GaugeSeat {
    ghost use Rattle.dds_book.specs.Gauge.{GaugeSeatState, IsSeated};

    ghost Value = { GaugeSeatState };

    ghost view = { λ s. record { table = s.seat.table_id; owner = s.owner; count = s.count; seen = s.seat.me.0.seen } };

    ghost invariant = { λ s. IsSeated s.seat.table_id.words s.owner s.count s.seat.me.0 };
}

impl Gauge {
    /// Counts of 0, and the seats: those of the owners first, by application, and then so many that only read. Nothing
    /// is seen yet. An `Err` means that memory ran out.
    pub fn open(
        alloc: Global,
        apps: usize,
        monitors: usize,
    ) -> Result<(Gauge, Vec<GaugeSeat>), NoMemory>
        ensures apps { IfOk result (λ r. r.0.apps ≡ apps) }
        ensures seats { IfOk result
            (λ r. r.1.items ≡ map (fresh_seat r.0.table apps) (range_with_len 0 (apps + monitors))) }
    {
        open_gauge(alloc, apps, monitors)
    }

    /// Raises the seat's own count by one, and returns it. A full count stays as it is.
    pub fn bump(&self, seat: &mut GaugeSeat) -> Result<u64, GaugeFull>
        requires gauge { seat.old.table ≡ self.now.table }
        requires owner { IsSome seat.old.owner }
        ensures count { IfOk result (λ n. n ≡ seat.old.count + 1) }
        ensures full { MatchResult result (λ _. seat.old.count < 2 ^ 63 - 1) (λ _. seat.old.count ≡ 2 ^ 63 - 1) }
        ensures seat { MatchResult result (λ n. seat.new ≡ record seat.old { count = n }) (λ _. seat.new ≡ seat.old) }
    {
        let Some(app) = seat.owner else {
            unreachable!()
        };
        if seat.count == LAST {
            return Err(GaugeFull);
        }
        let found = self
            .table
            .shared
            .fetch_add::<OneMore>(&mut seat.seat, app.number(), 1);
        seat.count = found + 1;
        Ok(seat.count)
    }

    /// The count of an application, as it stands at some moment of the call: not below what this seat has read of it
    /// before, and of the seat's own application exactly the count.
    pub fn read(&self, seat: &mut GaugeSeat, app: AppNo) -> u64
        requires gauge { seat.old.table ≡ self.now.table }
        requires app { app < self.now.apps }
        ensures later { seen_at seat.old.seen app ≤ result }
        ensures own { seat.old.owner ≡ Some app → result ≡ seat.old.count }
        ensures seen { seen_at seat.new.seen app ≡ result }
        ensures others { (other : ℕ) → other ≢ app → seen_at seat.new.seen other ≡ seen_at seat.old.seen other }
        ensures same { seat.new ≡ record seat.old { seen = seat.new.seen } }
    {
        self.table.shared.load::<Look>(&mut seat.seat, app.number())
    }
}

// A new gauge with its seats.
fn open_gauge(
    alloc: Global,
    apps: usize,
    monitors: usize,
) -> Result<(Gauge, Vec<GaugeSeat>), NoMemory>
    ensures apps { IfOk result (λ r. r.0.apps ≡ apps) }
    ensures seats { IfOk result
        (λ r. r.1.items ≡ map (fresh_seat r.0.table apps) (range_with_len 0 (apps + monitors))) }
{
    let mut words = Vec::from_elem(alloc, 0u64, apps)?;
    words.push(0)?;
    let (table, mut maker) = Table::of_words(alloc, words.as_slice(), &apps)?;
    let mut seats = Vec::new(alloc);
    for app in 0..apps {
        seats.push(owner(&table.shared, &mut maker, app))?;
    }
    for _ in 0..monitors {
        seats.push(monitor(&table.shared, &mut maker))?;
    }
    Ok((Gauge { table }, seats))
}

// The owner of the next count.
fn owner(
    table: &Shared<(), GaugeView, usize, Counts>,
    maker: &mut Seat<(), GaugeView>,
    app: usize,
) -> GaugeSeat
    requires table { (maker.old.table_id ≡ table.now.table_id) × (table.now.table_id.words ≡ table.now.key + 1) }
    requires maker { (maker.old.me ≡ (view_of app table.now.key 0 [], [])) × (app < table.now.key) }
    ensures maker { (maker.new.table_id ≡ table.now.table_id)
        × (maker.new.me ≡ (view_of (app + 1) table.now.key 0 [], [])) }
    ensures seat { result ≡ seat_of table.now.table_id (Some app) }
{
    let seat = table.split_seat::<NextOwner>(maker);
    GaugeSeat {
        owner: Some(AppNo::new(app)),
        count: 0,
        seat,
    }
}

// One that only reads.
fn monitor(
    table: &Shared<(), GaugeView, usize, Counts>,
    maker: &mut Seat<(), GaugeView>,
) -> GaugeSeat
    requires table { (maker.old.table_id ≡ table.now.table_id) × (0 < table.now.table_id.words) }
    ensures maker { (maker.new.table_id ≡ table.now.table_id) × (maker.new.me ≡ maker.old.me) }
    ensures seat { result ≡ seat_of table.now.table_id None }
{
    let seat = table.split_seat::<NewMonitor>(maker);
    GaugeSeat {
        owner: None,
        count: 0,
        seat,
    }
}
