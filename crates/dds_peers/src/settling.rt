//! Before and after the threads: applications take their seats, and leave what they did.
ghost use Rattle.std.specs.Prelude.{◌≡◌, ◌≤◌, true, [], length, map, All, MatchBool};
ghost use Rattle.std.specs.List.{range_with_len};
ghost use Rattle.std.specs.Vec.{vec_len, vec_capacity};
ghost use Rattle.dds_book.specs.Seat.{new_seat};
ghost use Rattle.dds_apps.specs.Kept.{AreOwners, IsKept, done_by};

use dds_apps::{App, AppEnd, Player};
use dds_base::AppNo;
use dds_book::{Gauge, GaugeSeat, Name, Seat};

// Whether an application's diary is empty.
fn is_fresh<A: App>(app: &A) -> bool
    ensures { MatchBool result ((A.notes app.now).entries ≡ []) ((A.notes app.now).entries ≡ [] → ⊥) }
{
    app.diary().entries().is_empty()
}

/// Whether all diaries are empty.
pub(crate) fn are_fresh<A: App>(apps: &[A]) -> bool
    ensures { MatchBool result (All (λ a. (A.notes a).entries ≡ []) apps.now) (All
        (λ a. (A.notes a).entries ≡ []) apps.now → ⊥) }
{
    for i in 0..apps.len() {
        if !is_fresh(&apps[i]) {
            return false;
        }
    }
    true
}

/// Gives each application its seat at the book and its seat at the gauge.
pub(crate) fn sit<A: App, N: Name>(
    _gauge: &Gauge,
    _fresh: bool,
    apps: Vec<A>,
    seats: Vec<Seat<N>>,
    counters: Vec<GaugeSeat>,
    players: Vec<Player<A, N>>,
) -> Vec<Player<A, N>>
    requires none { (players.items ≡ []) × (vec_len apps ≤ vec_capacity players) }
    requires seats { seats.items ≡ map new_seat (range_with_len 0 (length apps.items)) }
    requires counters { AreOwners _gauge.now (length apps.items) counters.items }
    requires gauge { length apps.items ≤ _gauge.now.apps }
    requires fresh { _fresh ≡ true → All (λ a. (A.notes a).entries ≡ []) apps.items }
    ensures numbers { map (λ p. p.seat.number) result.items ≡ range_with_len 0 (length apps.items) }
    ensures identities { map (λ p. A.identity p.app) result.items ≡ map (λ a. A.identity a) apps.items }
    ensures players { All (λ p. IsKept _gauge.now _fresh p.seat p.counter (A.notes p.app).entries) result.items }
{
    let mut players = players;
    let mut seats = seats.into_iter();
    let mut counters = counters.into_iter();
    let mut number = 0usize;
    for app in apps {
        let Some(seat) = seats.next() else {
            unreachable!()
        };
        let Some(counter) = counters.next() else {
            unreachable!()
        };
        players.push_reserved(Player::new(app, seat, counter));
        number += 1;
    }
    players
}

/// What the applications leave: themselves, how their threads ended, their counts, their seats, and whether one has met
/// a full journal.
#[derive(Drop)]
pub(crate) struct Settled<A: App, N: Name> {
    pub(crate) apps: Vec<A>,
    pub(crate) ends: Vec<AppEnd>,
    pub(crate) counts: Vec<u64>,
    pub(crate) seats: Vec<Seat<N>>,
    pub(crate) is_full: bool,
}

/// Reads each count, and takes the applications from their seats.
pub(crate) fn settle<A: App, N: Name>(
    gauge: &Gauge,
    _fresh: bool,
    players: Vec<Player<A, N>>,
    room: Settled<A, N>,
) -> Settled<A, N>
    requires none { (room.apps.items ≡ []) × (room.ends.items ≡ []) × (room.counts.items ≡ [])
        × (room.seats.items ≡ []) }
    requires room { (vec_len players ≤ vec_capacity room.apps) × (vec_len players ≤ vec_capacity room.ends)
        × (vec_len players ≤ vec_capacity room.counts) × (vec_len players ≤ vec_capacity room.seats) }
    requires players { All (λ p. IsKept gauge.now _fresh p.seat p.counter (A.notes p.app).entries) players.items }
    ensures numbers { map (λ s. s.number) result.seats.items ≡ map (λ p. p.seat.number) players.items }
    ensures identities { map (λ a. A.identity a) result.apps.items ≡ map (λ p. A.identity p.app) players.items }
    ensures diaries { _fresh ≡ true
        → map (λ a. (A.notes a).entries) result.apps.items ≡ map done_by result.seats.items }
    ensures counts { result.counts.items ≡ map (λ s. length (done_by s)) result.seats.items }
    ensures ends { length result.ends.items ≡ length players.items }
{
    let Settled {
        mut apps,
        mut ends,
        mut counts,
        mut seats,
        mut is_full,
    } = room;
    for player in players {
        let Player {
            app,
            seat,
            mut counter,
            end,
            is_full: met,
            ..
        } = player;
        let count = gauge.read(&mut counter, AppNo::new(seat.number()));
        apps.push_reserved(app);
        ends.push_reserved(end);
        counts.push_reserved(count);
        seats.push_reserved(seat);
        is_full |= met;
    }
    Settled {
        apps,
        ends,
        counts,
        seats,
        is_full,
    }
}
