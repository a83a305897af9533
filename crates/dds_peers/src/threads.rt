//! The threads of a run, in one scope.
ghost use Rattle.std.specs.Prelude.{◌≡◌, ◌+◌, ◌≤◌, true, [], length, map, All};
ghost use Rattle.std.specs.List.{range_with_len};
ghost use Rattle.std.specs.Vec.{vec_len, vec_capacity};
ghost use Rattle.dds_apps.specs.Kept.{IsKept};

use crate::carrier::Carrier;
use crate::delays::wait_to_begin;
use dds_apps::{App, Gate, Limits, Player};
use dds_book::{Book, Gauge, Name};
use dds_options::Fates;
use std::snapshot::Snapshot;
use std::sync::Wait;
use std::thread;
use std::thread::{JoinHandle, Promise, PromisedHandle, Scope, Threads};
use std::time::Clock;

/// What all threads of a run share: the gauge on which the applications' calls are counted, the gate that each of these
/// calls passes, the fates of packets, when the threads begin, and what ends them.
#[derive_where(Clone, Copy)]
pub(crate) struct Shared<'r, G> {
    pub(crate) gauge: &'r Gauge,
    pub(crate) gate: &'r G,
    pub(crate) fates: &'r Fates,
    pub(crate) delays: &'r [u16],
    pub(crate) limits: Limits,
}

/// What an application's thread promises: it gives back the application that it was given, at the seat of this
/// number; its count at this gauge and its diary, if it was empty at first, match what was done.
#[derive(Drop)]
pub(crate) struct Plays<A> {
    app: usize,
    fresh: bool,
    gauge: Snapshot<Gauge>,
    was: Snapshot<A>,
}

impl<A: App, N: Name> Promise<Player<A, N>> for Plays<A> {
    ghost use Rattle.std.specs.Prelude.{◌≡◌};
    ghost use Rattle.dds_apps.specs.Kept.{IsKept};

    ghost kept_by = { λ p r. (r.seat.number ≡ p.app) × (A.identity r.app ≡ A.identity p.was.value)
        × IsKept p.gauge.value p.fresh r.seat r.counter (A.notes r.app).entries };
}

/// The handle of an application's thread.
pub(crate) type Playing<A, N> = PromisedHandle<Player<A, N>, Plays<A>>;

// Starts a thread for each application, until one can't be made. Returns whether all were.
fn start_players<
    's,
    E: 's,
    A: App + Send + 's,
    N: Name + Send + Sync + 's,
    R: Wait + Clock + Sync + 's,
    G: Gate + 's,
>(
    scope: &'s Scope<'s, E>,
    rt: &'s R,
    book: &'s Book<N>,
    shared: Shared<'s, G>,
    fresh: bool,
    players: Vec<Player<A, N>>,
    handles: Vec<Playing<A, N>>,
) -> (Vec<Playing<A, N>>, bool)
    requires none { (handles.items ≡ []) × (vec_len players ≤ vec_capacity handles) }
    requires players { All (λ p. IsKept shared.gauge.now fresh p.seat p.counter (A.notes p.app).entries) players.items }
    requires numbers { map (λ p. p.seat.number) players.items ≡ range_with_len 0 (length players.items) }
    ensures all { result.1 ≡ true → map (λ h. h.promise.app) result.0.items ≡ range_with_len 0 (length players.items) }
    ensures identities { result.1 ≡ true
        → map (λ h. A.identity h.promise.was.value) result.0.items ≡ map (λ p. A.identity p.app) players.items }
    ensures len { vec_len result.0 ≤ vec_len players }
    ensures promises { All (λ h. (h.promise.gauge.value ≡ shared.entry.gauge.now) × (h.promise.fresh ≡ fresh))
        result.0.items }
{
    let Shared {
        gauge,
        gate,
        delays,
        limits,
        ..
    } = shared;
    let mut handles = handles;
    for player in players {
        let promise = Plays {
            app: player.number(),
            fresh,
            gauge: Snapshot::of(gauge),
            was: Snapshot::of(&player.app),
        };
        let run = move || -> Player<A, N>
            requires { IsKept gauge.now fresh player.seat player.counter (A.notes player.app).entries }
            ensures { (result.seat.number ≡ player.seat.number) × (A.identity result.app ≡ A.identity player.app)
                × IsKept gauge.entry.now fresh result.seat result.counter (A.notes result.app).entries }
        {
            let _ = &fresh;
            wait_to_begin(rt, delays, player.number());
            player.play(rt, book, gauge, gate, limits)
        };
        let Ok(handle) = scope.spawn_with(promise, run) else {
            return (handles, false);
        };
        handles.push_reserved(handle);
    }
    (handles, true)
}

// Joins the applications' threads, in their order.
fn join_players<A: App, N: Name, R: Threads>(
    rt: &R,
    _gauge: &Gauge,
    _fresh: bool,
    handles: Vec<Playing<A, N>>,
    players: Vec<Player<A, N>>,
) -> Vec<Player<A, N>>
    requires none { (players.items ≡ []) × (vec_len handles ≤ vec_capacity players) }
    requires promises { All (λ h. (h.promise.gauge.value ≡ _gauge.now) × (h.promise.fresh ≡ _fresh)) handles.items }
    ensures numbers { map (λ p. p.seat.number) result.items ≡ map (λ h. h.promise.app) handles.items }
    ensures identities { map (λ p. A.identity p.app) result.items
        ≡ map (λ h. A.identity h.promise.was.value) handles.items }
    ensures players { All (λ p. IsKept _gauge.now _fresh p.seat p.counter (A.notes p.app).entries) result.items }
{
    let mut players = players;
    for handle in handles {
        players.push_reserved(handle.join(rt));
    }
    players
}

// Starts a thread for each participant, until one can't be made. Returns whether all were.
fn start_carriers<'s, E: 's, N: Name + Send + Sync + 's, R: Wait + Clock + Sync + 's>(
    scope: &'s Scope<'s, E>,
    rt: &'s R,
    book: &'s Book<N>,
    fates: &'s Fates,
    delays: &'s [u16],
    pumps: u64,
    carriers: Vec<Carrier<N>>,
    handles: Vec<JoinHandle<Carrier<N>>>,
) -> (Vec<JoinHandle<Carrier<N>>>, bool)
    requires { vec_len handles + vec_len carriers ≤ vec_capacity handles }
{
    let mut handles = handles;
    for carrier in carriers {
        let run = move || {
            wait_to_begin(rt, delays, carrier.number());
            carrier.carry(rt, book, fates, pumps)
        };
        let Ok(handle) = scope.spawn(run) else {
            return (handles, false);
        };
        handles.push_reserved(handle);
    }
    (handles, true)
}

// Joins the participants' threads. Returns whether one has met a full journal.
fn join_carriers<N: Name, R: Threads>(rt: &R, handles: Vec<JoinHandle<Carrier<N>>>) -> bool {
    let mut is_full = false;
    for handle in handles {
        is_full |= handle.join(rt).is_full();
    }
    is_full
}

/// Room for what the threads leave, so that no memory is wanted once they run.
#[derive(Drop)]
pub(crate) struct Room<A: App, N: Name> {
    pub(crate) playing: Vec<Playing<A, N>>,
    pub(crate) carrying: Vec<JoinHandle<Carrier<N>>>,
    pub(crate) done: Vec<Player<A, N>>,
}

/// Runs all threads in one scope: the applications' are joined, the book is stopped, the participants' are joined. It
/// gives the applications back, and says whether each thread could be made, and whether a participant has met a full
/// journal.
pub(crate) fn together<
    A: App + Send,
    N: Name + Send + Sync,
    R: Threads + Wait + Clock + Sync,
    G: Gate,
>(
    rt: &R,
    book: &Book<N>,
    shared: Shared<'_, G>,
    fresh: bool,
    players: Vec<Player<A, N>>,
    carriers: Vec<Carrier<N>>,
    room: Room<A, N>,
) -> (Vec<Player<A, N>>, bool, bool)
    requires playing { (room.playing.items ≡ []) × (vec_len players ≤ vec_capacity room.playing) }
    requires done { (room.done.items ≡ []) × (vec_len players ≤ vec_capacity room.done) }
    requires carrying { vec_len room.carrying + vec_len carriers ≤ vec_capacity room.carrying }
    requires players { All (λ p. IsKept shared.gauge.now fresh p.seat p.counter (A.notes p.app).entries) players.items }
    requires numbers { map (λ p. p.seat.number) players.items ≡ range_with_len 0 (length players.items) }
    ensures numbers { result.1 ≡ true
        → map (λ p. p.seat.number) result.0.items ≡ range_with_len 0 (length players.items) }
    ensures identities { result.1 ≡ true
        → map (λ p. A.identity p.app) result.0.items ≡ map (λ p. A.identity p.app) players.items }
    ensures players { All (λ p. IsKept shared.entry.gauge.now fresh p.seat p.counter (A.notes p.app).entries)
        result.0.items }
{
    let Room {
        playing,
        carrying,
        done,
    } = room;
    thread::scope(
        thread::scope_env(),
        rt,
        move |scope| -> (Vec<Player<A, N>>, bool, bool)
            requires { (playing.items ≡ []) × (vec_len players ≤ vec_capacity playing) × (done.items ≡ [])
                × (vec_len players ≤ vec_capacity done) × (vec_len carrying + vec_len carriers ≤ vec_capacity carrying)
                × All (λ p. IsKept shared.gauge.now fresh p.seat p.counter (A.notes p.app).entries) players.items
                × (map (λ p. p.seat.number) players.items ≡ range_with_len 0 (length players.items)) }
            ensures { (result.1 ≡ true
                → map (λ p. p.seat.number) result.0.items ≡ range_with_len 0 (length players.items))
                × (result.1 ≡ true → map (λ p. A.identity p.app) result.0.items
                ≡ map (λ p. A.identity p.app) players.items)
                × All (λ p. IsKept shared.entry.gauge.now fresh p.seat p.counter (A.notes p.app).entries)
                result.0.items }
        {
            let (carrying, all_carry) = start_carriers(
                scope,
                rt,
                book,
                shared.fates,
                shared.delays,
                shared.limits.pumps,
                carriers,
                carrying,
            );
            let (playing, all_play) = start_players(
                scope, rt, book, shared, fresh, players, playing,
            );
            let all = all_carry && all_play;
            if !all {
                book.stop(rt);
            }
            let players = join_players(rt, shared.gauge, fresh, playing, done);
            book.stop(rt);
            let is_full = join_carriers(rt, carrying);
            (players, all, is_full)
        },
    )
}
