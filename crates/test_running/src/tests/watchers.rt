//! Long runs of events drawn at random, made by the domain of a checked plan with watchers and in the plain world,
//! compared after each event.

use crate::tests::chance::Chance;
use crate::tests::comparing::{SOME_KEYS, SOME_PLACES, expect_equal, expect_step};
use crate::tests::domains::{make, opened};
use crate::tests::plans::{NO_MEMORY, plan_of, world_of};
use crate::tests::seen::{Kind, kind_of};
use crate::tests::texts::{AGAIN, FIELD};
use dds_base::{Event, KeyNo, ReaderNo, WriterNo};
use dds_domain::Domain;
use std::alloc::Global;
use std::process::Abort;
use test_model::World;

/// From which seed a run is drawn, and how many events it has.
#[derive(Clone, Copy)]
struct Run {
    seed: u64,
    events: usize,
}

const LONG: Run = Run {
    seed: 5,
    events: 2000,
};

/// How many events a short run has: a step of the plain world looks at all that was before, so that many short runs
/// cost no more than a long one.
const SHORT: usize = 500;

/// The seeds of the short runs of a deployment, which have 10,000 events together with the long one.
static SEEDS: [u64; 16] = [
    1, 2, 3, 4, 6, 7, 8, 9, 10, 11, 12, 13, 14, 20_250, 65_537, 777_777,
];

/// Kinds of replies that come in each long run, and in some of many short ones.
static ALWAYS: [Kind; 8] = [
    Kind::Written,
    Kind::Took,
    Kind::Fired,
    Kind::New,
    Kind::Repeat,
    Kind::Overwrote,
    Kind::NothingToSend,
    Kind::Acked,
];

/// Makes an event on both sides, compares the replies, and answers their kind.
fn make_both(rt: &impl Abort, domain: &mut Domain, world: &mut World, event: Event) -> Kind {
    let reply = make(rt, domain, event);
    expect_step(rt, world, &event, &reply);
    kind_of(&reply)
}

/// Compares how many samples each writer keeps.
fn expect_same_kept(rt: &impl Abort, domain: &Domain, world: &World) {
    for w in 0..world.layout().writers.len() {
        let writer = WriterNo::new(w);
        let kept = world.kept(writer).expect(rt, NO_MEMORY);
        expect_equal(rt, domain.kept(writer), kept.len(), "kept");
    }
}

/// Compares how many samples of the first keys a reader stores.
fn expect_same_unread(rt: &impl Abort, domain: &Domain, world: &World, reader: ReaderNo) {
    for k in 0..SOME_KEYS {
        let key = KeyNo::new(k);
        let unread = world.unread(reader, key).expect(rt, NO_MEMORY);
        expect_equal(rt, domain.unread(reader, key), unread, "unread");
    }
}

/// Compares how many samples each reader stores.
fn expect_same_stored(rt: &impl Abort, domain: &Domain, world: &World) {
    for r in 0..world.layout().readers.len() {
        let reader = ReaderNo::new(r);
        let stored = world.stored(reader).expect(rt, NO_MEMORY);
        expect_equal(rt, domain.stored(reader), stored.len(), "stored");
        expect_same_unread(rt, domain, world, reader);
    }
}

/// Compares the packets at the first places.
fn expect_same_places(rt: &impl Abort, domain: &Domain, world: &World) {
    for place in 0..SOME_PLACES {
        let same = domain.at(place).copied() == world.at(place);
        expect_equal(rt, (place, same), (place, true), "a place of the bus");
    }
}

/// Compares all that a domain shows.
fn expect_same(rt: &impl Abort, domain: &Domain, world: &World) {
    expect_same_kept(rt, domain, world);
    expect_same_stored(rt, domain, world);
    expect_same_places(rt, domain, world);
}

/// Makes so many drawn events on both sides, and adds the kinds of their replies.
fn make_events(
    rt: &impl Abort,
    domain: &mut Domain,
    world: &mut World,
    run: Run,
    kinds: &mut Vec<Kind>,
) {
    let mut chance = Chance::new(run.seed);
    for _ in 0..run.events {
        let event = chance.lively_event(world);
        let kind = make_both(rt, domain, world, event);
        kinds.push(kind).expect(rt, NO_MEMORY);
        expect_same(rt, domain, world);
    }
}

/// Makes a run of a deployment, and adds the kinds of its replies.
fn make_run(rt: &impl Abort, alloc: Global, text: &str, run: Run, kinds: &mut Vec<Kind>) {
    let plan = plan_of(rt, alloc, text);
    let mut world = world_of(rt, alloc, &plan);
    let mut domain = opened(rt, alloc, plan);
    make_events(rt, &mut domain, &mut world, run, kinds);
    drop(domain);
    drop(world);
}

/// Sees that each kind of reply that always comes is among these, and this one too.
fn expect_all(rt: &impl Abort, kinds: &[Kind], wanted: Kind) {
    for kind in ALWAYS.iter().chain(&[wanted]) {
        assert!(rt; kinds.iter().any(|k| *k == *kind), "{kind:?} never came");
    }
}

/// Makes a long run of a deployment, in which this kind of reply comes beside those that always do.
fn expect_kinds(rt: &impl Abort, alloc: Global, text: &str, wanted: Kind) {
    let mut kinds: Vec<Kind> = Vec::new(alloc);
    make_run(rt, alloc, text, LONG, &mut kinds);
    expect_all(rt, kinds.as_slice(), wanted);
}

/// Makes runs of a deployment from many seeds, in which this kind of reply comes beside those that always do.
fn expect_kinds_often(rt: &impl Abort, alloc: Global, text: &str, wanted: Kind) {
    let mut kinds: Vec<Kind> = Vec::new(alloc);
    for seed in &SEEDS {
        let run = Run {
            seed: *seed,
            events: SHORT,
        };
        make_run(rt, alloc, text, run, &mut kinds);
    }
    expect_all(rt, kinds.as_slice(), wanted);
}

#[test]
fn a_domain_with_watchers(rt: HostRuntime) {
    expect_kinds(&rt, rt.alloc(), AGAIN, Kind::SamplesPerInstanceLimit);
}

#[test]
fn many_runs_with_watchers(rt: HostRuntime) {
    expect_kinds_often(&rt, rt.alloc(), AGAIN, Kind::SamplesPerInstanceLimit);
}

// Its clock writes without permits, and w is refused without one.
#[test]
fn a_domain_of_the_field(rt: HostRuntime) {
    expect_kinds(&rt, rt.alloc(), FIELD, Kind::NoPermit);
}

#[test]
fn many_runs_of_the_field(rt: HostRuntime) {
    expect_kinds_often(&rt, rt.alloc(), FIELD, Kind::NoPermit);
}
