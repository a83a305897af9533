//! Runs of writers that follow a clock, made on a simulator and in the plain world.

use crate::tests::chance::Chance;
use crate::tests::comparing::{expect_equal, expect_step};
use crate::tests::plans::{NO_MEMORY, plan_of, world_of};
use crate::tests::seen::{Kind, kind_of};
use crate::tests::texts::PACED;
use crate::tests::worked::text_of;
use dds_base::{Event, KeyNo, ReaderNo, Reply, WriterNo};
use dds_domain::Simulator;
use dds_match::Plan;
use std::alloc::Global;
use std::process::Abort;
use test_model::World;
use test_model::worked::{CLOCK_RUNS, Move, Run, Told, event_of, told_of};

/// How many events a drawn run has.
const EVENTS: usize = 250;

/// The seeds of the drawn runs.
static SEEDS: [u64; 4] = [3, 4, 20_260, 888_888];

/// Kinds of replies that come in the drawn runs.
static WANTED: [Kind; 8] = [
    Kind::NotYet,
    Kind::NoPermit,
    Kind::Fired,
    Kind::Written,
    Kind::Took,
    Kind::New,
    Kind::Repeat,
    Kind::Overwrote,
];

/// The caps and lags of the text, worked out by hand: writer, reader and key, then both.
static FLIGHTS: [(usize, usize, usize, Option<u32>, Option<u32>); 5] = [
    (0, 0, 0, Some(4), Some(2)),
    (0, 0, 1, Some(8), Some(4)),
    (1, 0, 0, Some(2), Some(1)),
    (1, 0, 1, Some(0), Some(0)),
    (0, 1, 0, None, None),
];

/// A plan that is run by a simulator, and the plain world of it.
#[derive(Drop)]
struct Pair {
    simulator: Simulator,
    world: World,
}

impl Pair {
    fn open(rt: &impl Abort, alloc: Global, plan: Plan) -> Pair {
        let world = world_of(rt, alloc, &plan);
        match Simulator::open(alloc, plan) {
            Ok(simulator) => Pair { simulator, world },
            Err(_) => panic!(rt; "no memory for the simulator"),
        }
    }

    /// Makes an event on both, which have to reply the same.
    fn enter_same(&mut self, rt: &impl Abort, event: Event) -> Reply {
        let reply = self.simulator.step(event).expect(rt, NO_MEMORY);
        expect_step(rt, &mut self.world, &event, &reply);
        reply
    }
}

/// Makes a move on both, if it is an event.
fn expect_move(rt: &impl Abort, pair: &mut Pair, asked: Move, told: Told, about: &str) {
    if let Some(event) = event_of(asked) {
        let reply = told_of(&pair.enter_same(rt, event));
        assert_eq!(rt; reply, told, "{about}: {event:?}");
    }
}

fn expect(rt: &impl Abort, alloc: Global, run: &Run) {
    let text = text_of(rt, alloc, run.stage).expect(rt, NO_MEMORY);
    let plan = plan_of(rt, alloc, text.as_str());
    let mut pair = Pair::open(rt, alloc, plan);
    for (asked, told) in run.moves {
        expect_move(rt, &mut pair, *asked, *told, run.about);
    }
    drop(pair);
}

#[test]
fn worked_runs_by_the_clock(rt: HostRuntime) {
    for run in &CLOCK_RUNS {
        expect(&rt, rt.alloc(), run);
    }
}

#[test]
fn caps_and_lags(rt: HostRuntime) {
    let plan = plan_of(&rt, rt.alloc(), PACED);
    for (w, r, k, cap, lag) in &FLIGHTS {
        let (writer, reader, key) = (WriterNo::new(*w), ReaderNo::new(*r), KeyNo::new(*k));
        let have = (plan.cap(writer, reader, key), plan.lag(writer, reader, key));
        expect_equal(&rt, have, (*cap, *lag), "a cap and a lag");
    }
    drop(plan);
}

/// Makes a drawn run on both, and adds the kinds of its replies.
fn expect_drawn(rt: &impl Abort, alloc: Global, seed: u64, kinds: &mut Vec<Kind>) {
    let mut pair = Pair::open(rt, alloc, plan_of(rt, alloc, PACED));
    let mut chance = Chance::new(seed);
    for _ in 0..EVENTS {
        let event = chance.event(&pair.world);
        let reply = pair.enter_same(rt, event);
        kinds.push(kind_of(&reply)).expect(rt, NO_MEMORY);
    }
    drop(pair);
}

#[test]
fn drawn_runs_by_the_clock(rt: HostRuntime) {
    let alloc = rt.alloc();
    let mut kinds: Vec<Kind> = Vec::new(alloc);
    for seed in &SEEDS {
        expect_drawn(&rt, alloc, *seed, &mut kinds);
    }
    for kind in &WANTED {
        assert!(rt; kinds.iter().any(|k| *k == *kind), "{kind:?} never came");
    }
}
