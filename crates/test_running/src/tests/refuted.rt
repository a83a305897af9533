//! Runs that lose a sample, as they are found, made again in the plain world: each event has the same reply there.

use crate::tests::comparing::expect_step;
use crate::tests::plans::{NO_MEMORY, plan_of, world_of};
use crate::tests::texts::{CLOCK, FIELD};
use dds_base::{Arrival, Event, KeyNo, ReaderNo, Reply, WriterNo};
use dds_match::Plan;
use dds_search::{Budget, Counterexample, Loss, Refutation, refute};
use std::alloc::Global;
use std::process::Abort;
use std::time::Clock;
use test_files::drawn::deployment;
use test_files::texts::LOOP;

/// How many seconds a search may take.
const SECONDS: u16 = 600;

/// How many deployments are drawn.
const DRAWN: u32 = 200;

/// Makes the events of a run in the plain world of its plan, and compares the replies.
fn expect_same_run(rt: &impl Abort, alloc: Global, plan: &Plan, run: &Counterexample) {
    let mut world = world_of(rt, alloc, plan);
    for (event, reply) in run.events.iter().zip(&run.replies) {
        expect_step(rt, &mut world, event, reply);
    }
    drop(world);
}

/// Looks for a run of a deployment that loses a sample, and compares the one it finds. Returns whether there is one.
fn expect_refuted<R: Abort + Clock>(rt: &R, alloc: Global, text: &str) -> bool {
    let budget = Budget::new(rt, SECONDS);
    let Ok((refutation, plan)) = refute(alloc, plan_of(rt, alloc, text), budget) else {
        panic!(rt; "no memory for the search");
    };
    let is_unsafe = match &refutation {
        Refutation::Unsafe(run) => {
            expect_same_run(rt, alloc, &plan, run);
            true
        }
        _ => false,
    };
    drop(refutation);
    drop(plan);
    is_unsafe
}

/// A loop in which an application answers each sample that it takes with two, so that there are ever more.
#[test]
fn a_run_of_a_loop_is_one_of_the_plain_world(rt: HostRuntime) {
    let alloc = rt.alloc();
    let text = LOOP.replace(
        alloc,
        "reader = \"ra\", key = \"k\", count = 2",
        "reader = \"ra\", key = \"k\", count = 1",
    );
    let text = text.expect(&rt, NO_MEMORY);
    assert!(rt; expect_refuted(&rt, alloc, text.as_str()));
}

/// A reader of the answers to what is written without permits overflows, and so does one of that itself, where it has a
/// limit.
#[test]
fn free_writes_are_more_than_a_reader_takes(rt: HostRuntime) {
    let alloc = rt.alloc();
    assert!(rt; expect_refuted(&rt, alloc, CLOCK));
    let text = CLOCK.replace(alloc, "max_samples_per_instance = 2", "max_instances = 1");
    let text = text.expect(&rt, NO_MEMORY);
    assert!(rt; !expect_refuted(&rt, alloc, text.as_str()));
    let text = text.as_str().replace(
        alloc,
        "topic = \"scan\"\nreliability = \"RELIABLE\"\n",
        "topic = \"scan\"\nmax_samples = 3\nreliability = \"RELIABLE\"\n",
    );
    let text = text.expect(&rt, NO_MEMORY);
    assert!(rt; expect_refuted(&rt, alloc, text.as_str()));
}

/// What a run gives up at its end: the reader, the key and how many numbers.
fn given_up(run: &Counterexample) -> Option<(ReaderNo, KeyNo, u64)> {
    match (run.loss, run.replies.last()) {
        (Loss::Lost, Some(Reply::Arrived(Arrival::Lost(count)))) => {
            Some((run.reader, run.key, *count))
        }
        _ => None,
    }
}

/// Three samples may be under way from a writer that keeps two. The reader that may lose none gives the first one up,
/// in three writes, a HEARTBEAT and its arrival; the viewer beside it, which may lose samples, isn't named, nor is what
/// publishes by a clock for a best-effort reader.
#[test]
fn a_sample_that_a_writer_drops_is_given_up(rt: HostRuntime) {
    let alloc = rt.alloc();
    let text = FIELD.replace(
        alloc,
        "topic = \"t\", depth = 3",
        "topic = \"t\", depth = 2",
    );
    let text = text.expect(&rt, NO_MEMORY);
    let budget = Budget::new(&rt, SECONDS);
    let Ok((refutation, plan)) = refute(alloc, plan_of(&rt, alloc, text.as_str()), budget) else {
        panic!(&rt; "no memory for the search");
    };
    let Refutation::Unsafe(run) = &refutation else {
        panic!(&rt; "no run is found");
    };
    expect_same_run(&rt, alloc, &plan, run);
    assert!(rt; given_up(run) == Some((ReaderNo::new(0), KeyNo::new(0), 1)));
    assert!(rt; run.events.len() == 5);
    let heartbeat = Event::SendHeartbeat {
        writer: WriterNo::new(0),
        reader: ReaderNo::new(0),
    };
    assert!(rt; run.events.get(3) == Some(&heartbeat));
    drop(refutation);
    drop(plan);
}

/// As many as the writer keeps may be under way: no run loses one.
#[test]
fn a_writer_that_keeps_what_is_under_way_loses_nothing(rt: HostRuntime) {
    assert!(rt; !expect_refuted(&rt, rt.alloc(), FIELD));
}

/// Of the drawn deployments some lose a sample.
#[test]
fn runs_of_drawn_deployments_are_runs_of_the_plain_world(rt: HostRuntime) {
    let mut count: usize = 0;
    for seed in 0..DRAWN {
        let text = deployment(rt.alloc(), seed).expect(&rt, NO_MEMORY);
        if expect_refuted(&rt, rt.alloc(), text.as_str()) {
            count = count.saturating_add(1);
        }
    }
    assert!(rt; count >= 10);
}
