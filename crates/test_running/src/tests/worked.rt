//! The worked runs, made by the parts of a plan and in the plain world.

use crate::tests::comparing::{Both, expect_same};
use crate::tests::plans::{NO_MEMORY, plan_of};
use dds_base::{NoMemory, ReaderNo, Refusal};
use dds_match::Plan;
use std::alloc::Global;
use std::process::Abort;
use test_files::texts::{LOOP, SMALL};
use test_model::BUS_PLACES;
use test_model::worked::{
    KEEP_LAST_RUNS, Move, RUNS, Run, Stage, Told, event_of, told_of, told_of_packet,
};

/// What stands in a text, and what is put in its place.
type Edit = (&'static str, &'static str);

const LIMIT: &str = "max_samples_per_instance = 3";

const START: &str = "start = 3";

const WRITER: &str = "topic = \"t\", history = \"KEEP_ALL\"";

const KEYS: &str = "keys = [\"k\"]";

const WRITES: &str = "writes = [{ writer = \"w\", key = \"k\", count = 1 }]";

const READER: &str = "name = \"r\"\nparticipant = \"q\"\n";

const RELIABLE: &str = "reliability = \"RELIABLE\"";

const RULES: &str = "[[rules]]\n";

const READERS: &str = "readers = [\"r\"]";

const CONNECTION: &str = "{ writer = \"w\", reader = \"r\" }";

const VERSION: &str = "version = 1";

/// A write each 10 ns at most.
const BY_CLOCK: Edit = (START, "start = \"unlimited\"\nperiod = 10");

const LIMIT_2: Edit = (LIMIT, "max_samples_per_instance = 2");

const START_2: Edit = (START, "start = 2");

const FILTERED: &[Edit] = &[
    (START, "start = 1"),
    (KEYS, "keys = [\"a\", \"b\"]"),
    (
        READER,
        "name = \"r\"\nparticipant = \"q\"\nfilter = [\"a\"]\n",
    ),
    (
        WRITES,
        "writes = [{ writer = \"w\", key = \"a\", count = 1 }, { writer = \"w\", key = \"b\", count = 2 }]",
    ),
];

/// A watcher of the last sample, with its application and its connection.
const WATCHED: &[Edit] = &[
    (
        RULES,
        "[[readers]]\nname = \"v\"\nparticipant = \"q\"\ntopic = \"t\"\nreliability = \"BEST_EFFORT\"\n\
        history = \"KEEP_LAST\"\ndepth = 1\n\n[[rules]]\n",
    ),
    (READERS, "readers = [\"r\", \"v\"]"),
    (
        CONNECTION,
        "{ writer = \"w\", reader = \"r\" }, { writer = \"w\", reader = \"v\" }",
    ),
];

/// The changes that make the deployment of a stage from that of one writer and one reader, or from that of two of each.
fn edits_of(stage: Stage) -> &'static [Edit] {
    match stage {
        Stage::Small(1) => &[
            (LIMIT, "max_samples_per_instance = 1"),
            (START, "start = 1"),
        ],
        Stage::Small(2) => &[LIMIT_2, START_2],
        Stage::Small(_) => &[],
        Stage::Filtered => FILTERED,
        Stage::Narrow => &[
            LIMIT_2,
            START_2,
            (
                WRITER,
                "topic = \"t\", history = \"KEEP_ALL\", max_samples = 1",
            ),
        ],
        Stage::Watched => WATCHED,
        Stage::WatcherAlone => &[(RELIABLE, "reliability = \"BEST_EFFORT\"")],
        Stage::KeepsLast => &[(WRITER, "topic = \"t\", history = \"KEEP_LAST\", depth = 2")],
        Stage::CapOfTwo => &[
            (VERSION, "version = 4"),
            BY_CLOCK,
            (LIMIT, "taken_within = 19"),
        ],
        Stage::LagOfOne => &[
            (VERSION, "version = 4"),
            BY_CLOCK,
            (LIMIT, "taken_within = 95\navailable_within = 9"),
            (WRITER, "topic = \"t\", history = \"KEEP_LAST\", depth = 1"),
        ],
        Stage::Loop => &[],
    }
}

/// The deployment of a stage. Each change has to find what it changes.
pub(crate) fn text_of(rt: &impl Abort, alloc: Global, stage: Stage) -> Result<String, NoMemory> {
    let first = if stage == Stage::Loop { LOOP } else { SMALL };
    let mut all = String::from_str(alloc, first)?;
    for (old, new) in edits_of(stage) {
        assert!(rt; all.as_str().contains(*old), "{old}");
        all = all.as_str().replace(alloc, *old, new)?;
    }
    Ok(all)
}

/// What the parts answer to a question.
fn answer(both: &Both, asked: Move) -> Told {
    match asked {
        Move::Look(place) => told_of_packet(&both.peers.at(place)),
        Move::Kept(w) => match both.peers.writers.get(w) {
            Some(speaker) => Told::Number(speaker.writer.kept() as u64),
            None => Told::Wrong,
        },
        Move::Stored(r) => match both.peers.readers.get(r) {
            Some(listener) => Told::Number(listener.reader.stored() as u64),
            None => Told::Wrong,
        },
        Move::Acked(w, r) => match both.peers.writers.get(w) {
            Some(speaker) => match speaker.base(ReaderNo::new(r)) {
                Some(base) => Told::Number(base),
                None => Told::Wrong,
            },
            None => Told::Wrong,
        },
        _ => Told::Wrong,
    }
}

/// Makes a move on both sides, of which the parts reply this.
fn expect_move(
    rt: &impl Abort,
    both: &mut Both,
    plan: &Plan,
    asked: Move,
    told: Told,
    about: &str,
) {
    let answered = match event_of(asked) {
        Some(event) => told_of(&both.enter_same(rt, plan, &event)),
        None => answer(both, asked),
    };
    let event = event_of(asked);
    assert_eq!(rt; answered, told, "{about}: {event:?}");
}

/// The plan of a stage's deployment.
fn stage_of(rt: &impl Abort, alloc: Global, stage: Stage) -> Plan {
    let text = text_of(rt, alloc, stage).expect(rt, NO_MEMORY);
    plan_of(rt, alloc, text.as_str())
}

fn expect(rt: &impl Abort, alloc: Global, run: &Run) {
    let plan = stage_of(rt, alloc, run.stage);
    let mut both = Both::open(rt, alloc, &plan);
    for (asked, told) in run.moves {
        expect_move(rt, &mut both, &plan, *asked, *told, run.about);
        expect_same(rt, &both);
    }
    drop(both);
    drop(plan);
}

#[test]
fn worked_runs(rt: HostRuntime) {
    for run in &RUNS {
        expect(&rt, rt.alloc(), run);
    }
}

#[test]
fn worked_runs_of_keep_last(rt: HostRuntime) {
    for run in &KEEP_LAST_RUNS {
        expect(&rt, rt.alloc(), run);
    }
}

/// Sends a HEARTBEAT to each place of the bus.
fn fill(rt: &impl Abort, both: &mut Both, plan: &Plan) {
    for place in 0..BUS_PLACES {
        expect_move(
            rt,
            both,
            plan,
            Move::SendHeartbeat(0, 0),
            Told::Sent(place),
            "a bus that fills",
        );
    }
}

/// What is asked of a full bus, and what it answers.
pub(crate) const ON_A_FULL_BUS: [(Move, Told); 4] = [
    (Move::SendHeartbeat(0, 0), Told::NotSent),
    (Move::Lose(7), Told::Dropped),
    (Move::SendHeartbeat(0, 0), Told::Sent(7)),
    (
        Move::Deliver(BUS_PLACES, false),
        Told::Refused(Refusal::NoPacket),
    ),
];

#[test]
fn a_full_bus_loses_what_is_sent(rt: HostRuntime) {
    let plan = stage_of(&rt, rt.alloc(), Stage::Small(1));
    let mut both = Both::open(&rt, rt.alloc(), &plan);
    fill(&rt, &mut both, &plan);
    for (asked, told) in &ON_A_FULL_BUS {
        expect_move(&rt, &mut both, &plan, *asked, *told, "a full bus");
    }
    expect_same(&rt, &both);
    drop(both);
    drop(plan);
}
