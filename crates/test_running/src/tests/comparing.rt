//! Both sides of a comparison: the parts of a plan, and the plain world.

use crate::tests::peers::Peers;
use crate::tests::plans::{NO_MEMORY, world_of};
use dds_base::{Event, KeyNo, ReaderNo, Reply, Sample, WriterNo};
use dds_match::Plan;
use std::alloc::Global;
use std::fmt::Debug;
use std::process::Abort;
use test_model::{World, step_as};

/// How many keys are looked at. No topic here has more than two.
pub(crate) const SOME_KEYS: usize = 3;

/// How many places of the bus are looked at. The runs fill no more.
pub(crate) const SOME_PLACES: usize = 128;

/// The same run on both sides.
#[derive(Drop)]
pub(crate) struct Both {
    pub(crate) peers: Peers,
    pub(crate) world: World,
}

/// What a take gave.
fn taken(reply: &Reply) -> Option<Sample> {
    match reply {
        Reply::Took(sample) => Some(*sample),
        _ => None,
    }
}

/// Makes an event in the plain world, which has to reply the same. Which writer's sample a take gives is free, so the
/// world is asked for the one that was given.
pub(crate) fn expect_step(rt: &impl Abort, world: &mut World, event: &Event, reply: &Reply) {
    let other = step_as(world, event, &taken(reply)).expect(rt, NO_MEMORY);
    expect_equal(
        rt,
        (*event, *reply),
        (*event, other),
        "an event and its reply",
    );
}

impl Both {
    pub(crate) fn open(rt: &impl Abort, alloc: Global, plan: &Plan) -> Both {
        Both {
            peers: Peers::open(rt, alloc, plan),
            world: world_of(rt, alloc, plan),
        }
    }

    /// Makes an event on both sides, and compares the replies.
    pub(crate) fn enter_same(&mut self, rt: &impl Abort, plan: &Plan, event: &Event) -> Reply {
        let reply = self.peers.enter(plan, event).expect(rt, NO_MEMORY);
        expect_step(rt, &mut self.world, event, &reply);
        reply
    }
}

/// Compares what is seen on one side with what is seen on the other. A comparison that stands in a function of its own
/// is proved once.
pub(crate) fn expect_equal<T: Copy + Debug + PartialEq>(
    rt: &impl Abort,
    have: T,
    wanted: T,
    about: &str,
) {
    assert_eq!(rt; have, wanted, "{about}");
}

/// Compares what is seen of a writer and a reader that match. The base that a watcher acknowledged is 1 throughout.
fn expect_same_pair(rt: &impl Abort, both: &Both, writer: WriterNo, reader: ReaderNo) {
    if let Some(speaker) = both.peers.writers.get(writer.number()) {
        let acked = Some(both.world.acked(writer, reader));
        expect_equal(rt, speaker.base(reader), acked, "acknowledged base");
        expect_equal(
            rt,
            speaker.due(reader),
            both.world.due(writer, reader),
            "due",
        );
    }
    if let Some(listener) = both.peers.readers.get(reader.number()) {
        let (base, owes) = (
            both.world.base(reader, writer),
            both.world.owes(reader, writer),
        );
        expect_equal(rt, listener.reader.base(writer), base, "base");
        expect_equal(rt, listener.reader.owes(writer), owes, "owes");
    }
}

/// Compares what is seen of each matched pair.
fn expect_same_pairs(rt: &impl Abort, both: &Both, writer: WriterNo) {
    for r in 0..both.peers.readers.len() {
        let reader = ReaderNo::new(r);
        if both.world.layout().matched(writer, reader) {
            expect_same_pair(rt, both, writer, reader);
        }
    }
}

/// Compares the permits of a writer, of the first keys.
fn expect_same_permits(rt: &impl Abort, both: &Both, writer: WriterNo) {
    for k in 0..SOME_KEYS {
        let key = KeyNo::new(k);
        let permits = u128::from(both.peers.accounts.ledger.permits(writer, key));
        expect_equal(rt, permits, both.world.permits(writer, key), "permits");
    }
}

/// Compares what is seen of each writer.
fn expect_same_writers(rt: &impl Abort, both: &Both) {
    for (w, speaker) in both.peers.writers.iter().enumerate() {
        let writer = WriterNo::new(w);
        expect_equal(
            rt,
            speaker.writer.written(),
            both.world.written(writer),
            "written",
        );
        let kept = both.world.kept(writer).expect(rt, NO_MEMORY);
        expect_equal(rt, speaker.writer.kept(), kept.len(), "kept");
        expect_same_permits(rt, both, writer);
        expect_same_pairs(rt, both, writer);
    }
}

/// Compares the unread samples and the unspent takes of a reader, of the first keys.
fn expect_same_keys(rt: &impl Abort, both: &Both, r: usize) {
    let reader = ReaderNo::new(r);
    for k in 0..SOME_KEYS {
        let key = KeyNo::new(k);
        let unspent = u128::from(both.peers.accounts.ledger.spare(reader, key));
        expect_equal(rt, unspent, both.world.unspent(reader, key), "unspent");
        if let Some(listener) = both.peers.readers.get(r) {
            let unread = both.world.unread(reader, key).expect(rt, NO_MEMORY);
            expect_equal(rt, listener.reader.unread(key), unread, "unread");
        }
    }
}

/// Compares what is seen of each reader.
fn expect_same_readers(rt: &impl Abort, both: &Both) {
    for (r, listener) in both.peers.readers.iter().enumerate() {
        let stored = both.world.stored(ReaderNo::new(r)).expect(rt, NO_MEMORY);
        expect_equal(rt, listener.reader.stored(), stored.len(), "stored");
        expect_same_keys(rt, both, r);
    }
}

/// Compares the packets at the first places.
fn expect_same_bus(rt: &impl Abort, both: &Both) {
    for place in 0..SOME_PLACES {
        let same = both.peers.at(place) == both.world.at(place);
        expect_equal(rt, (place, same), (place, true), "a place of the bus");
    }
}

/// Compares all that can be seen.
pub(crate) fn expect_same(rt: &impl Abort, both: &Both) {
    expect_same_writers(rt, both);
    expect_same_readers(rt, both);
    expect_same_bus(rt, both);
}
