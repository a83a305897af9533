//! A run by the schedule: each participant does what is due in its turns, the fates of packets come in a circle, and in
//! between the applications take, fire and write.

use crate::tests::comparing::expect_equal;
use crate::tests::domains::{make, opened};
use crate::tests::plans::plan_of;
use dds_base::{
    Arrival, Event, Fate, KeyNo, ParticipantNo, ReaderNo, Refusal, Reply, RuleNo, WriterNo,
};
use dds_domain::Domain;
use std::alloc::Global;
use std::process::Abort;
use test_files::texts::PING;

/// So many samples are taken at each side before the run ends.
const WANTED: usize = 100;

/// The run ends long before so many turns.
const TURNS: u64 = 100_000;

const FATES: [Fate; 5] = [Fate::Lose, Fate::Keep, Fate::Last, Fate::Pass, Fate::Pass];

/// One side: an application, with the numbers of its participant, reader, rule and writer.
#[derive(Drop)]
struct Side {
    participant: ParticipantNo,
    reader: ReaderNo,
    rule: RuleNo,
    writer: WriterNo,
    taken: usize,
    /// How many events of its participant befell the bus.
    fates: usize,
}

/// Whether the event happens to a packet on the bus.
fn is_on_bus(event: &Event) -> bool {
    matches!(event, Event::Deliver { .. } | Event::Lose { .. })
}

/// Whether the arrival neither rejects, overwrites nor gives up a sample.
fn is_good_arrival(arrival: &Arrival) -> bool {
    match arrival {
        Arrival::Rejected(_) => false,
        Arrival::Overwrote(_) => false,
        Arrival::Lost(_) => false,
        Arrival::Stranger => false,
        _ => true,
    }
}

fn is_good(reply: &Reply) -> bool {
    match reply {
        Reply::Refused(_) => false,
        Reply::Arrived(arrival) => is_good_arrival(arrival),
        _ => true,
    }
}

impl Side {
    fn new(number: usize, reader: usize) -> Side {
        Side {
            participant: ParticipantNo::new(number),
            reader: ReaderNo::new(reader),
            rule: RuleNo::new(number),
            writer: WriterNo::new(number),
            taken: 0,
            fates: 0,
        }
    }

    /// The participant does what is due. It isn't refused, and no arrival rejects, overwrites or gives up a sample.
    fn turn(&mut self, rt: &impl Abort, domain: &mut Domain, turn: u64) {
        let fate = FATES[self.fates % FATES.len()];
        let Some(event) = domain.due(self.participant, turn, fate) else {
            return;
        };
        let on_bus = is_on_bus(&event);
        let reply = make(rt, domain, event);
        let have = (turn, reply, is_good(&reply));
        expect_equal(rt, have, (turn, reply, true), "a turn");
        if on_bus {
            self.fates = self.fates.saturating_add(1);
        }
    }

    /// The application takes a sample, if there is one, and spends it.
    fn take(&mut self, rt: &impl Abort, domain: &mut Domain) {
        let key = KeyNo::new(0);
        let reader = self.reader;
        match make(rt, domain, Event::Take { reader, key }) {
            Reply::Took(_) => {
                self.taken = self.taken.saturating_add(1);
                let fired = make(rt, domain, Event::Fire { rule: self.rule });
                expect_equal(rt, fired, Reply::Fired, "a firing");
            }
            other => expect_equal(rt, other, Reply::Refused(Refusal::Empty), "a take"),
        }
    }

    /// The application writes a sample, if it may.
    fn write(&self, rt: &impl Abort, domain: &mut Domain) {
        let event = Event::Write {
            writer: self.writer,
            key: KeyNo::new(0),
            payload: [7; 32],
        };
        match make(rt, domain, event) {
            Reply::Written(_) => (),
            other => expect_equal(rt, other, Reply::Refused(Refusal::NoPermit), "a write"),
        }
    }

    fn round(&mut self, rt: &impl Abort, domain: &mut Domain, turn: u64) {
        self.turn(rt, domain, turn);
        self.take(rt, domain);
        self.write(rt, domain);
    }
}

/// Makes rounds until enough is taken at both sides, and returns how many.
fn rounds(rt: &impl Abort, domain: &mut Domain, first: &mut Side, second: &mut Side) -> u64 {
    for turn in 0..TURNS {
        if first.taken >= WANTED && second.taken >= WANTED {
            return turn;
        }
        first.round(rt, domain, turn);
        second.round(rt, domain, turn);
    }
    TURNS
}

#[test]
fn the_schedule_brings_a_hundred_samples_to_each_side(rt: HostRuntime) {
    let plan = plan_of(&rt, rt.alloc(), PING);
    let mut domain = opened(&rt, rt.alloc(), plan);
    let mut first = Side::new(0, 1);
    let mut second = Side::new(1, 0);
    let done = rounds(&rt, &mut domain, &mut first, &mut second);
    expect_equal(&rt, done < TURNS, true, "a hundred samples");
    drop(domain);
}
