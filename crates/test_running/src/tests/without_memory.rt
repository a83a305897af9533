//! Each event of worked runs where memory is refused: nothing changes, and the same event then answers as with ample
//! memory. The tests of this file also pass where any one allocation is refused, which is how they are run once for
//! each allocation that they make.

use crate::tests::comparing::expect_equal;
use crate::tests::domains::{expect_replies, listed};
use crate::tests::worked::text_of;
use dds_base::{Event, KeyNo, NoMemory, ReaderNo, Reply, WriterNo};
use dds_domain::Domain;
use std::alloc::Global;
use std::process::Abort;
use std::test::Fail;
use test_files::plans::{planned, proposed};
use test_model::BUS_PLACES;
use test_model::worked::{Move, RUNS, Run, Stage, Told, event_of, told_of};

/// No worked run has more writers, readers or keys.
const SOME: usize = 3;

/// The domain of a stage before the first event. `None` where memory is refused.
fn opened_once(rt: &impl Abort, alloc: Global, stage: Stage) -> Option<Domain> {
    let text = text_of(rt, alloc, stage).ok()?;
    let checked = proposed(alloc, planned(alloc, text.as_str())?)?;
    match Domain::open(alloc, checked) {
        Ok(domain) => Some(domain),
        Err((_, checked)) => {
            drop(checked);
            None
        }
    }
}

/// The domain of a stage; where memory is refused, it is opened again.
fn opened(rt: &impl Abort, alloc: Global, stage: Stage) -> Domain {
    if let Some(domain) = opened_once(rt, alloc, stage) {
        return domain;
    }
    match opened_once(rt, alloc, stage) {
        Some(domain) => domain,
        None => panic!(rt; "no domain, twice"),
    }
}

/// Two domains that made the same events. One allocation is refused at most, so only one of them ever meets it.
#[derive(Drop)]
struct Twins {
    first: Domain,
    second: Domain,
}

impl Twins {
    fn expect_same_bus(&self, rt: &impl Abort, about: &Event) {
        for place in 0..BUS_PLACES {
            let same = self.first.at(place).copied() == self.second.at(place).copied();
            expect_equal(
                rt,
                (*about, place, same),
                (*about, place, true),
                "a place of the bus",
            );
        }
    }

    fn expect_same_unread(&self, rt: &impl Abort, reader: ReaderNo, about: &Event) {
        for k in 0..SOME {
            let key = KeyNo::new(k);
            let have = (*about, self.first.unread(reader, key));
            let wanted = (*about, self.second.unread(reader, key));
            expect_equal(rt, have, wanted, "unread without memory");
        }
    }

    fn expect_same_endpoints(&self, rt: &impl Abort, about: &Event) {
        for number in 0..SOME {
            let reader = ReaderNo::new(number);
            let writer = WriterNo::new(number);
            let have = (*about, self.first.stored(reader), self.first.kept(writer));
            let wanted = (*about, self.second.stored(reader), self.second.kept(writer));
            expect_equal(rt, have, wanted, "stored and kept without memory");
            self.expect_same_unread(rt, reader, about);
        }
    }

    /// Makes an event in the first domain. Where memory is refused, the domain is as before, which the second still is,
    /// and the event is made again.
    fn make_first(&mut self, rt: &impl Abort, event: Event) -> Reply {
        if let Ok(reply) = self.first.step(event) {
            return reply;
        }
        self.expect_same_bus(rt, &event);
        self.expect_same_endpoints(rt, &event);
        match self.first.step(event) {
            Ok(reply) => reply,
            Err(NoMemory) => panic!(rt; "no memory for {event:?}, twice"),
        }
    }

    /// Makes the same event in the second domain.
    fn make_second(&mut self, rt: &impl Abort, event: Event) -> Reply {
        if let Ok(reply) = self.second.step(event) {
            return reply;
        }
        match self.second.step(event) {
            Ok(reply) => reply,
            Err(NoMemory) => panic!(rt; "no memory for {event:?}, twice"),
        }
    }

    fn expect_move(&mut self, rt: &impl Abort, asked: Move, told: Told, about: &str) {
        if let Some(event) = event_of(asked) {
            let again = event;
            let first = told_of(&self.make_first(rt, event));
            let second = told_of(&self.make_second(rt, again));
            assert_eq!(rt; first, told, "{about}: {event:?}");
            assert_eq!(rt; second, told, "{about}: {event:?}");
        }
    }
}

fn expect(rt: &impl Abort, alloc: Global, run: &Run) {
    let first = opened(rt, alloc, run.stage);
    let second = opened(rt, alloc, run.stage);
    let mut twins = Twins { first, second };
    for (asked, told) in run.moves {
        twins.expect_move(rt, *asked, *told, run.about);
    }
    drop(twins);
}

// It passes also where any one allocation is refused.
#[test]
fn each_event_without_memory(rt: HostRuntime) -> Result<(), Fail> {
    for run in &RUNS {
        expect(&rt, rt.alloc(), run);
    }
    Ok(())
}

/// Runs the list. Where memory is refused the replies answer the events that were done, and the rest is run after
/// them.
fn run_list(rt: &impl Abort, domain: &mut Domain, events: &[Event]) {
    let done = match domain.run(events) {
        Ok(replies) => {
            expect_replies(rt, &replies, 0);
            replies.len()
        }
        Err((NoMemory, replies)) => {
            assert!(rt; replies.len() < events.len(), "each event was done");
            expect_replies(rt, &replies, 0);
            replies.len()
        }
    };
    match domain.run(&events[done..]) {
        Ok(replies) => {
            expect_replies(rt, &replies, done);
            expect_equal(rt, done + replies.len(), events.len(), "events");
        }
        Err(_) => panic!(rt; "no memory for the rest of the list, twice"),
    }
}

/// The events of the list; where memory is refused, they are listed again.
fn listed_again(rt: &impl Abort, alloc: Global) -> Vec<Event> {
    if let Ok(events) = listed(alloc) {
        return events;
    }
    match listed(alloc) {
        Ok(events) => events,
        Err(_) => panic!(rt; "no memory for the list, twice"),
    }
}

// It passes also where any one allocation is refused.
#[test]
fn a_list_without_memory(rt: HostRuntime) -> Result<(), Fail> {
    let events = listed_again(&rt, rt.alloc());
    let mut domain = opened(&rt, rt.alloc(), Stage::Small(3));
    run_list(&rt, &mut domain, &events);
    drop(domain);
    Ok(())
}
