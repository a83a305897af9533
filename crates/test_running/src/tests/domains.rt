//! The worked runs, made by a domain of a plan whose certificate is accepted.

use crate::tests::comparing::expect_equal;
use crate::tests::plans::{NO_MEMORY, plan_of};
use crate::tests::worked::{ON_A_FULL_BUS, text_of};
use dds_base::{Arrival, Event, KeyNo, NoMemory, ReaderNo, Refusal, Reply, WriterNo};
use dds_domain::Domain;
use dds_match::Plan;
use std::alloc::Global;
use std::process::Abort;
use test_files::plans::proposed;
use test_model::BUS_PLACES;
use test_model::worked::{Move, RUNS, Run, Stage, Told, event_of, told_of, told_of_packet};

/// The domain of a plan with the certificate that is proposed for it, before the first event.
pub(crate) fn opened(rt: &impl Abort, alloc: Global, plan: Plan) -> Domain {
    let checked = proposed(alloc, plan).expect(rt, "no certificate is proposed");
    match Domain::open(alloc, checked) {
        Ok(domain) => domain,
        Err(_) => panic!(rt; "no memory for the domain"),
    }
}

/// The domain of a stage, before the first event.
fn domain_of(rt: &impl Abort, alloc: Global, stage: Stage) -> Domain {
    let text = text_of(rt, alloc, stage).expect(rt, NO_MEMORY);
    let plan = plan_of(rt, alloc, text.as_str());
    opened(rt, alloc, plan)
}

/// What the domain answers to a question, after so many samples were written; none where it isn't asked for that. Each
/// worked run that asks for an acknowledged base has one reader, which has acknowledged all that was written and isn't
/// kept.
fn answer(domain: &Domain, written: u64, asked: Move) -> Option<Told> {
    match asked {
        Move::Look(place) => Some(told_of_packet(&domain.at(place).copied())),
        Move::Kept(w) => Some(Told::Number(domain.kept(WriterNo::new(w)) as u64)),
        Move::Stored(r) => Some(Told::Number(domain.stored(ReaderNo::new(r)) as u64)),
        Move::Acked(w, 0) => {
            let kept = domain.kept(WriterNo::new(w)) as u64;
            Some(Told::Number(written.saturating_add(1).saturating_sub(kept)))
        }
        _ => None,
    }
}

/// Makes an event, which has to find memory.
pub(crate) fn make(rt: &impl Abort, domain: &mut Domain, event: Event) -> Reply {
    domain.step(event).expect(rt, NO_MEMORY)
}

/// Makes a move, after so many samples were written.
fn expect_move(
    rt: &impl Abort,
    domain: &mut Domain,
    written: u64,
    asked: Move,
    told: Told,
    about: &str,
) {
    let answered = match event_of(asked) {
        Some(event) => Some(told_of(&make(rt, domain, event))),
        None => answer(domain, written, asked),
    };
    if let Some(answered) = answered {
        let event = event_of(asked);
        assert_eq!(rt; answered, told, "{about}: {event:?}");
    }
}

fn expect(rt: &impl Abort, alloc: Global, run: &Run) {
    let mut domain = domain_of(rt, alloc, run.stage);
    let mut written = 0;
    for (asked, told) in run.moves {
        expect_move(rt, &mut domain, written, *asked, *told, run.about);
        if let Told::Written(sn) = told {
            written = *sn;
        }
    }
    drop(domain);
}

#[test]
fn a_domain_makes_the_worked_runs(rt: HostRuntime) {
    for run in &RUNS {
        expect(&rt, rt.alloc(), run);
    }
}

/// Three writes, and their DATA on the bus.
const THREE_SENT: [(Move, Told); 6] = [
    (Move::Write(0, 0, 11), Told::Written(1)),
    (Move::Write(0, 0, 12), Told::Written(2)),
    (Move::Write(0, 0, 13), Told::Written(3)),
    (Move::SendData(0, 0, 1), Told::Sent(0)),
    (Move::SendData(0, 0, 2), Told::Sent(1)),
    (Move::SendData(0, 0, 3), Told::Sent(2)),
];

/// Orders in which each of the three places is delivered ten times: rising, falling and mixed.
const ORDERS: [[usize; 30]; 3] = [
    [
        0, 1, 2, 0, 1, 2, 0, 1, 2, 0, 1, 2, 0, 1, 2, 0, 1, 2, 0, 1, 2, 0, 1, 2, 0, 1, 2, 0, 1, 2,
    ],
    [
        2, 1, 0, 2, 1, 0, 2, 1, 0, 2, 1, 0, 2, 1, 0, 2, 1, 0, 2, 1, 0, 2, 1, 0, 2, 1, 0, 2, 1, 0,
    ],
    [
        1, 2, 1, 2, 1, 0, 2, 0, 0, 2, 1, 0, 0, 0, 0, 0, 2, 1, 1, 2, 0, 1, 2, 0, 1, 1, 2, 2, 2, 1,
    ],
];

/// The packet arrives, for the first time or again, and stays; never more than three samples are stored.
fn deliver(rt: &impl Abort, domain: &mut Domain, place: usize, first: bool) {
    let arrival = if first { Arrival::New } else { Arrival::Repeat };
    let reply = make(rt, domain, Event::Deliver { place, keep: true });
    let wanted = (place, Reply::Arrived(arrival));
    expect_equal(rt, (place, reply), wanted, "a place and what arrives");
    let stored = domain.stored(ReaderNo::new(0));
    let unread = domain.unread(ReaderNo::new(0), KeyNo::new(0));
    let have = (stored, unread, stored <= 3 && unread <= 3);
    expect_equal(rt, have, (stored, unread, true), "three at most");
}

fn deliver_all(rt: &impl Abort, domain: &mut Domain, order: &[usize; 30]) {
    for (at, place) in order.iter().enumerate() {
        let first = !order[..at].contains(place);
        deliver(rt, domain, *place, first);
    }
}

fn expect_three_sent(rt: &impl Abort, domain: &mut Domain) {
    for (asked, told) in &THREE_SENT {
        expect_move(rt, domain, 0, *asked, *told, "three sent");
    }
}

fn expect_ten_times(rt: &impl Abort, alloc: Global, order: &[usize; 30]) {
    let mut domain = domain_of(rt, alloc, Stage::Small(3));
    expect_three_sent(rt, &mut domain);
    deliver_all(rt, &mut domain, order);
    expect_equal(rt, domain.stored(ReaderNo::new(0)), 3, "stored");
    drop(domain);
}

#[test]
fn each_packet_ten_times(rt: HostRuntime) {
    for order in &ORDERS {
        expect_ten_times(&rt, rt.alloc(), order);
    }
}

/// A list of moves: writes, sends, losses, deliveries, takes and refusals.
const LIST: [(Move, Told); 14] = [
    (Move::Write(0, 0, 11), Told::Written(1)),
    (Move::Write(0, 0, 12), Told::Written(2)),
    (Move::SendData(0, 0, 1), Told::Sent(0)),
    (Move::SendData(0, 0, 2), Told::Sent(1)),
    (Move::Lose(0), Told::Dropped),
    (Move::Deliver(0, false), Told::Refused(Refusal::NoPacket)),
    (Move::Deliver(1, false), Told::New),
    (Move::Take(0, 0), Told::Refused(Refusal::Empty)),
    (Move::SendData(0, 0, 1), Told::Sent(0)),
    (Move::Deliver(0, true), Told::New),
    (Move::Deliver(0, false), Told::Repeat),
    (Move::Take(0, 0), Told::Took(1, 11)),
    (Move::Take(0, 0), Told::Took(2, 12)),
    (
        Move::SendData(0, 0, 3),
        Told::Refused(Refusal::NothingToSend),
    ),
];

/// The events of the list.
pub(crate) fn listed(alloc: Global) -> Result<Vec<Event>, NoMemory> {
    let mut events = Vec::new(alloc);
    for (asked, _) in &LIST {
        if let Some(event) = event_of(*asked) {
            events.push(event)?;
        }
    }
    Ok(events)
}

/// The replies are the ones in the list from a place on, as far as they go.
pub(crate) fn expect_replies(rt: &impl Abort, replies: &[Reply], from: usize) {
    for (reply, (asked, told)) in replies.iter().zip(LIST.iter().skip(from)) {
        assert_eq!(rt; told_of(reply), *told, "{:?}", event_of(*asked));
    }
}

#[test]
fn a_list_of_events(rt: HostRuntime) {
    let events = listed(rt.alloc()).expect(&rt, NO_MEMORY);
    let mut domain = domain_of(&rt, rt.alloc(), Stage::Small(3));
    let replies = match domain.run(&events) {
        Ok(replies) => replies,
        Err(_) => panic!(rt; "no memory for the events"),
    };
    expect_equal(&rt, replies.len(), LIST.len(), "replies");
    expect_replies(&rt, &replies, 0);
    drop(domain);
}

/// Sends a HEARTBEAT to each place of the bus.
fn fill(rt: &impl Abort, domain: &mut Domain) {
    for place in 0..BUS_PLACES {
        expect_move(
            rt,
            domain,
            0,
            Move::SendHeartbeat(0, 0),
            Told::Sent(place),
            "a bus that fills",
        );
    }
}

#[test]
fn a_full_bus_of_a_domain_loses_what_is_sent(rt: HostRuntime) {
    let mut domain = domain_of(&rt, rt.alloc(), Stage::Small(1));
    fill(&rt, &mut domain);
    for (asked, told) in &ON_A_FULL_BUS {
        expect_move(&rt, &mut domain, 0, *asked, *told, "a full bus");
    }
    drop(domain);
}
