//! Two steady applications that answer each other: ten samples of each are written and taken, whatever happens to
//! the packets.

use crate::tests::expecting::expect_equal;
use crate::tests::plans::ping;
use crate::tests::runs::{Fault, LIMITS, Told, run};
use dds_base::{AppNo, Event, Fate, Reply, Sample};
use dds_book::{Entry, Journal};
use dds_match::Plan;
use dds_peers::{App, AppEnd, Steady};
use std::alloc::Global;
use std::process::Abort;
use std::sync::Wait;
use std::thread::Threads;
use std::time::Clock;

/// Packets are lost, come twice, and come in another order.
const ROUGH: [Fate; 5] = [Fate::Lose, Fate::Keep, Fate::Last, Fate::Pass, Fate::Pass];

/// Every other packet comes twice.
const TWICE: [Fate; 2] = [Fate::Keep, Fate::Pass];

/// The application of this number, which writes and takes ten samples.
pub(crate) fn steady(rt: &impl Abort, alloc: Global, plan: &Plan, app: usize) -> Steady {
    if app >= plan.lists().applications() {
        panic!(rt; "no application {app}");
    }
    match Steady::new(alloc, plan, AppNo::new(app), 10, 10) {
        Ok(steady) => steady,
        Err(_) => panic!(rt; "no memory for application {app}"),
    }
}

/// The diary of each application is its part of the journal, and its count is the length of that part.
fn expect_diaries(rt: &impl Abort, told: &Told) {
    for (seat, diary) in told.diaries.iter().enumerate() {
        let entries = told.journal.entries();
        let part = entries.iter().filter(|entry| entry.seat == seat);
        let count = entries.iter().filter(|entry| entry.seat == seat).count();
        expect_equal(rt, diary.len(), count, "the length of a diary");
        for (made, entry) in diary.iter().zip(part) {
            expect_equal(rt, *made, (entry.event, entry.reply), "what a seat did");
        }
        let counted = told.gauge.get(seat).copied();
        expect_equal(rt, counted, Some(diary.len() as u64), "the gauge");
    }
}

/// Whether the entry wrote this sample.
fn is_written_as(entry: &Entry, sample: &Sample) -> bool {
    let write = Event::Write {
        writer: sample.writer,
        key: sample.key,
        payload: sample.payload,
    };
    entry.event == write && entry.reply == Reply::Written(sample.sn)
}

/// What was taken is what was written under its number. So many were.
fn expect_taken(rt: &impl Abort, journal: &Journal, owed: usize) {
    let mut taken = 0usize;
    for entry in journal.entries() {
        if let Reply::Took(sample) = entry.reply {
            taken = taken.saturating_add(1);
            let writes = journal.entries();
            assert!(rt;
                writes.iter().any(|write| is_written_as(write, &sample)),
                "{sample:?}"
            );
        }
    }
    expect_equal(rt, taken, owed, "taken");
}

/// Both stopped, and each took what the other one wrote.
pub(crate) fn expect_answered(rt: &impl Abort, told: Result<Told, Fault>) {
    match told {
        Ok(told) => {
            expect_diaries(rt, &told);
            expect_taken(rt, &told.journal, 20);
            let wanted = [AppEnd::Stopped, AppEnd::Stopped];
            expect_equal(rt, told.ends.as_slice(), wanted.as_slice(), "the ends");
        }
        Err(fault) => panic!(rt; "the run met {fault:?}"),
    }
}

fn expect_answers<R: Threads + Wait + Clock + Sync + Abort>(rt: &R, alloc: Global, fates: &[Fate]) {
    let checked = ping(rt, alloc);
    let first = steady(rt, alloc, checked.plan(), 0);
    let second = steady(rt, alloc, checked.plan(), 1);
    let mut apps: Vec<Box<dyn App + Send>> = Vec::new(alloc);
    let first = Box::new(alloc, first).expect(rt, "memory");
    apps.push(first).expect(rt, "memory");
    let second = Box::new(alloc, second).expect(rt, "memory");
    apps.push(second).expect(rt, "memory");
    expect_answered(rt, run(rt, alloc, checked, apps, fates, LIMITS));
}

#[test]
fn answers_over_a_rough_bus(rt: HostRuntime) {
    expect_answers(&rt, rt.alloc(), &ROUGH);
}

#[test]
fn answers_where_packets_come_twice(rt: HostRuntime) {
    expect_answers(&rt, rt.alloc(), &TWICE);
}

#[test]
fn answers_fifty_times(rt: HostRuntime) {
    for _ in 0..50 {
        expect_answers(&rt, rt.alloc(), &ROUGH);
    }
}
