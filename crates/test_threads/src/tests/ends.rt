//! How the thread of an application ends.

use crate::tests::expecting::expect_equal;
use crate::tests::plans::{ping, small};
use crate::tests::runs::{LIMITS, run};
use crate::tests::scripts::{Script, take_at, write_at};
use dds_base::{Event, Fate, Refusal, Reply};
use dds_check::Checked;
use dds_peers::{App, AppEnd, Limits};
use std::alloc::Global;
use std::process::Abort;
use std::sync::Wait;
use std::thread::Threads;
use std::time::Clock;

/// The first application ran beside one that stops at once: its thread ended so, and this is its diary.
fn played<R: Threads + Wait + Clock + Sync + Abort>(
    rt: &R,
    alloc: Global,
    checked: Checked,
    first: Script,
    limits: Limits,
    owed: AppEnd,
) -> Vec<(Event, Reply)> {
    let mut apps: Vec<Box<dyn App + Send>> = Vec::new(alloc);
    let first = Box::new(alloc, first).expect(rt, "memory");
    apps.push(first).expect(rt, "memory");
    let idler = Script::new(alloc, take_at(0), 0);
    let second = Box::new(alloc, idler).expect(rt, "memory");
    apps.push(second).expect(rt, "memory");
    match run(rt, alloc, checked, apps, &[Fate::Pass], limits) {
        Ok(told) => {
            let end = told.ends.as_slice().first().copied();
            expect_equal(rt, end, Some(owed), "the first end");
            match told.diaries.into_iter().next() {
                Some(diary) => diary,
                None => panic!(rt; "no application"),
            }
        }
        Err(fault) => panic!(rt; "the run met {fault:?}"),
    }
}

/// Whether the reply is to a write that had no permit.
fn is_unpermitted(told: &(Event, Reply)) -> bool {
    matches!(told.1, Reply::Refused(Refusal::NoPermit))
}

#[test]
fn writes_more_than_it_may(rt: HostRuntime) {
    let alloc = rt.alloc();
    let script = Script::new(alloc, write_at(0), 100);
    let diary = played(
        &rt,
        alloc,
        small(&rt, alloc),
        script,
        LIMITS,
        AppEnd::Stopped,
    );
    expect_equal(&rt, diary.len(), 100, "calls");
    let unpermitted = diary.iter().filter(|told| is_unpermitted(told)).count();
    expect_equal(&rt, unpermitted, 97, "calls without a permit");
    for (place, told) in diary.iter().take(3).enumerate() {
        let wanted = Reply::Written((place as u64).saturating_add(1));
        expect_equal(&rt, told.1, wanted, "a write");
    }
}

#[test]
fn is_short_of_memory(rt: HostRuntime) {
    let alloc = rt.alloc();
    let script = Script::new(alloc, write_at(0), 100).short_in(2);
    let checked = small(&rt, alloc);
    let diary = played(&rt, alloc, checked, script, LIMITS, AppEnd::NoMemory);
    expect_equal(&rt, diary.len(), 2, "calls");
}

#[test]
fn writes_at_another_ones_writer(rt: HostRuntime) {
    let alloc = rt.alloc();
    let script = Script::new(alloc, write_at(1), 100);
    let checked = ping(&rt, alloc);
    let diary = played(&rt, alloc, checked, script, LIMITS, AppEnd::NotYours);
    expect_equal(&rt, diary.len(), 0, "calls");
}

#[test]
fn never_stops(rt: HostRuntime) {
    let alloc = rt.alloc();
    let limits = Limits { calls: 5, ..LIMITS };
    let script = Script::new(alloc, write_at(0), u64::MAX);
    let checked = small(&rt, alloc);
    let diary = played(&rt, alloc, checked, script, limits, AppEnd::CallLimit);
    expect_equal(&rt, diary.len(), 5, "calls");
}

#[test]
fn makes_as_many_calls_as_it_may(rt: HostRuntime) {
    let alloc = rt.alloc();
    let limits = Limits { calls: 5, ..LIMITS };
    let script = Script::new(alloc, write_at(0), 5);
    let checked = small(&rt, alloc);
    let diary = played(&rt, alloc, checked, script, limits, AppEnd::Stopped);
    expect_equal(&rt, diary.len(), 5, "calls");
}
