//! Runs that give nothing.

use crate::tests::expecting::expect_equal;
use crate::tests::plans::{ping, small};
use crate::tests::runs::{Fault, LIMITS, Told, run};
use crate::tests::scripts::{Script, take_at, write_at};
use dds_base::{Fate, NoMemory};
use dds_peers::{App, Limits, RunFault};
use std::alloc::Global;
use std::process::Abort;
use std::sync::Wait;
use std::test::Fail;
use std::thread::Threads;
use std::time::Clock;

/// More calls than a journal has entries.
const CALLS: u64 = 1_100_000;

/// The run gave nothing, for this reason.
fn expect_fault(rt: &impl Abort, told: Result<Told, Fault>, owed: Fault) {
    match told {
        Ok(told) => {
            drop(told);
            panic!(rt; "the run met no fault")
        }
        Err(fault) => expect_equal(rt, fault, owed, "the fault"),
    }
}

#[test]
fn has_a_box_too_few(rt: HostRuntime) -> Result<(), Fail> {
    let alloc = rt.alloc();
    let mut apps: Vec<Box<dyn App + Send>> = Vec::new(alloc);
    apps.push(Box::new(alloc, Script::new(alloc, take_at(1), 1))?)?;
    let told = run(&rt, alloc, ping(&rt, alloc), apps, &[Fate::Pass], LIMITS);
    let owed = Fault::AppCount {
        owed: 2,
        apps: 1,
        seats: 2,
    };
    expect_fault(&rt, told, owed);
    Ok(())
}

#[test]
fn has_an_entry_before_it_starts(rt: HostRuntime) -> Result<(), Fail> {
    let alloc = rt.alloc();
    let mut apps: Vec<Box<dyn App + Send>> = Vec::new(alloc);
    let Ok(first) = Script::new(alloc, write_at(0), 2).with_an_entry() else {
        panic!(rt; "no memory for the diary")
    };
    apps.push(Box::new(alloc, first)?)?;
    apps.push(Box::new(alloc, Script::new(alloc, take_at(0), 2))?)?;
    let told = run(&rt, alloc, small(&rt, alloc), apps, &[Fate::Pass], LIMITS);
    expect_fault(&rt, told, Fault::DiaryMismatch);
    Ok(())
}

/// A run of one that writes 1,100,000 times, and of one that stops at once.
fn run_until_full<R: Threads + Wait + Clock + Sync + Abort>(
    rt: &R,
    alloc: Global,
    first: Script,
) -> Result<Told, Fault> {
    let limits = Limits {
        calls: CALLS,
        ..LIMITS
    };
    let mut apps: Vec<Box<dyn App + Send>> = Vec::new(alloc);
    let first = Box::new(alloc, first).expect(rt, "memory");
    apps.push(first).expect(rt, "memory");
    let idler = Script::new(alloc, take_at(0), 0);
    let second = Box::new(alloc, idler).expect(rt, "memory");
    apps.push(second).expect(rt, "memory");
    run(rt, alloc, small(rt, alloc), apps, &[Fate::Pass], limits)
}

#[test]
fn fills_the_journal(rt: HostRuntime) {
    let alloc = rt.alloc();
    let first = Script::new(alloc, write_at(0), CALLS);
    expect_fault(&rt, run_until_full(&rt, alloc, first), Fault::JournalFull);
}

/// Of two causes, a diary with an entry at the start and a full journal, the journal is reported.
#[test]
fn fills_the_journal_and_has_an_entry_before_it_starts(rt: HostRuntime) {
    let alloc = rt.alloc();
    match Script::new(alloc, write_at(0), CALLS).with_an_entry() {
        Ok(first) => {
            let told = run_until_full(&rt, alloc, first);
            expect_fault(&rt, told, Fault::JournalFull);
        }
        Err(NoMemory) => panic!(rt; "no memory for the diary"),
    }
}

/// The fault has this number.
fn expect_number(rt: &impl Abort, fault: &RunFault<Script>, owed: u8) {
    expect_equal(rt, fault.number(), owed, "the number of a fault");
}

#[test]
fn faults_have_numbers(rt: HostRuntime) {
    expect_number(&rt, &RunFault::NoMemory, 2);
    expect_number(&rt, &RunFault::JournalFull, 3);
    expect_number(&rt, &RunFault::DiaryMismatch, 4);
    expect_number(&rt, &RunFault::Spawn, 5);
}
