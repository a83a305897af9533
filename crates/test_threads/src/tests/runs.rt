//! Runs, and what they leave.
ghost use Rattle.std.specs.Prelude.{◌≡◌, ◌≤◌, length};
ghost use Rattle.dds_apps.specs.Kept.{AreOwners};

use dds_base::{AppNo, Event, Fate, NoMemory, Reply};
use dds_book::{Gauge, GaugeSeat, Journal};
use dds_check::Checked;
use dds_peers::{App, AppEnd, Fates, Gate, Limits, Outcome, RunFault, gauge_of, run_peers};
use std::alloc::Global;
use std::process::Abort;
use std::sync::Wait;
use std::thread::Threads;
use std::time::Clock;

/// Milliseconds after which the threads of seats begin: one application's and one participant's later than the others.
const DELAYS: [u16; 4] = [5, 0, 0, 9];

/// The limits of the program.
pub(crate) const LIMITS: Limits = Limits {
    calls: 200_000,
    idle_waits: 500,
    pumps: 20_000,
};

/// Lets every call through.
pub(crate) struct Open;

impl Gate for Open {
    fn pass(&self, _app: AppNo) {}
}

/// What a run leaves, with the diaries in the place of the applications.
#[derive(Drop)]
pub(crate) struct Told {
    pub(crate) diaries: Vec<Vec<(Event, Reply)>>,
    pub(crate) ends: Vec<AppEnd>,
    pub(crate) journal: Journal,
    pub(crate) gauge: Vec<u64>,
}

/// Why a run gave nothing.
#[derive(Clone, Copy, PartialEq, Eq, Debug)]
pub(crate) enum Fault {
    /// There weren't as many applications as the plan has; this is how many of them, and of seats, came back with the
    /// plan.
    AppCount {
        owed: usize,
        apps: usize,
        seats: usize,
    },
    NoMemory,
    JournalFull,
    DiaryMismatch,
    Spawn,
}

/// The fates.
pub(crate) fn circle(rt: &impl Abort, fates: &[Fate]) -> Fates {
    match Fates::new(fates) {
        Some(fates) => fates,
        None => panic!(rt; "no fates"),
    }
}

/// The diaries of the applications.
fn diaries_of<A: App>(alloc: Global, apps: &[A]) -> Result<Vec<Vec<(Event, Reply)>>, NoMemory> {
    let mut diaries = Vec::new(alloc);
    for app in apps {
        diaries.push(Vec::from_slice(alloc, app.diary().entries())?)?;
    }
    Ok(diaries)
}

/// Runs the applications, whose calls pass the gate.
pub(crate) fn run_through<R: Threads + Wait + Clock + Sync, G: Gate>(
    rt: &R,
    alloc: Global,
    checked: Checked,
    apps: Vec<Box<dyn App + Send>>,
    fates: &Fates,
    gate: &G,
    gauge: &Gauge,
    seats: Vec<GaugeSeat>,
    limits: Limits,
) -> Result<Told, Fault>
    requires gauge { length checked.plan.applications.entries ≤ gauge.now.apps }
    requires seats { AreOwners gauge.now (length checked.plan.applications.entries) seats.items }
{
    match run_peers(
        rt, alloc, checked, apps, fates, gate, gauge, seats, &DELAYS, limits,
    ) {
        Ok(
            Outcome {
                apps,
                ends,
                journal,
                gauge,
            },
        ) => match diaries_of(alloc, apps.as_slice()) {
            Ok(diaries) => Ok(Told {
                diaries,
                ends,
                journal,
                gauge,
            }),
            Err(_) => Err(Fault::NoMemory),
        },
        Err(
            RunFault::AppCount {
                checked,
                apps,
                seats,
            },
        ) => {
            let owed = checked.plan().lists().applications();
            drop(checked);
            Err(Fault::AppCount {
                owed,
                apps: apps.len(),
                seats: seats.len(),
            })
        }
        Err(RunFault::NoMemory) => Err(Fault::NoMemory),
        Err(RunFault::JournalFull) => Err(Fault::JournalFull),
        Err(RunFault::DiaryMismatch) => Err(Fault::DiaryMismatch),
        Err(RunFault::Spawn) => Err(Fault::Spawn),
    }
}

/// Runs the applications, which all calls let through.
pub(crate) fn run<R: Threads + Wait + Clock + Sync + Abort>(
    rt: &R,
    alloc: Global,
    checked: Checked,
    apps: Vec<Box<dyn App + Send>>,
    fates: &[Fate],
    limits: Limits,
) -> Result<Told, Fault> {
    let fates = circle(rt, fates);
    let (gauge, seats) = match gauge_of(alloc, checked.plan().lists().applications()) {
        Ok(both) => both,
        Err(NoMemory) => {
            drop(checked);
            return Err(Fault::NoMemory);
        }
    };
    run_through(
        rt, alloc, checked, apps, &fates, &Open, &gauge, seats, limits,
    )
}
