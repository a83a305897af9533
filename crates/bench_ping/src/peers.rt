//! The deployment of `examples/ping`, run by its peers until each application has written and taken so many samples.

ghost use Rattle.std.specs.Prelude.{◌<◌, length};

use crate::trips::{Timed, Times, Watch};
use dds_base::{AppNo, Fate, Reply};
use dds_check::Checked;
use dds_match::Plan;
use dds_peers::{App, AppEnd, Fates, Limits, Outcome, RunFault, Steady, gauge_of, run_peers};
use std::alloc::Global;
use std::sync::{Arc, Wait};
use std::thread::Threads;
use std::time::{Clock, Duration, Instant};
use test_files::plans::checked;
use test_files::texts::{PING, PING_CERT};

/// No limit ends a run before the journal is full.
const LIMITS: Limits = Limits {
    calls: u64::MAX,
    idle_waits: 100_000,
    pumps: u64::MAX,
};

/// A circle of 64 fates, of which the packets lost stand apart as far as they can.
fn fates(lost: usize) -> Option<Fates> {
    let mut all = [Fate::Pass; 64];
    for at in 0..64usize {
        if at.wrapping_mul(lost) % 64 < lost {
            all[at] = Fate::Lose;
        }
    }
    Fates::new(&all)
}

/// The result of a run: how many entries its journal has, how many samples were written and taken, and whether each
/// application stopped.
#[derive(Clone, Copy)]
pub(crate) struct Told {
    pub entries: usize,
    pub written: usize,
    pub taken: usize,
    pub stopped: bool,
}

/// A steady application that is timed. `None` where there was no memory.
fn timed<R: Clock>(
    alloc: Global,
    plan: &Plan,
    app: AppNo,
    samples: u64,
    watch: &Watch<R>,
) -> Option<Timed>
    requires { app < length plan.now.applications.entries }
{
    let steady = Steady::new(alloc, plan, app, samples, samples).ok()?;
    let times = Arc::try_clone(&watch.times).ok()?;
    Some(Timed::new(alloc, app, steady, times))
}

/// A timed application for each of the plan's. `None` where there was no memory.
fn all_timed<R: Clock>(
    alloc: Global,
    plan: &Plan,
    samples: u64,
    watch: &Watch<R>,
) -> Option<Vec<Timed>> {
    let mut all = Vec::new(alloc);
    for app in 0..plan.lists().applications() {
        all.push(timed(alloc, plan, AppNo::new(app), samples, watch)?)
            .ok()?;
    }
    Some(all)
}

/// The result of a run.
fn came_to(outcome: &Outcome<Box<dyn App + Send>>) -> Told {
    let entries = outcome.journal.entries();
    Told {
        entries: entries.len(),
        written: entries
            .iter()
            .filter(|e| matches!(e.reply, Reply::Written(_)))
            .count(),
        taken: entries
            .iter()
            .filter(|e| matches!(e.reply, Reply::Took(_)))
            .count(),
        stopped: outcome.ends.iter().all(|end| *end == AppEnd::Stopped),
    }
}

/// Runs a checked deployment with these applications. `None` where there was no memory or no thread for the run.
fn ran_with<R: Threads + Wait + Clock + Sync>(
    rt: &R,
    alloc: Global,
    checked: Checked,
    apps: Vec<Box<dyn App + Send>>,
    fates: &Fates,
    watch: &Watch<R>,
) -> Option<Told> {
    let count = checked.plan().lists().applications();
    let Ok((gauge, seats)) = gauge_of(alloc, count) else {
        drop(checked);
        return None;
    };
    match run_peers(
        rt,
        alloc,
        checked,
        apps,
        fates,
        watch,
        &gauge,
        seats,
        &[],
        LIMITS,
    ) {
        Ok(outcome) => {
            let told = came_to(&outcome);
            drop(outcome);
            Some(told)
        }
        Err(fault) => {
            drop(fault);
            None
        }
    }
}

/// Runs the deployment until each application has written and taken so many samples. `None` where there was no memory
/// or no thread for the run.
fn ran<R: Threads + Wait + Clock + Sync>(
    rt: &R,
    alloc: Global,
    samples: u64,
    fates: &Fates,
    watch: &Watch<R>,
) -> Option<Told> {
    let checked = checked(alloc, PING, PING_CERT)?;
    let Some(all) = all_timed(alloc, checked.plan(), samples, watch) else {
        drop(checked);
        return None;
    };
    let mut apps: Vec<Box<dyn App + Send>> = Vec::new(alloc);
    for timed in all {
        let Ok(boxed) = Box::new(alloc, timed) else {
            drop(checked);
            return None;
        };
        if apps.push(boxed).is_err() {
            drop(checked);
            return None;
        }
    }
    ran_with(rt, alloc, checked, apps, fates, watch)
}

/// The result of a run, how long it took, and within how many microseconds half of the round trips and 99 of 100 were
/// made.
#[derive(Clone, Copy)]
pub(crate) struct Peered {
    pub told: Told,
    pub took: Duration,
    pub half: u64,
    pub most: u64,
}

/// Runs the deployment, with so many of each 64 packets lost. `None` where there was no memory or no thread, or the
/// clock failed.
pub(crate) fn measure<R: Threads + Wait + Clock + Sync>(
    rt: &R,
    alloc: Global,
    samples: usize,
    lost: usize,
) -> Option<Peered> {
    let fates = fates(lost)?;
    let began = Instant::now(rt).ok()?;
    let times = Arc::new(alloc, Times::new()).ok()?;
    let watch = Watch { rt, began, times };
    let told = ran(rt, alloc, samples as u64, &fates, &watch)?;
    let took = began.elapsed(rt).ok()?;
    let (half, most) = watch.times.microseconds();
    Some(Peered {
        told,
        took,
        half,
        most,
    })
}
