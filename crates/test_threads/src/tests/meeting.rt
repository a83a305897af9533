//! The applications run side by side, and a monitor reads the gauge while they do: each first call is held until the
//! other's has come, and the first application's also until the monitor has seen that the second one made a call.
ghost use Rattle.std.specs.Prelude.{◌≡◌, ◌<◌, ◌≤◌, IfOk, IfSome, length};
ghost use Rattle.dds_apps.specs.Kept.{AreOwners};

use crate::tests::answers::{expect_answered, steady};
use crate::tests::plans::ping;
use crate::tests::runs::{Fault, LIMITS, Told, circle, run_through};
use crossbeam_channel::{Receiver, Sender, bounded};
use dds_base::{AppNo, Fate, NoMemory};
use dds_book::{Gauge, GaugeSeat};
use dds_check::Checked;
use dds_peers::{App, Fates, Gate};
use std::alloc::Global;
use std::process::Abort;
use std::sync::Wait;
use std::test::Fail;
use std::thread;
use std::thread::Threads;
use std::time::{Clock, Duration};

/// How many waits of 1 ms hold a first call at most, and how many a monitor makes.
const WAITS: usize = 10_000;

/// Rings once at one end, and is heard once at the other.
#[derive(Drop)]
struct Bell {
    rope: Sender<(), Global>,
    ear: Receiver<(), Global>,
}

impl Bell {
    fn new(alloc: Global) -> Result<Bell, NoMemory> {
        let (rope, ear) = bounded(alloc, 1)?;
        Ok(Bell { rope, ear })
    }

    fn ring(&self, rt: &impl Wait) {
        let _ = self.rope.try_send(rt, ());
    }

    /// Whether it has rung since it was heard last.
    fn has_rung(&self, rt: &impl Wait) -> bool {
        self.ear.try_recv(rt).is_ok()
    }

    /// Waits until it rings, at most so many times, and returns how many of these waits are left. `None` where it
    /// doesn't ring in time.
    fn hear<R: Wait + Clock>(&self, rt: &R, waits: usize) -> Option<usize> {
        for made in 0..waits {
            if self.ear.recv_timeout(rt, Duration::from_millis(1)).is_ok() {
                return Some(waits - made - 1);
            }
        }
        None
    }
}

/// The bells of an application: its first call is still to come, has come, was let through in time.
#[derive(Drop)]
struct Side {
    first: Bell,
    came: Bell,
    met: Bell,
}

impl Side {
    fn new(rt: &impl Wait, alloc: Global) -> Result<Side, NoMemory> {
        let side = Side {
            first: Bell::new(alloc)?,
            came: Bell::new(alloc)?,
            met: Bell::new(alloc)?,
        };
        side.first.ring(rt);
        Ok(side)
    }
}

/// The gate at which they meet.
#[derive(Drop)]
struct Meeting<'a, R> {
    rt: &'a R,
    one: Side,
    two: Side,
    seen: Bell,
}

impl<'a, R: Wait + Clock + Sync> Gate for Meeting<'a, R> {
    fn pass(&self, app: AppNo) {
        if app.number() == 0 {
            if self.one.first.has_rung(self.rt) {
                self.one.came.ring(self.rt);
                if let Some(left) = self.two.came.hear(self.rt, WAITS) {
                    if self.seen.hear(self.rt, left).is_some() {
                        self.one.met.ring(self.rt);
                    }
                }
            }
        } else if self.two.first.has_rung(self.rt) {
            self.two.came.ring(self.rt);
            if self.one.came.hear(self.rt, WAITS).is_some() {
                self.two.met.ring(self.rt);
            }
        }
    }
}

/// A gauge of so many applications with its owners' seats, and one that only reads.
fn watched_gauge(
    alloc: Global,
    apps: usize,
) -> Result<(Gauge, Vec<GaugeSeat>, Option<GaugeSeat>), NoMemory>
    ensures apps { IfOk result (λ r. r.0.apps ≡ apps) }
    ensures owners { IfOk result (λ r. AreOwners r.0 apps r.1.items) }
    ensures monitor { IfOk result (λ r. IfSome r.2 (λ m. m.table ≡ r.0.table)) }
{
    let (gauge, mut seats) = match Gauge::open(alloc, apps, 1) {
        Ok(both) => both,
        Err(NoMemory) => return Err(NoMemory),
    };
    let monitor = seats.pop();
    Ok((gauge, seats, monitor))
}

/// Whether the second application has made a call.
fn has_called(gauge: &Gauge, monitor: &mut GaugeSeat) -> bool
    requires gauge { monitor.old.table ≡ gauge.now.table }
    requires apps { 1 < gauge.now.apps }
    ensures { monitor.new.table ≡ monitor.old.table }
{
    gauge.read(monitor, AppNo::new(1)) > 0
}

/// Rings when the second application has made a call.
fn watch<R: Wait + Clock>(rt: &R, gauge: &Gauge, monitor: GaugeSeat, seen: &Bell)
    requires gauge { monitor.table ≡ gauge.now.table }
    requires apps { 1 < gauge.now.apps }
{
    let mut monitor = monitor;
    for _ in 0..WAITS {
        if has_called(gauge, &mut monitor) {
            seen.ring(rt);
            return;
        }
        thread::sleep(rt, Duration::from_millis(1));
    }
}

/// Runs both applications through the gate, and a monitor beside them.
fn met<R: Threads + Wait + Clock + Sync>(
    rt: &R,
    alloc: Global,
    checked: Checked,
    apps: Vec<Box<dyn App + Send>>,
    fates: &Fates,
    meeting: &Meeting<R>,
    gauge: &Gauge,
    owners: Vec<GaugeSeat>,
    monitor: GaugeSeat,
) -> Result<Told, Fault>
    requires gauge { length checked.plan.applications.entries ≤ gauge.now.apps }
    requires owners { AreOwners gauge.now (length checked.plan.applications.entries) owners.items }
    requires monitor { monitor.table ≡ gauge.now.table }
    requires apps { 1 < gauge.now.apps }
{
    thread::scope(
        thread::scope_env(),
        rt,
        move |scope| -> Result<Told, Fault>
            requires { (length checked.plan.applications.entries ≤ gauge.now.apps)
                × AreOwners gauge.now (length checked.plan.applications.entries) owners.items
                × (monitor.table ≡ gauge.now.table) × (1 < gauge.now.apps) }
        {
            let run = move || -> ()
                requires { (monitor.table ≡ gauge.now.table) × (1 < gauge.now.apps) }
            { watch(rt, gauge, monitor, &meeting.seen) };
            let watching = scope.spawn(run);
            let told = run_through(
                rt, alloc, checked, apps, fates, meeting, gauge, owners, LIMITS,
            );
            if let Ok(watching) = watching {
                watching.join(rt);
            }
            told
        },
    )
}

#[test]
fn meet_gate(rt: HostRuntime) -> Result<(), Fail> {
    let alloc = rt.alloc();
    let meeting = Meeting {
        rt: &rt,
        one: Side::new(&rt, alloc)?,
        two: Side::new(&rt, alloc)?,
        seen: Bell::new(alloc)?,
    };
    let fates = circle(&rt, &[Fate::Pass]);
    let checked = ping(&rt, alloc);
    let first = steady(&rt, alloc, checked.plan(), 0);
    let second = steady(&rt, alloc, checked.plan(), 1);
    let mut apps: Vec<Box<dyn App + Send>> = Vec::new(alloc);
    let first = Box::new(alloc, first).expect(&rt, "memory");
    apps.push(first).expect(&rt, "memory");
    let second = Box::new(alloc, second).expect(&rt, "memory");
    apps.push(second).expect(&rt, "memory");
    let count = checked.plan().lists().applications();
    let (gauge, owners, monitor) = watched_gauge(alloc, count).expect(&rt, "memory");
    match monitor {
        Some(monitor) if count > 1 => {
            let told = met(
                &rt, alloc, checked, apps, &fates, &meeting, &gauge, owners, monitor,
            );
            expect_answered(&rt, told);
        }
        _ => {
            drop(checked);
            panic!(rt; "no monitor")
        }
    }
    assert!(rt; meeting.one.met.has_rung(&rt));
    assert!(rt; meeting.two.met.has_rung(&rt));
    Ok(())
}
