//! A count that one thread raises, as a monitor reads it after that thread.

ghost use Rattle.std.specs.Prelude.{◌≡◌, ◌<◌, IsSome};

use crate::tests::expecting::expect_equal;
use dds_base::AppNo;
use dds_book::{Gauge, GaugeSeat};
use std::test::Fail;
use std::thread;
use std::thread::Threads;

/// Raises the seat's count a thousand times.
fn bump_often(gauge: &Gauge, mut seat: GaugeSeat)
    requires gauge { seat.table ≡ gauge.now.table }
    requires owner { IsSome seat.owner }
{
    for _ in 0..1000 {
        gauge.bump(&mut seat).is_ok();
    }
}

/// The count of the first application, as a monitor reads it once the thread of the owner was joined.
fn read_after<R: Threads>(rt: &R, gauge: &Gauge, owner: GaugeSeat, mut monitor: GaugeSeat) -> u64
    requires owner { (owner.table ≡ gauge.now.table) × IsSome owner.owner }
    requires monitor { monitor.table ≡ gauge.now.table }
    requires app { 0 < gauge.now.apps }
{
    thread::join(
        rt,
        || -> ()
            requires { (owner.table ≡ gauge.now.table) × IsSome owner.owner }
        { bump_often(gauge, owner) },
        || {},
    );
    gauge.read(&mut monitor, AppNo::new(0))
}

#[test]
fn gauge_read_back(rt: HostRuntime) -> Result<(), Fail> {
    let Ok((gauge, mut seats)) = Gauge::open(rt.alloc(), 1, 1) else {
        panic!(rt; "no memory")
    };
    let (Some(monitor), Some(owner)) = (seats.pop(), seats.pop()) else {
        panic!(rt; "too few seats")
    };
    let count = read_after(&rt, &gauge, owner, monitor);
    expect_equal(&rt, count, 1000, "the count");
    Ok(())
}
