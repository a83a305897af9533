//! The gauge of a run, with a seat for each of its applications.
ghost use Rattle.std.specs.Prelude.{◌≡◌, IfOk};
ghost use Rattle.dds_apps.specs.Kept.{AreOwners};

use dds_base::NoMemory;
use dds_book::{Gauge, GaugeSeat};
use std::alloc::Global;

/// A gauge for so many applications, with nothing counted, and the seats of its owners in the order of the
/// applications: what `run_peers` is handed where nobody else reads the gauge. An `Err` means that memory ran out.
pub fn gauge_of(alloc: Global, apps: usize) -> Result<(Gauge, Vec<GaugeSeat>), NoMemory>
    ensures apps { IfOk result (λ r. r.0.apps ≡ apps) }
    ensures seats { IfOk result (λ r. AreOwners r.0 apps r.1.items) }
{
    Gauge::open(alloc, apps, 0)
}
