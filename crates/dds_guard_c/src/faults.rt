//! The fault of a deployment file, for a program that says why its guard didn't open.
ghost use Rattle.std.specs.Prelude.{◌≡◌, ◌≢◌, ◌≤◌, length, string_bytes};
ghost use Rattle.dds_fields.specs.FaultTable.{number_of};
ghost use Rattle.dds_guard_c.specs.Checking.{put_over};
ghost use Rattle.dds_guard_c.specs.Faults.{IsFault, IsRight};

use crate::checking::put;
use crate::status::{FAULT, NO_MEMORY, OK};
use dds_deploy::{DeployFault, Fault, read_deployment};
use std::alloc::Global;

/// Tells the number of a fault, and where it is.
fn tell(fault: Fault, number: &mut u32, path: &mut [u8], whole: &mut usize)
    ensures number { number.new ≡ number_of fault.kind }
    ensures path { path.new ≡ put_over (string_bytes fault.path) path.old }
    ensures whole { whole.new ≡ length (string_bytes fault.path) }
{
    let Fault { kind, path: text } = fault;
    put(text.as_bytes(), path);
    *whole = text.len();
    *number = u32::from(kind.number());
    drop(text);
}

/// Tells the first fault of a deployment file: its number, 1 to 13, and where it is, as `ddscheck match` prints them.
/// As much of the path as there is room for is put into `path`, and `length` is that of the whole in bytes. The answer
/// is 1 where there is a fault, else nothing is told: 0 where the file has none, and 2 where memory ran out.
#[unsafe(no_mangle)]
pub extern "C" fn ddscheck_find_fault(
    alloc: Global,
    deployment: &[u8],
    number: &mut u32,
    path: &mut [u8],
    length: &mut usize,
) -> u32
    ensures answer { result ≤ 2 }
    ensures fault { result ≡ 1 → IsFault deployment.now number.new length.new path.old path.new }
    ensures right { result ≡ 0 → IsRight deployment.now }
    ensures same { result ≢ 1
        → (number.new ≡ number.old) × (path.new ≡ path.old) × (length.new ≡ length.old) }
{
    match read_deployment(alloc, deployment) {
        Ok(lists) => {
            drop(lists);
            OK
        }
        Err(DeployFault::At(fault)) => {
            tell(fault, number, path, length);
            FAULT
        }
        Err(DeployFault::NoMemory) => NO_MEMORY,
    }
}
