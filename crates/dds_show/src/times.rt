//! Lengths of time as people read them.
ghost use Rattle.std.specs.Prelude.{◌≡◌, IfOk, string_bytes};
ghost use Rattle.dds_show.specs.Times.{time_text};

use dds_text::texts::TextResult;
use std::alloc::Global;

/// So many nanoseconds, in the greatest unit from `s` down to `ns` that makes them a whole number. `NoMemory` is the
/// only error.
pub fn time_text(alloc: Global, nanoseconds: u64) -> TextResult
    ensures { IfOk result (λ text. string_bytes text ≡ time_text nanoseconds) }
{
    if nanoseconds % 1_000_000_000 == 0 {
        let seconds = nanoseconds / 1_000_000_000;
        format!(in alloc; "{seconds} s")
    } else if nanoseconds % 1_000_000 == 0 {
        let milliseconds = nanoseconds / 1_000_000;
        format!(in alloc; "{milliseconds} ms")
    } else if nanoseconds % 1000 == 0 {
        let microseconds = nanoseconds / 1000;
        format!(in alloc; "{microseconds} us")
    } else {
        format!(in alloc; "{nanoseconds} ns")
    }
}
