//! What a reader adds to what writes put in flight.
ghost use Rattle.std.specs.Prelude.{ℕ, ◌<◌, ◌^◌, if◌then◌else◌, slice_index};
ghost use Rattle.dds_match.specs.Plan.{network_of};
ghost use Rattle.dds_conditions.specs.Heard.{Adds};

use crate::sizes::writers_of;
use dds_base::grid::ENDPOINTS;
use dds_base::{ReaderNo, WriterNo};
use dds_match::Plan;

/// Adds the weight of a key that the reader hears at the place of each writer that matches the reader: a write of the
/// key there puts a sample in flight for each matched reader (OMG DDSI-RTPS 2.5, clause 8.4.7).
pub fn add_heard(plan: &Plan, cells: &mut [u64; ENDPOINTS], reader: ReaderNo, weight: u32)
    requires { (w : ℕ) → w < (network_of plan.now).writers → slice_index cells.old w < 2 ^ 63 }
    ensures { Adds (network_of plan.now).writers
        (λ w. if (network_of plan.now).matched w reader then weight else 0) cells.old cells.new }
{
    for w in 0..writers_of(plan) {
        if plan.matched(WriterNo::new(w), reader) {
            cells[w] += u64::from(weight);
        }
    }
}
