//! What a write of a key puts in flight, weighed by a row: at each writer, accumulated over the samples that the row
//! weighs and that no cap carries.
ghost use Rattle.std.specs.Prelude.{◌<◌, ◌≤◌, ◌+◌};
ghost use Rattle.dds_base.specs.Grid.{most_endpoints};
ghost use Rattle.dds_match.specs.Plan.{network_of};
ghost use Rattle.dds_runs.specs.Accepted.{row_of};
ghost use Rattle.dds_check.specs.Rows.{ShowsSpreads};
ghost use Rattle.dds_check.specs.Spreads.{ShowsHeard};

use crate::carried::carried;
use crate::tables::Tables;
use dds_base::grid::ENDPOINTS;
use dds_base::{KeyNo, ReaderNo};
use dds_conditions::{add_heard, readers_of};
use dds_match::Plan;

/// Adds what one reader hears: a key that the row doesn't weigh costs no walk over the writers.
fn add_reader(
    plan: &Plan,
    weights: &Tables,
    cells: &mut [u64; ENDPOINTS],
    reader: ReaderNo,
    key: KeyNo,
)
    requires reader { reader < (network_of plan.now).readers }
    requires few { (network_of plan.now).readers ≤ most_endpoints }
    requires key { key < (network_of plan.now).keys }
    requires cells { ShowsHeard (network_of plan.now) (row_of weights.now) key reader cells.old }
    ensures { ShowsHeard (network_of plan.now) (row_of weights.now) key (reader + 1) cells.new }
{
    let weight = weights.sample(reader, key);
    if 0 < weight && plan.hears(reader, key) && carried(plan, weights, reader, key).is_none() {
        add_heard(plan, cells, reader, weight);
    }
}

/// By the number of the writer, what a write of the key there puts in flight, weighed by the row, but for samples that
/// caps carry.
pub fn spreads_of(plan: &Plan, weights: &Tables, key: KeyNo) -> [u64; ENDPOINTS]
    requires { key < (network_of plan.now).keys }
    ensures { ShowsSpreads (network_of plan.now) (row_of weights.now) key result }
{
    let mut cells = [0; ENDPOINTS];
    for r in 0..readers_of(plan) {
        add_reader(plan, weights, &mut cells, ReaderNo::new(r), key);
    }
    cells
}
