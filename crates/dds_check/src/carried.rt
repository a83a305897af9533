//! Which samples a row carries by caps.
ghost use Rattle.std.specs.Prelude.{◌≡◌, ◌<◌, ◌==◌, ◌&&◌, not};
ghost use Rattle.std.specs.List.{list_any};
ghost use Rattle.dds_base.specs.Sums.{any_below};
ghost use Rattle.dds_match.specs.Plan.{network_of};
ghost use Rattle.dds_runs.specs.Accepted.{row_of, leaves_to_caps, carried};

use crate::tables::Tables;
use dds_base::{KeyNo, ReaderNo, WriterNo};
use dds_match::Plan;

/// Whether the row gives weight to permits of the key at one of some writers.
fn weighs_one(weights: &Tables, writers: &[WriterNo], key: KeyNo) -> bool
    ensures { result ≡ list_any (λ w. not ((row_of weights.now).permits w key == 0)) writers.now }
{
    writers.iter().any(|w| weights.permit(*w, key) != 0)
}

/// Whether the row gives weight to permits of the key at a writer that matches the reader.
fn weighs_permits(plan: &Plan, weights: &Tables, reader: ReaderNo, key: KeyNo) -> bool
    ensures { result ≡ any_below (network_of plan.now).writers
        (λ w. (network_of plan.now).matched w reader && not ((row_of weights.now).permits w key == 0)) }
{
    weighs_one(weights, plan.writers_of(reader), key)
}

/// Whether the row gives weight neither to takes of the key at the reader, nor to permits of it at a writer that
/// matches.
fn leaves_to_caps(plan: &Plan, weights: &Tables, reader: ReaderNo, key: KeyNo) -> bool
    ensures { result ≡ leaves_to_caps (network_of plan.now) (row_of weights.now) reader key }
{
    weights.take(reader, key) == 0 && !weighs_permits(plan, weights, reader, key)
}

/// At most how many samples of the key are in flight to the reader, where the row carries them by caps: it does where
/// it weighs neither takes nor permits of them. `None` where it carries them by permits.
pub fn carried(plan: &Plan, weights: &Tables, reader: ReaderNo, key: KeyNo) -> Option<u64>
    requires reader { reader < (network_of plan.now).readers }
    requires key { key < (network_of plan.now).keys }
    ensures { result ≡ carried (network_of plan.now) (row_of weights.now) reader key }
{
    // Most often there are none, and this is one look.
    let most = plan.capped(reader, key)?;
    if leaves_to_caps(plan, weights, reader, key) {
        Some(most)
    } else {
        None
    }
}
