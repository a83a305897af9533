//! What a row weighs: samples, takes and permits, and the sums of them that a check compares.
ghost use Rattle.std.specs.Prelude.{◌≡◌, ◌<◌, ◌≤◌, ◌*◌, ◌^◌, true, is_none, length};
ghost use Rattle.dds_match.specs.Network.{named};
ghost use Rattle.dds_match.specs.Plan.{network_of};
ghost use Rattle.dds_weights.specs.Views.{row_view};
ghost use Rattle.dds_runs.specs.Accepted.{carried, row_of, spread};
ghost use Rattle.dds_check.specs.Spreads.{heard};
ghost use Rattle.dds_explain.specs.Limits.{writes_at_all};

use dds_base::{KeyNo, Portion, ReaderNo, WriterNo};
use dds_check::carried::carried;
use dds_check::finite::{is_finite, opening_permits};
use dds_check::tables::Tables;
use dds_match::Plan;
use dds_weights::Row;
use dds_weights::weighing::find_weight;
use std::marker::Model;

/// The weight of a sample in flight.
pub(crate) fn sample_weight(row: &Row, reader: ReaderNo, key: KeyNo) -> u32
    ensures { result ≡ (row_of (row_view row.now)).samples reader key }
{
    find_weight(&row.samples, reader, key)
}

/// The weight of an unspent take.
pub(crate) fn take_weight(row: &Row, reader: ReaderNo, key: KeyNo) -> u32
    ensures { result ≡ (row_of (row_view row.now)).takes reader key }
{
    find_weight(&row.takes, reader, key)
}

/// The weight of a permit.
pub(crate) fn permit_weight(row: &Row, writer: WriterNo, key: KeyNo) -> u32
    ensures { result ≡ (row_of (row_view row.now)).permits writer key }
{
    find_weight(&row.permits, writer, key)
}

/// Whether the row carries the samples of a key in flight to a reader by permits, not by caps.
pub(crate) fn is_by_permits(plan: &Plan, weights: &Tables, reader: ReaderNo, key: KeyNo) -> bool
    requires { (network_of plan.now).hears reader key ≡ true }
    ensures { result ≡ is_none (carried (network_of plan.now) (row_of weights.now) reader key) }
{
    // What is heard is there.
    plan.assert_well_formed();
    carried(plan, weights, reader, key).is_none()
}

/// What a write of the key at the writer puts in flight for one reader, weighed: nothing where caps carry it.
fn heard(plan: &Plan, weights: &Tables, reader: ReaderNo, writer: WriterNo, key: KeyNo) -> u128
    ensures value { result ≡ heard (network_of plan.now) (row_of weights.now) reader writer key }
    ensures small { result < 2 ^ 32 }
{
    if plan.matched(writer, reader)
        && plan.hears(reader, key)
        && is_by_permits(plan, weights, reader, key)
    {
        u128::from(weights.sample(reader, key))
    } else {
        0
    }
}

/// What a write of the key at the writer puts in flight, weighed, but for samples that caps carry.
pub(crate) fn spread(plan: &Plan, row: &Row, writer: WriterNo, key: KeyNo) -> u128
    ensures { result ≡ spread (network_of plan.now) (row_of (row_view row.now)) writer key }
{
    let weights = Tables::new(row);
    let mut total: u128 = 0;
    for r in 0..plan.lists().readers() {
        total += heard(plan, &weights, ReaderNo::new(r), writer, key);
    }
    total
}

/// How many samples of the key at the writer a list names.
pub(crate) fn named(portions: &[Portion<WriterNo>], writer: WriterNo, key: KeyNo) -> u128
    ensures value { result ≡ named portions.now writer key }
    ensures small { result ≤ length portions.now * 2 ^ 16 }
{
    let mut total: u128 = 0;
    for x in portions {
        if x.endpoint == writer && x.key == key {
            total += u128::from(x.count);
        }
    }
    total
}

/// How often a key is ever written at a writer. `None` where it may be written at any time, or firings let it be
/// written again.
pub(crate) fn writes_at_all(plan: &Plan, writer: WriterNo, key: KeyNo) -> Option<u128>
    ensures { result ≡ writes_at_all (network_of plan.now) writer key }
{
    if is_finite(plan, writer, key) {
        Some(u128::from(opening_permits(plan, writer, key)))
    } else {
        None
    }
}
