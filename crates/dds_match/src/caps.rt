//! At most how many samples are in flight to each reader, by the paces of the rules and by how soon readers take.
ghost use Rattle.std.specs.Prelude.{◌≡◌, ◌*◌, ◌<◌, ◌≤◌, length, IfOk};
ghost use Rattle.dds_base.specs.Grid.{most_endpoints};
ghost use Rattle.dds_lists.specs.WellFormed.{IsWellFormed};
ghost use Rattle.dds_match.specs.Neighbours.{ShowsEach, ShowsNeighbours};
ghost use Rattle.dds_match.specs.Network.{capped};
ghost use Rattle.dds_match.specs.Paces.{is_awaited, taken_span};
ghost use Rattle.dds_match.specs.Plan.{network_of, watcher};
ghost use Rattle.dds_match.specs.Sums.{sum_of};
ghost use Rattle.dds_match.specs.Tables.{ShowsCapped, ShowsHearing, ShowsReasons};
ghost use Rattle.dds_match.specs.Writes.{AreWrites, writes_at};

use crate::key_table::KeyTable;
use crate::matching::WhyNot;
use crate::neighbours::{Neighbours, list_at};
use crate::paces::most_in_flight;
use crate::tables::is_matched;
use crate::writes::PacedWrite;
use dds_base::grid::KEYS;
use dds_base::{KeyNo, NoMemory, ReaderNo, WriterNo};
use dds_lists::Deployment;
use dds_qos::Reliability;
use std::alloc::Global;

/// Whether the reader is a watcher. No reader that is not there is one.
pub(crate) fn is_watcher(lists: &Deployment, r: ReaderNo) -> bool
    ensures { result ≡ watcher lists.now r }
{
    if r.number() >= lists.readers() {
        return false;
    }
    let reader = lists.reader(r);
    matches!(reader.qos.requested.reliability, Reliability::BestEffort) || reader.may_lose
}

/// How soon after its write the reader takes each sample that it hears, in nanoseconds. `None` where that is not known,
/// or there is no such reader.
pub(crate) fn taken_within(lists: &Deployment, r: ReaderNo) -> Option<u64>
    ensures { result ≡ taken_span lists.now r }
{
    if r.number() >= lists.readers() {
        return None;
    }
    lists.reader(r).taken_within
}

/// Whether the writer and the reader match, the reader is strict and hears the key.
pub(crate) fn is_awaited(
    lists: &Deployment,
    reasons: &[Option<WhyNot>],
    hearing: &KeyTable,
    w: WriterNo,
    r: ReaderNo,
    key: KeyNo,
) -> bool
    requires reasons { ShowsReasons lists.now reasons.now }
    requires hearing { ShowsHearing lists.now hearing.now }
    ensures { result ≡ is_awaited lists.now w r key }
{
    is_matched(reasons, lists, w, r)
        && !is_watcher(lists, r)
        && hearing.has(r.number(), key.number())
}

/// What the rules write at a writer, at most 4,096 entries.
pub(crate) fn writes_of<'a>(
    lists: &Deployment,
    writes: &'a [Vec<PacedWrite>],
    w: WriterNo,
) -> &'a [PacedWrite]
    requires { ShowsEach (writes_at lists.now) writes.now }
    ensures value { result.now ≡ writes_at lists.now w }
    ensures few { AreWrites result.now }
{
    lists.assert_well_formed();
    list_at(writes, w.number())
}

/// At most how many samples of the key, written at the writer, the reader has yet to take.
fn cap(
    lists: &Deployment,
    reasons: &[Option<WhyNot>],
    hearing: &KeyTable,
    writes: &[Vec<PacedWrite>],
    w: WriterNo,
    r: ReaderNo,
    key: KeyNo,
) -> Option<u32>
    requires reasons { ShowsReasons lists.now reasons.now }
    requires hearing { ShowsHearing lists.now hearing.now }
    requires writes { ShowsEach (writes_at lists.now) writes.now }
    ensures { result ≡ (network_of lists.now).cap w r key }
{
    if !is_awaited(lists, reasons, hearing, w, r, key) {
        return None;
    }
    most_in_flight(writes_of(lists, writes, w), key, taken_within(lists, r))
}

/// The caps of some writers at a reader, added up: `None` where one of them has none.
fn sum_of(
    lists: &Deployment,
    reasons: &[Option<WhyNot>],
    hearing: &KeyTable,
    writes: &[Vec<PacedWrite>],
    writers: &[WriterNo],
    r: ReaderNo,
    key: KeyNo,
) -> Option<u64>
    requires reasons { ShowsReasons lists.now reasons.now }
    requires hearing { ShowsHearing lists.now hearing.now }
    requires writes { ShowsEach (writes_at lists.now) writes.now }
    requires few { length writers.now ≤ most_endpoints }
    ensures { result ≡ sum_of (λ w. (network_of lists.now).cap w r key) writers.now }
{
    let mut sum: u64 = 0;
    for w in writers {
        match cap(lists, reasons, hearing, writes, *w, r, key) {
            Some(most) => sum += u64::from(most),
            None => return None,
        }
    }
    Some(sum)
}

/// At most how many samples of a key are in flight to a reader, by the caps of the writers that match it.
fn capped(
    lists: &Deployment,
    reasons: &[Option<WhyNot>],
    hearing: &KeyTable,
    writes: &[Vec<PacedWrite>],
    neighbours: &Neighbours,
    r: ReaderNo,
    key: KeyNo,
) -> Option<u64>
    requires well_formed { IsWellFormed lists.now }
    requires reasons { ShowsReasons lists.now reasons.now }
    requires hearing { ShowsHearing lists.now hearing.now }
    requires writes { ShowsEach (writes_at lists.now) writes.now }
    requires neighbours { ShowsNeighbours lists.now neighbours.now }
    ensures { result ≡ capped (network_of lists.now) r key }
{
    let writers = list_at(&neighbours.writers_of, r.number());
    sum_of(lists, reasons, hearing, writes, writers, r, key)
}

/// That of each key of each reader, in rows of 64 keys.
pub(crate) fn capped_of(
    alloc: Global,
    lists: &Deployment,
    reasons: &[Option<WhyNot>],
    hearing: &KeyTable,
    writes: &[Vec<PacedWrite>],
    neighbours: &Neighbours,
) -> Result<Vec<Option<u64>>, NoMemory>
    requires well_formed { IsWellFormed lists.now }
    requires reasons { ShowsReasons lists.now reasons.now }
    requires hearing { ShowsHearing lists.now hearing.now }
    requires writes { ShowsEach (writes_at lists.now) writes.now }
    requires neighbours { ShowsNeighbours lists.now neighbours.now }
    ensures { IfOk result (λ cells. ShowsCapped lists.now cells.items) }
{
    let places = lists.readers() * KEYS;
    let mut cells = Vec::with_capacity(alloc, places)?;
    for place in 0..places {
        let reader = ReaderNo::new(place / KEYS);
        let key = KeyNo::new(place % KEYS);
        cells.push(capped(lists, reasons, hearing, writes, neighbours, reader, key))?;
    }
    Ok(cells)
}
