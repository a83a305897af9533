//! How soon a reader has to take, so that its limit is enough for what rules write by the clock. All times are in
//! nanoseconds.
ghost use Rattle.std.specs.Prelude.{◌≡◌};
ghost use Rattle.dds_sizing.specs.Spans.{IsLongest, is_kept, most_awaited};

use dds_base::{KeyNo, ReaderNo};
use dds_match::Plan;

/// At most how many samples of a key a reader has yet to take, if it takes each within a span. `None` where paces don't
/// bound them.
fn most_awaited(plan: &Plan, reader: ReaderNo, key: KeyNo, span: u64) -> Option<u128>
    ensures { result ≡ most_awaited plan.now reader key span }
{
    let mut sum: u128 = 0;
    for writer in plan.writers_of(reader) {
        match plan.in_flight(*writer, reader, key, Some(span)) {
            Some(most) => sum += u128::from(most),
            None => return None,
        }
    }
    Some(sum)
}

/// Whether they are no more than a limit.
fn is_kept(plan: &Plan, reader: ReaderNo, key: KeyNo, limit: u32, span: u64) -> bool
    ensures { result ≡ is_kept plan.now reader key limit span }
{
    match most_awaited(plan, reader, key, span) {
        Some(most) => most <= u128::from(limit),
        None => false,
    }
}

/// The longest span within which a reader may take each sample of a key, so that it never has more than a limit of them
/// yet to take. `None` where paces don't bound them, or even a span of 0 is too long.
pub(crate) fn longest_span(plan: &Plan, reader: ReaderNo, key: KeyNo, limit: u32) -> Option<u64>
    ensures { IsLongest plan.now reader key limit result }
{
    if !is_kept(plan, reader, key, limit, 0) {
        return None;
    }
    let mut kept: u64 = 0;
    let mut broken: u64 = 1 << 63;
    while broken - kept > 1 {
        let middle = kept + (broken - kept) / 2;
        if is_kept(plan, reader, key, limit, middle) {
            kept = middle;
        } else {
            broken = middle;
        }
    }
    Some(kept)
}
