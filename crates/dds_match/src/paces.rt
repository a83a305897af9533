//! How many samples paced writes bring. All times are in nanoseconds.
ghost use Rattle.std.specs.Prelude.{◌≡◌, ◌≤◌, ◌==◌, ◌&&◌, ◌^◌, IfSome, Some, is_none};
ghost use Rattle.std.specs.List.{list_any};
ghost use Rattle.dds_match.specs.Paces.{turns, counted};
ghost use Rattle.dds_match.specs.Writes.{AreWrites, are_paced, brought, most_brought, most_in_flight};

use crate::writes::PacedWrite;
use dds_base::KeyNo;
use dds_lists::Pace;

/// How many turns a pace has at most in a closed span.
fn turns(pace: Pace, span: u64) -> u128
    requires { 1 ≤ pace.period }
    ensures value { result ≡ turns pace span }
    ensures small { result ≤ 2 ^ 65 }
{
    1 + (u128::from(span) + u128::from(pace.jitter)) / u128::from(pace.period)
}

/// How many samples a write brings at most in a closed span. `None` where it has no pace.
fn brought(write: &PacedWrite, span: u64) -> Option<u128>
    requires { (p : Pace) → write.now.pace ≡ Some p → 1 ≤ p.period }
    ensures value { result ≡ brought span write.now }
    ensures small { IfSome result (λ n. n ≤ 2 ^ 81) }
{
    match write.pace {
        Some(pace) => Some(u128::from(write.count) * turns(pace, span)),
        None => None,
    }
}

/// Whether a write is of the key and has no pace.
fn is_unpaced(write: &PacedWrite, key: KeyNo) -> bool
    ensures { result ≡ ((write.now.key == key) && is_none write.now.pace) }
{
    write.key == key && write.pace.is_none()
}

/// Whether a write of the key has no pace.
fn is_any_unpaced(writes: &[PacedWrite], key: KeyNo) -> bool
    ensures { result ≡ list_any (λ x. (x.key == key) && is_none x.pace) writes.now }
{
    writes.iter().any(|write| is_unpaced(write, key))
}

/// Whether each write of the key has a pace.
pub(crate) fn are_paced(writes: &[PacedWrite], key: KeyNo) -> bool
    ensures { result ≡ are_paced writes.now key }
{
    !is_any_unpaced(writes, key)
}

/// How many samples of the key the writes bring at most in a closed span. `None` where one of them has no pace.
fn most_brought(writes: &[PacedWrite], key: KeyNo, span: u64) -> Option<u128>
    requires { AreWrites writes.now }
    ensures { result ≡ most_brought writes.now key span }
{
    let mut samples: u128 = 0;
    for write in writes {
        if write.key == key {
            samples += brought(write, span)?;
        }
    }
    Some(samples)
}

/// A number of samples as one of 32 bits. `None` where it is greater.
fn counted(samples: u128) -> Option<u32>
    ensures { result ≡ counted samples }
{
    u32::try_from(samples).ok()
}

/// At most how many samples of the key are in flight, by what is written at the writer, to a reader that lacks none for
/// longer than so many nanoseconds. `None` where nothing bounds that, or they are more than 2^32 - 1.
pub(crate) fn most_in_flight(writes: &[PacedWrite], key: KeyNo, span: Option<u64>) -> Option<u32>
    requires { AreWrites writes.now }
    ensures { result ≡ most_in_flight writes.now key span }
{
    counted(most_brought(writes, key, span?)?)
}
