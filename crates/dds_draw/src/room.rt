//! How much room a reader's limits leave above what a certificate shows, as the colour of its node.
ghost use Rattle.std.specs.Prelude.{◌≡◌, option_map};
ghost use Rattle.dds_weights.specs.Views.{certificate_view};
ghost use Rattle.dds_draw.specs.Room.{colour_of, has_bound, has_room, has_total, is_room};

use dds_base::ReaderNo;
use dds_check::limits::instance_limit;
use dds_qos::ReaderLimits;
use dds_weights::{Bound, Certificate, Total};

/// How a number compares with a limit.
#[derive(Clone, Copy, Debug)]
pub(crate) enum Room {
    Ample,
    Tight,
    Beyond,
}

/// Whether a limit leaves this room above a number; no limit leaves none of them.
fn is_room(room: Room, number: u32, limit: Option<u32>) -> bool
    ensures { result ≡ is_room room number limit }
{
    let Some(limit) = limit else {
        return false;
    };
    match room {
        Room::Ample => number < limit,
        Room::Tight => number == limit,
        Room::Beyond => limit < number,
    }
}

/// Whether a limit leaves this room above a bound of the reader.
fn has_bound(bounds: &[Bound], reader: ReaderNo, limit: Option<u32>, room: Room) -> bool
    ensures { result ≡ has_bound bounds.now reader limit room }
{
    bounds
        .iter()
        .any(|b| b.reader == reader && is_room(room, b.bound, limit))
}

/// Whether a limit leaves this room above a total of the reader.
fn has_total(totals: &[Total], reader: ReaderNo, limit: Option<u32>, room: Room) -> bool
    ensures { result ≡ has_total totals.now reader limit room }
{
    totals
        .iter()
        .any(|t| t.reader == reader && is_room(room, t.bound, limit))
}

/// Whether a limit of the reader leaves this room above a bound or a total of the certificate.
fn has_room(certificate: &Certificate, reader: ReaderNo, limits: &ReaderLimits, room: Room) -> bool
    ensures { result ≡ has_room (certificate_view certificate.now) reader limits.now room }
{
    has_bound(
        certificate.bounds.as_slice(),
        reader,
        instance_limit(limits),
        room,
    ) || has_total(
        certificate.totals.as_slice(),
        reader,
        limits.max_samples,
        room,
    )
}

/// The colour of a reader's node: red where a bound or total is beyond its limit, amber where one reaches it, green
/// where there's room, and white where no limit is compared.
pub(crate) fn colour_of(
    certificate: Option<&Certificate>,
    reader: ReaderNo,
    limits: &ReaderLimits,
) -> &'static str
    ensures { result.now
        ≡ colour_of (option_map (λ c. certificate_view c.now) certificate.entry) reader limits.now }
{
    let Some(certificate) = certificate else {
        return "white";
    };
    if has_room(certificate, reader, limits, Room::Beyond) {
        "salmon"
    } else if has_room(certificate, reader, limits, Room::Tight) {
        "gold"
    } else if has_room(certificate, reader, limits, Room::Ample) {
        "palegreen"
    } else {
        "white"
    }
}
