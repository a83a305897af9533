//! Which ends of applications make a run good.
ghost use Rattle.std.specs.Prelude.{◌≡◌};
ghost use Rattle.dds_recap.specs.Ends.{all_good, is_good, is_idle};

use dds_apps::AppEnd;
use dds_options::GoodEnds;

/// Whether an application's thread ended since nothing changed any more.
pub(crate) fn is_idle(end: AppEnd) -> bool
    ensures { result ≡ is_idle end }
{
    matches!(end, AppEnd::Idle)
}

/// Whether the end of an application's thread is good.
fn is_good(good: GoodEnds, end: AppEnd) -> bool
    ensures { result ≡ is_good good end }
{
    match good {
        GoodEnds::Stopped => matches!(end, AppEnd::Stopped),
        GoodEnds::StoppedOrIdle => matches!(end, AppEnd::Stopped | AppEnd::Idle),
    }
}

/// Whether the ends of all applications' threads are good.
pub fn all_good(good: GoodEnds, ends: &[AppEnd]) -> bool
    ensures { result ≡ all_good good ends.now }
{
    ends.iter().all(|end| is_good(good, *end))
}
