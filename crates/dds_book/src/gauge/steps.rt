//! The rule of the counts, and what each step on them shows.
use crate::gauge::GaugeView;
use atomic_table::{Play, Split, TableRule};

/// The rule of so many applications' counts.
pub(crate) struct Counts;

impl TableRule<(), GaugeView, usize> for Counts {
    ghost use Rattle.std.specs.Prelude.{[]};
    ghost use Rattle.dds_book.specs.Gauge.{IsGauge, view_of};

    ghost holds = { IsGauge };

    ghost first = { λ apps. view_of 0 apps 0 [] };
}

/// A count was found, and is one more.
pub(crate) struct OneMore;

impl Play<(), GaugeView> for OneMore {
    ghost use Rattle.dds_book.specs.Gauge.{bumped};

    ghost then = { bumped };
}

/// A count was found, and is noted.
pub(crate) struct Look;

impl Play<(), GaugeView> for Look {
    ghost use Rattle.dds_book.specs.Gauge.{looked};

    ghost then = { looked };
}

/// Cuts off the owner of the next count.
pub(crate) struct NextOwner;

impl Split<GaugeView> for NextOwner {
    ghost use Rattle.dds_book.specs.Gauge.{next_owner, without_next};

    ghost left = { without_next };

    ghost right = { next_owner };
}

/// Cuts off a seat that owns nothing.
pub(crate) struct NewMonitor;

impl Split<GaugeView> for NewMonitor {
    ghost use Rattle.dds_book.specs.Gauge.{only_reads};

    ghost left = { λ v. v };

    ghost right = { only_reads };
}
