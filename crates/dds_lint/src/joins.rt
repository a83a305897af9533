//! Numbers 27 and 28: the strict readers that may come after their writers' first writes and aren't handed what was
//! written before.
ghost use Rattle.std.specs.Prelude.{◌≡◌, ◌++◌, ◌<◌, OnOk};
ghost use Rattle.dds_match.specs.Plan.{network_of};
ghost use Rattle.dds_check.specs.Joins.{late_history, late_volatile};
ghost use Rattle.dds_lint.specs.Conditions.{every_pair, joins_nos};
ghost use Rattle.dds_lint.specs.Every.{those_below};

use crate::every::push_below;
use dds_base::{NoMemory, ReaderNo, WriterNo};
use dds_check::No;
use dds_check::joins::{late_history, late_volatile};
use dds_conditions::{readers_of, writers_of};
use dds_match::Plan;

fn push_late_volatile(nos: &mut Vec<No>, plan: &Plan) -> Result<(), NoMemory>
    ensures { OnOk result (nos.new.items ≡ nos.old.items
        ++ every_pair (network_of plan.now) (late_volatile (network_of plan.now))) }
{
    for w in 0..writers_of(plan) {
        let writer = WriterNo::new(w);
        push_below(
            nos,
            readers_of(plan),
            |r| late_volatile(plan, writer, ReaderNo::new(r)),
        )?;
    }
    Ok(())
}

fn push_late_history(nos: &mut Vec<No>, plan: &Plan) -> Result<(), NoMemory>
    ensures { OnOk result (nos.new.items ≡ nos.old.items
        ++ those_below (network_of plan.now).writers (late_history (network_of plan.now))) }
{
    push_below(
        nos,
        writers_of(plan),
        |w|
            requires { w < (network_of plan.now).writers }
            ensures { result ≡ late_history (network_of plan.entry.now) w }
        { late_history(plan, WriterNo::new(w)) },
    )
}

/// Adds the pairs of a writer and a strict reader that may know of one another only after a write and of which one is
/// VOLATILE, then the writers that may write more than they can keep for such readers: numbers 27 and 28.
pub(crate) fn push_joins(nos: &mut Vec<No>, plan: &Plan) -> Result<(), NoMemory>
    ensures { OnOk result (nos.new.items ≡ nos.old.items ++ joins_nos (network_of plan.now)) }
{
    push_late_volatile(nos, plan)?;
    push_late_history(nos, plan)
}
