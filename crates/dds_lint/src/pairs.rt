//! Numbers 10 and 11: the pairs that are intended and don't match, and those that match and aren't intended.
ghost use Rattle.std.specs.Prelude.{◌≡◌, ◌++◌, OnOk};
ghost use Rattle.dds_match.specs.Plan.{network_of};
ghost use Rattle.dds_check.specs.Pairs.{not_matched, not_intended};
ghost use Rattle.dds_lint.specs.Conditions.{every_pair, pairs_nos};

use crate::every::push_below;
use dds_base::{NoMemory, ReaderNo, WriterNo};
use dds_check::No;
use dds_check::pairs::{not_intended, not_matched};
use dds_conditions::{readers_of, writers_of};
use dds_match::Plan;

fn push_not_matched(nos: &mut Vec<No>, plan: &Plan) -> Result<(), NoMemory>
    ensures { OnOk result (nos.new.items ≡ nos.old.items
        ++ every_pair (network_of plan.now) (not_matched (network_of plan.now))) }
{
    for w in 0..writers_of(plan) {
        let writer = WriterNo::new(w);
        push_below(
            nos,
            readers_of(plan),
            |r| not_matched(plan, writer, ReaderNo::new(r)),
        )?;
    }
    Ok(())
}

fn push_not_intended(nos: &mut Vec<No>, plan: &Plan) -> Result<(), NoMemory>
    ensures { OnOk result (nos.new.items ≡ nos.old.items
        ++ every_pair (network_of plan.now) (not_intended (network_of plan.now))) }
{
    for w in 0..writers_of(plan) {
        let writer = WriterNo::new(w);
        push_below(
            nos,
            readers_of(plan),
            |r| not_intended(plan, writer, ReaderNo::new(r)),
        )?;
    }
    Ok(())
}

/// Adds the pairs that are intended and don't match, then those that match and aren't intended; both by writer and then
/// by reader, in file order. After an error the list has some of them.
pub(crate) fn push_pairs(nos: &mut Vec<No>, plan: &Plan) -> Result<(), NoMemory>
    ensures { OnOk result (nos.new.items ≡ nos.old.items ++ pairs_nos (network_of plan.now)) }
{
    push_not_matched(nos, plan)?;
    push_not_intended(nos, plan)
}
