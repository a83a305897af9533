//! Numbers 12 and 14 to 17: the endpoints that the running profile doesn't have.
ghost use Rattle.std.specs.Prelude.{◌≡◌, ◌++◌, OnOk};
ghost use Rattle.dds_lists.specs.Lists.{profile_of};
ghost use Rattle.dds_check.specs.Profile.{writer_outside, reader_outside};
ghost use Rattle.dds_lint.specs.Conditions.{every_outside, profile_nos};
ghost use Rattle.dds_lint.specs.Every.{those_in};

use crate::every::push_below;
use dds_base::{NoMemory, ReaderNo, WriterNo};
use dds_check::No;
use dds_check::profile::{reader_outside, writer_outside};
use dds_conditions::{readers_of, writers_of};
use dds_match::Plan;
use dds_qos::Outside;

fn push_writers_outside(nos: &mut Vec<No>, plan: &Plan, way: Outside) -> Result<(), NoMemory>
    ensures { OnOk result (nos.new.items ≡ nos.old.items
        ++ those_in plan.now.writers.entries (writer_outside (profile_of plan.now.version) way)) }
{
    let profile = plan.lists().profile();
    push_below(nos, writers_of(plan), |w| {
        let x = WriterNo::new(w);
        writer_outside(profile, way, plan.lists().writer(x), x)
    })
}

fn push_readers_outside(nos: &mut Vec<No>, plan: &Plan, way: Outside) -> Result<(), NoMemory>
    ensures { OnOk result (nos.new.items ≡ nos.old.items
        ++ those_in plan.now.readers.entries (reader_outside way)) }
{
    push_below(nos, readers_of(plan), |r| {
        let x = ReaderNo::new(r);
        reader_outside(way, plan.lists().reader(x), x)
    })
}

fn push_outside(nos: &mut Vec<No>, plan: &Plan, way: Outside) -> Result<(), NoMemory>
    ensures { OnOk result (nos.new.items ≡ nos.old.items ++ every_outside plan.now way) }
{
    push_writers_outside(nos, plan, way)?;
    push_readers_outside(nos, plan, way)
}

/// Adds the endpoints that the running profile doesn't have, each with the least number that it fails: by number and
/// then in file order, writers before readers. After an error the list has some of them.
pub(crate) fn push_profile(nos: &mut Vec<No>, plan: &Plan) -> Result<(), NoMemory>
    ensures { OnOk result (nos.new.items ≡ nos.old.items ++ profile_nos plan.now) }
{
    push_outside(nos, plan, Outside::WriterKeepsLast)?;
    push_outside(nos, plan, Outside::Exclusive)?;
    push_outside(nos, plan, Outside::SourceOrder)?;
    push_outside(nos, plan, Outside::OrderedOrCoherent)?;
    push_outside(nos, plan, Outside::WriterBestEffort)
}
