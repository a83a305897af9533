//! Which reader of a writer needs the deepest history, where the writer's depth is too low for one of them.
ghost use Rattle.std.specs.Prelude.{IfOk};
ghost use Rattle.dds_match.specs.Plan.{network_of};
ghost use Rattle.dds_search.specs.Sizes.{IsShownSize};

use crate::answer::Least;
use crate::certificate::attempt::Climber;
use crate::certificate::sizes::{Size, size_of};
use crate::limits::{depth_of, lowest_writer};
use dds_base::{KeyNo, NoMemory, ReaderNo, WriterNo};
use dds_match::Plan;
use dds_propose::targets::Target;
use std::alloc::Global;
use std::time::Clock;

/// Whether one need is greater than another: one without a bound is greater than any, and one of which nothing is known
/// greater than any number.
fn is_greater(one: Least, other: Least) -> bool {
    match (one, other) {
        (Least::Shown(one), Least::Shown(other)) => other < one,
        (Least::Shown(_), _) | (_, Least::Unbounded) => false,
        (Least::Unbounded, _) => true,
        (Least::Unknown, other) => other != Least::Unknown,
    }
}

/// The greater of a size and of that of a key at a reader, where the writer's depth counts for it.
fn greater_of<C: Clock>(
    alloc: Global,
    plan: &Plan,
    climber: &mut Climber<C>,
    greatest: Size,
    writer: WriterNo,
    reader: ReaderNo,
    key: KeyNo,
) -> Result<Size, NoMemory>
    requires { IsShownSize (network_of plan.now) greatest }
    ensures { IfOk result (IsShownSize (network_of plan.now)) }
{
    if plan.watcher(reader) || depth_of(plan, writer, reader, key).is_none() {
        return Ok(greatest);
    }
    let other = size_of(alloc, plan, climber, Target::Instance { reader, key })?;
    if is_greater(other.least, greatest.least) {
        Ok(other)
    } else {
        Ok(greatest)
    }
}

/// The greatest of a size and of those of the key at the readers for which the writer's depth counts.
fn greatest_of<C: Clock>(
    alloc: Global,
    plan: &Plan,
    climber: &mut Climber<C>,
    size: Size,
    writer: WriterNo,
    key: KeyNo,
) -> Result<Size, NoMemory>
    requires { IsShownSize (network_of plan.now) size }
    ensures { IfOk result (IsShownSize (network_of plan.now)) }
{
    let mut greatest = size;
    for reader in plan.readers_of(writer) {
        greatest = greater_of(alloc, plan, climber, greatest, writer, *reader, key)?;
    }
    Ok(greatest)
}

/// The key of a target. `None` where all samples of a reader count.
fn key_of(target: &Target) -> Option<KeyNo> {
    match target {
        Target::Instance { key, .. } => Some(*key),
        Target::Reader(_) => None,
    }
}

/// The same for the writer whose depth is the lowest one for a key of a reader.
fn greatest_at<C: Clock>(
    alloc: Global,
    plan: &Plan,
    climber: &mut Climber<C>,
    size: Size,
    reader: ReaderNo,
    key: KeyNo,
) -> Result<Size, NoMemory>
    requires { IsShownSize (network_of plan.now) size }
    ensures { IfOk result (IsShownSize (network_of plan.now)) }
{
    match lowest_writer(plan, reader, key) {
        Some(writer) => greatest_of(alloc, plan, climber, size, writer, key),
        None => Ok(size),
    }
}

/// The size of a limit that has no certificate: where that is the depth of a writer, the greatest that one of its
/// strict readers needs, and else this one. `NoMemory` is the only error.
pub(crate) fn greatest_size<C: Clock>(
    alloc: Global,
    plan: &Plan,
    climber: &mut Climber<C>,
    size: Size,
) -> Result<Size, NoMemory>
    requires { IsShownSize (network_of plan.now) size }
    ensures { IfOk result (IsShownSize (network_of plan.now)) }
{
    let reader = size.target.reader();
    match key_of(&size.target) {
        Some(key) => greatest_at(alloc, plan, climber, size, reader, key),
        None => Ok(size),
    }
}
