//! All that a certificate can bound: the keys that can reach a strict reader, and the samples of that reader together.
ghost use Rattle.std.specs.Prelude.{◌≡◌, ◌<◌, ◌++◌, IfOk};
ghost use Rattle.dds_match.specs.Plan.{network_of};
ghost use Rattle.dds_search.specs.Sizes.{every_target, key_targets, reader_targets, with_reader};

use dds_base::grid::KEYS;
use dds_base::{KeyNo, NoMemory, ReaderNo};
use dds_match::Plan;
use dds_propose::targets::Target;
use std::alloc::Global;

/// The keys that can reach a reader, in the order of the topic.
fn key_targets(alloc: Global, plan: &Plan, reader: ReaderNo) -> Result<Vec<Target>, NoMemory>
    ensures { IfOk result (λ list. list.items ≡ key_targets (network_of plan.now) reader) }
{
    let mut targets = Vec::new(alloc);
    for k in 0..KEYS {
        let key = KeyNo::new(k);
        if plan.reaches(reader, key) {
            targets.push(Target::Instance { reader, key })?;
        }
    }
    Ok(targets)
}

/// The keys that can reach a reader, and then the reader, where there is such a key.
fn heard_targets(alloc: Global, plan: &Plan, reader: ReaderNo) -> Result<Vec<Target>, NoMemory>
    ensures { IfOk result (λ list. list.items ≡ with_reader reader (key_targets (network_of plan.now) reader)) }
{
    let mut targets = key_targets(alloc, plan, reader)?;
    if targets.is_empty() {
        return Ok(targets);
    }
    targets.push(Target::Reader(reader))?;
    Ok(targets)
}

/// The same for a strict reader; a watcher has none.
fn reader_targets(alloc: Global, plan: &Plan, reader: ReaderNo) -> Result<Vec<Target>, NoMemory>
    requires { reader < (network_of plan.now).readers }
    ensures { IfOk result (λ list. list.items ≡ reader_targets (network_of plan.now) reader) }
{
    if plan.watcher(reader) {
        Ok(Vec::new(alloc))
    } else {
        heard_targets(alloc, plan, reader)
    }
}

/// The keys that can reach strict readers, and behind its keys each such reader, in file order: all that a certificate
/// can bound. `NoMemory` is the only error.
pub fn every_target(alloc: Global, plan: &Plan) -> Result<Vec<Target>, NoMemory>
    ensures { IfOk result (λ list. list.items ≡ every_target (network_of plan.now)) }
{
    let mut targets = Vec::new(alloc);
    for r in 0..plan.lists().readers() {
        let more = reader_targets(alloc, plan, ReaderNo::new(r))?;
        targets.extend_from_slice(&more)?;
    }
    Ok(targets)
}
