//! Which readers of a rule that ends get nothing of it if they match late.

use dds_base::{NoMemory, Portion, ReaderNo, RuleNo, WriterNo};
use dds_match::Plan;
use dds_qos::Durability;
use dds_text::names::reader_name;
use std::alloc::Global;

/// Whether a reader is there, and asks for nothing that was written before it came.
fn is_volatile(plan: &Plan, reader: ReaderNo) -> bool {
    let lists = plan.lists();
    reader.number() < lists.readers()
        && matches!(
            lists.reader(reader).qos.requested.durability,
            Durability::Volatile
        )
}

/// Whether one of these writes comes to a reader.
fn comes_to(plan: &Plan, writes: &[Portion<WriterNo>], reader: ReaderNo) -> bool {
    writes.iter().any(|write| plan.matched(write.endpoint, reader) && plan.hears(reader, write.key))
}

/// The names of the volatile readers to which one of these writes comes, with commas between them.
fn names_of(alloc: Global, plan: &Plan, writes: &[Portion<WriterNo>]) -> Result<String, NoMemory> {
    let mut names = String::new(alloc);
    for r in 0..plan.lists().readers() {
        let reader = ReaderNo::new(r);
        if is_volatile(plan, reader) && comes_to(plan, writes, reader) {
            let comma = if names.as_str().is_empty() { "" } else { ", " };
            names.push_str(comma)?;
            names.push_str(reader_name(plan.lists(), reader))?;
        }
    }
    Ok(names)
}

/// A line that names the volatile readers of a rule, if it has some.
pub(crate) fn volatile_readers(
    alloc: Global,
    plan: &Plan,
    rule: RuleNo,
) -> Result<Vec<String>, NoMemory> {
    let mut lines = Vec::new(alloc);
    if rule.number() >= plan.lists().rules() {
        return Ok(lines);
    }
    let names = names_of(alloc, plan, &plan.lists().rule(rule).writes)?;
    if !names.as_str().is_empty() {
        let line = format!(in alloc;
            "VOLATILE readers, which get nothing that's written before they match: {names}"
        )?;
        lines.push(line)?;
    }
    Ok(lines)
}
