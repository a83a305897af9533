//! What the rules write at each writer, listed once.
ghost use Rattle.std.specs.Prelude.{◌≡◌, ◌++◌, IfOk};
ghost use Rattle.dds_lists.specs.Views.{rule_view};
ghost use Rattle.dds_lists.specs.WellFormed.{IsWellFormed};
ghost use Rattle.dds_match.specs.Neighbours.{ShowsEach};
ghost use Rattle.dds_match.specs.Writes.{rule_writes_at, writes_at};

use crate::neighbours::add_if;
use dds_base::{KeyNo, NoMemory, RuleNo, WriterNo};
use dds_lists::{Deployment, Pace, Rule};
use std::alloc::Global;

/// What a rule writes of one key at a writer, and how often.
#[derive(Clone, Copy)]
pub(crate) struct PacedWrite {
    pub(crate) key: KeyNo,
    /// How many samples in each turn of the rule, 1 to 65,535.
    pub(crate) count: u16,
    /// The rule's pace. `None` where nothing bounds how often it writes.
    pub(crate) pace: Option<Pace>,
}

/// Adds what a rule writes at a writer.
fn add_writes(list: &mut Vec<PacedWrite>, rule: &Rule, w: WriterNo) -> Result<(), NoMemory>
    ensures { IfOk result (λ _. list.new.items ≡ list.old.items ++ rule_writes_at w (rule_view rule.now)) }
{
    for portion in &rule.writes {
        let write = PacedWrite {
            key: portion.key,
            count: portion.count,
            pace: rule.pace,
        };
        add_if(list, portion.endpoint == w, write)?;
    }
    Ok(())
}

/// What all rules write at a writer.
fn writes_at(alloc: Global, lists: &Deployment, w: WriterNo) -> Result<Vec<PacedWrite>, NoMemory>
    ensures { IfOk result (λ list. list.items ≡ writes_at lists.now w) }
{
    let mut list = Vec::new(alloc);
    for u in 0..lists.rules() {
        add_writes(&mut list, lists.rule(RuleNo::new(u)), w)?;
    }
    Ok(list)
}

/// For each writer what all rules write there.
pub(crate) fn writes_at_each(
    alloc: Global,
    lists: &Deployment,
) -> Result<Vec<Vec<PacedWrite>>, NoMemory>
    requires { IsWellFormed lists.now }
    ensures { IfOk result (λ all. ShowsEach (writes_at lists.now) all.items) }
{
    let mut all = Vec::new(alloc);
    for w in 0..lists.writers() {
        all.push(writes_at(alloc, lists, WriterNo::new(w))?)?;
    }
    Ok(all)
}
