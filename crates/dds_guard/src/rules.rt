//! What a guard keeps of each rule.
ghost use Rattle.std.specs.Prelude.{◌≡◌, ◌<◌, length, IfOk};
ghost use Rattle.dds_guard.specs.Guard.{entry_of, rule_state, rules_of};

use dds_base::{AppNo, NoMemory, Portion, ReaderNo, RuleNo, WriterNo};
use dds_lists::Deployment;
use std::alloc::Global;
use std::marker::Model;

/// A rule: the number of its name, whether it is the application's and free, and what it takes and writes.
#[derive(Drop)]
pub(crate) struct GuardRule {
    pub(crate) entry: usize,
    pub(crate) own: bool,
    pub(crate) free: bool,
    pub(crate) takes: Vec<Portion<ReaderNo>>,
    pub(crate) writes: Vec<Portion<WriterNo>>,
}

impl Model for GuardRule {
    ghost use Rattle.dds_guard.specs.Guard.{RuleState};

    ghost Value = { RuleState };

    ghost view = { λ u. record {
      entry = u.entry;
      own = u.own;
      free = u.free;
      takes = u.takes.items;
      writes = u.writes.items;
    } };
}

/// The number of the name that a rule has in the file.
fn entry_of(lists: &Deployment, u: RuleNo) -> usize
    ensures { result ≡ entry_of lists.now u }
{
    match lists.rule_origin(u) {
        Some(origin) => origin.name,
        None => 0,
    }
}

impl GuardRule {
    fn of(alloc: Global, lists: &Deployment, app: AppNo, u: RuleNo) -> Result<GuardRule, NoMemory>
        requires { u < length lists.now.rules.entries }
        ensures { IfOk result (λ x. x ≡ rule_state lists.now app u) }
    {
        let rule = lists.rule(u);
        let takes = Vec::from_slice(alloc, &rule.takes)?;
        let writes = Vec::from_slice(alloc, &rule.writes)?;
        Ok(GuardRule {
            entry: entry_of(lists, u),
            own: rule.application == app,
            free: rule.free,
            takes,
            writes,
        })
    }
}

/// What is kept of each rule.
pub(crate) fn rules_of(
    alloc: Global,
    lists: &Deployment,
    app: AppNo,
) -> Result<Vec<GuardRule>, NoMemory>
    ensures { IfOk result (λ v. v.items ≡ rules_of lists.now app) }
{
    let mut rules = Vec::with_capacity(alloc, lists.rules())?;
    for u in 0..lists.rules() {
        rules.push(GuardRule::of(alloc, lists, app, RuleNo::new(u))?)?;
    }
    Ok(rules)
}
