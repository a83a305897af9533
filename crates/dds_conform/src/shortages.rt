//! What the rules lack that could give a permit.
ghost use Rattle.std.specs.Prelude.{◌≡◌, ◌<◌, ◌++◌, IfOk, OnOk, length};
ghost use Rattle.dds_match.specs.Plan.{network_of};
ghost use Rattle.dds_conform.specs.Shortages.{rule_shortages, shortage, shortages, shortages_of};

use crate::conformance::Shortage;
use crate::serving::gives;
use dds_base::{KeyNo, NoMemory, Portion, ReaderNo, RuleNo, WriterNo};
use dds_match::Plan;
use dds_rules::Ledger;
use std::alloc::Global;

/// What a rule lacks of a portion, if anything.
fn shortage(ledger: &Ledger, rule: RuleNo, needed: &Portion<ReaderNo>) -> Option<Shortage>
    ensures { result ≡ shortage ledger.now.spare rule needed.now }
{
    let spare = ledger.spare(needed.endpoint, needed.key);
    let count = u64::from(needed.count);
    if spare >= count {
        return None;
    }
    Some(Shortage {
        rule,
        reader: needed.endpoint,
        key: needed.key,
        missing: count - spare,
    })
}

/// Adds what a rule lacks of the takes that it needs.
fn push_shortages(
    short: &mut Vec<Shortage>,
    ledger: &Ledger,
    rule: RuleNo,
    takes: &[Portion<ReaderNo>],
) -> Result<(), NoMemory>
    ensures { OnOk result (short.new.items
        ≡ short.old.items ++ shortages_of ledger.now.spare rule takes.now) }
{
    for needed in takes {
        if let Some(lack) = shortage(ledger, rule, needed) {
            short.push(lack)?;
        }
    }
    Ok(())
}

/// Adds what a rule lacks if it could give a permit for the write.
fn push_of_rule(
    short: &mut Vec<Shortage>,
    plan: &Plan,
    ledger: &Ledger,
    rule: RuleNo,
    write: (WriterNo, KeyNo),
) -> Result<(), NoMemory>
    requires { rule < length plan.now.rules.entries }
    ensures { OnOk result (short.new.items ≡ short.old.items
        ++ rule_shortages (network_of plan.now) ledger.now.spare write.0 write.1 rule) }
{
    let exchange = plan.rule(rule);
    if !gives(&exchange.writes, write.0, write.1) {
        return Ok(());
    }
    push_shortages(short, ledger, rule, &exchange.takes)
}

/// What the rules lack that could give a permit for the write, in their order.
pub(crate) fn shortages(
    alloc: Global,
    plan: &Plan,
    ledger: &Ledger,
    writer: WriterNo,
    key: KeyNo,
) -> Result<Vec<Shortage>, NoMemory>
    ensures { IfOk result (λ short. short.items
        ≡ shortages (network_of plan.now) ledger.now.spare writer key) }
{
    let mut short = Vec::new(alloc);
    for u in 0..plan.lists().rules() {
        push_of_rule(&mut short, plan, ledger, RuleNo::new(u), (writer, key))?;
    }
    Ok(short)
}
