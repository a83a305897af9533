//! A permit that is needed: the rules that give one are fired, the first that can be.
ghost use Rattle.std.specs.Prelude.{◌≡◌, ◌<◌, ◌≤◌, ◌==◌, ◌&&◌, ℕ, nat_lt, length};
ghost use Rattle.std.specs.List.{list_any};
ghost use Rattle.dds_match.specs.Plan.{network_of};
ghost use Rattle.dds_rules.specs.Ledger.{IsLedgerOf};
ghost use Rattle.dds_conform.specs.Giving.{gives};
ghost use Rattle.dds_conform.specs.Judging.{IsSupplied, IsTried};

use dds_base::{KeyNo, Portion, RuleNo, WriterNo};
use dds_match::Plan;
use dds_rules::{FireRefused, Ledger};

/// What came of looking for a rule to fire.
#[derive(Clone, Copy, Debug, PartialEq, Eq)]
pub(crate) enum Supply {
    /// One was fired that gives the permit.
    Fired,
    /// None gives the permit that has its takes.
    Lacking,
    /// One that gives the permit would pass the limit of counts.
    Full,
}

/// Whether portions give permits to write the key at the writer.
pub(crate) fn gives(portions: &[Portion<WriterNo>], writer: WriterNo, key: KeyNo) -> bool
    ensures { result ≡ gives portions.now writer key }
{
    portions.iter().any(|portion| portion.endpoint == writer
        && portion.key == key
        && portion.count > 0)
}

/// Fires a rule if it gives a permit for the write, and has its takes.
fn try_rule(ledger: &mut Ledger, plan: &Plan, rule: RuleNo, writer: WriterNo, key: KeyNo) -> Supply
    requires there { rule < length plan.now.rules.entries }
    requires ledger { IsLedgerOf (network_of plan.now) ledger.old }
    ensures { IsTried (network_of plan.now) writer key rule ledger.old ledger.new result }
{
    if !gives(&plan.rule(rule).writes, writer, key) {
        return Supply::Lacking;
    }
    match ledger.fire(rule) {
        Ok(()) => Supply::Fired,
        Err(FireRefused::NotEnough) => Supply::Lacking,
        Err(FireRefused::CountLimit) => Supply::Full,
    }
}

/// Fires the first rule that gives a permit for the write and has its takes.
fn try_rules(ledger: &mut Ledger, plan: &Plan, writer: WriterNo, key: KeyNo) -> Supply
    requires { IsLedgerOf (network_of plan.now) ledger.old }
    ensures { IsSupplied (network_of plan.now) writer key ledger.old ledger.new result }
{
    for u in 0..plan.lists().rules() {
        match try_rule(ledger, plan, RuleNo::new(u), writer, key) {
            Supply::Fired => return Supply::Fired,
            Supply::Full => return Supply::Full,
            Supply::Lacking => {}
        }
    }
    Supply::Lacking
}

/// Fires a rule that gives a permit for the write and has its takes: the one that is advised, and else the first.
pub(crate) fn find_supply(
    ledger: &mut Ledger,
    plan: &Plan,
    advice: Option<RuleNo>,
    writer: WriterNo,
    key: KeyNo,
) -> Supply
    requires { IsLedgerOf (network_of plan.now) ledger.old }
    ensures { IsSupplied (network_of plan.now) writer key ledger.old ledger.new result }
{
    match advice {
        Some(rule) => find_advised(ledger, plan, rule, writer, key),
        None => try_rules(ledger, plan, writer, key),
    }
}

/// The same with a rule that is advised.
fn find_advised(
    ledger: &mut Ledger,
    plan: &Plan,
    rule: RuleNo,
    writer: WriterNo,
    key: KeyNo,
) -> Supply
    requires { IsLedgerOf (network_of plan.now) ledger.old }
    ensures { IsSupplied (network_of plan.now) writer key ledger.old ledger.new result }
{
    if rule.number() >= plan.lists().rules() {
        return try_rules(ledger, plan, writer, key);
    }
    match try_rule(ledger, plan, rule, writer, key) {
        Supply::Fired => Supply::Fired,
        Supply::Full => Supply::Full,
        Supply::Lacking => try_rules(ledger, plan, writer, key),
    }
}
