//! Entries made on a ledger, one after the other. A rule is fired when a write needs it.
ghost use Rattle.std.specs.Prelude.{◌≡◌, ◌<◌, false, IfOk};
ghost use Rattle.dds_match.specs.Plan.{network_of};
ghost use Rattle.dds_rules.specs.Counts.{count_at};
ghost use Rattle.dds_rules.specs.Ledger.{IsLedgerOf};
ghost use Rattle.dds_conform.specs.declared.actions.Action.TheVariants.{Write};
ghost use Rattle.dds_conform.specs.Judging.{AreKnown, IsAnswer, IsKnown, IsPaid, IsRefusal, IsProgress};

use crate::actions::{Action, Entry};
use crate::conformance::{Conformance, Refused};
use crate::serving::{Supply, find_supply};
use crate::shortages::shortages;
use dds_base::{KeyNo, NoMemory, ReaderNo, RuleNo, WriterNo};
use dds_match::Plan;
use dds_rules::Ledger;
use std::alloc::Global;

/// What came of an entry.
#[derive(Clone, Copy, Debug, PartialEq, Eq)]
pub(crate) enum Progress {
    /// The rules allow it.
    Allowed,
    /// It is a write without a permit, and no rule can be fired that gives one.
    Blocked { writer: WriterNo, key: KeyNo },
    /// A count would pass 2^64 - 1.
    Full,
}

/// Uses a permit, one that is there.
fn pay(ledger: &mut Ledger, writer: WriterNo, key: KeyNo)
    requires { 0 < count_at ledger.old.permits writer key }
    ensures { IsPaid writer key ledger.old ledger.new }
{
    ledger.use_permit(writer, key).unwrap();
}

/// A write that isn't free and finds no permit.
fn serve(
    ledger: &mut Ledger,
    plan: &Plan,
    advice: Option<RuleNo>,
    writer: WriterNo,
    key: KeyNo,
) -> Progress
    requires ledger { IsLedgerOf (network_of plan.now) ledger.old }
    requires known { IsKnown (network_of plan.now) (Write writer key) }
    requires paid { (network_of plan.now).free writer key ≡ false }
    requires none { count_at ledger.old.permits writer key ≡ 0 }
    ensures { IsProgress (network_of plan.now) (Write writer key) ledger.old ledger.new result }
{
    match find_supply(ledger, plan, advice, writer, key) {
        Supply::Fired => {
            pay(ledger, writer, key);
            Progress::Allowed
        }
        Supply::Lacking => Progress::Blocked { writer, key },
        Supply::Full => Progress::Full,
    }
}

/// A write.
fn write(
    ledger: &mut Ledger,
    plan: &Plan,
    advice: Option<RuleNo>,
    writer: WriterNo,
    key: KeyNo,
) -> Progress
    requires ledger { IsLedgerOf (network_of plan.now) ledger.old }
    requires known { IsKnown (network_of plan.now) (Write writer key) }
    ensures { IsProgress (network_of plan.now) (Write writer key) ledger.old ledger.new result }
{
    if plan.is_free(writer, key) {
        return Progress::Allowed;
    }
    if ledger.permits(writer, key) == 0 {
        return serve(ledger, plan, advice, writer, key);
    }
    pay(ledger, writer, key);
    Progress::Allowed
}

/// A take.
fn take(ledger: &mut Ledger, plan: &Plan, reader: ReaderNo, key: KeyNo) -> Progress
    requires ledger { IsLedgerOf (network_of plan.now) ledger.old }
    requires known { IsKnown (network_of plan.now) (Action.Take reader key) }
    ensures { IsProgress (network_of plan.now) (Action.Take reader key) ledger.old ledger.new result }
{
    // Its network's numbers are below its counts.
    plan.assert_well_formed();
    match ledger.note_take(reader, key) {
        Ok(()) => Progress::Allowed,
        Err(_) => Progress::Full,
    }
}

/// One entry more.
fn step(ledger: &mut Ledger, plan: &Plan, advice: Option<RuleNo>, action: Action) -> Progress
    requires ledger { IsLedgerOf (network_of plan.now) ledger.old }
    requires known { IsKnown (network_of plan.now) action }
    ensures { IsProgress (network_of plan.now) action ledger.old ledger.new result }
{
    match action {
        Action::Write { writer, key } => write(ledger, plan, advice, writer, key),
        Action::Take { reader, key } => take(ledger, plan, reader, key),
    }
}

/// The answer for a write that is blocked, and what the rules lack.
fn refuse(
    alloc: Global,
    plan: &Plan,
    ledger: &Ledger,
    line: usize,
    write: (WriterNo, KeyNo),
) -> Result<Conformance, NoMemory>
    ensures { IfOk result (IsRefusal (network_of plan.now) ledger.now line write.0 write.1) }
{
    let (writer, key) = write;
    let short = shortages(alloc, plan, ledger, writer, key)?;
    Ok(Conformance::NoPermit(Refused {
        line,
        writer,
        key,
        short,
    }))
}

/// The rule that is advised before an entry.
fn advice_at(advice: &[Option<RuleNo>], entry: usize) -> Option<RuleNo> {
    advice.get(entry).copied().flatten()
}

/// Makes entries in their order on a ledger as it is opened. A rule is fired when a write needs it: the one that is
/// advised before the entry, and else the first that can be.
pub(crate) fn judge(
    alloc: Global,
    plan: &Plan,
    entries: &[Entry],
    advice: &[Option<RuleNo>],
) -> Result<Conformance, NoMemory>
    requires { AreKnown (network_of plan.now) entries.now }
    ensures { IfOk result (IsAnswer (network_of plan.now) entries.now) }
{
    let mut ledger = Ledger::open(alloc, plan)?;
    for i in 0..entries.len() {
        let entry = &entries[i];
        match step(&mut ledger, plan, advice_at(advice, i), entry.action()) {
            Progress::Allowed => {}
            Progress::Blocked { writer, key } => {
                return refuse(alloc, plan, &ledger, entry.line(), (writer, key));
            }
            Progress::Full => return Ok(Conformance::Unknown),
        }
    }
    Ok(Conformance::Kept)
}
