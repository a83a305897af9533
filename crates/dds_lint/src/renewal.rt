//! Which writes are made again and again, and which end once the starts of their rules are used up.
ghost use Rattle.std.specs.Prelude.{◌≡◌, ◌<◌};
ghost use Rattle.dds_base.specs.Sums.{any_below};
ghost use Rattle.dds_match.specs.Network.{is_named};
ghost use Rattle.dds_match.specs.Plan.{network_of};
ghost use Rattle.dds_lint.specs.Renewal.{ends_at, goes_on, goes_on_at, is_finite, is_renewed, renews, writes_at};
ghost use Rattle.dds_lint.specs.Renewal.{writes_finitely};

use crate::firings::has_takes;
use dds_base::{KeyNo, RuleNo, WriterNo};
use dds_conditions::rules_of;
use dds_match::Plan;

/// Whether a rule can let its writes be made again and again: it takes something, or is free.
fn goes_on(plan: &Plan, rule: RuleNo) -> bool
    requires { rule < (network_of plan.now).rules }
    ensures { result ≡ goes_on (network_of plan.now) rule }
{
    has_takes(plan, rule) || plan.rule(rule).free
}

/// Whether this is one of the writes of a rule.
fn is_one_of_writes(plan: &Plan, writer: WriterNo, key: KeyNo, rule: RuleNo) -> bool
    requires { rule < (network_of plan.now).rules }
    ensures { result ≡ is_named ((network_of plan.now).rule rule).writes writer key }
{
    plan.rule(rule)
        .writes
        .iter()
        .any(|e| e.endpoint == writer && e.key == key)
}

/// Whether a rule can let this write be made again and again.
fn renews(plan: &Plan, writer: WriterNo, key: KeyNo, rule: RuleNo) -> bool
    requires { rule < (network_of plan.now).rules }
    ensures { result ≡ renews (network_of plan.now) writer key rule }
{
    goes_on(plan, rule) && is_one_of_writes(plan, writer, key, rule)
}

/// Whether some rule can.
fn is_renewed(plan: &Plan, writer: WriterNo, key: KeyNo) -> bool
    ensures { result ≡ is_renewed (network_of plan.now) writer key }
{
    let mut any = false;
    for u in 0..rules_of(plan) {
        let here = renews(plan, writer, key, RuleNo::new(u));
        any = here || any;
    }
    any
}

/// Whether a rule writes something that no rule lets be written again.
fn writes_finitely(plan: &Plan, rule: RuleNo) -> bool
    requires { rule < (network_of plan.now).rules }
    ensures { result ≡ writes_finitely (network_of plan.now) rule }
{
    plan.rule(rule)
        .writes
        .iter()
        .any(|e| !is_renewed(plan, e.endpoint, e.key))
}

/// Whether a rule has a start alone, and writes something that no rule lets be written again.
pub(crate) fn is_finite(plan: &Plan, rule: RuleNo) -> bool
    requires { rule < (network_of plan.now).rules }
    ensures { result ≡ is_finite (network_of plan.now) rule }
{
    !goes_on(plan, rule) && 0 < plan.rule(rule).start && writes_finitely(plan, rule)
}

/// Whether one of a rule's writes is at a writer.
fn writes_at(plan: &Plan, writer: WriterNo, rule: RuleNo) -> bool
    requires { rule < (network_of plan.now).rules }
    ensures { result ≡ writes_at (network_of plan.now) writer rule }
{
    plan.rule(rule).writes.iter().any(|e| e.endpoint == writer)
}

/// Whether a rule goes on, and one of its writes is at a writer.
fn goes_on_at(plan: &Plan, writer: WriterNo, rule: RuleNo) -> bool
    requires { rule < (network_of plan.now).rules }
    ensures { result ≡ goes_on_at (network_of plan.now) writer rule }
{
    goes_on(plan, rule) && writes_at(plan, writer, rule)
}

/// Whether some rule writes at a writer.
fn some_writes_at(plan: &Plan, writer: WriterNo) -> bool
    ensures { result ≡ any_below (network_of plan.now).rules (writes_at (network_of plan.now) writer) }
{
    let mut any = false;
    for u in 0..rules_of(plan) {
        let here = writes_at(plan, writer, RuleNo::new(u));
        any = here || any;
    }
    any
}

/// Whether some rule goes on and writes at a writer.
fn some_goes_on_at(plan: &Plan, writer: WriterNo) -> bool
    ensures { result ≡ any_below (network_of plan.now).rules (goes_on_at (network_of plan.now) writer) }
{
    let mut any = false;
    for u in 0..rules_of(plan) {
        let here = goes_on_at(plan, writer, RuleNo::new(u));
        any = here || any;
    }
    any
}

/// Whether rules write at a writer, and none of them goes on.
pub(crate) fn ends_at(plan: &Plan, writer: WriterNo) -> bool
    ensures { result ≡ ends_at (network_of plan.now) writer }
{
    some_writes_at(plan, writer) && !some_goes_on_at(plan, writer)
}
