//! Which paces and spans of a deployment bound nothing.
ghost use Rattle.std.specs.Prelude.{◌≡◌, ◌<◌};
ghost use Rattle.dds_base.specs.Sums.{any_below};
ghost use Rattle.dds_match.specs.Plan.{network_of};
ghost use Rattle.dds_lint.specs.Pacing.{comes_strictly, feeds, feeds_span, is_pace_unused, is_span_of_watcher};
ghost use Rattle.dds_lint.specs.Pacing.{is_span_unused};

use dds_base::{Portion, ReaderNo, RuleNo, WriterNo};
use dds_conditions::readers_of;
use dds_match::Plan;

/// Whether what is written there comes to a reader, which must lose nothing.
fn comes_strictly(plan: &Plan, reader: ReaderNo, write: &Portion<WriterNo>) -> bool
    ensures { result ≡ comes_strictly plan.now reader write.now }
{
    plan.matched(write.endpoint, reader) && !plan.watcher(reader) && plan.hears(reader, write.key)
}

/// Whether one of a rule's writes comes to a reader, which must lose nothing.
fn feeds(plan: &Plan, reader: ReaderNo, rule: RuleNo) -> bool
    requires { rule < (network_of plan.now).rules }
    ensures { result ≡ feeds plan.now reader rule }
{
    plan.rule(rule)
        .writes
        .iter()
        .any(|e| comes_strictly(plan, reader, e))
}

/// Whether the deployment says how soon a reader takes, and one of a rule's writes comes to it.
fn feeds_span(plan: &Plan, rule: RuleNo, reader: ReaderNo) -> bool
    requires { rule < (network_of plan.now).rules }
    ensures { result ≡ feeds_span plan.now rule reader }
{
    plan.taken_within(reader).is_some() && feeds(plan, reader, rule)
}

/// Whether a rule feeds some reader of which the deployment says how soon it takes.
fn feeds_some_span(plan: &Plan, rule: RuleNo) -> bool
    requires { rule < (network_of plan.now).rules }
    ensures { result ≡ any_below (network_of plan.now).readers (feeds_span plan.now rule) }
{
    let mut any = false;
    for r in 0..readers_of(plan) {
        let here = feeds_span(plan, rule, ReaderNo::new(r));
        any = here || any;
    }
    any
}

/// Whether a rule has a pace, and feeds no reader of which the deployment says how soon it takes.
pub(crate) fn is_pace_unused(plan: &Plan, rule: RuleNo) -> bool
    requires { rule < (network_of plan.now).rules }
    ensures { result ≡ is_pace_unused plan.now rule }
{
    plan.rule(rule).pace.is_some() && !feeds_some_span(plan, rule)
}

/// Whether a rule without a pace feeds a reader.
pub(crate) fn is_span_unused(plan: &Plan, reader: ReaderNo, rule: RuleNo) -> bool
    requires { rule < (network_of plan.now).rules }
    ensures { result ≡ is_span_unused plan.now reader rule }
{
    plan.rule(rule).pace.is_none() && feeds(plan, reader, rule)
}

/// Whether the deployment says how soon a reader takes, though that may miss samples.
pub(crate) fn is_span_of_watcher(plan: &Plan, reader: ReaderNo) -> bool
    ensures { result ≡ is_span_of_watcher plan.now reader }
{
    plan.watcher(reader) && plan.taken_within(reader).is_some()
}
