//! Which rules write without end to a reader that must lose nothing.
ghost use Rattle.std.specs.Prelude.{◌≡◌, ◌<◌, IfOk};
ghost use Rattle.dds_match.specs.Plan.{network_of};
ghost use Rattle.dds_lint.specs.Endless.{AreRefused, comes_limited, endless, endless_at, endless_if, endless_rules};
ghost use Rattle.dds_lint.specs.Endless.{has_limit, is_endless, is_unbounded, writes_limited};

use crate::every::push_below;
use dds_base::{NoMemory, Portion, ReaderNo, RuleNo, WriterNo};
use dds_check::below::first_below;
use dds_check::instance_limit;
use dds_conditions::{readers_of, rules_of};
use dds_match::Plan;
use std::alloc::Global;

/// A rule that lets writes come to a reader at any time, whatever is taken, though the reader must lose nothing and it
/// or the writer has a limit of samples: no bound holds there, and no certificate is accepted.
#[derive(Clone, Copy, Debug, PartialEq, Eq)]
pub struct EndlessRule {
    pub reader: ReaderNo,
    pub rule: RuleNo,
}

/// Whether the samples of a writer that a reader hasn't taken are limited: by the reader, or by the writer's depth.
fn has_limit(plan: &Plan, writer: WriterNo, reader: ReaderNo) -> bool
    requires writer { writer < (network_of plan.now).writers }
    requires reader { reader < (network_of plan.now).readers }
    ensures { result ≡ has_limit (network_of plan.now) writer reader }
{
    let limits = plan.reader_limits(reader);
    limits.max_samples.is_some()
        || instance_limit(&limits).is_some()
        || plan.writer_limits(writer).keep_last.is_some()
}

/// Whether neither a cap nor a lag bounds what is written there and a reader lacks.
fn is_unbounded(plan: &Plan, reader: ReaderNo, write: &Portion<WriterNo>) -> bool
    ensures { result ≡ is_unbounded (network_of plan.now) reader write.now }
{
    plan.cap(write.endpoint, reader, write.key).is_none()
        && plan.lag(write.endpoint, reader, write.key).is_none()
}

/// Whether what is written there comes to a reader, is limited, and neither a cap nor a lag bounds it.
fn comes_limited(plan: &Plan, reader: ReaderNo, write: &Portion<WriterNo>) -> bool
    requires { reader < (network_of plan.now).readers }
    ensures { result ≡ comes_limited (network_of plan.now) reader write.now }
{
    plan.matched(write.endpoint, reader)
        && plan.reaches(reader, write.key)
        && has_limit(plan, write.endpoint, reader)
        && is_unbounded(plan, reader, write)
}

/// Whether one of a rule's writes comes to a reader, is limited, and neither a cap nor a lag bounds it.
fn writes_limited(plan: &Plan, reader: ReaderNo, rule: RuleNo) -> bool
    requires reader { reader < (network_of plan.now).readers }
    requires rule { rule < (network_of plan.now).rules }
    ensures { result ≡ writes_limited (network_of plan.now) reader rule }
{
    plan.rule(rule)
        .writes
        .iter()
        .any(|e| comes_limited(plan, reader, e))
}

/// Whether a rule lets its writes be made at any time, whatever is taken, and one of them comes to a reader, is
/// limited, and neither a cap nor a lag bounds it.
fn is_endless(plan: &Plan, reader: ReaderNo, rule: RuleNo) -> bool
    requires reader { reader < (network_of plan.now).readers }
    requires rule { rule < (network_of plan.now).rules }
    ensures { result ≡ is_endless (network_of plan.now) reader rule }
{
    plan.rule(rule).free && writes_limited(plan, reader, rule)
}

/// The rule with the reader, where the test is true.
fn endless_if(test: bool, reader: ReaderNo, rule: RuleNo) -> Option<EndlessRule>
    ensures { result ≡ endless_if test reader rule }
{
    if test {
        Some(EndlessRule { reader, rule })
    } else {
        None
    }
}

fn endless_at(plan: &Plan, reader: ReaderNo, rule: RuleNo) -> Option<EndlessRule>
    requires reader { reader < (network_of plan.now).readers }
    requires rule { rule < (network_of plan.now).rules }
    ensures { result ≡ endless_at (network_of plan.now) reader rule }
{
    endless_if(is_endless(plan, reader, rule), reader, rule)
}

/// The first rule that writes without end to a reader that must lose nothing.
fn endless(plan: &Plan, reader: ReaderNo) -> Option<EndlessRule>
    requires { reader < (network_of plan.now).readers }
    ensures { result ≡ endless (network_of plan.now) reader }
{
    if plan.watcher(reader) {
        return None;
    }
    first_below(rules_of(plan), |u| endless_at(plan, reader, RuleNo::new(u)))
}

/// Of each reader to which rules write without end the first rule that does, in the order of the readers. Where there's
/// one, no certificate is accepted. `NoMemory` is the only error.
#[tactic(auto, unfolding(crate::specs::Endless::endless_rules))]
pub fn endless_rules(alloc: Global, plan: &Plan) -> Result<Vec<EndlessRule>, NoMemory>
    ensures refused { AreRefused plan.now }
    ensures all { IfOk result (λ rules. rules.items ≡ endless_rules (network_of plan.now)) }
{
    // Its lists name nothing that isn't there.
    plan.assert_well_formed();
    let mut rules = Vec::new(alloc);
    push_below(
        &mut rules,
        readers_of(plan),
        |r| endless(plan, ReaderNo::new(r)),
    )?;
    Ok(rules)
}
