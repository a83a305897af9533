//! Rules between which there may be a choice.
ghost use Rattle.std.specs.Prelude.{◌≡◌, ◌<◌, ◌&&◌, false, true, length, not, nat_lt};
ghost use Rattle.std.specs.List.{list_any};
ghost use Rattle.dds_match.specs.Plan.{network_of};
ghost use Rattle.dds_conform.specs.Keeping.{HasNoRivals};
ghost use Rattle.dds_conform.specs.Rivals.{are_rivals, share};

use crate::serving::gives;
use dds_base::{Portion, RuleNo, WriterNo};
use dds_match::Plan;

/// Whether of one of these portions, whose writes need permits, the others give permits too.
fn share(plan: &Plan, portions: &[Portion<WriterNo>], others: &[Portion<WriterNo>]) -> bool
    ensures { result ≡ share (network_of plan.now) portions.now others.now }
{
    portions.iter().any(|portion| {
        portion.count > 0
            && !plan.is_free(portion.endpoint, portion.key)
            && gives(others, portion.endpoint, portion.key)
    })
}

/// Whether both rules can be fired, and give permits for the same writes.
fn are_rivals(plan: &Plan, rule: RuleNo, other: RuleNo) -> bool
    requires rule { rule < length plan.now.rules.entries }
    requires other { other < length plan.now.rules.entries }
    ensures { result ≡ are_rivals (network_of plan.now) rule other }
{
    let (rule, other) = (plan.rule(rule), plan.rule(other));
    !rule.takes.is_empty() && !other.takes.is_empty() && share(plan, &rule.writes, &other.writes)
}

/// Whether a rule has a rival among those before it.
fn has_rival_before(plan: &Plan, rule: RuleNo) -> bool
    requires { rule < length plan.now.rules.entries }
    ensures { HasNoRivals (network_of plan.now) → result ≡ false }
{
    for other in 0..rule.number() {
        if are_rivals(plan, rule, RuleNo::new(other)) {
            return true;
        }
    }
    false
}

/// Whether two rules that can be fired give permits for the same writes, so that there may be a choice.
pub(crate) fn has_rivals(plan: &Plan) -> bool
    ensures { HasNoRivals (network_of plan.now) → result ≡ false }
{
    for rule in 0..plan.lists().rules() {
        if has_rival_before(plan, RuleNo::new(rule)) {
            return true;
        }
    }
    false
}
