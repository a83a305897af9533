//! The permits that rules give to write one key at a writer: before the first event, and later. Each call goes over the
//! rules: a caller that asks for all keys of a writer takes `permits_of`.
ghost use Rattle.std.specs.Prelude.{◌≡◌, ◌≤◌, ◌<◌, ◌*◌, ◌^◌, ◌&&◌, not, length};
ghost use Rattle.dds_base.specs.Sums.{any_below};
ghost use Rattle.dds_lists.specs.Views.{rule_view};
ghost use Rattle.dds_match.specs.Network.{is_named, named};
ghost use Rattle.dds_match.specs.Plan.{network_of};
ghost use Rattle.dds_runs.specs.Accepted.{is_finite, opening_permits};
ghost use Rattle.dds_runs.specs.First.{is_empty};
ghost use Rattle.dds_check.specs.Limits.{gives_more, is_finite_within};

use crate::budget::rule_at;
use crate::limits::is_past;
use dds_base::{KeyNo, Portion, RuleNo, WriterNo};
use dds_conditions::rules_of;
use dds_lists::Rule;
use dds_match::Plan;

/// How many samples of the key at the writer a list names.
fn named(portions: &[Portion<WriterNo>], writer: WriterNo, key: KeyNo) -> u64
    requires { length portions.now ≤ 16 }
    ensures value { result ≡ named portions.now writer key }
    ensures small { result ≤ 2 ^ 20 }
{
    let mut total: u64 = 0;
    for x in portions {
        if x.endpoint == writer && x.key == key {
            total += u64::from(x.count);
        }
    }
    total
}

fn permitted_by(rule: &Rule, writer: WriterNo, key: KeyNo) -> u64
    requires { length rule.now.writes.items ≤ 16 }
    ensures value { result ≡ named (rule_view rule.now).writes writer key * rule.now.start }
    ensures small { result ≤ 2 ^ 36 }
{
    named(&rule.writes, writer, key) * u64::from(rule.start)
}

fn permitted_by_rule(plan: &Plan, u: RuleNo, writer: WriterNo, key: KeyNo) -> u64
    requires { u < (network_of plan.now).rules }
    ensures value { result
        ≡ named ((network_of plan.now).rule u).writes writer key * ((network_of plan.now).rule u).start }
    ensures small { result ≤ 2 ^ 36 }
{
    permitted_by(rule_at(plan, u), writer, key)
}

/// The permits to write the key at the writer before the first event, at most 2^44.
pub fn opening_permits(plan: &Plan, writer: WriterNo, key: KeyNo) -> u64
    ensures { result ≡ opening_permits (network_of plan.now) writer key }
{
    let mut total: u64 = 0;
    for u in 0..rules_of(plan) {
        total += permitted_by_rule(plan, RuleNo::new(u), writer, key);
    }
    total
}

fn is_named(portions: &[Portion<WriterNo>], writer: WriterNo, key: KeyNo) -> bool
    ensures { result ≡ is_named portions.now writer key }
{
    portions
        .iter()
        .any(|x| x.endpoint == writer && x.key == key)
}

/// Whether a firing of the rule gives permits to write the key at the writer.
fn gives_more(rule: &Rule, writer: WriterNo, key: KeyNo) -> bool
    ensures { result ≡ gives_more (rule_view rule.now) writer key }
{
    0 < rule.takes.len() && is_named(&rule.writes, writer, key)
}

fn rule_gives_more(plan: &Plan, u: RuleNo, writer: WriterNo, key: KeyNo) -> bool
    requires { u < (network_of plan.now).rules }
    ensures { result ≡ gives_more ((network_of plan.now).rule u) writer key }
{
    gives_more(plan.rule(u), writer, key)
}

/// Whether firings give permits to write the key at the writer.
#[tactic(auto, using(crate::proofs::AnyBelow::any_laws))]
fn is_given_more(plan: &Plan, writer: WriterNo, key: KeyNo) -> bool
    ensures { result ≡ any_below (network_of plan.now).rules
        (λ u. gives_more ((network_of plan.now).rule u) writer key) }
{
    for u in 0..rules_of(plan) {
        if rule_gives_more(plan, RuleNo::new(u), writer, key) {
            return true;
        }
    }
    false
}

/// Whether the key is written at the writer only by rules that never fire, and by permit: never more often than the
/// permits at the opening allow.
pub fn is_finite(plan: &Plan, writer: WriterNo, key: KeyNo) -> bool
    ensures { result ≡ is_finite (network_of plan.now) writer key }
{
    !plan.is_free(writer, key) && !is_given_more(plan, writer, key)
}

/// Whether all that is ever written of the key at the writer is not above a limit.
pub fn is_finite_within(plan: &Plan, writer: WriterNo, key: KeyNo, limit: Option<u32>) -> bool
    ensures { result ≡ is_finite_within (network_of plan.now) writer key limit }
{
    is_finite(plan, writer, key) && !is_past(opening_permits(plan, writer, key), limit)
}
