//! The needs of rules that a row carries by permits.
ghost use Rattle.std.specs.Prelude.{◌≡◌, ◌≤◌, ◌<◌, ◌*◌, ◌^◌, true, All, length, slice_get, if◌then◌else◌};
ghost use Rattle.dds_lists.specs.Views.{rule_view};
ghost use Rattle.dds_lists.specs.WellFormed.{IsCounted};
ghost use Rattle.dds_match.specs.Network.{weighed};
ghost use Rattle.dds_match.specs.Plan.{network_of};
ghost use Rattle.dds_propose.specs.Following.{AreHeard};
ghost use Rattle.dds_propose.specs.Relaxation.{by_permits, needs_of, seen};
ghost use Rattle.dds_propose.specs.Tables.{cell};

use crate::weights::Table;
use dds_base::{KeyNo, Portion, ReaderNo, RuleNo};
use dds_lists::Rule;
use dds_match::Plan;

/// How a row carries samples in flight that caps bound.
#[derive(Clone, Copy, Debug, PartialEq, Eq)]
pub(crate) enum Carrying {
    /// By the caps: takes of them get no weight, and permits none for them.
    ByCaps,
    /// By permits, as all other samples.
    ByPermits,
}

/// Whether no caps bound the samples of a key in flight to a reader, or no writer matches it.
fn is_uncapped(plan: &Plan, reader: ReaderNo, key: KeyNo) -> bool
    requires { (network_of plan.now).hears reader key ≡ true }
    ensures { result ≡ by_permits (network_of plan.now) reader key }
{
    // What is heard is there.
    plan.assert_well_formed();
    match plan.capped(reader, key) {
        Some(_) => plan.writers_of(reader).is_empty(),
        None => true,
    }
}

/// Whether a row carries the samples of a key in flight to a reader by permits.
pub(crate) fn by_permits(plan: &Plan, carrying: Carrying, reader: ReaderNo, key: KeyNo) -> bool
    requires { (network_of plan.now).hears reader key ≡ true }
    ensures { result ≡ by_permits (seen carrying (network_of plan.now)) reader key }
{
    match carrying {
        Carrying::ByCaps => is_uncapped(plan, reader, key),
        Carrying::ByPermits => true,
    }
}

/// A rule whose counts are above 0, and which takes what is heard.
pub(crate) fn counted_rule(plan: &Plan, u: RuleNo) -> &Rule
    requires { u < (network_of plan.now).rules }
    ensures value { rule_view result.now ≡ (network_of plan.now).rule u }
    ensures counted { All IsCounted result.now.takes.items }
    ensures heard { AreHeard (network_of plan.now) result.now.takes.items }
{
    // Its counts are 1 to 65,535, and its rules take what is there.
    plan.lists().assert_well_formed();
    plan.rule(u)
}

/// The first need that a row carries by permits.
pub(crate) fn first_need(
    plan: &Plan,
    carrying: Carrying,
    needs: &[Portion<ReaderNo>],
) -> Option<Portion<ReaderNo>>
    requires { AreHeard (network_of plan.now) needs.now }
    ensures { result ≡ slice_get (needs_of (seen carrying (network_of plan.now)) needs.now) 0 }
{
    for need in needs {
        if by_permits(plan, carrying, need.endpoint, need.key) {
            return Some(*need);
        }
    }
    None
}

/// The first need of a rule that a row carries by permits.
pub(crate) fn first_need_of(plan: &Plan, carrying: Carrying, u: RuleNo) -> Option<Portion<ReaderNo>>
    requires { u < (network_of plan.now).rules }
    ensures { result
        ≡ slice_get (needs_of (seen carrying (network_of plan.now)) ((network_of plan.now).rule u).takes) 0 }
{
    first_need(plan, carrying, &counted_rule(plan, u).takes)
}

/// What a need weighs that a row carries by permits, 0 of another.
fn need_weighed(plan: &Plan, carrying: Carrying, takes: &Table, need: &Portion<ReaderNo>) -> u128
    requires { (network_of plan.now).hears need.now.endpoint need.now.key ≡ true }
    ensures value { result ≡ if by_permits (seen carrying (network_of plan.now)) need.now.endpoint need.now.key
        then need.now.count * cell takes.now need.now.endpoint need.now.key else 0 }
    ensures small { result ≤ 2 ^ 48 }
{
    if by_permits(plan, carrying, need.endpoint, need.key) {
        u128::from(need.count) * u128::from(takes.at(need.endpoint, need.key))
    } else {
        0
    }
}

/// What the needs weigh that a row carries by permits.
pub(crate) fn needs_weighed(
    plan: &Plan,
    carrying: Carrying,
    takes: &Table,
    needs: &[Portion<ReaderNo>],
) -> u128
    requires { AreHeard (network_of plan.now) needs.now }
    ensures value { result ≡ weighed (needs_of (seen carrying (network_of plan.now)) needs.now) (cell takes.now) }
    ensures small { result ≤ length needs.now * 2 ^ 48 }
{
    let mut total: u128 = 0;
    for need in needs {
        total += need_weighed(plan, carrying, takes, need);
    }
    total
}
