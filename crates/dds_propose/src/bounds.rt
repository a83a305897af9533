//! The bound that a row shows.
ghost use Rattle.std.specs.Prelude.{◌≡◌, ◌<◌, ◌≤◌, ◌*◌, ◌^◌, ◌==◌, ◌&&◌, not, length, min};
ghost use Rattle.std.specs.List.{list_any};
ghost use Rattle.std.specs.Option.{option_map_or};
ghost use Rattle.dds_base.specs.Sums.{any_below, total, total_pairs};
ghost use Rattle.dds_lists.specs.Views.{rule_view};
ghost use Rattle.dds_match.specs.Network.{weighed};
ghost use Rattle.dds_match.specs.Plan.{network_of};
ghost use Rattle.dds_runs.specs.Accepted.{budget, leaves_to_caps, opening_weight};
ghost use Rattle.dds_check.specs.Shown.{carried_weight};
ghost use Rattle.dds_propose.specs.Bounds.{bound, least_sample};
ghost use Rattle.dds_propose.specs.Tables.{cell, row_of};

use crate::targets::Target;
use crate::weights::Weights;
use dds_base::grid::KEYS;
use dds_base::{KeyNo, ReaderNo, RuleNo, WriterNo};
use dds_lists::Rule;
use dds_match::Plan;

/// A rule, which writes at most 16 keys.
fn short_rule(plan: &Plan, u: RuleNo) -> &Rule
    requires { u < (network_of plan.now).rules }
    ensures value { rule_view result.now ≡ (network_of plan.now).rule u }
    ensures short { length result.now.writes.items ≤ 16 }
{
    // Its rules are short.
    plan.assert_well_formed();
    plan.rule(u)
}

/// What the permits of a rule at the opening weigh.
fn opened_by(weights: &Weights, rule: &Rule) -> u128
    requires { length rule.now.writes.items ≤ 16 }
    ensures value { result ≡ weighed (rule_view rule.now).writes (cell weights.now.permits) * rule.now.start }
    ensures small { result ≤ 2 ^ 68 }
{
    weights.permits.weighed(&rule.writes) * u128::from(rule.start)
}

/// What all permits at the opening weigh.
#[tactic(auto, using(dds_runs::proofs::Sums::total_start, dds_runs::proofs::Sums::total_more))]
fn opening_weight(plan: &Plan, weights: &Weights) -> u128
    ensures value { result ≡ opening_weight (network_of plan.now) (row_of weights.now) }
    ensures small { result ≤ 2 ^ 76 }
{
    let mut total: u128 = 0;
    for u in 0..plan.lists().rules() {
        total += opened_by(weights, short_rule(plan, RuleNo::new(u)));
    }
    total
}

/// Whether permits of the key at one of some writers have weight.
fn weighs_one(weights: &Weights, writers: &[WriterNo], key: KeyNo) -> bool
    ensures { result ≡ list_any (λ w. not ((row_of weights.now).permits w key == 0)) writers.now }
{
    writers.iter().any(|w| weights.permits.at(*w, key) != 0)
}

/// Whether permits of the key at a writer that matches the reader have weight.
fn weighs_permits(plan: &Plan, weights: &Weights, reader: ReaderNo, key: KeyNo) -> bool
    ensures { result ≡ any_below (network_of plan.now).writers
        (λ w. (network_of plan.now).matched w reader && not ((row_of weights.now).permits w key == 0)) }
{
    weighs_one(weights, plan.writers_of(reader), key)
}

/// Whether neither takes of the key at the reader nor permits of it at a writer that matches have weight.
fn leaves_to_caps(plan: &Plan, weights: &Weights, reader: ReaderNo, key: KeyNo) -> bool
    ensures { result ≡ leaves_to_caps (network_of plan.now) (row_of weights.now) reader key }
{
    weights.takes.at(reader, key) == 0 && !weighs_permits(plan, weights, reader, key)
}

/// What the samples of a key weigh that are in flight to a reader, at most, where the row carries them by caps: 0 where
/// it doesn't.
fn carried_weight(plan: &Plan, weights: &Weights, reader: ReaderNo, key: KeyNo) -> u128
    requires reader { reader < (network_of plan.now).readers }
    requires key { key < (network_of plan.now).keys }
    ensures value { result ≡ carried_weight (network_of plan.now) (row_of weights.now) reader key }
    ensures small { result ≤ 2 ^ 96 }
{
    // Most often there are no caps, and this is one look.
    let Some(most) = plan.capped(reader, key) else {
        return 0;
    };
    if leaves_to_caps(plan, weights, reader, key) {
        u128::from(weights.samples.at(reader, key)) * u128::from(most)
    } else {
        0
    }
}

/// That of all keys of a reader.
#[tactic(auto, using(dds_runs::proofs::Sums::total_start, dds_runs::proofs::Sums::total_more))]
fn reader_carried(plan: &Plan, weights: &Weights, reader: ReaderNo) -> u128
    requires { reader < (network_of plan.now).readers }
    ensures value { result ≡ total (network_of plan.now).keys
        (carried_weight (network_of plan.now) (row_of weights.now) reader) }
    ensures small { result ≤ 2 ^ 102 }
{
    let mut total: u128 = 0;
    for k in 0..KEYS {
        total += carried_weight(plan, weights, reader, KeyNo::new(k));
    }
    total
}

/// That of all keys of all readers.
#[tactic(auto, using(dds_runs::proofs::Sums::total_start, dds_runs::proofs::Sums::total_more))]
fn all_carried(plan: &Plan, weights: &Weights) -> u128
    ensures value { result ≡ total_pairs (network_of plan.now).readers (network_of plan.now).keys
        (carried_weight (network_of plan.now) (row_of weights.now)) }
    ensures small { result ≤ 2 ^ 110 }
{
    let mut total: u128 = 0;
    for r in 0..plan.lists().readers() {
        total += reader_carried(plan, weights, ReaderNo::new(r));
    }
    total
}

/// What the weighted sum of the row never rises above: what the permits at the opening weigh, and as many samples as
/// each cap that carries them allows.
fn budget(plan: &Plan, weights: &Weights) -> u128
    ensures { result ≡ budget (network_of plan.now) (row_of weights.now) }
{
    opening_weight(plan, weights) + all_carried(plan, weights)
}

/// The lesser of a number and one that may be there.
fn lesser(other: Option<u32>, number: u32) -> u32
    ensures { result ≡ option_map_or (λ n. min n number) other number }
{
    match other {
        Some(other) => other.min(number),
        None => number,
    }
}

/// The least weight of a sample that counts for the target, 0 where none counts.
fn least_sample(plan: &Plan, target: &Target, weights: &Weights) -> u32
    ensures { result ≡ least_sample (network_of plan.now) target.now (row_of weights.now) }
{
    let mut least = None;
    for k in 0..KEYS {
        let key = KeyNo::new(k);
        if target.counts(plan, key) {
            least = Some(lesser(least, weights.samples.at(target.reader(), key)));
        }
    }
    least.unwrap_or(0)
}

/// At most so many samples count for the target at once: the budget of the row, divided by the least weight of a
/// sample, rounded down. `None` where that is above 4,294,967,295, or where no sample has a weight.
pub(crate) fn bound_of(plan: &Plan, target: &Target, weights: &Weights) -> Option<u32>
    ensures { result ≡ bound (network_of plan.now) target.now (row_of weights.now) }
{
    let least = u128::from(least_sample(plan, target, weights));
    let bound = budget(plan, weights).checked_div(least)?;
    u32::try_from(bound).ok()
}
