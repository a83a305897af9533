//! The rounds that raise the weights of a row until no event can raise its sum.
ghost use Rattle.std.specs.Prelude.{◌≡◌, ◌<◌, ◌≤◌, ℕ, true, false, All, List, [], ◌∷◌, IfOk, IfSome};
ghost use Rattle.dds_base.specs.declared.portion.Portion.{Portion};
ghost use Rattle.dds_lists.specs.WellFormed.{IsCounted};
ghost use Rattle.dds_match.specs.Network.{weighed};
ghost use Rattle.dds_match.specs.Plan.{network_of};
ghost use Rattle.dds_propose.specs.Following.{AreHeard, IsMade, IsNeed, IsRisenHeard, IsRound, RaisesPermits, Follows};
ghost use Rattle.dds_propose.specs.Following.{RaisesTakes, RaisesSamples};
ghost use Rattle.dds_propose.specs.Relaxation.{IsRest, IsSame, first_risen, needs_of, opening, seen, takes_risen};
ghost use Rattle.dds_propose.specs.Tables.{cell, row_of};
ghost use Rattle.dds_propose.specs.Targets.{IsReached, counts, reader_of};

use crate::needs::{Carrying, by_permits, counted_rule, first_need, first_need_of, needs_weighed};
use crate::targets::Target;
use crate::weights::Weights;
use dds_base::grid::KEYS;
use dds_base::{KeyNo, NoMemory, ReaderNo, RuleNo, WriterNo};
use dds_lists::Rule;
use dds_match::Plan;
use std::alloc::Global;

/// What a sample of a target weighs at the start: it is divided by each number up to 10.
const UNIT: u32 = 5040;

/// After so many rounds that each changed something no row is proposed.
const ROUNDS: usize = 256;

/// No row is proposed: a weight would be above 4,294,967,295, or the weights don't come to rest.
#[derive(Clone, Copy, Debug, PartialEq, Eq)]
pub(crate) struct NoRow;

/// Raises the permits of a key by as much. Returns whether there is a writer.
fn raise_permits(
    weights: &mut Weights,
    writers: &[WriterNo],
    key: KeyNo,
    rise: u32,
) -> Result<bool, NoRow>
    ensures raised { IfOk result (λ _. RaisesPermits writers.now key rise weights.old weights.new) }
    ensures none { IfOk result (λ some. some ≡ false → writers.now ≡ []) }
{
    for writer in writers {
        let Some(weight) = weights.permits.at(*writer, key).checked_add(rise) else {
            return Err(NoRow);
        };
        weights.permits.put(*writer, key, weight);
    }
    Ok(!writers.is_empty())
}

/// Lets the permits of the matched writers follow the samples of a key of a reader. A permit weighs what the samples of
/// its key weigh at all matched readers together, but for samples that caps carry; weights never fall, so it rises by
/// as much as they have risen. Returns whether a permit rose.
fn follow_samples(
    plan: &Plan,
    carrying: Carrying,
    weights: &mut Weights,
    reader: ReaderNo,
    key: KeyNo,
) -> Result<bool, NoRow>
    requires { IsRisenHeard (seen carrying (network_of plan.now)) weights.old }
    ensures followed { IfOk result (Follows (seen carrying (network_of plan.now)) weights.old weights.new) }
    ensures done { IfOk result (λ _. cell weights.new.risen reader key ≡ 0) }
{
    // Its lists name nothing that isn't there.
    plan.assert_well_formed();
    let rise = weights.risen.at(reader, key);
    if rise == 0 {
        return Ok(false);
    }
    weights.risen.put(reader, key, 0);
    if !by_permits(plan, carrying, reader, key) {
        return Ok(false);
    }
    raise_permits(weights, plan.writers_of(reader), key, rise)
}

/// Lets the permits follow the samples of a target.
fn follow_target(
    plan: &Plan,
    carrying: Carrying,
    target: &Target,
    weights: &mut Weights,
) -> Result<bool, NoRow>
    requires { IsRisenHeard (seen carrying (network_of plan.now)) weights.old }
    ensures followed { IfOk result (Follows (seen carrying (network_of plan.now)) weights.old weights.new) }
    ensures done { IfOk result
        (λ _. (k : ℕ) → counts (network_of plan.now) target.now k ≡ true
        → cell weights.new.risen (reader_of target.now) k ≡ 0) }
{
    let mut changed = false;
    for k in 0..KEYS {
        let key = KeyNo::new(k);
        if target.counts(plan, key) {
            let raised = follow_samples(plan, carrying, weights, target.reader(), key)?;
            changed |= raised;
        }
    }
    Ok(changed)
}

/// Lets the permits follow the sample that a rule needs first, of those that the row carries by permits. Returns
/// whether a permit rose.
fn follow_need(
    plan: &Plan,
    carrying: Carrying,
    weights: &mut Weights,
    u: RuleNo,
) -> Result<bool, NoRow>
    requires there { u < (network_of plan.now).rules }
    requires heard { IsRisenHeard (seen carrying (network_of plan.now)) weights.old }
    ensures followed { IfOk result (Follows (seen carrying (network_of plan.now)) weights.old weights.new) }
    ensures done { IfOk result
        (λ _. (e : Portion ℕ) (es : List (Portion ℕ))
        → needs_of (seen carrying (network_of plan.now)) ((network_of plan.now).rule u).takes ≡ e ∷ es
        → cell weights.new.risen e.endpoint e.key ≡ 0) }
{
    match first_need_of(plan, carrying, u) {
        Some(need) => follow_samples(plan, carrying, weights, need.endpoint, need.key),
        None => Ok(false),
    }
}

/// Lets the permits follow the samples that rules need first. No other sample but a target's has a weight.
fn follow_needs(plan: &Plan, carrying: Carrying, weights: &mut Weights) -> Result<bool, NoRow>
    requires { IsRisenHeard (seen carrying (network_of plan.now)) weights.old }
    ensures followed { IfOk result (Follows (seen carrying (network_of plan.now)) weights.old weights.new) }
    ensures done { IfOk result
        (λ _. (r k : ℕ) → IsNeed (seen carrying (network_of plan.now)) r k → cell weights.new.risen r k ≡ 0) }
{
    let mut changed = false;
    for u in 0..plan.lists().rules() {
        let raised = follow_need(plan, carrying, weights, RuleNo::new(u))?;
        changed |= raised;
    }
    Ok(changed)
}

/// Raises the take of a rule's first need, of those that the row carries by permits, to the least weight at which what
/// the rule writes weighs no more than what it needs. Returns whether it rose. A rule without needs is never fired.
fn raise_take(
    plan: &Plan,
    carrying: Carrying,
    weights: &mut Weights,
    rule: &Rule,
) -> Result<bool, NoRow>
    requires counted { All IsCounted rule.now.takes.items }
    requires heard { AreHeard (network_of plan.now) rule.now.takes.items }
    ensures { IfOk result
        (RaisesTakes (first_risen (needs_of (seen carrying (network_of plan.now)) rule.now.takes.items)
        (weighed rule.now.writes.items (cell weights.old.permits)) (cell weights.old.takes)) weights.old weights.new) }
{
    // What is heard is there.
    plan.assert_well_formed();
    let Some(need) = first_need(plan, carrying, &rule.takes) else {
        return Ok(false);
    };
    let written = weights.permits.weighed(&rule.writes);
    let needed = needs_weighed(plan, carrying, &weights.takes, &rule.takes);
    if written <= needed {
        return Ok(false);
    }
    let rise = (written - needed).div_ceil(u128::from(need.count));
    let weight = u128::from(weights.takes.at(need.endpoint, need.key)) + rise;
    match u32::try_from(weight) {
        Ok(weight) => {
            weights.takes.put(need.endpoint, need.key, weight);
            Ok(true)
        }
        Err(_) => Err(NoRow),
    }
}

/// Raises the takes, rules in file order. Returns whether one rose.
fn raise_takes(plan: &Plan, carrying: Carrying, weights: &mut Weights) -> Result<bool, NoRow>
    ensures { IfOk result
        (RaisesTakes (takes_risen (seen carrying (network_of plan.now)) (cell weights.old.permits)
        (cell weights.old.takes) (network_of plan.now).rules) weights.old weights.new) }
{
    let mut changed = false;
    for u in 0..plan.lists().rules() {
        let raised = raise_take(plan, carrying, weights, counted_rule(plan, RuleNo::new(u)))?;
        changed |= raised;
    }
    Ok(changed)
}

/// Raises a sample to the weight of its take. Returns whether it rose.
fn raise_sample(weights: &mut Weights, reader: ReaderNo, key: KeyNo) -> bool
    requires { cell weights.old.samples reader key < cell weights.old.takes reader key
        → cell weights.old.risen reader key ≡ 0 }
    ensures raised { RaisesSamples weights.old weights.new result }
    ensures done { cell weights.new.takes reader key ≤ cell weights.new.samples reader key }
{
    let sample = weights.samples.at(reader, key);
    let take = weights.takes.at(reader, key);
    if take <= sample {
        return false;
    }
    weights.samples.put(reader, key, take);
    weights.risen.put(reader, key, take - sample);
    true
}

/// Raises the sample that a rule needs first to the weight of its take. Returns whether it rose.
fn raise_need(plan: &Plan, carrying: Carrying, weights: &mut Weights, u: RuleNo) -> bool
    requires there { u < (network_of plan.now).rules }
    requires fresh { (r k : ℕ) → cell weights.old.samples r k < cell weights.old.takes r k
        → cell weights.old.risen r k ≡ 0 }
    ensures raised { RaisesSamples weights.old weights.new result }
    ensures done { (e : Portion ℕ) (es : List (Portion ℕ))
        → needs_of (seen carrying (network_of plan.now)) ((network_of plan.now).rule u).takes ≡ e ∷ es
        → cell weights.new.takes e.endpoint e.key ≤ cell weights.new.samples e.endpoint e.key }
{
    match first_need_of(plan, carrying, u) {
        Some(need) => raise_sample(weights, need.endpoint, need.key),
        None => false,
    }
}

/// Raises the samples to the weights of their takes. Only a first need of a rule has a take with a weight. Returns
/// whether one rose.
fn raise_samples(plan: &Plan, carrying: Carrying, weights: &mut Weights) -> bool
    requires { (r k : ℕ) → cell weights.old.risen r k ≡ 0 }
    ensures raised { RaisesSamples weights.old weights.new result }
    ensures done { (r k : ℕ) → IsNeed (seen carrying (network_of plan.now)) r k
        → cell weights.new.takes r k ≤ cell weights.new.samples r k }
{
    let mut changed = false;
    for u in 0..plan.lists().rules() {
        let raised = raise_need(plan, carrying, weights, RuleNo::new(u));
        changed |= raised;
    }
    changed
}

/// One round: the permits follow the samples, then the takes the permits, then the samples the takes. Returns whether
/// a weight rose.
fn round(
    plan: &Plan,
    carrying: Carrying,
    target: &Target,
    weights: &mut Weights,
) -> Result<bool, NoRow>
    requires { IsMade (seen carrying (network_of plan.now)) target.now weights.old }
    ensures { IfOk result (IsRound (seen carrying (network_of plan.now)) target.now weights.old weights.new) }
{
    // Its lists name nothing that isn't there.
    plan.assert_well_formed();
    let by_target = follow_target(plan, carrying, target, weights)?;
    let by_needs = follow_needs(plan, carrying, weights)?;
    let takes = raise_takes(plan, carrying, weights)?;
    let samples = raise_samples(plan, carrying, weights);
    Ok(by_target | by_needs | takes | samples)
}

/// Rounds until one changes nothing.
fn come_to_rest(
    plan: &Plan,
    carrying: Carrying,
    target: &Target,
    weights: &mut Weights,
) -> Result<(), NoRow>
    requires made { IsMade (seen carrying (network_of plan.now)) target.now weights.old }
    requires opened { IsSame (row_of weights.old) (opening (network_of plan.now) target.now) }
    ensures { IfOk result (λ _. IsRest (seen carrying (network_of plan.now)) target.now (row_of weights.new)) }
{
    for count in 0..ROUNDS {
        if !round(plan, carrying, target, weights)? {
            return Ok(());
        }
    }
    Err(NoRow)
}

/// The weights before the first round: the samples of the target weigh a unit.
fn opening_weights(alloc: Global, plan: &Plan, target: &Target) -> Result<Weights, NoMemory>
    requires { IsReached (network_of plan.now) target.now }
    ensures made { IfOk result
        (λ weights. (carrying : Carrying) → IsMade (seen carrying (network_of plan.now)) target.now weights) }
    ensures opened { IfOk result (λ weights. IsSame (row_of weights) (opening (network_of plan.now) target.now)) }
{
    // Its lists name nothing that isn't there.
    plan.assert_well_formed();
    let mut weights = Weights::zero(alloc)?;
    for k in 0..KEYS {
        let key = KeyNo::new(k);
        if target.counts(plan, key) {
            weights.samples.put(target.reader(), key, UNIT);
            weights.risen.put(target.reader(), key, UNIT);
        }
    }
    Ok(weights)
}

/// The weights of the row that shows a target and carries samples in this way. `None` where a weight would be above
/// 4,294,967,295, or where each of 256 rounds changed something.
pub(crate) fn row_weights(
    alloc: Global,
    plan: &Plan,
    carrying: Carrying,
    target: &Target,
) -> Result<Option<Weights>, NoMemory>
    requires { IsReached (network_of plan.now) target.now }
    ensures { IfOk result
        (λ made. IfSome made
        (λ weights. IsRest (seen carrying (network_of plan.now)) target.now (row_of weights))) }
{
    let mut weights = opening_weights(alloc, plan, target)?;
    match come_to_rest(plan, carrying, target, &mut weights) {
        Ok(()) => Ok(Some(weights)),
        Err(NoRow) => Ok(None),
    }
}
