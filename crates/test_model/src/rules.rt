//! The firing of a rule.

use crate::counts::named;
use crate::layout::RuleLayout;
use crate::world::World;
use dds_base::{Portion, ReaderNo, Refusal, Reply, RuleNo};

/// Whether fewer takes are unspent than the rule needs of what one of its needs names.
fn is_short(world: &World, rule: &RuleLayout, need: &Portion<ReaderNo>) -> bool {
    let needed = named(&rule.needs, need.endpoint.number(), need.key);
    world.unspent(need.endpoint, need.key) < needed
}

/// Whether the rule needs nothing, or of something fewer takes are unspent than it needs.
fn needs_more(world: &World, rule: &RuleLayout) -> bool {
    for need in &rule.needs {
        if is_short(world, rule, need) {
            return true;
        }
    }
    rule.needs.is_empty()
}

/// Whether a firing would bring a count of permits above 2^64 - 1.
fn passes_limit(world: &World, rule: &RuleLayout) -> bool {
    rule.gives.iter().any(|e| {
        let more = named(&rule.gives, e.endpoint.number(), e.key);
        world.permits(e.endpoint, e.key).saturating_add(more) > u128::from(u64::MAX)
    })
}

/// Why a firing is refused: the first reason.
fn refusal(world: &World, rule: RuleNo) -> Option<Refusal> {
    let Some(layout) = world.layout.rules.get(rule.number()) else {
        return Some(Refusal::Foreign);
    };
    if needs_more(world, layout) {
        return Some(Refusal::NotEnough);
    }
    if passes_limit(world, layout) {
        return Some(Refusal::CountLimit);
    }
    None
}

/// A rule fires: its needs are spent, and its permits are given.
pub(crate) fn fire(world: &mut World, rule: RuleNo) -> Reply {
    if let Some(why) = refusal(world, rule) {
        return Reply::Refused(why);
    }
    if let Some(fired) = world.fired.get_mut(rule.number()) {
        *fired = fired.saturating_add(1);
    }
    Reply::Fired
}
