//! What bounds the weighted sum of a row, in its two parts: what the permits at the opening weigh, and the samples that
//! caps carry.
ghost use Rattle.std.specs.Prelude.{◌≡◌, ◌≤◌, ◌<◌, ◌+◌, IfOk, string_bytes};
ghost use Rattle.dds_base.specs.Grid.{most_keys};
ghost use Rattle.dds_match.specs.Plan.{network_of};
ghost use Rattle.dds_text.specs.Texts.{each_below};
ghost use Rattle.dds_runs.specs.Accepted.{row_of};
ghost use Rattle.dds_explain.specs.Budgets.{budget_of, carried_lines, carried_text};
ghost use Rattle.dds_explain.specs.Budgets.{key_carried_lines, reader_carried_lines, samples_lines};

use crate::paces::capped_lines;
use crate::pieces::weighed_term;
use dds_base::grid::KEYS;
use dds_base::{KeyNo, ReaderNo};
use dds_check::budget::{budget, opening_weight};
use dds_check::carried::carried;
use dds_check::tables::Tables;
use dds_match::Plan;
use dds_text::names::{reader_key, reader_name};
use dds_text::texts::{TextResult, text_below};
use std::alloc::Global;

/// What the weighted sum of a row never rises above.
#[derive(Clone, Copy, Debug, PartialEq, Eq)]
pub(crate) struct Budget {
    /// What the permits at the opening weigh.
    pub(crate) opening: u128,
    /// What the samples weigh, at most, that the row carries by caps.
    pub(crate) carried: u128,
    /// The sum of the two.
    pub(crate) whole: u128,
}

impl Budget {
    /// The budget of a row.
    pub(crate) fn of(plan: &Plan, weights: &Tables) -> Budget
        ensures { result ≡ budget_of (network_of plan.now) (row_of weights.now) }
    {
        let whole = budget(plan, weights);
        let opening = opening_weight(plan, weights);
        Budget {
            opening,
            carried: whole - opening,
            whole,
        }
    }
}

/// What caps carry, between other words, if that's something.
pub(crate) fn carried_text(alloc: Global, before: &str, budget: Budget, after: &str) -> TextResult
    ensures { IfOk result (λ text. string_bytes text ≡ carried_text before.now budget after.now) }
{
    if budget.carried == 0 {
        return Ok(String::new(alloc));
    }
    let carried = budget.carried;
    format!(in alloc; "{before}{carried}{after}")
}

/// At most so many samples of a key that a reader has yet to take, of this weight, with the terms of the caps, if they
/// weigh something.
fn samples_lines(
    alloc: Global,
    plan: &Plan,
    reader: ReaderNo,
    key: KeyNo,
    weight: u32,
    most: u64,
) -> TextResult
    ensures { IfOk result (λ text. string_bytes text ≡ samples_lines plan.now reader key weight most) }
{
    let most = u128::from(most);
    if u128::from(weight) * most == 0 {
        return Ok(String::new(alloc));
    }
    let name = reader_key(plan.lists(), reader, key);
    let endpoint = reader_name(plan.lists(), reader);
    let term = weighed_term(alloc, "samples", most, weight, name, endpoint)?;
    let terms = capped_lines(alloc, plan, reader, key)?;
    format!(in alloc; "{term}{terms}")
}

/// The samples of a key at a reader that a row carries by caps.
fn key_carried_lines(
    alloc: Global,
    plan: &Plan,
    weights: &Tables,
    reader: ReaderNo,
    key: KeyNo,
) -> TextResult
    requires reader { reader < (network_of plan.now).readers }
    requires key { key < (network_of plan.now).keys }
    ensures { IfOk result (λ text. string_bytes text ≡ key_carried_lines plan.now weights.now reader key) }
{
    let weight = weights.sample(reader, key);
    match carried(plan, weights, reader, key) {
        Some(most) => samples_lines(alloc, plan, reader, key, weight, most),
        None => Ok(String::new(alloc)),
    }
}

/// Those of a reader.
fn reader_carried_lines(
    alloc: Global,
    plan: &Plan,
    weights: &Tables,
    reader: ReaderNo,
) -> TextResult
    requires { reader < (network_of plan.now).readers }
    ensures { IfOk result (λ text. string_bytes text ≡ reader_carried_lines plan.now weights.now reader) }
{
    text_below(
        alloc,
        KEYS,
        |k|
            requires reader { reader < (network_of plan.now).readers }
            requires key { k < (network_of plan.now).keys }
            ensures { IfOk result
                (λ text. string_bytes text ≡ key_carried_lines plan.entry.now weights.entry.now reader k) }
        { key_carried_lines(alloc, plan, weights, reader, KeyNo::new(k)) },
    )
}

/// Those of all readers, each with its weight and the terms of its caps.
pub(crate) fn carried_lines(alloc: Global, plan: &Plan, weights: &Tables) -> TextResult
    ensures { IfOk result (λ text. string_bytes text ≡ carried_lines plan.now weights.now) }
{
    text_below(
        alloc,
        plan.lists().readers(),
        |r|
            requires { r < (network_of plan.now).readers }
            ensures { IfOk result
                (λ text. string_bytes text ≡ reader_carried_lines plan.entry.now weights.entry.now r) }
        { reader_carried_lines(alloc, plan, weights, ReaderNo::new(r)) },
    )
}
