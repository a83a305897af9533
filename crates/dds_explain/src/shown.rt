//! Why number 33 refuses a bound or a total: what the permits at the opening weigh by its row, what caps carry, and
//! what a sample weighs.
ghost use Rattle.std.specs.Prelude.{◌≡◌, ◌&&◌, IfOk, string_bytes};
ghost use Rattle.dds_base.specs.Grid.{most_keys};
ghost use Rattle.dds_text.specs.Texts.{each_below};
ghost use Rattle.dds_match.specs.Plan.{network_of};
ghost use Rattle.dds_runs.specs.Accepted.{opening_permits};
ghost use Rattle.dds_weights.specs.Views.{certificate_view, row_view};
ghost use Rattle.dds_check.specs.Shown.{shows, shows_all};
ghost use Rattle.dds_explain.specs.Shown.{bound_claim, bound_head, bound_lines, bound_not_shown_lines, budget_lines};
ghost use Rattle.dds_explain.specs.Shown.{permit_line, permit_lines};
ghost use Rattle.dds_explain.specs.Shown.{reached_sample_line, sample_line, shown_text, total_claim, total_head};
ghost use Rattle.dds_explain.specs.Shown.{total_lines};
ghost use Rattle.dds_explain.specs.Shown.{total_not_shown_lines, unshown_bound, unshown_bound_by, unshown_line};
ghost use Rattle.dds_explain.specs.Shown.{unshown_total, unshown_total_by, writer_permit_lines};

use crate::budgets::{Budget, carried_lines, carried_text};
use crate::pieces::{text_of_row, weighed_term};
use dds_base::grid::KEYS;
use dds_base::{KeyNo, ReaderNo, WriterNo};
use dds_check::finite::opening_permits;
use dds_check::shown::{find_row, shows, shows_all};
use dds_check::tables::Tables;
use dds_match::Plan;
use dds_text::names::{reader_key, reader_name, writer_key, writer_name};
use dds_text::texts::{TextResult, text_below, text_of_each};
use dds_weights::{Bound, Certificate, Row, Total};
use std::alloc::Global;

/// The least bound that a row shows, by its budget and what a sample weighs.
pub(crate) fn shown_text(alloc: Global, whole: u128, weight: u32) -> TextResult
    ensures { IfOk result (λ text. string_bytes text ≡ shown_text whole weight) }
{
    if weight == 0 {
        String::from_str(alloc, "no bound")
    } else {
        let least = whole / u128::from(weight);
        format!(in alloc; "{least}")
    }
}

/// What a sample of a key weighs, and what that shows.
fn sample_line(
    alloc: Global,
    plan: &Plan,
    weights: &Tables,
    whole: u128,
    reader: ReaderNo,
    key: KeyNo,
) -> TextResult
    ensures { IfOk result (λ text. string_bytes text ≡ sample_line plan.now weights.now whole reader key) }
{
    let weight = weights.sample(reader, key);
    let shown = shown_text(alloc, whole, weight)?;
    let key = reader_key(plan.lists(), reader, key);
    format!(in alloc; "  a sample of {key} weighs {weight}, which shows {shown}\n")
}

/// The permits to write a key at a writer before the first event. What no rule writes needs no walk over the rules.
fn permits_at(plan: &Plan, writer: WriterNo, key: KeyNo) -> u64
    ensures { result ≡ opening_permits (network_of plan.now) writer key }
{
    if plan.is_written(writer, key) {
        opening_permits(plan, writer, key)
    } else {
        0
    }
}

/// The permits to write a key at a writer at the opening, if there are any.
fn permit_line(
    alloc: Global,
    plan: &Plan,
    weights: &Tables,
    writer: WriterNo,
    key: KeyNo,
) -> TextResult
    ensures { IfOk result (λ text. string_bytes text ≡ permit_line plan.now weights.now writer key) }
{
    let count = u128::from(permits_at(plan, writer, key));
    if count == 0 {
        return Ok(String::new(alloc));
    }
    let weight = weights.permit(writer, key);
    let key = writer_key(plan.lists(), writer, key);
    let name = writer_name(plan.lists(), writer);
    weighed_term(alloc, "permits", count, weight, key, name)
}

/// The permits at the opening at a writer.
fn writer_permit_lines(alloc: Global, plan: &Plan, weights: &Tables, writer: WriterNo) -> TextResult
    ensures { IfOk result (λ text. string_bytes text ≡ writer_permit_lines plan.now weights.now writer) }
{
    text_below(
        alloc,
        KEYS,
        |k|
            ensures { IfOk result
                (λ text. string_bytes text ≡ permit_line plan.entry.now weights.entry.now writer k) }
        { permit_line(alloc, plan, weights, writer, KeyNo::new(k)) },
    )
}

/// The permits at the opening at all writers.
fn permit_lines(alloc: Global, plan: &Plan, weights: &Tables) -> TextResult
    ensures { IfOk result (λ text. string_bytes text ≡ permit_lines plan.now weights.now) }
{
    text_below(
        alloc,
        plan.lists().writers(),
        |w|
            ensures { IfOk result
                (λ text. string_bytes text ≡ writer_permit_lines plan.entry.now weights.entry.now w) }
        { writer_permit_lines(alloc, plan, weights, WriterNo::new(w)) },
    )
}

/// The terms of a row's budget: the permits at the opening, and the samples that caps carry.
fn budget_lines(alloc: Global, plan: &Plan, row: &Row) -> TextResult
    ensures { IfOk result (λ text. string_bytes text ≡ budget_lines plan.now (row_view row.now)) }
{
    let weights = Tables::new(row);
    let permits = permit_lines(alloc, plan, &weights)?;
    let carried = carried_lines(alloc, plan, &weights)?;
    format!(in alloc; "{permits}{carried}")
}

/// What a row doesn't show, what the permits at the opening weigh by it, and what caps carry.
fn unshown_line(alloc: Global, row: &Row, claim: &str, budget: Budget) -> TextResult
    ensures { IfOk result (λ text. string_bytes text ≡ unshown_line (row_view row.now) claim.now budget) }
{
    let carried = carried_text(alloc, ", and samples that caps carry ", budget, "")?;
    let opening = budget.opening;
    let row = row.name.as_str();
    format!(in alloc;
        "because {row} doesn't show {claim}: permits at the opening weigh {opening}{carried}\n"
    )
}

/// A bound in words.
fn bound_claim(alloc: Global, plan: &Plan, bound: &Bound) -> TextResult
    ensures { IfOk result (λ text. string_bytes text ≡ bound_claim plan.now bound.now) }
{
    let number = bound.bound;
    let key = reader_key(plan.lists(), bound.reader, bound.key);
    let name = reader_name(plan.lists(), bound.reader);
    format!(in alloc; "the bound {number} of {key} at {name}")
}

/// A bound that its row doesn't show, with a sample of its key.
pub(crate) fn bound_head(
    alloc: Global,
    plan: &Plan,
    row: &Row,
    bound: &Bound,
    budget: Budget,
) -> TextResult
    ensures { IfOk result (λ text. string_bytes text ≡ bound_head plan.now (row_view row.now) bound.now budget) }
{
    let claim = bound_claim(alloc, plan, bound)?;
    let line = unshown_line(alloc, row, claim.as_str(), budget)?;
    let weights = Tables::new(row);
    let sample = sample_line(alloc, plan, &weights, budget.whole, bound.reader, bound.key)?;
    format!(in alloc; "{line}{sample}")
}

/// The same with the terms of the budget.
fn bound_lines(alloc: Global, plan: &Plan, row: &Row, bound: &Bound, budget: Budget) -> TextResult
    ensures { IfOk result (λ text. string_bytes text ≡ bound_lines plan.now (row_view row.now) bound.now budget) }
{
    let head = bound_head(alloc, plan, row, bound, budget)?;
    let terms = budget_lines(alloc, plan, row)?;
    format!(in alloc; "{head}{terms}")
}

/// A bound with what its row weighs, if the row doesn't show it.
fn unshown_bound_by(alloc: Global, plan: &Plan, row: &Row, bound: &Bound) -> TextResult
    ensures { IfOk result (λ text. string_bytes text ≡ unshown_bound_by plan.now (row_view row.now) bound.now) }
{
    let weights = Tables::new(row);
    let budget = Budget::of(plan, &weights);
    if shows(
        plan,
        &weights,
        budget.whole,
        bound.bound,
        bound.reader,
        bound.key,
    ) {
        return Ok(String::new(alloc));
    }
    bound_lines(alloc, plan, row, bound, budget)
}

/// A bound with what its row weighs, if it is one of the key at the reader and the row doesn't show it.
fn unshown_bound(
    alloc: Global,
    plan: &Plan,
    certificate: &Certificate,
    reader: ReaderNo,
    key: KeyNo,
    bound: &Bound,
) -> TextResult
    ensures { IfOk result
        (λ text. string_bytes text ≡ unshown_bound plan.now (certificate_view certificate.now) reader key bound.now) }
{
    if bound.reader == reader && bound.key == key {
        text_of_row(alloc, certificate, bound.row, |row| {
            unshown_bound_by(alloc, plan, row, bound)
        })
    } else {
        Ok(String::new(alloc))
    }
}

/// The bounds of a key at a reader that their rows don't show.
pub(crate) fn bound_not_shown_lines(
    alloc: Global,
    plan: &Plan,
    certificate: &Certificate,
    reader: ReaderNo,
    key: KeyNo,
) -> TextResult
    ensures { IfOk result
        (λ text. string_bytes text ≡ bound_not_shown_lines plan.now (certificate_view certificate.now) reader key) }
{
    text_of_each(alloc, certificate.bounds.as_slice(), |bound| {
        unshown_bound(alloc, plan, certificate, reader, key, bound)
    })
}

/// A total in words.
fn total_claim(alloc: Global, plan: &Plan, total: &Total) -> TextResult
    ensures { IfOk result (λ text. string_bytes text ≡ total_claim plan.now total.now) }
{
    let number = total.bound;
    let name = reader_name(plan.lists(), total.reader);
    format!(in alloc; "the total {number} of {name}")
}

/// What a sample of a key weighs that can reach the reader.
fn reached_sample_line(
    alloc: Global,
    plan: &Plan,
    weights: &Tables,
    whole: u128,
    reader: ReaderNo,
    key: KeyNo,
) -> TextResult
    ensures { IfOk result
        (λ text. string_bytes text ≡ reached_sample_line plan.now weights.now whole reader key) }
{
    if plan.reaches(reader, key) {
        sample_line(alloc, plan, weights, whole, reader, key)
    } else {
        Ok(String::new(alloc))
    }
}

/// What a sample weighs of each key that can reach the reader.
fn reached_sample_lines(
    alloc: Global,
    plan: &Plan,
    weights: &Tables,
    whole: u128,
    reader: ReaderNo,
) -> TextResult
    ensures { IfOk result
        (λ text. string_bytes text
        ≡ each_below most_keys (reached_sample_line plan.now weights.now whole reader)) }
{
    text_below(
        alloc,
        KEYS,
        |k|
            ensures { IfOk result
                (λ text. string_bytes text
                ≡ reached_sample_line plan.entry.now weights.entry.now whole reader k) }
        { reached_sample_line(alloc, plan, weights, whole, reader, KeyNo::new(k)) },
    )
}

/// A total that its row doesn't show, with a sample of each key.
pub(crate) fn total_head(
    alloc: Global,
    plan: &Plan,
    row: &Row,
    total: &Total,
    budget: Budget,
) -> TextResult
    ensures { IfOk result (λ text. string_bytes text ≡ total_head plan.now (row_view row.now) total.now budget) }
{
    let claim = total_claim(alloc, plan, total)?;
    let line = unshown_line(alloc, row, claim.as_str(), budget)?;
    let weights = Tables::new(row);
    let samples = reached_sample_lines(alloc, plan, &weights, budget.whole, total.reader)?;
    format!(in alloc; "{line}{samples}")
}

/// The same with the terms of the budget.
fn total_lines(alloc: Global, plan: &Plan, row: &Row, total: &Total, budget: Budget) -> TextResult
    ensures { IfOk result (λ text. string_bytes text ≡ total_lines plan.now (row_view row.now) total.now budget) }
{
    let head = total_head(alloc, plan, row, total, budget)?;
    let terms = budget_lines(alloc, plan, row)?;
    format!(in alloc; "{head}{terms}")
}

/// A total with what its row weighs, if the row doesn't show it.
fn unshown_total_by(alloc: Global, plan: &Plan, row: &Row, total: &Total) -> TextResult
    ensures { IfOk result (λ text. string_bytes text ≡ unshown_total_by plan.now (row_view row.now) total.now) }
{
    let weights = Tables::new(row);
    let budget = Budget::of(plan, &weights);
    if shows_all(plan, &weights, budget.whole, total) {
        return Ok(String::new(alloc));
    }
    total_lines(alloc, plan, row, total, budget)
}

/// A total with what its row weighs, if it is one of the reader and the row doesn't show it.
fn unshown_total(
    alloc: Global,
    plan: &Plan,
    certificate: &Certificate,
    reader: ReaderNo,
    total: &Total,
) -> TextResult
    ensures { IfOk result
        (λ text. string_bytes text ≡ unshown_total plan.now (certificate_view certificate.now) reader total.now) }
{
    if total.reader == reader {
        match find_row(certificate, total.row) {
            Some(row) => unshown_total_by(alloc, plan, row, total),
            None => Ok(String::new(alloc)),
        }
    } else {
        Ok(String::new(alloc))
    }
}

/// The totals of a reader that their rows don't show.
pub(crate) fn total_not_shown_lines(
    alloc: Global,
    plan: &Plan,
    certificate: &Certificate,
    reader: ReaderNo,
) -> TextResult
    ensures { IfOk result
        (λ text. string_bytes text ≡ total_not_shown_lines plan.now (certificate_view certificate.now) reader) }
{
    text_of_each(alloc, certificate.totals.as_slice(), |total| {
        unshown_total(alloc, plan, certificate, reader, total)
    })
}
