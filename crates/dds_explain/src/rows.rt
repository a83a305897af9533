//! Why numbers 30 to 32 refuse a row: what weighs more after a take, a firing or a write than before it.
ghost use Rattle.std.specs.Prelude.{◌≡◌, IfOk, flat_map, length, string_bytes};
ghost use Rattle.dds_lists.specs.Views.{rule_view};
ghost use Rattle.dds_text.specs.Texts.{each_below};
ghost use Rattle.dds_weights.specs.Views.{certificate_view, row_view};
ghost use Rattle.dds_explain.specs.Rows.{permit_text, firing_line, firing_lines, heard_line, rule_lines};
ghost use Rattle.dds_explain.specs.Rows.{rule_raises_lines, take_line, take_raises_line, take_term, write_line};
ghost use Rattle.dds_explain.specs.Rows.{write_lines, write_raises_lines, write_term};

use crate::pieces::{text_of_row, weighed_term};
use crate::weights::{is_by_permits, permit_weight, sample_weight, spread, take_weight};
use dds_base::{KeyNo, Portion, ReaderNo, RuleNo, WriterNo};
use dds_check::tables::Tables;
use dds_lists::Rule;
use dds_match::Plan;
use dds_text::names::{reader_key, reader_name, rule_text, writer_key, writer_name};
use dds_text::texts::{TextResult, text_below, text_of_each};
use dds_weights::{Certificate, Row};
use std::alloc::Global;

/// What a take weighs, and a sample.
fn take_line(alloc: Global, plan: &Plan, row: &Row, reader: ReaderNo, key: KeyNo) -> TextResult
    ensures { IfOk result (λ text. string_bytes text ≡ take_line plan.now (row_view row.now) reader key) }
{
    let take = take_weight(row, reader, key);
    let sample = sample_weight(row, reader, key);
    let key = reader_key(plan.lists(), reader, key);
    let name = reader_name(plan.lists(), reader);
    let row = row.name.as_str();
    format!(in alloc;
        "because by {row} a take of {key} at {name} weighs {take}, and a sample {sample}\n"
    )
}

/// What a take weighs by the row at this place, and a sample.
pub(crate) fn take_raises_line(
    alloc: Global,
    plan: &Plan,
    certificate: &Certificate,
    row: usize,
    reader: ReaderNo,
    key: KeyNo,
) -> TextResult
    ensures { IfOk result
        (λ text. string_bytes text ≡ take_raises_line plan.now (certificate_view certificate.now) row reader key) }
{
    text_of_row(alloc, certificate, row, |row| {
        take_line(alloc, plan, row, reader, key)
    })
}

/// What a rule writes at one writer.
fn write_term(alloc: Global, plan: &Plan, row: &Row, x: &Portion<WriterNo>) -> TextResult
    ensures { IfOk result (λ text. string_bytes text ≡ write_term plan.now (row_view row.now) x.now) }
{
    let weight = permit_weight(row, x.endpoint, x.key);
    let key = writer_key(plan.lists(), x.endpoint, x.key);
    let writer = writer_name(plan.lists(), x.endpoint);
    weighed_term(alloc, "writes", u128::from(x.count), weight, key, writer)
}

/// What a rule takes at one reader.
fn take_term(alloc: Global, plan: &Plan, row: &Row, x: &Portion<ReaderNo>) -> TextResult
    ensures { IfOk result (λ text. string_bytes text ≡ take_term plan.now (row_view row.now) x.now) }
{
    let weight = take_weight(row, x.endpoint, x.key);
    let key = reader_key(plan.lists(), x.endpoint, x.key);
    let reader = reader_name(plan.lists(), x.endpoint);
    weighed_term(alloc, "takes", u128::from(x.count), weight, key, reader)
}

/// What a rule writes.
fn write_terms(alloc: Global, plan: &Plan, row: &Row, portions: &[Portion<WriterNo>]) -> TextResult
    ensures { IfOk result (λ text. string_bytes text ≡ flat_map (write_term plan.now (row_view row.now)) portions.now) }
{
    text_of_each(alloc, portions, |x| { write_term(alloc, plan, row, x) })
}

/// What a rule takes.
fn take_terms(alloc: Global, plan: &Plan, row: &Row, portions: &[Portion<ReaderNo>]) -> TextResult
    ensures { IfOk result (λ text. string_bytes text ≡ flat_map (take_term plan.now (row_view row.now)) portions.now) }
{
    text_of_each(alloc, portions, |x| { take_term(alloc, plan, row, x) })
}

/// What a rule writes and takes, weighed.
fn firing_line(alloc: Global, row: &Row, name: &str, rule: &Rule) -> TextResult
    ensures { IfOk result (λ text. string_bytes text ≡ firing_line (row_view row.now) name.now (rule_view rule.now)) }
{
    let weights = Tables::new(row);
    let given = weights.permits_weighed(&rule.writes);
    let needed = weights.takes_weighed(&rule.takes);
    let row = row.name.as_str();
    format!(in alloc;
        "because by {row} what {name} writes weighs {given}, and what it takes {needed}\n"
    )
}

/// What a rule writes and takes, weighed, with its terms.
fn firing_lines(alloc: Global, plan: &Plan, row: &Row, u: RuleNo, rule: &Rule) -> TextResult
    ensures { IfOk result
        (λ text. string_bytes text ≡ firing_lines plan.now (row_view row.now) u (rule_view rule.now)) }
{
    let name = rule_text(alloc, plan.lists(), u)?;
    let line = firing_line(alloc, row, name.as_str(), rule)?;
    let writes = write_terms(alloc, plan, row, rule.writes.as_slice())?;
    let takes = take_terms(alloc, plan, row, rule.takes.as_slice())?;
    format!(in alloc; "{line}{writes}{takes}")
}

/// What the rule with this number writes and takes.
fn rule_lines(alloc: Global, plan: &Plan, row: &Row, u: RuleNo) -> TextResult
    ensures { IfOk result (λ text. string_bytes text ≡ rule_lines plan.now (row_view row.now) u) }
{
    if u.number() < plan.lists().rules() {
        firing_lines(alloc, plan, row, u, plan.lists().rule(u))
    } else {
        Ok(String::new(alloc))
    }
}

/// What the rule with this number writes and takes by the row at this place.
pub(crate) fn rule_raises_lines(
    alloc: Global,
    plan: &Plan,
    certificate: &Certificate,
    row: usize,
    rule: RuleNo,
) -> TextResult
    ensures { IfOk result
        (λ text. string_bytes text ≡ rule_raises_lines plan.now (certificate_view certificate.now) row rule) }
{
    text_of_row(alloc, certificate, row, |row| {
        rule_lines(alloc, plan, row, rule)
    })
}

/// What a sample of the key weighs at a matched reader that hears it, unless caps carry it.
fn heard_line(
    alloc: Global,
    plan: &Plan,
    weights: &Tables,
    writer: WriterNo,
    key: KeyNo,
    reader: ReaderNo,
) -> TextResult
    ensures { IfOk result (λ text. string_bytes text ≡ heard_line plan.now weights.now writer key reader) }
{
    if plan.matched(writer, reader)
        && plan.hears(reader, key)
        && is_by_permits(plan, weights, reader, key)
    {
        let weight = weights.sample(reader, key);
        let name = reader_name(plan.lists(), reader);
        format!(in alloc; "  a sample at {name} weighs {weight}\n")
    } else {
        Ok(String::new(alloc))
    }
}

/// What a sample of the key weighs at each matched reader that hears it, unless caps carry it.
fn heard_lines(
    alloc: Global,
    plan: &Plan,
    weights: &Tables,
    writer: WriterNo,
    key: KeyNo,
) -> TextResult
    ensures { IfOk result
        (λ text. string_bytes text
        ≡ each_below (length plan.now.readers.entries) (heard_line plan.now weights.now writer key)) }
{
    text_below(
        alloc,
        plan.lists().readers(),
        |r|
            ensures { IfOk result
                (λ text. string_bytes text ≡ heard_line plan.entry.now weights.entry.now writer key r) }
        { heard_line(alloc, plan, weights, writer, key, ReaderNo::new(r)) },
    )
}

/// What the permit of a write weighs, or that a free write uses none.
fn permit_text(alloc: Global, plan: &Plan, row: &Row, writer: WriterNo, key: KeyNo) -> TextResult
    ensures { IfOk result (λ text. string_bytes text ≡ permit_text plan.now (row_view row.now) writer key) }
{
    if plan.is_free(writer, key) {
        return String::from_str(alloc, "it uses no permit");
    }
    let weight = permit_weight(row, writer, key);
    format!(in alloc; "its permit weighs {weight}")
}

/// What the samples of a write weigh, and its permit.
fn write_line(alloc: Global, plan: &Plan, row: &Row, writer: WriterNo, key: KeyNo) -> TextResult
    ensures { IfOk result (λ text. string_bytes text ≡ write_line plan.now (row_view row.now) writer key) }
{
    let spread = spread(plan, row, writer, key);
    let permit = permit_text(alloc, plan, row, writer, key)?;
    let key = writer_key(plan.lists(), writer, key);
    let name = writer_name(plan.lists(), writer);
    let row = row.name.as_str();
    format!(in alloc;
        "because by {row} a write of {key} at {name} puts samples in flight that weigh {spread}, and {permit}\n"
    )
}

/// What the samples of a write weigh, at each reader too, and its permit.
fn write_lines(alloc: Global, plan: &Plan, row: &Row, writer: WriterNo, key: KeyNo) -> TextResult
    ensures { IfOk result (λ text. string_bytes text ≡ write_lines plan.now (row_view row.now) writer key) }
{
    let line = write_line(alloc, plan, row, writer, key)?;
    let readers = heard_lines(alloc, plan, &Tables::new(row), writer, key)?;
    format!(in alloc; "{line}{readers}")
}

/// What the samples of a write weigh by the row at this place, and its permit.
pub(crate) fn write_raises_lines(
    alloc: Global,
    plan: &Plan,
    certificate: &Certificate,
    row: usize,
    writer: WriterNo,
    key: KeyNo,
) -> TextResult
    ensures { IfOk result
        (λ text. string_bytes text ≡ write_raises_lines plan.now (certificate_view certificate.now) row writer key) }
{
    text_of_row(alloc, certificate, row, |row| {
        write_lines(alloc, plan, row, writer, key)
    })
}
