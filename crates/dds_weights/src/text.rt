//! The text of a certificate, as a certificate file has it.
ghost use Rattle.std.specs.Prelude.{◌≡◌, ◌++◌, IfOk, flat_map, string_bytes};
ghost use Rattle.dds_weights.specs.Text.{weight_line, endpoint_lines, reader_lines, writer_lines, list_text, row_text};
ghost use Rattle.dds_weights.specs.Text.{bound_text, total_text, certificate_text};
ghost use Rattle.dds_weights.specs.Views.{row_view, certificate_view};
ghost use Rattle.dds_weights.specs.Weighing.{weight_by};

use crate::certificate::{Bound, Certificate, Row, Total, Weight};
use crate::naming::row_name;
use crate::weighing::Table;
use dds_base::{Endpoint, KeyNo, Names, NoMemory, ReaderNo, WriterNo};
use dds_lists::Deployment;
use dds_match::Plan;
use dds_text::names::{keys_of_reader, keys_of_writer, name_at, reader_key};
use std::alloc::Global;

/// The line of a weight, none where it is 0. `side` is the field of the endpoint, `reader` or `writer`.
fn push_weight(
    alloc: Global,
    text: &mut String,
    side: &str,
    endpoint: &str,
    key: &str,
    weight: u32,
) -> Result<(), NoMemory>
    ensures { IfOk result
        (λ _. string_bytes text.new ≡ string_bytes text.old ++ weight_line side.now endpoint.now key.now weight) }
{
    if weight == 0 {
        return Ok(());
    }
    let line = format!(in alloc;
        "  {{ {side} = \"{endpoint}\", key = \"{key}\", weight = {weight} }},\n"
    )?;
    text.push_str(line.as_str())
}

/// The lines of an endpoint of this name.
fn push_endpoint<E: Endpoint>(
    alloc: Global,
    text: &mut String,
    side: &str,
    name: &str,
    keys: &Names,
    endpoint: E,
    weights: &Table<E>,
) -> Result<(), NoMemory>
    ensures { IfOk result
        (λ _. string_bytes text.new
        ≡ string_bytes text.old
        ++ endpoint_lines side.now name.now keys.now (weight_by E.number_of weights.now (E.number_of endpoint))) }
{
    for k in 0..keys.len() {
        let weight = weights.at(endpoint, KeyNo::new(k));
        push_weight(alloc, text, side, name, name_at(keys, k), weight)?;
    }
    Ok(())
}

/// The lines of a list of weights of readers.
fn reader_lines(
    alloc: Global,
    lists: &Deployment,
    weights: &[Weight<ReaderNo>],
) -> Result<String, NoMemory>
    ensures { IfOk result (λ text. string_bytes text ≡ reader_lines lists.now weights.now) }
{
    let table = Table::new(weights);
    let mut text = String::new(alloc);
    for r in 0..lists.readers() {
        let name = name_at(lists.reader_names(), r);
        let reader = ReaderNo::new(r);
        let keys = keys_of_reader(lists, reader);
        push_endpoint(alloc, &mut text, "reader", name, keys, reader, &table)?;
    }
    Ok(text)
}

/// The lines of a list of weights of writers.
fn writer_lines(
    alloc: Global,
    lists: &Deployment,
    weights: &[Weight<WriterNo>],
) -> Result<String, NoMemory>
    ensures { IfOk result (λ text. string_bytes text ≡ writer_lines lists.now weights.now) }
{
    let table = Table::new(weights);
    let mut text = String::new(alloc);
    for w in 0..lists.writers() {
        let name = name_at(lists.writer_names(), w);
        let writer = WriterNo::new(w);
        let keys = keys_of_writer(lists, writer);
        push_endpoint(alloc, &mut text, "writer", name, keys, writer, &table)?;
    }
    Ok(text)
}

/// A list of a row, with these lines.
fn list_text(alloc: Global, lines: &str) -> Result<String, NoMemory>
    ensures { IfOk result (λ text. string_bytes text ≡ list_text lines.now) }
{
    if lines.is_empty() {
        return String::from_str(alloc, "[]");
    }
    format!(in alloc; "[\n{lines}]")
}

fn row_text(alloc: Global, lists: &Deployment, row: &Row) -> Result<String, NoMemory>
    ensures { IfOk result (λ text. string_bytes text ≡ row_text lists.now (row_view row.now)) }
{
    let name = row.name.as_str();
    let samples = list_text(alloc, reader_lines(alloc, lists, &row.samples)?.as_str())?;
    let takes = list_text(alloc, reader_lines(alloc, lists, &row.takes)?.as_str())?;
    let permits = list_text(alloc, writer_lines(alloc, lists, &row.permits)?.as_str())?;
    format!(in alloc;
        "\n[[rows]]\nname = \"{name}\"\nsamples = {samples}\ntakes = {takes}\npermits = {permits}\n"
    )
}

fn push_rows(
    alloc: Global,
    text: &mut String,
    lists: &Deployment,
    rows: &[Row],
) -> Result<(), NoMemory>
    ensures { IfOk result
        (λ _. string_bytes text.new
        ≡ string_bytes text.old ++ flat_map (λ r. row_text lists.now (row_view r)) rows.now) }
{
    for row in rows {
        let entry = row_text(alloc, lists, row)?;
        text.push_str(entry.as_str())?;
    }
    Ok(())
}

fn bound_text(
    alloc: Global,
    lists: &Deployment,
    certificate: &Certificate,
    bound: &Bound,
) -> Result<String, NoMemory>
    ensures { IfOk result
        (λ text. string_bytes text ≡ bound_text lists.now (certificate_view certificate.now) bound.now) }
{
    let reader = name_at(lists.reader_names(), bound.reader.number());
    let key = reader_key(lists, bound.reader, bound.key);
    let row = row_name(certificate, bound.row);
    let number = bound.bound;
    format!(in alloc;
        "\n[[bounds]]\nreader = \"{reader}\"\nkey = \"{key}\"\nrow = \"{row}\"\nbound = {number}\n"
    )
}

fn total_text(
    alloc: Global,
    lists: &Deployment,
    certificate: &Certificate,
    total: &Total,
) -> Result<String, NoMemory>
    ensures { IfOk result
        (λ text. string_bytes text ≡ total_text lists.now (certificate_view certificate.now) total.now) }
{
    let reader = name_at(lists.reader_names(), total.reader.number());
    let row = row_name(certificate, total.row);
    let number = total.bound;
    format!(in alloc; "\n[[totals]]\nreader = \"{reader}\"\nrow = \"{row}\"\nbound = {number}\n")
}

fn push_bounds(
    alloc: Global,
    text: &mut String,
    lists: &Deployment,
    certificate: &Certificate,
) -> Result<(), NoMemory>
    ensures { IfOk result
        (λ _. string_bytes text.new
        ≡ string_bytes text.old
        ++ flat_map (bound_text lists.now (certificate_view certificate.now)) certificate.now.bounds.items) }
{
    for bound in &certificate.bounds {
        let entry = bound_text(alloc, lists, certificate, bound)?;
        text.push_str(entry.as_str())?;
    }
    Ok(())
}

fn push_totals(
    alloc: Global,
    text: &mut String,
    lists: &Deployment,
    certificate: &Certificate,
) -> Result<(), NoMemory>
    ensures { IfOk result
        (λ _. string_bytes text.new
        ≡ string_bytes text.old
        ++ flat_map (total_text lists.now (certificate_view certificate.now)) certificate.now.totals.items) }
{
    for total in &certificate.totals {
        let entry = total_text(alloc, lists, certificate, total)?;
        text.push_str(entry.as_str())?;
    }
    Ok(())
}

fn whole_text(
    alloc: Global,
    lists: &Deployment,
    certificate: &Certificate,
) -> Result<String, NoMemory>
    ensures { IfOk result (λ text. string_bytes text ≡ certificate_text lists.now (certificate_view certificate.now)) }
{
    let mut text = String::from_str(alloc, "version = 1\n")?;
    push_rows(alloc, &mut text, lists, &certificate.rows)?;
    push_bounds(alloc, &mut text, lists, certificate)?;
    push_totals(alloc, &mut text, lists, certificate)?;
    Ok(text)
}

/// The text of a certificate file: the version, then all rows, bounds and totals, each after one empty line. In a row
/// the lists follow the order of the endpoints in the plan and of the keys in their topic, and leave out what weighs 0.
/// Where the certificate fits the plan and its rows have names by the rule of names, the text is read as a certificate
/// with the same names, weights, bounds and totals. In any other certificate a number that names nothing is written as
/// the empty name, and the weight of an endpoint or key that the plan doesn't have is left out.
///
/// `NoMemory` comes where memory ran out.
pub fn certificate_text(
    alloc: Global,
    plan: &Plan,
    certificate: &Certificate,
) -> Result<String, NoMemory>
    ensures { IfOk result (λ text. string_bytes text ≡ certificate_text plan.now (certificate_view certificate.now)) }
{
    whole_text(alloc, plan.lists(), certificate)
}
