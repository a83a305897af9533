//! The lines of an acceptance.
ghost use Rattle.std.specs.Prelude.{◌≡◌, ◌++◌, IfOk, flat_map, string_bytes};
ghost use Rattle.dds_weights.specs.Views.{certificate_view};
ghost use Rattle.dds_report.specs.Acceptance.{acceptance_lines, bound_line, total_line};

use dds_base::NoMemory;
use dds_lists::Deployment;
use dds_text::names::{reader_key, reader_name};
use dds_weights::{Bound, Certificate, Total};
use std::alloc::Global;

/// The line of a bound.
fn bound_text(alloc: Global, lists: &Deployment, bound: &Bound) -> Result<String, NoMemory>
    ensures { IfOk result (λ text. string_bytes text ≡ bound_line lists.now bound.now) }
{
    let reader = reader_name(lists, bound.reader);
    let key = reader_key(lists, bound.reader, bound.key);
    let number = bound.bound;
    format!(in alloc; "bound {reader} {key} {number}\n")
}

/// The line of a total.
fn total_text(alloc: Global, lists: &Deployment, total: &Total) -> Result<String, NoMemory>
    ensures { IfOk result (λ text. string_bytes text ≡ total_line lists.now total.now) }
{
    let reader = reader_name(lists, total.reader);
    let number = total.bound;
    format!(in alloc; "total {reader} {number}\n")
}

/// Adds the line of each bound, in their order.
fn push_bounds(
    alloc: Global,
    text: &mut String,
    lists: &Deployment,
    bounds: &[Bound],
) -> Result<(), NoMemory>
    ensures { IfOk result
        (λ _. string_bytes text.new ≡ string_bytes text.old ++ flat_map (bound_line lists.now) bounds.now) }
{
    for bound in bounds {
        let line = bound_text(alloc, lists, bound)?;
        text.push_str(line.as_str())?;
    }
    Ok(())
}

/// Adds the line of each total, in their order.
fn push_totals(
    alloc: Global,
    text: &mut String,
    lists: &Deployment,
    totals: &[Total],
) -> Result<(), NoMemory>
    ensures { IfOk result
        (λ _. string_bytes text.new ≡ string_bytes text.old ++ flat_map (total_line lists.now) totals.now) }
{
    for total in totals {
        let line = total_text(alloc, lists, total)?;
        text.push_str(line.as_str())?;
    }
    Ok(())
}

/// The lines of an acceptance: `yes`, then each bound and each total of the certificate, in its order. `NoMemory` is
/// the only error.
pub fn acceptance_text(
    alloc: Global,
    lists: &Deployment,
    certificate: &Certificate,
) -> Result<String, NoMemory>
    ensures { IfOk result (λ text. string_bytes text ≡ acceptance_lines lists.now (certificate_view certificate.now)) }
{
    let mut text = String::from_str(alloc, "yes\n")?;
    push_bounds(alloc, &mut text, lists, certificate.bounds.as_slice())?;
    push_totals(alloc, &mut text, lists, certificate.totals.as_slice())?;
    Ok(text)
}
