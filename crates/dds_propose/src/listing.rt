//! The lists of a certificate from tables.
ghost use Rattle.std.specs.Prelude.{◌≡◌, ◌++◌, IfOk};
ghost use Rattle.dds_base.specs.Grid.{most_keys};
ghost use Rattle.dds_match.specs.Plan.{network_of};
ghost use Rattle.dds_weights.specs.Views.{row_view};
ghost use Rattle.dds_propose.specs.Listing.{entries, entries_of, listed};
ghost use Rattle.dds_propose.specs.Tables.{cell, row_of};

use crate::weights::{Table, Weights};
use dds_base::grid::KEYS;
use dds_base::{Endpoint, KeyNo, NoMemory, ReaderNo, WriterNo};
use dds_match::Plan;
use dds_weights::{Row, Weight};
use std::alloc::Global;

/// Adds the weights of an endpoint's keys, in the order of the topic, without zeros.
fn add_weights<E: Endpoint>(
    list: &mut Vec<Weight<E>>,
    table: &Table,
    endpoint: E,
) -> Result<(), NoMemory>
    ensures { IfOk result
        (λ _. list.new.items
        ≡ list.old.items ++ entries_of endpoint (cell table.now (E.number_of endpoint)) most_keys) }
{
    for k in 0..KEYS {
        let key = KeyNo::new(k);
        let weight = table.at(endpoint, key);
        if weight > 0 {
            list.push(Weight {
                endpoint,
                key,
                weight,
            })?;
        }
    }
    Ok(())
}

/// The weights of the readers, in file order.
fn reader_weights(
    alloc: Global,
    plan: &Plan,
    table: &Table,
) -> Result<Vec<Weight<ReaderNo>>, NoMemory>
    ensures { IfOk result (λ list. list.items ≡ entries (cell table.now) (network_of plan.now).readers) }
{
    let mut list = Vec::new(alloc);
    for r in 0..plan.lists().readers() {
        add_weights(&mut list, table, ReaderNo::new(r))?;
    }
    Ok(list)
}

/// The weights of the writers, in file order.
fn writer_weights(
    alloc: Global,
    plan: &Plan,
    table: &Table,
) -> Result<Vec<Weight<WriterNo>>, NoMemory>
    ensures { IfOk result (λ list. list.items ≡ entries (cell table.now) (network_of plan.now).writers) }
{
    let mut list = Vec::new(alloc);
    for w in 0..plan.lists().writers() {
        add_weights(&mut list, table, WriterNo::new(w))?;
    }
    Ok(list)
}

/// The row of some weights, by its place in the certificate, from 0.
pub(crate) fn listed_row(
    alloc: Global,
    plan: &Plan,
    place: usize,
    weights: &Weights,
) -> Result<Row, NoMemory>
    ensures { IfOk result (λ made. row_view made ≡ listed (network_of plan.now) place (row_of weights.now)) }
{
    Ok(Row {
        name: format!(in alloc; "w{place}")?,
        samples: reader_weights(alloc, plan, &weights.samples)?,
        takes: reader_weights(alloc, plan, &weights.takes)?,
        permits: writer_weights(alloc, plan, &weights.permits)?,
    })
}
