//! Numbers 30 to 32: the takes, firings of rules and writes that raise the weighted sum of a row.
ghost use Rattle.std.specs.Prelude.{◌≡◌, ◌+◌, ◌++◌, ◌<◌, ◌≤◌, IfOk, OnOk};
ghost use Rattle.dds_base.specs.Grid.{most_endpoints};
ghost use Rattle.dds_match.specs.Plan.{network_of};
ghost use Rattle.dds_weights.specs.Views.{certificate_view};
ghost use Rattle.dds_runs.specs.Accepted.{row_of};
ghost use Rattle.dds_check.specs.Rows.{write_raises, ShowsSpreads};
ghost use Rattle.dds_lint.specs.Conditions.{row_rule_nos, row_take_nos, row_write_nos, rows_nos};
ghost use Rattle.dds_lint.specs.Every.{every_in, those_below};
ghost use Rattle.dds_lint.specs.Spreads.{ShowsSpreadsBelow};

use crate::every::push_below;
use dds_base::grid::{ENDPOINTS, KEYS, PLACES};
use dds_base::{KeyNo, NoMemory, ReaderNo, RuleNo, WriterNo};
use dds_check::No;
use dds_check::rows::{rule_raises, take_raises, write_raises};
use dds_check::spreads::spreads_of;
use dds_check::tables::{Tables, tables_of};
use dds_conditions::{readers_of, rules_of, writers_of};
use dds_match::Plan;
use dds_weights::Certificate;
use std::alloc::Global;

fn push_row_takes(
    nos: &mut Vec<No>,
    plan: &Plan,
    weights: &Tables,
    n: usize,
) -> Result<(), NoMemory>
    ensures { OnOk result (nos.new.items ≡ nos.old.items ++ row_take_nos (network_of plan.now) weights.now n) }
{
    for r in 0..readers_of(plan) {
        let reader = ReaderNo::new(r);
        push_below(
            nos,
            KEYS,
            |k| take_raises(plan, weights, n, reader, KeyNo::new(k)),
        )?;
    }
    Ok(())
}

fn push_takes(nos: &mut Vec<No>, plan: &Plan, certificate: &Certificate) -> Result<(), NoMemory>
    ensures { OnOk result (nos.new.items ≡ nos.old.items
        ++ every_in (certificate_view certificate.now).rows (row_take_nos (network_of plan.now))) }
{
    for n in 0..certificate.rows.len() {
        let weights = tables_of(certificate, n);
        push_row_takes(nos, plan, &weights, n)?;
    }
    Ok(())
}

fn push_row_rules(
    nos: &mut Vec<No>,
    plan: &Plan,
    weights: &Tables,
    n: usize,
) -> Result<(), NoMemory>
    ensures { OnOk result (nos.new.items ≡ nos.old.items ++ row_rule_nos (network_of plan.now) weights.now n) }
{
    push_below(
        nos,
        rules_of(plan),
        |u| rule_raises(plan, weights, n, RuleNo::new(u)),
    )
}

fn push_rules(nos: &mut Vec<No>, plan: &Plan, certificate: &Certificate) -> Result<(), NoMemory>
    ensures { OnOk result (nos.new.items ≡ nos.old.items
        ++ every_in (certificate_view certificate.now).rows (row_rule_nos (network_of plan.now))) }
{
    for n in 0..certificate.rows.len() {
        let weights = tables_of(certificate, n);
        push_row_rules(nos, plan, &weights, n)?;
    }
    Ok(())
}

/// Puts what a write of a key puts in flight, weighed, at the places of the key, from the places of the writers.
fn put_spreads(
    cells: &mut [u64],
    plan: &Plan,
    weights: &Tables,
    column: &[u64; ENDPOINTS],
    key: KeyNo,
)
    requires key { key < (network_of plan.now).keys }
    requires column { ShowsSpreads (network_of plan.now) (row_of weights.now) key column.now }
    requires cells { ShowsSpreadsBelow (network_of plan.now) (row_of weights.now) key cells.old }
    ensures { ShowsSpreadsBelow (network_of plan.now) (row_of weights.now) (key + 1) cells.new }
{
    for w in 0..writers_of(plan) {
        cells[w * KEYS + key.number()] = column[w];
    }
}

/// What a write of each key at each writer puts in flight, weighed by the row.
fn all_spreads(alloc: Global, plan: &Plan, weights: &Tables) -> Result<Vec<u64>, NoMemory>
    ensures { IfOk result
        (λ v. ShowsSpreadsBelow (network_of plan.now) (row_of weights.now) (network_of plan.now).keys v.items) }
{
    let mut cells = vec![in alloc; 0; PLACES]?;
    for k in 0..KEYS {
        let key = KeyNo::new(k);
        let column = spreads_of(plan, weights, key);
        put_spreads(&mut cells, plan, weights, &column, key);
    }
    Ok(cells)
}

/// The same as the checker's condition, by what the places say.
fn write_raises_at(
    plan: &Plan,
    weights: &Tables,
    spreads: &[u64],
    n: usize,
    writer: WriterNo,
    key: KeyNo,
) -> Option<No>
    requires spreads { ShowsSpreadsBelow
        (network_of plan.now) (row_of weights.now) (network_of plan.now).keys spreads.now }
    requires writer { writer < (network_of plan.now).writers }
    requires few { (network_of plan.now).writers ≤ most_endpoints }
    requires key { key < (network_of plan.now).keys }
    ensures { result ≡ write_raises (network_of plan.now) (row_of weights.now) n writer key }
{
    let spread = spreads[writer.number() * KEYS + key.number()];
    write_raises(plan, weights, spread, n, writer, key)
}

fn push_writer_writes(
    nos: &mut Vec<No>,
    plan: &Plan,
    weights: &Tables,
    spreads: &[u64],
    n: usize,
    writer: WriterNo,
) -> Result<(), NoMemory>
    requires spreads { ShowsSpreadsBelow
        (network_of plan.now) (row_of weights.now) (network_of plan.now).keys spreads.now }
    requires writer { writer < (network_of plan.now).writers }
    requires few { (network_of plan.now).writers ≤ most_endpoints }
    ensures { OnOk result (nos.new.items ≡ nos.old.items ++ those_below (network_of plan.now).keys
        (write_raises (network_of plan.now) (row_of weights.now) n writer)) }
{
    push_below(
        nos,
        KEYS,
        |k| write_raises_at(plan, weights, spreads, n, writer, KeyNo::new(k)),
    )
}

fn push_row_writes(
    nos: &mut Vec<No>,
    alloc: Global,
    plan: &Plan,
    weights: &Tables,
    n: usize,
) -> Result<(), NoMemory>
    ensures { OnOk result (nos.new.items ≡ nos.old.items ++ row_write_nos (network_of plan.now) weights.now n) }
{
    let spreads = all_spreads(alloc, plan, weights)?;
    for w in 0..writers_of(plan) {
        push_writer_writes(nos, plan, weights, &spreads, n, WriterNo::new(w))?;
    }
    Ok(())
}

fn push_writes(
    nos: &mut Vec<No>,
    alloc: Global,
    plan: &Plan,
    certificate: &Certificate,
) -> Result<(), NoMemory>
    ensures { OnOk result (nos.new.items ≡ nos.old.items
        ++ every_in (certificate_view certificate.now).rows (row_write_nos (network_of plan.now))) }
{
    for n in 0..certificate.rows.len() {
        let weights = tables_of(certificate, n);
        push_row_writes(nos, alloc, plan, &weights, n)?;
    }
    Ok(())
}

/// Adds the takes, firings and writes that can raise the sum of a row: by number, then by row, by endpoint or rule, by
/// key. After an error the list has some of them.
pub(crate) fn push_rows(
    nos: &mut Vec<No>,
    alloc: Global,
    plan: &Plan,
    certificate: &Certificate,
) -> Result<(), NoMemory>
    ensures { OnOk result (nos.new.items ≡ nos.old.items
        ++ rows_nos (network_of plan.now) (certificate_view certificate.now).rows) }
{
    push_takes(nos, plan, certificate)?;
    push_rules(nos, plan, certificate)?;
    push_writes(nos, alloc, plan, certificate)
}
