//! Number 33: each bound and each total is shown by its row.
ghost use Rattle.std.specs.Prelude.{◌≡◌, ◌||◌, not, false, slice_get, ◌<◌, ◌≤◌, Some, option_map, vec_len, length};
ghost use Rattle.std.specs.Option.{option_map_or};
ghost use Rattle.dds_match.specs.Network.{reach};
ghost use Rattle.dds_match.specs.Plan.{network_of};
ghost use Rattle.dds_weights.specs.Views.{row_view, certificate_view};
ghost use Rattle.dds_runs.specs.First.{first_in, IsFirstBefore};
ghost use Rattle.dds_runs.specs.Accepted.{row_of, budget};
ghost use Rattle.dds_check.specs.Tables.{HasFewRows};
ghost use Rattle.dds_check.specs.Shown.{shows, is_unshown, is_unshown_by, names_no_row, bound_not_shown, shows_all};
ghost use Rattle.dds_check.specs.Shown.{total_not_shown, HasBudgets, shown_no};

use crate::below::{all_below, first_below};
use crate::budget::budget;
use crate::tables::{Tables, tables_of};
use crate::verdict::{No, Number, Subject, refusal_if};
use dds_base::grid::KEYS;
use dds_base::limits::ROWS;
use dds_base::{KeyNo, ReaderNo};
use dds_conditions::is_enough;
use dds_match::Plan;
use dds_weights::{Bound, Certificate, Row, Total};

/// By the number of the row, its budget.
pub fn budgets_of(plan: &Plan, certificate: &Certificate) -> [u128; ROWS]
    requires { HasFewRows (certificate_view certificate.now) }
    ensures { HasBudgets (network_of plan.now) (certificate_view certificate.now).rows result }
{
    let mut budgets = [0; ROWS];
    for n in 0..certificate.rows.len() {
        let weights = tables_of(certificate, n);
        budgets[n] = budget(plan, &weights);
    }
    budgets
}

/// Whether a row shows a bound: a sample weighs something, and one sample more than the bound weighs more than the
/// budget, the most that the row ever weighs.
pub fn shows(
    plan: &Plan,
    weights: &Tables,
    most: u128,
    bound: u32,
    reader: ReaderNo,
    key: KeyNo,
) -> bool
    requires { most ≡ budget (network_of plan.now) (row_of weights.now) }
    ensures { result ≡ shows (network_of plan.now) (row_of weights.now) bound reader key }
{
    is_enough(weights.sample(reader, key), most, bound)
}

/// Whether a key can't reach the reader of a total, or the row shows the total for it.
fn shows_reached(plan: &Plan, weights: &Tables, most: u128, total: &Total, key: KeyNo) -> bool
    requires { most ≡ budget (network_of plan.now) (row_of weights.now) }
    ensures { result ≡ (not (reach (network_of plan.now) total.now.reader key)
        || shows (network_of plan.now) (row_of weights.now) total.now.bound total.now.reader key) }
{
    !plan.reaches(total.reader, key) || shows(plan, weights, most, total.bound, total.reader, key)
}

/// Whether a row shows a total for each key that can reach its reader.
pub fn shows_all(plan: &Plan, weights: &Tables, most: u128, total: &Total) -> bool
    requires { most ≡ budget (network_of plan.now) (row_of weights.now) }
    ensures { result ≡ shows_all (network_of plan.now) (row_of weights.now) total.now }
{
    all_below(
        KEYS,
        |k| shows_reached(plan, weights, most, total, KeyNo::new(k)),
    )
}

/// Row n of a certificate, from 0, if there is one.
pub fn find_row(certificate: &Certificate, n: usize) -> Option<&Row>
    ensures { option_map (λ row. row_view row.now) result ≡ slice_get (certificate_view certificate.now).rows n }
{
    certificate.rows.get(n)
}

/// Bound i of a certificate, from 0.
pub fn bound_at(certificate: &Certificate, i: usize) -> &Bound
    requires { i < vec_len certificate.now.bounds }
    ensures { slice_get (certificate_view certificate.now).bounds i ≡ Some result.now }
{
    &certificate.bounds[i]
}

/// Total i of a certificate, from 0.
pub fn total_at(certificate: &Certificate, i: usize) -> &Total
    requires { i < vec_len certificate.now.totals }
    ensures { slice_get (certificate_view certificate.now).totals i ≡ Some result.now }
{
    &certificate.totals[i]
}

/// Whether the bound names row n, and the row doesn't show it.
fn is_unshown_by(plan: &Plan, weights: &Tables, most: u128, n: usize, bound: &Bound) -> bool
    requires { most ≡ budget (network_of plan.now) (row_of weights.now) }
    ensures { result ≡ is_unshown_by (network_of plan.now) weights.now n bound.now }
{
    bound.row == n && !shows(plan, weights, most, bound.bound, bound.reader, bound.key)
}

/// The place of the first bound before `end` that names row n and that the row doesn't show, else `end`.
fn first_unshown_by(
    plan: &Plan,
    certificate: &Certificate,
    weights: &Tables,
    most: u128,
    n: usize,
    end: usize,
) -> usize
    requires weighed { most ≡ budget (network_of plan.now) (row_of weights.now) }
    requires there { end ≤ length (certificate_view certificate.now).bounds }
    ensures { IsFirstBefore (certificate_view certificate.now).bounds
        (is_unshown_by (network_of plan.now) weights.now n) end result }
{
    for i in 0..end {
        if is_unshown_by(plan, weights, most, n, bound_at(certificate, i)) {
            return i;
        }
    }
    end
}

/// The place of the first bound that names no row, else how many bounds there are.
fn first_without_row(certificate: &Certificate) -> usize
    ensures { IsFirstBefore (certificate_view certificate.now).bounds
        (names_no_row (certificate_view certificate.now).rows)
        (length (certificate_view certificate.now).bounds) result }
{
    for i in 0..certificate.bounds.len() {
        if bound_at(certificate, i).row >= certificate.rows.len() {
            return i;
        }
    }
    certificate.bounds.len()
}

/// The place of the first bound that its row doesn't show, else how many bounds there are, found row by row.
fn first_unshown(plan: &Plan, certificate: &Certificate, budgets: &[u128; ROWS]) -> usize
    requires few { HasFewRows (certificate_view certificate.now) }
    requires opened { HasBudgets (network_of plan.now) (certificate_view certificate.now).rows budgets.now }
    ensures { IsFirstBefore (certificate_view certificate.now).bounds
        (is_unshown (network_of plan.now) (certificate_view certificate.now).rows)
        (length (certificate_view certificate.now).bounds) result }
{
    let mut end = first_without_row(certificate);
    for n in 0..certificate.rows.len() {
        let weights = tables_of(certificate, n);
        end = first_unshown_by(plan, certificate, &weights, budgets[n], n, end);
    }
    end
}

fn first_bound_not_shown(
    plan: &Plan,
    certificate: &Certificate,
    budgets: &[u128; ROWS],
) -> Option<No>
    requires few { HasFewRows (certificate_view certificate.now) }
    requires opened { HasBudgets (network_of plan.now) (certificate_view certificate.now).rows budgets.now }
    ensures { result ≡ first_in (certificate_view certificate.now).bounds
        (bound_not_shown (network_of plan.now) (certificate_view certificate.now).rows) }
{
    let first = first_unshown(plan, certificate, budgets);
    if first < certificate.bounds.len() {
        let Bound { reader, key, .. } = *bound_at(certificate, first);
        return Some(No {
            number: Number::BoundNotShown,
            subject: Subject::Instance { reader, key },
        });
    }
    None
}

fn is_total_shown(
    plan: &Plan,
    certificate: &Certificate,
    budgets: &[u128; ROWS],
    total: &Total,
) -> bool
    requires few { HasFewRows (certificate_view certificate.now) }
    requires opened { HasBudgets (network_of plan.now) (certificate_view certificate.now).rows budgets.now }
    ensures { result ≡ option_map_or
        (λ row. shows_all (network_of plan.now) (row_of row) total.now)
        (slice_get (certificate_view certificate.now).rows total.now.row) false }
{
    match find_row(certificate, total.row) {
        Some(row) => {
            let weights = Tables::new(row);
            shows_all(plan, &weights, budgets[total.row], total)
        }
        None => false,
    }
}

/// Number 33 of a total, the certificate's i-th from 0: no row shows it for each key that reaches the reader.
pub fn total_not_shown(
    plan: &Plan,
    certificate: &Certificate,
    budgets: &[u128; ROWS],
    i: usize,
    total: &Total,
) -> Option<No>
    requires few { HasFewRows (certificate_view certificate.now) }
    requires opened { HasBudgets (network_of plan.now) (certificate_view certificate.now).rows budgets.now }
    ensures { result ≡ total_not_shown (network_of plan.now) (certificate_view certificate.now).rows total.now i }
{
    let shown = is_total_shown(plan, certificate, budgets, total);
    refusal_if(!shown, Number::BoundNotShown, Subject::Reader(total.reader))
}

fn first_total_not_shown(
    plan: &Plan,
    certificate: &Certificate,
    budgets: &[u128; ROWS],
) -> Option<No>
    requires few { HasFewRows (certificate_view certificate.now) }
    requires opened { HasBudgets (network_of plan.now) (certificate_view certificate.now).rows budgets.now }
    ensures { result ≡ first_in (certificate_view certificate.now).totals
        (total_not_shown (network_of plan.now) (certificate_view certificate.now).rows) }
{
    first_below(
        certificate.totals.len(),
        |i| total_not_shown(plan, certificate, budgets, i, total_at(certificate, i)),
    )
}

/// The first bound that its row doesn't show, else the first total, each in the order of the certificate.
#[tactic(auto, unfolding(crate::specs::Shown::shown_no))]
pub fn shown_no(plan: &Plan, certificate: &Certificate) -> Option<No>
    requires { HasFewRows (certificate_view certificate.now) }
    ensures { result ≡ shown_no (network_of plan.now) (certificate_view certificate.now) }
{
    let budgets = budgets_of(plan, certificate);
    if let Some(no) = first_bound_not_shown(plan, certificate, &budgets) {
        return Some(no);
    }
    first_total_not_shown(plan, certificate, &budgets)
}
