//! Number 33: the bounds and totals that their rows don't show.
ghost use Rattle.std.specs.Prelude.{◌≡◌, ◌++◌, false, slice_get, OnOk};
ghost use Rattle.std.specs.Option.{option_map_or};
ghost use Rattle.dds_match.specs.Plan.{network_of};
ghost use Rattle.dds_weights.specs.Views.{certificate_view};
ghost use Rattle.dds_runs.specs.Accepted.{row_of};
ghost use Rattle.dds_check.specs.Tables.{HasFewRows};
ghost use Rattle.dds_check.specs.Shown.{shows, bound_not_shown, total_not_shown, HasBudgets};
ghost use Rattle.dds_lint.specs.Conditions.{shown_nos};
ghost use Rattle.dds_lint.specs.Every.{those_in};

use crate::every::push_below;
use dds_base::NoMemory;
use dds_base::limits::ROWS;
use dds_check::shown::{bound_at, budgets_of, find_row, shows, total_at, total_not_shown};
use dds_check::tables::Tables;
use dds_check::verdict::refusal_if;
use dds_check::{No, Number, Subject};
use dds_match::Plan;
use dds_weights::{Bound, Certificate};

fn is_bound_shown(
    plan: &Plan,
    certificate: &Certificate,
    budgets: &[u128; ROWS],
    bound: &Bound,
) -> bool
    requires few { HasFewRows (certificate_view certificate.now) }
    requires opened { HasBudgets (network_of plan.now) (certificate_view certificate.now).rows budgets.now }
    ensures { result ≡ option_map_or
        (λ row. shows (network_of plan.now) (row_of row) bound.now.bound bound.now.reader bound.now.key)
        (slice_get (certificate_view certificate.now).rows bound.now.row) false }
{
    match find_row(certificate, bound.row) {
        Some(row) => {
            let weights = Tables::new(row);
            shows(
                plan,
                &weights,
                budgets[bound.row],
                bound.bound,
                bound.reader,
                bound.key,
            )
        }
        None => false,
    }
}

fn bound_not_shown(
    plan: &Plan,
    certificate: &Certificate,
    budgets: &[u128; ROWS],
    i: usize,
    bound: &Bound,
) -> Option<No>
    requires few { HasFewRows (certificate_view certificate.now) }
    requires opened { HasBudgets (network_of plan.now) (certificate_view certificate.now).rows budgets.now }
    ensures { result ≡ bound_not_shown (network_of plan.now) (certificate_view certificate.now).rows bound.now i }
{
    let shown = is_bound_shown(plan, certificate, budgets, bound);
    let Bound { reader, key, .. } = *bound;
    refusal_if(
        !shown,
        Number::BoundNotShown,
        Subject::Instance { reader, key },
    )
}

fn push_bounds(
    nos: &mut Vec<No>,
    plan: &Plan,
    certificate: &Certificate,
    budgets: &[u128; ROWS],
) -> Result<(), NoMemory>
    requires few { HasFewRows (certificate_view certificate.now) }
    requires opened { HasBudgets (network_of plan.now) (certificate_view certificate.now).rows budgets.now }
    ensures { OnOk result (nos.new.items ≡ nos.old.items ++ those_in (certificate_view certificate.now).bounds
        (bound_not_shown (network_of plan.now) (certificate_view certificate.now).rows)) }
{
    push_below(
        nos,
        certificate.bounds.len(),
        |i| bound_not_shown(plan, certificate, budgets, i, bound_at(certificate, i)),
    )
}

fn push_totals(
    nos: &mut Vec<No>,
    plan: &Plan,
    certificate: &Certificate,
    budgets: &[u128; ROWS],
) -> Result<(), NoMemory>
    requires few { HasFewRows (certificate_view certificate.now) }
    requires opened { HasBudgets (network_of plan.now) (certificate_view certificate.now).rows budgets.now }
    ensures { OnOk result (nos.new.items ≡ nos.old.items ++ those_in (certificate_view certificate.now).totals
        (total_not_shown (network_of plan.now) (certificate_view certificate.now).rows)) }
{
    push_below(
        nos,
        certificate.totals.len(),
        |i| total_not_shown(plan, certificate, budgets, i, total_at(certificate, i)),
    )
}

/// Adds the bounds that their rows don't show, then the totals, each in the order of the certificate. After an error
/// the list has some of them.
pub(crate) fn push_shown(
    nos: &mut Vec<No>,
    plan: &Plan,
    certificate: &Certificate,
) -> Result<(), NoMemory>
    requires { HasFewRows (certificate_view certificate.now) }
    ensures { OnOk result (nos.new.items ≡ nos.old.items
        ++ shown_nos (network_of plan.now) (certificate_view certificate.now)) }
{
    let budgets = budgets_of(plan, certificate);
    push_bounds(nos, plan, certificate, &budgets)?;
    push_totals(nos, plan, certificate, &budgets)
}
