//! Every condition that fails.
ghost use Rattle.std.specs.Prelude.{◌≡◌, ◌++◌, IfOk, OnOk, slice_get, true};
ghost use Rattle.dds_match.specs.Plan.{network_of};
ghost use Rattle.dds_weights.specs.Fits.{fits};
ghost use Rattle.dds_weights.specs.Views.{certificate_view};
ghost use Rattle.dds_check.specs.Accepts.{first_no};
ghost use Rattle.dds_check.specs.Tables.{HasFewRows};
ghost use Rattle.dds_lint.specs.Conditions.{all_nos, bare_nos, limits_nos};

use crate::joins::push_joins;
use crate::limits::{push_bounds, push_depths, push_instances, push_written};
use crate::pairs::push_pairs;
use crate::profile::push_profile;
use crate::rows::push_rows;
use crate::shown::push_shown;
use dds_base::NoMemory;
use dds_check::No;
use dds_match::Plan;
use dds_weights::Certificate;
use std::alloc::Global;

/// Adds what isn't within the limits of the endpoints: numbers 20 to 26.
fn push_limits(nos: &mut Vec<No>, plan: &Plan, certificate: &Certificate) -> Result<(), NoMemory>
    ensures { OnOk result (nos.new.items ≡ nos.old.items
        ++ limits_nos (network_of plan.now) (certificate_view certificate.now)) }
{
    push_instances(nos, plan)?;
    push_bounds(nos, plan, certificate)?;
    push_written(nos, plan)?;
    push_depths(nos, plan, certificate)
}

#[tactic(auto, unfolding(crate::specs::Conditions::all_nos))]
fn push_all(
    nos: &mut Vec<No>,
    alloc: Global,
    plan: &Plan,
    certificate: &Certificate,
) -> Result<(), NoMemory>
    requires { HasFewRows (certificate_view certificate.now) }
    ensures { OnOk result (nos.new.items ≡ nos.old.items ++ all_nos plan.now (certificate_view certificate.now)) }
{
    push_pairs(nos, plan)?;
    push_profile(nos, plan)?;
    push_limits(nos, plan, certificate)?;
    push_joins(nos, plan)?;
    push_rows(nos, alloc, plan, certificate)?;
    push_shown(nos, plan, certificate)
}

/// Every condition that fails for a plan and a certificate that fits it, in the order in which the checker asks them:
/// by number, then by row, endpoint and key, each in file order. The first is the one with which the checker refuses
/// the certificate, and there is none where it accepts it. For an endpoint that the running profile doesn't have,
/// the least number is given. `NoMemory` is the only error.
#[tactic(auto, using(crate::proofs::FirstOfAll::first_of_all))]
pub fn all_nos(alloc: Global, plan: &Plan, certificate: &Certificate) -> Result<Vec<No>, NoMemory>
    requires { fits (network_of plan.now) (certificate_view certificate.now) ≡ true }
    ensures all { IfOk result (λ nos. nos.items ≡ all_nos plan.now (certificate_view certificate.now)) }
    ensures first { IfOk result
        (λ nos. slice_get nos.items 0 ≡ first_no plan.now (certificate_view certificate.now)) }
{
    let mut nos = Vec::new(alloc);
    push_all(&mut nos, alloc, plan, certificate)?;
    Ok(nos)
}

#[tactic(auto, unfolding(crate::specs::Conditions::bare_nos))]
fn push_bare(nos: &mut Vec<No>, plan: &Plan) -> Result<(), NoMemory>
    ensures { OnOk result (nos.new.items ≡ nos.old.items ++ bare_nos plan.now) }
{
    push_pairs(nos, plan)?;
    push_profile(nos, plan)?;
    push_instances(nos, plan)?;
    push_written(nos, plan)?;
    push_joins(nos, plan)
}

/// Every condition that fails for a plan and that asks no certificate: numbers 10 to 17, 20, 24, 25, 27 and 28, in this
/// order and then in file order. No certificate is accepted for the plan where there is one. `NoMemory` is the only
/// error.
pub fn bare_nos(alloc: Global, plan: &Plan) -> Result<Vec<No>, NoMemory>
    ensures { IfOk result (λ nos. nos.items ≡ bare_nos plan.now) }
{
    let mut nos = Vec::new(alloc);
    push_bare(&mut nos, plan)?;
    Ok(nos)
}
