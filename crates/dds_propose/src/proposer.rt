//! Proposes a certificate of a plan.
ghost use Rattle.std.specs.Prelude.{◌≡◌, ◌++◌, true, None, IfOk, IfSome, is_some};
ghost use Rattle.dds_base.specs.Sums.{any_below};
ghost use Rattle.dds_match.specs.Paces.{taken_span};
ghost use Rattle.dds_match.specs.Plan.{network_of};
ghost use Rattle.dds_weights.specs.Fits.{fits};
ghost use Rattle.dds_weights.specs.Views.{certificate_view};
ghost use Rattle.dds_runs.specs.Accepted.{Accepted, certificate_of};
ghost use Rattle.dds_check.specs.Accepts.{first_no};
ghost use Rattle.dds_runs.specs.Certified.{Safe};
ghost use Rattle.dds_propose.specs.Proposal.{AddsTarget, IsFound, IsOneFound, IsProposal, bound_entry, is_invariant};
ghost use Rattle.dds_propose.specs.Proposal.{lesser, total_entry};
ghost use Rattle.dds_propose.specs.Tables.{row_of};
ghost use Rattle.dds_propose.specs.Targets.{IsReached};

use crate::bounds::bound_of;
use crate::listing::listed_row;
use crate::needs::Carrying;
use crate::rounds::row_weights;
use crate::targets::{Target, targets};
use crate::weights::Weights;
use dds_base::limits::ROWS;
use dds_base::{NoMemory, ReaderNo};
use dds_check::accepts::accepts;
use dds_check::rows_no;
use dds_match::Plan;
use dds_weights::{Bound, Certificate, Total};
use std::alloc::Global;

/// Adds the bound of a target, which the row at this place shows.
fn add_bound(
    certificate: &mut Certificate,
    target: &Target,
    row: usize,
    bound: u32,
) -> Result<(), NoMemory>
    ensures rows { IfOk result (λ _. certificate.new.rows ≡ certificate.old.rows) }
    ensures bounds { IfOk result
        (λ _. certificate.new.bounds.items ≡ certificate.old.bounds.items ++ bound_entry target.now row bound) }
    ensures totals { IfOk result
        (λ _. certificate.new.totals.items ≡ certificate.old.totals.items ++ total_entry target.now row bound) }
{
    match target {
        Target::Instance { reader, key } => certificate.bounds.push(Bound {
            reader: *reader,
            key: *key,
            row,
            bound,
        })?,
        Target::Reader(reader) => certificate.totals.push(Total {
            reader: *reader,
            row,
            bound,
        })?,
    }
    Ok(())
}

/// The weights of a row of which no event raises the sum, and the bound that it shows for a target.
#[derive(Drop)]
struct Found {
    weights: Weights,
    bound: u32,
}

/// Whether no event raises the weighted sum of the row of these weights.
fn is_invariant(alloc: Global, plan: &Plan, weights: &Weights) -> Result<bool, NoMemory>
    ensures { IfOk result (λ invariant. invariant ≡ is_invariant (network_of plan.now) (row_of weights.now)) }
{
    let mut rows = Vec::new(alloc);
    rows.push(listed_row(alloc, plan, 0, weights)?)?;
    let certificate = Certificate {
        rows,
        bounds: Vec::new(alloc),
        totals: Vec::new(alloc),
    };
    Ok(rows_no(plan, &certificate).is_none())
}

/// The row of a target that carries samples in this way, if no event raises its sum and it shows a bound.
fn find_row(
    alloc: Global,
    plan: &Plan,
    carrying: Carrying,
    target: &Target,
) -> Result<Option<Found>, NoMemory>
    requires { IsReached (network_of plan.now) target.now }
    ensures { IfOk result
        (λ found. IfSome found
        (λ x. IsFound (network_of plan.now) target.now carrying (row_of x.weights) x.bound)) }
{
    let Some(weights) = row_weights(alloc, plan, carrying, target)? else {
        return Ok(None);
    };
    let Some(bound) = bound_of(plan, target, &weights) else {
        return Ok(None);
    };
    if !is_invariant(alloc, plan, &weights)? {
        return Ok(None);
    }
    Ok(Some(Found { weights, bound }))
}

/// Whether the deployment says of some reader how soon it takes. Where it doesn't there are no caps.
fn has_spans(plan: &Plan) -> bool
    ensures { result ≡ any_below (network_of plan.now).readers (λ r. is_some (taken_span plan.now r)) }
{
    for r in 0..plan.lists().readers() {
        if plan.taken_within(ReaderNo::new(r)).is_some() {
            return true;
        }
    }
    false
}

/// The row of a target that carries samples by caps, where there may be caps.
fn find_row_by_caps(alloc: Global, plan: &Plan, target: &Target) -> Result<Option<Found>, NoMemory>
    requires { IsReached (network_of plan.now) target.now }
    ensures { IfOk result
        (λ found. IfSome found
        (λ x. IsFound (network_of plan.now) target.now Carrying.ByCaps (row_of x.weights) x.bound)) }
{
    if !has_spans(plan) {
        return Ok(None);
    }
    find_row(alloc, plan, Carrying::ByCaps, target)
}

/// What shows the lesser bound of two, the first where they're the same.
fn lesser(first: Option<Found>, second: Option<Found>) -> Option<Found>
    ensures { result ≡ lesser first second }
{
    match (first, second) {
        (Some(first), Some(second)) => {
            if second.bound < first.bound {
                drop(first);
                Some(second)
            } else {
                drop(second);
                Some(first)
            }
        }
        (Some(first), None) => Some(first),
        (None, second) => second,
    }
}

/// The row of a target that shows the lesser bound, of one that carries samples by permits and one that does by caps.
fn find_least(alloc: Global, plan: &Plan, target: &Target) -> Result<Option<Found>, NoMemory>
    requires { IsReached (network_of plan.now) target.now }
    ensures { IfOk result
        (λ found. IfSome found (λ x. IsOneFound (network_of plan.now) target.now (row_of x.weights) x.bound)) }
{
    let by_permits = find_row(alloc, plan, Carrying::ByPermits, target)?;
    let by_caps = find_row_by_caps(alloc, plan, target)?;
    Ok(lesser(by_permits, by_caps))
}

/// Adds the row of a target and its bound. Returns whether there are such: no weight and no bound is above
/// 4,294,967,295, the weights come to rest, and no event raises their sum.
fn add_target(
    alloc: Global,
    plan: &Plan,
    certificate: &mut Certificate,
    target: &Target,
) -> Result<bool, NoMemory>
    requires { IsReached (network_of plan.now) target.now }
    ensures { IfOk result
        (λ added. added ≡ true
        → AddsTarget (network_of plan.now) target.now (certificate_view certificate.old)
        (certificate_view certificate.new)) }
{
    let Some(found) = find_least(alloc, plan, target)? else {
        return Ok(false);
    };
    let row = certificate.rows.len();
    certificate
        .rows
        .push(listed_row(alloc, plan, row, &found.weights)?)?;
    add_bound(certificate, target, row, found.bound)?;
    Ok(true)
}

/// A certificate that may be accepted, with a row and a bound for each target. `None` where there are more than 64
/// targets, or one has no row or no bound.
fn candidate(alloc: Global, plan: &Plan) -> Result<Option<Certificate>, NoMemory>
    ensures { IfOk result (λ made. IfSome made (λ c. IsProposal (network_of plan.now) (certificate_view c))) }
{
    let targets = targets(alloc, plan)?;
    if targets.len() > ROWS {
        return Ok(None);
    }
    let mut certificate = Certificate {
        rows: Vec::new(alloc),
        bounds: Vec::new(alloc),
        totals: Vec::new(alloc),
    };
    for target in &targets {
        if !add_target(alloc, plan, &mut certificate, target)? {
            return Ok(None);
        }
    }
    Ok(Some(certificate))
}

/// The certificate, where it fits the plan and is accepted.
fn accepted(plan: &Plan, certificate: Certificate) -> Option<Certificate>
    ensures same { IfSome result (λ c. c ≡ certificate) }
    ensures fits { IfSome result (λ c. fits (network_of plan.now) (certificate_view c) ≡ true) }
    ensures accepted { IfSome result (λ c. first_no plan.now (certificate_view c) ≡ None) }
    ensures holds { IfSome result (λ c. Accepted (network_of plan.now) (certificate_of (certificate_view c))) }
    ensures safe { IfSome result (λ c. Safe (network_of plan.now) (certificate_of (certificate_view c))) }
{
    if !certificate.fits(plan) {
        return None;
    }
    match accepts(plan, &certificate) {
        Ok(()) => Some(certificate),
        Err(_) => None,
    }
}

/// Looks for a certificate of a plan. What it gives fits the plan and is accepted, so the deployment is safe, and it is
/// the one that follows.
///
/// It has a row `w0`, `w1`, .. for each finite limit of a strict reader: readers in file order, the keys that can reach
/// the reader in the order of its topic, where the reader limits an instance or a matched writer with KEEP_LAST may
/// drop the key, and then the reader itself where max_samples is finite. The samples that the limit counts weigh 5040
/// at first. In a round each permit rises to the sum over the samples that its write makes, but for samples that caps
/// carry, then, rules in file order, the take of the first need of a rule that no caps carry rises to the least weight
/// at which the rule's writes weigh no more than its needs, and then each sample rises to its take. Rounds go on until
/// one changes nothing. That's tried with no sample carried by caps, and with each that caps bound carried by them; of
/// the rows of which no event raises the sum it takes the one that shows the lesser bound.
///
/// `None` says nothing of the deployment: it is answered for more than 64 limits, and where for one of them neither try
/// gives a row, after 256 rounds that each changed something, for a weight or a bound above 4,294,967,295, or because
/// an event raises the sum; also where the certificate that was found isn't accepted. `NoMemory` is answered only where
/// memory ran out.
pub fn propose(alloc: Global, plan: &Plan) -> Result<Option<Certificate>, NoMemory>
    ensures fits { IfOk result (λ found. IfSome found (λ c. fits (network_of plan.now) (certificate_view c) ≡ true)) }
    ensures accepted { IfOk result (λ found. IfSome found (λ c. first_no plan.now (certificate_view c) ≡ None)) }
    ensures holds { IfOk result
        (λ found. IfSome found (λ c. Accepted (network_of plan.now) (certificate_of (certificate_view c)))) }
    ensures safe { IfOk result
        (λ found. IfSome found (λ c. Safe (network_of plan.now) (certificate_of (certificate_view c)))) }
    ensures proposal { IfOk result
        (λ found. IfSome found (λ c. IsProposal (network_of plan.now) (certificate_view c))) }
{
    match candidate(alloc, plan) {
        Ok(Some(certificate)) => Ok(accepted(plan, certificate)),
        Ok(None) => Ok(None),
        Err(_) => Err(NoMemory),
    }
}
