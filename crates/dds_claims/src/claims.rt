//! Parts of the answer to a certificate: what its rows show by themselves, and what fails whatever the certificate is.
ghost use Rattle.std.specs.Prelude.{◌≡◌, ◌≢◌, true, None, IsTrue, IfSome};
ghost use Rattle.dds_match.specs.Plan.{network_of};
ghost use Rattle.dds_weights.specs.Lists.{Certificate as CertificateLists};
ghost use Rattle.dds_weights.specs.Fits.{fits};
ghost use Rattle.dds_weights.specs.Views.{certificate_view};
ghost use Rattle.dds_runs.specs.Accepted.{certificate_of};
ghost use Rattle.dds_check.specs.Accepts.{first_no};
ghost use Rattle.dds_claims.specs.Claims.{IsShown, shows, structure_no};

use dds_check::{
    No, first_keep_last_filter, first_reader_instances, first_writer_instances, joins_no, pairs_no,
    profile_no, rows_no, shown_no,
};
use dds_match::Plan;
use dds_weights::Certificate;

/// Whether no event raises the weighted sum of any row of a certificate, and each row shows the bounds and totals that
/// name it. Nothing is said of the limits, nor that each limit has a bound. `false` exactly where a condition on rows
/// fails, or one on what they show.
pub fn shows(plan: &Plan, certificate: &Certificate) -> bool
    requires fits { fits (network_of plan.now) (certificate_view certificate.now) ≡ true }
    ensures decided { result ≡ shows (network_of plan.now) (certificate_view certificate.now) }
    ensures shown { IsTrue result → IsShown (network_of plan.now) (certificate_of (certificate_view certificate.now)) }
{
    // Its lists name nothing that isn't there.
    plan.assert_well_formed();
    match rows_no(plan, certificate) {
        Some(_) => false,
        None => match shown_no(plan, certificate) {
            Some(_) => false,
            None => true,
        },
    }
}

#[tactic(auto, unfolding(crate::specs::Claims::structure_no))]
fn first_structure_no(plan: &Plan) -> Option<No>
    ensures { result ≡ structure_no plan.now }
{
    if let Some(no) = pairs_no(plan) {
        return Some(no);
    }
    if let Some(no) = profile_no(plan) {
        return Some(no);
    }
    if let Some(no) = first_reader_instances(plan) {
        return Some(no);
    }
    if let Some(no) = first_writer_instances(plan) {
        return Some(no);
    }
    if let Some(no) = first_keep_last_filter(plan) {
        return Some(no);
    }
    joins_no(plan)
}

/// The first condition that fails of those that no certificate can change: numbers 10 to 20, 24, 25, 27 and 28. Where
/// there is one no certificate is accepted.
pub fn structure_no(plan: &Plan) -> Option<No>
    ensures no { result ≡ structure_no plan.now }
    ensures always { IfSome result (λ no. (cert : CertificateLists) → first_no plan.now cert ≢ None) }
{
    first_structure_no(plan)
}
