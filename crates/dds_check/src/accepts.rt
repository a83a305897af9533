//! Whether a certificate is accepted for a plan.
ghost use Rattle.std.specs.Prelude.{◌≡◌, true, OnOk};
ghost use Rattle.std.specs.Result.{result_err};
ghost use Rattle.dds_match.specs.Plan.{network_of};
ghost use Rattle.dds_weights.specs.Fits.{fits};
ghost use Rattle.dds_weights.specs.Views.{certificate_view};
ghost use Rattle.dds_runs.specs.Accepted.{Accepted, certificate_of};
ghost use Rattle.dds_check.specs.Accepts.{first_no};
ghost use Rattle.dds_runs.specs.Certified.{Safe};
ghost use Rattle.dds_check.specs.Tables.{HasFewRows};

use crate::joins::joins_no;
use crate::limits::limits_no;
use crate::pairs::pairs_no;
use crate::profile::profile_no;
use crate::rows::rows_no;
use crate::shown::shown_no;
use crate::verdict::No;
use dds_match::Plan;
use dds_weights::Certificate;

#[tactic(auto, unfolding(crate::specs::Accepts::first_no))]
fn first_no(plan: &Plan, certificate: &Certificate) -> Option<No>
    requires { HasFewRows (certificate_view certificate.now) }
    ensures { result ≡ first_no plan.now (certificate_view certificate.now) }
{
    if let Some(no) = pairs_no(plan) {
        return Some(no);
    }
    if let Some(no) = profile_no(plan) {
        return Some(no);
    }
    if let Some(no) = limits_no(plan, certificate) {
        return Some(no);
    }
    if let Some(no) = joins_no(plan) {
        return Some(no);
    }
    if let Some(no) = rows_no(plan, certificate) {
        return Some(no);
    }
    shown_no(plan, certificate)
}

/// Whether the certificate is accepted for the plan, and else the first condition that fails: by its number, then by
/// row, endpoint and key, each in file order (of 33 bounds in the certificate's order, then totals in theirs). It takes
/// no memory.
///
/// Where it answers yes, the deployment is safe: exactly the intended pairs match, and in every run of the peers,
/// whatever the order of writes, firings, takes, sends, losses, repeats and reorderings, no reader but a watcher
/// rejects, overwrites or gives up a sample, what a KEEP_LAST writer drops each of them has received (and taken, unless
/// the writer has a lag there), unread samples stay within the certified bounds, and each takes from each matched
/// writer and instance a prefix, each watcher a part, of what was written, in order, once. A watcher is a best-effort
/// reader, or one that the deployment lets lose samples. Runs are those of the network, whose caps and lags keep a
/// write back that would break the deployment's paces or the times within which its readers take; so where a
/// deployment has any, a yes is one for the runs that keep them.
pub fn accepts(plan: &Plan, certificate: &Certificate) -> Result<(), No>
    requires fits { fits (network_of plan.now) (certificate_view certificate.now) ≡ true }
    ensures answer { result_err result ≡ first_no plan.now (certificate_view certificate.now) }
    ensures holds { OnOk result (Accepted (network_of plan.now) (certificate_of (certificate_view certificate.now))) }
    ensures safe { OnOk result (Safe (network_of plan.now) (certificate_of (certificate_view certificate.now))) }
{
    // Its lists name nothing that isn't there.
    plan.assert_well_formed();
    match first_no(plan, certificate) {
        Some(no) => Err(no),
        None => Ok(()),
    }
}
