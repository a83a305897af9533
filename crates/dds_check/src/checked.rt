//! A plan with a certificate that was accepted for it.
ghost use Rattle.std.specs.Prelude.{◌≡◌, ℕ, true, Some, None, IfSome, IfOk, IfErr};
ghost use Rattle.dds_match.specs.Plan.{network_of};
ghost use Rattle.dds_weights.specs.Fits.{fits};
ghost use Rattle.dds_weights.specs.Views.{certificate_view};
ghost use Rattle.dds_runs.specs.Accepted.{Accepted, certificate_of};
ghost use Rattle.dds_check.specs.Accepts.{first_no};
ghost use Rattle.dds_runs.specs.Certified.{Safe};
ghost use Rattle.dds_check.specs.Checked.{IsAccepted, IsLeastBound, IsLeastTotal};
ghost use Rattle.dds_check.specs.Tables.{bound_of, total_of};

use crate::accepts::accepts;
use crate::bounds::{Bounds, Totals, find_bound, find_total};
use crate::verdict::No;
use dds_base::{KeyNo, ReaderNo};
use dds_match::Plan;
use dds_weights::Certificate;
use std::marker::Model;

/// A plan, and a certificate that was accepted for it, so that the deployment is safe in every run. `check` makes one.
#[derive(Drop)]
pub struct Checked {
    plan: Plan,
    certificate: Certificate,
}

impl Model for Checked {
    ghost use Rattle.dds_weights.specs.Views.{certificate_view};
    ghost use Rattle.dds_check.specs.Checked.{Judged, IsAccepted};

    ghost Value = { Judged };

    ghost view = { λ x. record { plan = x.plan; certificate = certificate_view x.certificate } };

    ghost invariant = { λ x. IsAccepted x.plan (certificate_view x.certificate) };
}

impl Checked {
    /// The plan, as it was handed in. The certificate is accepted for it.
    pub fn plan(&self) -> &Plan
        ensures value { result.now ≡ self.now.plan }
        ensures accepted { IsAccepted self.now.plan self.now.certificate }
    {
        &self.plan
    }

    /// The certificate, as it was handed in.
    pub fn certificate(&self) -> &Certificate
        ensures { certificate_view result.now ≡ self.now.certificate }
    {
        &self.certificate
    }

    /// At most so many samples of the key are unread at the reader, where the certificate gives a bound: 0 to
    /// 4,294,967,295, and the least that it gives. Each call goes over the certificate: a caller that asks for many
    /// takes `bounds`.
    pub fn bound(&self, reader: ReaderNo, key: KeyNo) -> Option<u64>
        ensures value { result ≡ bound_of self.now.certificate.bounds reader key }
        ensures least { IfSome result (IsLeastBound self.now.certificate reader key) }
    {
        match find_bound(&self.certificate.bounds, reader, key) {
            Some(bound) => Some(u64::from(bound)),
            None => None,
        }
    }

    /// At most so many samples are stored at the reader, where the certificate gives a total: 0 to 4,294,967,295, and
    /// the least that it gives. Each call goes over the certificate: a caller that asks for many takes `totals`.
    pub fn total(&self, reader: ReaderNo) -> Option<u64>
        ensures value { result ≡ total_of self.now.certificate.totals reader }
        ensures least { IfSome result (IsLeastTotal self.now.certificate reader) }
    {
        match find_total(&self.certificate.totals, reader) {
            Some(total) => Some(u64::from(total)),
            None => None,
        }
    }

    /// What `bound` answers, as a table: it is made in one pass over the certificate, and a look-up halves the bounds
    /// where they're in the order of readers and then of keys. It takes no memory.
    pub fn bounds<'a>(&'a self) -> Bounds<'a>
        ensures value { result ≡ self.now.certificate.bounds }
        ensures least { (r k : ℕ) → IfSome (bound_of result r k) (IsLeastBound self.now.certificate r k) }
    {
        Bounds::new(&self.certificate.bounds)
    }

    /// What `total` answers, as a table: it is made in one pass over the certificate, and each look-up takes constant
    /// time. It takes no memory, and stands on the caller's stack with 2 KiB.
    pub fn totals<'a>(&'a self) -> Totals<'a>
        ensures value { result ≡ self.now.certificate.totals }
        ensures least { (r : ℕ) → IfSome (total_of result r) (IsLeastTotal self.now.certificate r) }
    {
        Totals::new(&self.certificate.totals)
    }

    /// The plan and the certificate, as they were handed in.
    pub fn into_parts(self) -> (Plan, Certificate)
        ensures plan { result.0 ≡ self.plan }
        ensures certificate { certificate_view result.1 ≡ self.certificate }
        ensures accepted { IsAccepted self.plan self.certificate }
    {
        let Checked { plan, certificate } = self;
        (plan, certificate)
    }

    /// The plan and the certificate of `into_parts`, together again: the certificate is accepted for the plan, which
    /// the caller has to show.
    pub fn from_parts(plan: Plan, certificate: Certificate) -> Checked
        requires { IsAccepted plan (certificate_view certificate) }
        ensures plan { result.plan ≡ plan }
        ensures certificate { result.certificate ≡ certificate_view certificate }
    {
        Checked { plan, certificate }
    }
}

/// Accepts a certificate for a plan, or hands both back unchanged with the first condition that fails. It takes no
/// memory. What is accepted is safe in every run, as `accepts` says.
pub fn check(plan: Plan, certificate: Certificate) -> Result<Checked, (No, Plan, Certificate)>
    requires { fits (network_of plan) (certificate_view certificate) ≡ true }
    ensures yes { IfOk result
        (λ x. (first_no plan (certificate_view certificate) ≡ None) × (x.plan ≡ plan)
        × (x.certificate ≡ certificate_view certificate)) }
    ensures no { IfErr result
        (λ e. (first_no plan (certificate_view certificate) ≡ Some e.0) × (e.1 ≡ plan) × (e.2 ≡ certificate)) }
    ensures holds { IfOk result (λ x. Accepted (network_of x.plan) (certificate_of x.certificate)) }
    ensures safe { IfOk result (λ x. Safe (network_of x.plan) (certificate_of x.certificate)) }
{
    match accepts(&plan, &certificate) {
        Ok(()) => Ok(Checked { plan, certificate }),
        Err(no) => Err((no, plan, certificate)),
    }
}
