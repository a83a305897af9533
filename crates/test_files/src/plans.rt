//! Plans and checked deployments of texts, as tests and programs that measure open them. Where a text has a fault or
//! memory is refused there is none: these callers don't ask why.
ghost use Rattle.std.specs.Prelude.{◌≡◌, Ok, true, IfSome};
ghost use Rattle.dds_deploy.specs.Document.{read as deployment_read};
ghost use Rattle.dds_match.specs.Plan.{network_of};
ghost use Rattle.dds_weights.specs.Fits.{fits};
ghost use Rattle.dds_weights.specs.Views.{certificate_view};
ghost use Rattle.dds_cert.specs.Document.{read as certificate_read};

use dds_cert::read_certificate;
use dds_check::{Checked, check};
use dds_deploy::read_deployment;
use dds_match::Plan;
use dds_match::planning::plan;
use dds_propose::propose;
use dds_weights::Certificate;
use std::alloc::Global;

/// The plan of a deployment's text.
pub fn planned(alloc: Global, deployment: &str) -> Option<Plan>
    ensures { IfSome result (λ p. deployment_read deployment.now ≡ Ok p) }
{
    let deployment = read_deployment(alloc, deployment.as_bytes()).ok()?;
    match plan(alloc, deployment) {
        Ok(plan) => Some(plan),
        Err((_, deployment)) => {
            drop(deployment);
            None
        }
    }
}

/// A plan with a certificate, if that is accepted for it.
fn accepted(plan: Plan, certificate: Certificate) -> Option<Checked>
    requires { fits (network_of plan) (certificate_view certificate) ≡ true }
    ensures plan { IfSome result (λ x. x.plan ≡ plan) }
    ensures certificate { IfSome result (λ x. x.certificate ≡ certificate_view certificate) }
{
    match check(plan, certificate) {
        Ok(checked) => Some(checked),
        Err(refused) => {
            drop(refused);
            None
        }
    }
}

/// The checked deployment of a deployment's text and a certificate's.
pub fn checked(alloc: Global, deployment: &str, certificate: &str) -> Option<Checked>
    ensures plan { IfSome result (λ x. deployment_read deployment.now ≡ Ok x.plan) }
    ensures certificate { IfSome result (λ x. certificate_read x.plan certificate.now ≡ Ok x.certificate) }
{
    let plan = planned(alloc, deployment)?;
    let Ok(certificate) = read_certificate(alloc, &plan, certificate.as_bytes()) else {
        drop(plan);
        return None;
    };
    Some(accepted(plan, certificate)?)
}

/// The checked deployment of a plan, by the certificate that is proposed for it.
pub fn proposed(alloc: Global, plan: Plan) -> Option<Checked>
    ensures { IfSome result (λ x. x.plan ≡ plan) }
{
    let Ok(Some(certificate)) = propose(alloc, &plan) else {
        drop(plan);
        return None;
    };
    accepted(plan, certificate)
}
