//! Opens a guard from the bytes of a deployment file and the name of an application.
ghost use Rattle.std.specs.Prelude.{◌≡◌, ◌<◌, ℕ, List, length, IfOk, IfErr, IfSome, Ok};
ghost use Rattle.dds_base.specs.Names.{number_of};
ghost use Rattle.dds_deploy.specs.Document.{read};
ghost use Rattle.dds_guard.specs.Opening.{FailsToOpen, IsOpened, OpensAs, ReadsAs, FailsToRead};

use crate::account::Account;
use crate::filters::filters_of;
use crate::guard::Guard;
use crate::names::NameTable;
use crate::refused::OpenFault;
use crate::rules::rules_of;
use crate::texts::Texts;
use dds_base::{AppNo, NoMemory};
use dds_deploy::{DeployFault, read_deployment};
use dds_lists::Deployment;
use dds_match::Plan;
use dds_match::planning::plan;
use dds_rules::Ledger;
use std::alloc::Global;

/// The deployment that the bytes are.
fn lists_of(alloc: Global, bytes: &[u8]) -> Result<Deployment, OpenFault>
    ensures ok { IfOk result (λ d. ReadsAs bytes.now d) }
    ensures err { IfErr result (FailsToRead bytes.now) }
{
    match read_deployment(alloc, bytes) {
        Ok(lists) => Ok(lists),
        Err(DeployFault::At(fault)) => Err(OpenFault::Deployment(fault.kind)),
        Err(DeployFault::NoMemory) => Err(OpenFault::NoMemory),
    }
}

/// The application of this name, if there is one.
fn application_of(alloc: Global, lists: &Deployment, name: &[u8]) -> Result<Option<AppNo>, NoMemory>
    ensures number { IfOk result (λ app. app ≡ number_of lists.now.applications.names name.now) }
    ensures there { IfOk result (λ app. IfSome app (λ a. a < length lists.now.applications.entries)) }
{
    let names = Texts::of(alloc, lists.application_names())?;
    // Each name has an entry.
    let _well_formed = lists.writers();
    match names.number(name) {
        Some(number) => Ok(Some(AppNo::new(number))),
        None => Ok(None),
    }
}

/// The guard of an application of a plan.
fn guard_of(alloc: Global, plan: &Plan, app: AppNo) -> Result<Guard, NoMemory>
    requires { app < length plan.now.applications.entries }
    ensures { IfOk result (IsOpened plan.now app) }
{
    let lists = plan.lists();
    // Rules name each pair once, and count it.
    lists.assert_well_formed();
    let ledger = Ledger::open(alloc, plan)?;
    let writers = Vec::from_slice(alloc, &lists.application(app).writers)?;
    let filters = filters_of(alloc, lists, app)?;
    let rules = rules_of(alloc, lists, app)?;
    let names = NameTable::of(alloc, lists)?;
    let account = Account { ledger, held: None };
    Ok(Guard {
        account,
        writers,
        filters,
        rules,
        names,
    })
}

/// The plan of a deployment.
fn plan_of(alloc: Global, lists: Deployment) -> Result<Plan, NoMemory>
    ensures { IfOk result (λ p. p ≡ lists) }
{
    match plan(alloc, lists) {
        Ok(plan) => Ok(plan),
        Err((_, lists)) => {
            drop(lists);
            Err(NoMemory)
        }
    }
}

/// The guard of an application of a deployment.
fn open_guard(alloc: Global, lists: Deployment, app: AppNo) -> Result<Guard, NoMemory>
    requires { app < length lists.applications.entries }
    ensures { IfOk result (IsOpened lists app) }
{
    match plan_of(alloc, lists) {
        Ok(plan) => {
            let guard = guard_of(alloc, &plan, app);
            drop(plan);
            guard
        }
        Err(_) => Err(NoMemory),
    }
}

/// The guard of the application of this name.
fn guard_named(alloc: Global, lists: Deployment, name: &[u8]) -> Result<Guard, OpenFault>
    ensures ok { (bytes : List ℕ) → read bytes ≡ Ok lists → IfOk result (OpensAs bytes name.now) }
    ensures err { (bytes : List ℕ) → read bytes ≡ Ok lists → IfErr result (FailsToOpen bytes name.now) }
{
    match application_of(alloc, &lists, name) {
        Ok(Some(app)) => match open_guard(alloc, lists, app) {
            Ok(guard) => Ok(guard),
            Err(_) => Err(OpenFault::NoMemory),
        },
        Ok(None) => {
            drop(lists);
            Err(OpenFault::UnknownApplication)
        }
        Err(_) => {
            drop(lists);
            Err(OpenFault::NoMemory)
        }
    }
}

/// Opens the guard of an application: of the deployment that the bytes are, the application of this name. Its counts
/// are the plan's before the first event. An `Err` is the kind of the deployment's first fault, that there is no
/// such application, or that memory ran out.
pub fn open(alloc: Global, deployment: &[u8], application: &[u8]) -> Result<Guard, OpenFault>
    ensures ok { IfOk result (OpensAs deployment.now application.now) }
    ensures err { IfErr result (FailsToOpen deployment.now application.now) }
{
    match lists_of(alloc, deployment) {
        Ok(lists) => guard_named(alloc, lists, application),
        Err(fault) => Err(fault),
    }
}
