//! What all applications wait for that were idle.
ghost use Rattle.std.specs.Prelude.{◌≡◌, ◌<◌, IfOk, length, string_bytes};
ghost use Rattle.dds_recap.specs.Idling.{idle_waits, wait_lines};
ghost use Rattle.dds_recap.specs.Recap.{spare_at};

use crate::ends::is_idle;
use crate::recap::Recap;
use crate::waits::app_waits;
use dds_apps::AppEnd;
use dds_base::AppNo;
use dds_match::Plan;
use dds_text::texts::{TextResult, text_below};
use std::alloc::Global;

/// The lines of an application, if its thread ended idle.
fn idle_waits(alloc: Global, plan: &Plan, recap: &Recap, ends: &[AppEnd], app: usize) -> TextResult
    requires app { app < length plan.now.applications.entries }
    requires end { app < length ends.now }
    ensures { IfOk result (λ text. string_bytes text ≡ idle_waits plan.now (spare_at recap.now) ends.now app) }
{
    if is_idle(ends[app]) {
        app_waits(alloc, plan, recap, AppNo::new(app))
    } else {
        Ok(String::new(alloc))
    }
}

/// The lines of all applications whose threads ended idle, in file order.
pub(crate) fn wait_lines(alloc: Global, plan: &Plan, recap: &Recap, ends: &[AppEnd]) -> TextResult
    requires { length ends.now ≡ length plan.now.applications.entries }
    ensures { IfOk result (λ text. string_bytes text ≡ wait_lines plan.now (spare_at recap.now) ends.now) }
{
    text_below(
        alloc,
        plan.lists().applications(),
        |app|
            requires app { app < length plan.now.applications.entries }
            requires end { app < length ends.now }
            ensures { IfOk result (λ text. string_bytes text
                ≡ idle_waits plan.entry.now (spare_at recap.entry.now) ends.entry.now app) }
        { idle_waits(alloc, plan, recap, ends, app) },
    )
}
