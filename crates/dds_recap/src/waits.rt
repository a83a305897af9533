//! The lines that say what an application waits for that can do no more.
ghost use Rattle.std.specs.Prelude.{◌≡◌, ◌<◌, IfOk, length, string_bytes};
ghost use Rattle.dds_match.specs.Plan.{network_of};
ghost use Rattle.dds_recap.specs.Recap.{spare_at};
ghost use Rattle.dds_recap.specs.Waits.{app_waits, is_short, key_wait, keys_waits, lacks, reader_waits};
ghost use Rattle.dds_recap.specs.Waits.{wait_line, waits};

use crate::recap::Recap;
use dds_base::{AppNo, KeyNo, Portion, ReaderNo, RuleNo};
use dds_match::Plan;
use dds_text::names::{keys_of_reader, name_at, reader_key, reader_name};
use dds_text::texts::{TextResult, text_below};
use std::alloc::Global;

/// Whether more of a key at a reader are needed than these.
fn is_short(needs: &[Portion<ReaderNo>], reader: ReaderNo, key: KeyNo, spare: u64) -> bool
    ensures { result ≡ is_short needs.now reader key spare }
{
    needs.iter().any(|needed| needed.endpoint == reader
        && needed.key == key
        && spare < u64::from(needed.count))
}

/// Whether a rule is the application's, and needs more takes of a key at a reader than these.
fn lacks(plan: &Plan, app: AppNo, reader: ReaderNo, key: KeyNo, spare: u64, rule: RuleNo) -> bool
    requires { rule < length plan.now.rules.entries }
    ensures { result ≡ lacks (network_of plan.now) app reader key spare rule }
{
    let rule = plan.rule(rule);
    rule.application == app && is_short(&rule.takes, reader, key, spare)
}

/// Whether some rule of an application needs more takes of a key at a reader than are unspent.
#[tactic(auto, using(crate::proofs::Going::any_more))]
fn waits(plan: &Plan, recap: &Recap, app: AppNo, reader: ReaderNo, key: KeyNo) -> bool
    ensures { result ≡ waits (network_of plan.now) (spare_at recap.now) app reader key }
{
    let spare = recap.spare(reader, key);
    let mut any = false;
    for rule in 0..plan.lists().rules() {
        let here = lacks(plan, app, reader, key, spare, RuleNo::new(rule));
        any = here || any;
    }
    any
}

/// The line of an application that waits for a key at a reader.
fn wait_line(alloc: Global, plan: &Plan, app: AppNo, reader: ReaderNo, key: KeyNo) -> TextResult
    ensures { IfOk result (λ text. string_bytes text ≡ wait_line plan.now app reader key) }
{
    let lists = plan.lists();
    let app = name_at(lists.application_names(), app.number());
    let name = reader_name(lists, reader);
    let key = reader_key(lists, reader, key);
    format!(in alloc; "{app} waits for {name} {key}\n")
}

/// The line of an application, if it waits for a key at a reader.
fn key_wait(
    alloc: Global,
    plan: &Plan,
    recap: &Recap,
    app: AppNo,
    reader: ReaderNo,
    key: usize,
) -> TextResult
    ensures { IfOk result (λ text. string_bytes text ≡ key_wait plan.now (spare_at recap.now) app reader key) }
{
    let key = KeyNo::new(key);
    if waits(plan, recap, app, reader, key) {
        wait_line(alloc, plan, app, reader, key)
    } else {
        Ok(String::new(alloc))
    }
}

/// The lines of an application and the keys of a reader.
fn keys_waits(alloc: Global, plan: &Plan, recap: &Recap, app: AppNo, reader: ReaderNo) -> TextResult
    requires { reader < length plan.now.readers.entries }
    ensures { IfOk result (λ text. string_bytes text ≡ keys_waits plan.now (spare_at recap.now) app reader) }
{
    let keys = keys_of_reader(plan.lists(), reader).len();
    text_below(alloc, keys, |key| {
        key_wait(alloc, plan, recap, app, reader, key)
    })
}

/// The lines of an application and the keys of a reader, if it is the application's.
fn reader_waits(alloc: Global, plan: &Plan, recap: &Recap, app: AppNo, reader: usize) -> TextResult
    requires app { app < length plan.now.applications.entries }
    requires reader { reader < length plan.now.readers.entries }
    ensures { IfOk result (λ text. string_bytes text ≡ reader_waits plan.now (spare_at recap.now) app reader) }
{
    let reader = ReaderNo::new(reader);
    if plan.lists().application(app).readers.contains(&reader) {
        keys_waits(alloc, plan, recap, app, reader)
    } else {
        Ok(String::new(alloc))
    }
}

/// The lines of an application, by readers in file order.
pub(crate) fn app_waits(alloc: Global, plan: &Plan, recap: &Recap, app: AppNo) -> TextResult
    requires { app < length plan.now.applications.entries }
    ensures { IfOk result (λ text. string_bytes text ≡ app_waits plan.now (spare_at recap.now) app) }
{
    text_below(
        alloc,
        plan.lists().readers(),
        |reader|
            requires app { app < length plan.now.applications.entries }
            requires reader { reader < length plan.now.readers.entries }
            ensures { IfOk result (λ text. string_bytes text
                ≡ reader_waits plan.entry.now (spare_at recap.entry.now) app reader) }
        { reader_waits(alloc, plan, recap, app, reader) },
    )
}
