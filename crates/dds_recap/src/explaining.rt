//! A journal, event by event, and the lines that it comes down to.
ghost use Rattle.std.specs.Prelude.{◌≡◌, ◌++◌, ℕ, IfOk, length, string_bytes};
ghost use Rattle.dds_match.specs.Plan.{network_of};
ghost use Rattle.dds_book.specs.Journal.{IsJournal, pairs_of, world_after};
ghost use Rattle.dds_recap.specs.Explanation.{explanation};
ghost use Rattle.dds_recap.specs.Held.{most_held, most_held_in_all};
ghost use Rattle.dds_recap.specs.Idling.{wait_lines};
ghost use Rattle.dds_recap.specs.Lines.{reader_lines};
ghost use Rattle.dds_recap.specs.Recap.{Follows, spare_at};
ghost use Rattle.dds_recap.specs.Tally.{most_at, most_in_all_at};

use crate::fullest::reader_lines;
use crate::idling::wait_lines;
use crate::recap::Recap;
use dds_apps::AppEnd;
use dds_base::NoMemory;
use dds_book::Entry;
use dds_match::Plan;
use dds_text::texts::TextResult;
use std::alloc::Global;

/// The recap of a journal.
fn recap_of(alloc: Global, plan: &Plan, entries: &[Entry]) -> Result<Recap, NoMemory>
    requires { IsJournal plan.now entries.now }
    ensures follows { IfOk result (λ x. Follows (network_of plan.now) (world_after plan.now entries.now) x) }
    ensures of_key { IfOk result (λ x. (r k : ℕ)
        → most_at x.by_key r k ≡ most_held (network_of plan.now) (pairs_of entries.now) r k) }
    ensures of_all { IfOk result (λ x. (r : ℕ)
        → most_in_all_at x.in_all r ≡ most_held_in_all (network_of plan.now) (pairs_of entries.now) r) }
{
    let mut recap = Recap::new(alloc);
    for entry in entries {
        recap.note(plan, &entry.event, &entry.reply)?;
    }
    Ok(recap)
}

/// The lines of a recap.
fn recap_text(alloc: Global, plan: &Plan, recap: &Recap, ends: &[AppEnd]) -> TextResult
    requires { length ends.now ≡ length plan.now.applications.entries }
    ensures { IfOk result (λ text. string_bytes text
        ≡ reader_lines plan.now (most_at recap.now.by_key) (most_in_all_at recap.now.in_all)
        ++ wait_lines plan.now (spare_at recap.now) ends.now) }
{
    let readers = reader_lines(alloc, plan, recap)?;
    let waits = wait_lines(alloc, plan, recap, ends)?;
    format!(in alloc; "{readers}{waits}")
}

/// What the run of a journal came to: a line for each reader, in file order, with the most unread samples that it held
/// at once and the limit that it is held against, if it has one: of one key where an instance is limited, by `depth` or
/// `max_samples_per_instance`, else of all keys, by `max_samples`; then, for each application that ended idle, a line
/// for each reader and key of which a rule of it needs more takes than are unspent. Counting takes 24 bytes or so for
/// each sample written. `NoMemory` is the only error.
pub fn explain_run(alloc: Global, plan: &Plan, journal: &[Entry], ends: &[AppEnd]) -> TextResult
    requires journal { IsJournal plan.now journal.now }
    requires ends { length ends.now ≡ length plan.now.applications.entries }
    ensures { IfOk result (λ text. string_bytes text ≡ explanation plan.now journal.now ends.now) }
{
    let recap = recap_of(alloc, plan, journal)?;
    recap_text(alloc, plan, &recap, ends)
}
