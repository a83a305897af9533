//! The first entry of a trace that breaks a pace or an age.
ghost use Rattle.std.specs.Prelude.{◌≡◌, ◌<◌, ◌≤◌, IfOk, length};
ghost use Rattle.dds_base.specs.Grid.{most_endpoints};
ghost use Rattle.dds_conform.specs.declared.conformance.Within.{Within};
ghost use Rattle.dds_conform.specs.Breaches.{KeepsClocks, span_of};
ghost use Rattle.dds_conform.specs.Windows.{IsFound, IsTimed, IsWindow, Kept, end_of};

use crate::actions::Entry;
use crate::conformance::Within;
use crate::windows::{Breach, Window};
use dds_base::{NoMemory, ReaderNo};
use dds_match::Plan;
use std::alloc::Global;

/// How soon after its write a reader takes each sample, or can take it.
fn span_of(plan: &Plan, reader: ReaderNo, within: Within) -> Option<u64>
    ensures { result ≡ span_of plan.now reader within }
{
    match within {
        Within::Taken => plan.taken_within(reader),
        Within::Available => plan.available_within(reader),
    }
}

/// Where to stop looking for an earlier breach: at the one that was found, and else at the end.
fn end_of(found: &Option<Breach>, entries: usize) -> usize
    ensures { result ≡ end_of found.now entries }
{
    match found {
        Some(breach) => breach.place(),
        None => entries,
    }
}

/// The first breach of a window's span before the end.
fn first_in(
    window: &mut Window,
    plan: &Plan,
    entries: &[Entry],
    times: &[u64],
    end: usize,
) -> Option<Breach>
    requires trace { IsTimed plan.now entries.now times.now }
    requires window { IsWindow plan.now entries.now times.now 0 window.old }
    requires end { end ≤ length entries.now }
    ensures found { IsFound plan.now entries.now times.now end result }
    ensures kept { Kept plan.now entries.now times.now window.old.reader window.old.within (end_of result end) }
{
    for at in 0..end {
        if let Some(breach) = window.step(plan, entries, times, at) {
            return Some(breach);
        }
    }
    None
}

/// The first breach of a span of the reader before the end.
fn first_of_span(
    alloc: Global,
    plan: &Plan,
    entries: &[Entry],
    times: &[u64],
    reader: ReaderNo,
    within: Within,
    end: usize,
) -> Result<Option<Breach>, NoMemory>
    requires trace { IsTimed plan.now entries.now times.now }
    requires reader { reader < most_endpoints }
    requires end { end ≤ length entries.now }
    ensures found { IfOk result (IsFound plan.now entries.now times.now end) }
    ensures kept { IfOk result (λ b. Kept plan.now entries.now times.now reader within (end_of b end)) }
{
    plan.lists().assert_well_formed();
    match span_of(plan, reader, within) {
        Some(nanoseconds) => {
            let mut window = Window::open(alloc, plan, reader, within, nanoseconds)?;
            Ok(first_in(&mut window, plan, entries, times, end))
        }
        None => Ok(None),
    }
}

/// The first breach of a span of the reader, if it's before the one that was found; else that one.
fn earlier(
    alloc: Global,
    plan: &Plan,
    entries: &[Entry],
    times: &[u64],
    reader: ReaderNo,
    within: Within,
    found: Option<Breach>,
) -> Result<Option<Breach>, NoMemory>
    requires trace { IsTimed plan.now entries.now times.now }
    requires reader { reader < most_endpoints }
    requires found { IsFound plan.now entries.now times.now (length entries.now) found }
    ensures found { IfOk result (IsFound plan.now entries.now times.now (length entries.now)) }
    ensures sooner { IfOk result (λ b. end_of b (length entries.now) ≤ end_of found (length entries.now)) }
    ensures kept { IfOk result
        (λ b. Kept plan.now entries.now times.now reader within (end_of b (length entries.now))) }
{
    let end = end_of(&found, entries.len());
    let sooner = first_of_span(alloc, plan, entries, times, reader, within, end)?;
    Ok(sooner.or(found))
}

/// The same of both spans of the reader.
fn earlier_of_reader(
    alloc: Global,
    plan: &Plan,
    entries: &[Entry],
    times: &[u64],
    reader: ReaderNo,
    found: Option<Breach>,
) -> Result<Option<Breach>, NoMemory>
    requires trace { IsTimed plan.now entries.now times.now }
    requires reader { reader < most_endpoints }
    requires found { IsFound plan.now entries.now times.now (length entries.now) found }
    ensures found { IfOk result (IsFound plan.now entries.now times.now (length entries.now)) }
    ensures sooner { IfOk result (λ b. end_of b (length entries.now) ≤ end_of found (length entries.now)) }
    ensures kept { IfOk result (λ b. (within : Within)
        → Kept plan.now entries.now times.now reader within (end_of b (length entries.now))) }
{
    let taken = earlier(alloc, plan, entries, times, reader, Within::Taken, found)?;
    let both = earlier(
        alloc,
        plan,
        entries,
        times,
        reader,
        Within::Available,
        taken,
    )?;
    Ok(both)
}

/// The first entry that breaks a pace or an age. Of several in one line it's the one of the first reader; of one
/// reader's that of its `taken_within`, and of one span a sample that waits too long.
pub(crate) fn first_breach(
    alloc: Global,
    plan: &Plan,
    entries: &[Entry],
    times: &[u64],
) -> Result<Option<Breach>, NoMemory>
    requires { IsTimed plan.now entries.now times.now }
    ensures found { IfOk result (IsFound plan.now entries.now times.now (length entries.now)) }
    ensures kept { IfOk result
        (λ b. KeepsClocks plan.now entries.now times.now (end_of b (length entries.now))) }
{
    let lists = plan.lists();
    let mut found = None;
    for number in 0..lists.readers() {
        let reader = ReaderNo::new(number);
        let next = earlier_of_reader(alloc, plan, entries, times, reader, found)?;
        found = next;
    }
    Ok(found)
}
