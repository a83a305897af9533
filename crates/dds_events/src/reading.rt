//! Events read from lines of text.
ghost use Rattle.std.specs.Prelude.{◌≡◌, IfErr, IfNone, IfOk, IfSome, IsUtf8, OnOk, map};
ghost use Rattle.std.specs.List.{All};
ghost use Rattle.dds_events.specs.Events.{event_text};
ghost use Rattle.dds_events.specs.Reading.{HasNoData, IsFaultOf, IsLineFaultOf, IsOfDeployment, IsSaidBy, SaysNoEvent};
ghost use Rattle.dds_events.specs.Reading.{before_arrow, said_of, says_something};

use crate::fault::{EventsFault, EventsFaultKind};
use crate::kinds::{
    acknack_of, data_of, delivery_of, fire_of, gap_of, heartbeat_of, loss_of, take_of, write_of,
};
use dds_base::Event;
use dds_lists::Deployment;
use std::alloc::Global;

/// The event of the deployment that a text says, `None` just where it is the text of none. A write that is read has 32
/// zero bytes of data.
pub fn read_event(lists: &Deployment, line: &str) -> Option<Event>
    ensures known { IfSome result (IsOfDeployment lists.now) }
    ensures some { IfSome result (IsSaidBy lists.now line.now) }
    ensures none { IfNone result (SaysNoEvent lists.now line.now) }
{
    write_of(lists, line)
        .or(fire_of(lists, line))
        .or(take_of(lists, line))
        .or(data_of(lists, line))
        .or(gap_of(lists, line))
        .or(heartbeat_of(lists, line))
        .or(acknack_of(lists, line))
        .or(delivery_of(line))
        .or(loss_of(line))
}

/// Whether a line says something: it is not empty, no comment, and doesn't say where a sample is lost.
fn says_something(line: &str) -> bool
    ensures { result ≡ says_something line.now }
{
    !line.is_empty() && !line.starts_with("#") && !line.starts_with("unsafe ")
}

/// What stands in a line before the first arrow with its blanks, or all of the line.
fn before_arrow(line: &str) -> &str
    ensures { result.now ≡ before_arrow line.now }
{
    match line.split_once(" -> ") {
        Some((event, _)) => event,
        None => line,
    }
}

/// The event of a line that says something. Where the line is no event, the fault has its number.
fn read_line(lists: &Deployment, line: &str, number: usize) -> Result<Event, EventsFault>
    ensures known { IfOk result (IsOfDeployment lists.now) }
    ensures event { IfOk result (IsSaidBy lists.now (before_arrow line.now)) }
    ensures fault { IfErr result (λ e. e ≡ EventsFault.At EventsFaultKind.NotAnEvent number) }
    ensures none { IfErr result (λ _. SaysNoEvent lists.now (before_arrow line.now)) }
{
    match read_event(lists, before_arrow(line)) {
        Some(event) => Ok(event),
        None => Err(EventsFault::At {
            kind: EventsFaultKind::NotAnEvent,
            line: number,
        }),
    }
}

/// The events of the lines of a text.
fn read_text(alloc: Global, lists: &Deployment, text: &str) -> Result<Vec<Event>, EventsFault>
    ensures events { IfOk result (λ events. map (event_text lists.now) events.items ≡ said_of text.now) }
    ensures known { IfOk result (λ events. All (IsOfDeployment lists.now) events.items) }
    ensures no_data { IfOk result (λ events. All HasNoData events.items) }
    ensures fault { IfErr result (IsLineFaultOf lists.now text.now) }
{
    let mut events = Vec::new(alloc);
    let mut number = 0;
    for line in text.lines() {
        number += 1;
        if says_something(line) {
            events.push(read_line(lists, line, number)?)?;
        }
    }
    Ok(events)
}

/// The events of a file, in order. A line that is empty, or begins with `#` or `unsafe `, says nothing; of any other
/// what stands before the first ` -> ` is the text of an event of the deployment. The fault is the first line of which
/// that isn't so, or `NotText` just where the bytes are not UTF-8, and `NoMemory` comes where memory ran out.
pub fn read_events(
    alloc: Global,
    lists: &Deployment,
    bytes: &[u8],
) -> Result<Vec<Event>, EventsFault>
    ensures events { IfOk result (λ events. map (event_text lists.now) events.items ≡ said_of bytes.now) }
    ensures known { IfOk result (λ events. All (IsOfDeployment lists.now) events.items) }
    ensures no_data { IfOk result (λ events. All HasNoData events.items) }
    ensures text { OnOk result (IsUtf8 bytes.now) }
    ensures fault { IfErr result (IsFaultOf lists.now bytes.now) }
{
    match str::from_utf8(bytes) {
        Ok(text) => read_text(alloc, lists, text),
        Err(_) => Err(EventsFault::At {
            kind: EventsFaultKind::NotText,
            line: 0,
        }),
    }
}
