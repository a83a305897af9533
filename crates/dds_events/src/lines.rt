//! The lines of events with their replies.
ghost use Rattle.std.specs.Prelude.{◌≡◌, IfOk, string_bytes};
ghost use Rattle.dds_events.specs.Lines.{line_of, lines_of};

use crate::events::event_text;
use crate::replies::reply_text;
use dds_base::{Event, NoMemory, Reply};
use dds_lists::Deployment;
use std::alloc::Global;

/// The line of an event with its reply: `EVENT -> REPLY` and a line feed. `NoMemory` is the only error.
pub fn line_text(
    alloc: Global,
    lists: &Deployment,
    event: &Event,
    reply: &Reply,
) -> Result<String, NoMemory>
    ensures { IfOk result (λ text. string_bytes text ≡ line_of lists.now event.now reply.now) }
{
    let event = event_text(alloc, lists, event)?;
    let reply = reply_text(alloc, lists, reply)?;
    format!(in alloc; "{event} -> {reply}\n")
}

/// The lines of events with their replies, in their order. Where one list is longer, the rest of it is left out.
/// `NoMemory` is the only error.
pub fn lines_text(
    alloc: Global,
    lists: &Deployment,
    events: &[Event],
    replies: &[Reply],
) -> Result<String, NoMemory>
    ensures { IfOk result (λ text. string_bytes text ≡ lines_of lists.now events.now replies.now) }
{
    let mut text = String::new(alloc);
    for (event, reply) in events.iter().zip(replies) {
        let line = line_text(alloc, lists, event, reply)?;
        text.push_str(line.as_str())?;
    }
    Ok(text)
}
