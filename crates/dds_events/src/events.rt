//! The texts of events.
ghost use Rattle.std.specs.Prelude.{◌≡◌, IfOk, string_bytes};
ghost use Rattle.std.specs.Fmt.{decimal};
ghost use Rattle.dds_text.specs.Names.{reader_name, writer_name};
ghost use Rattle.dds_text.specs.Texts.{three_words, two_words};
ghost use Rattle.dds_events.specs.Events.{event_text};

use dds_base::{Event, NoMemory, ReaderNo, WriterNo};
use dds_lists::Deployment;
use dds_text::names::{reader_key, reader_name, rule_text, writer_key, writer_name};
use std::alloc::Global;

/// What a writer sends a reader: the word for it, their names and its number, with blanks between them.
fn numbered_text(
    alloc: Global,
    lists: &Deployment,
    what: &str,
    writer: WriterNo,
    reader: ReaderNo,
    number: u64,
) -> Result<String, NoMemory>
    ensures { IfOk result
        (λ text. string_bytes text
        ≡ two_words what.now (three_words (writer_name lists.now writer) (reader_name lists.now reader)
        (decimal number))) }
{
    let writer = writer_name(lists, writer);
    let reader = reader_name(lists, reader);
    format!(in alloc; "{what} {writer} {reader} {number}")
}

/// Two words, with a blank between them, after the word of what is done.
fn paired_text(alloc: Global, what: &str, first: &str, second: &str) -> Result<String, NoMemory>
    ensures { IfOk result (λ text. string_bytes text ≡ three_words what.now first.now second.now) }
{
    format!(in alloc; "{what} {first} {second}")
}

/// What is done, in words, with the names of the file. The data of a write is not shown. `NoMemory` is the only error.
pub fn event_text(alloc: Global, lists: &Deployment, event: &Event) -> Result<String, NoMemory>
    ensures { IfOk result (λ text. string_bytes text ≡ event_text lists.now event.now) }
{
    match *event {
        Event::Write { writer, key, .. } => {
            let key = writer_key(lists, writer, key);
            paired_text(alloc, "write", writer_name(lists, writer), key)
        }
        Event::Fire { rule } => {
            let rule = rule_text(alloc, lists, rule)?;
            format!(in alloc; "fire {rule}")
        }
        Event::Take { reader, key } => {
            let key = reader_key(lists, reader, key);
            paired_text(alloc, "take", reader_name(lists, reader), key)
        }
        Event::SendData { writer, reader, sn } => {
            numbered_text(alloc, lists, "send", writer, reader, sn)
        }
        Event::SendGap {
            writer,
            reader,
            start,
        } => { numbered_text(alloc, lists, "gap", writer, reader, start) }
        Event::SendHeartbeat { writer, reader } => {
            let reader = reader_name(lists, reader);
            paired_text(alloc, "heartbeat", writer_name(lists, writer), reader)
        }
        Event::SendAckNack { reader, writer } => {
            let writer = writer_name(lists, writer);
            paired_text(alloc, "acknack", reader_name(lists, reader), writer)
        }
        Event::Deliver { place, keep: true } => format!(in alloc; "deliver {place} keep"),
        Event::Deliver { place, keep: false } => format!(in alloc; "deliver {place}"),
        Event::Lose { place } => format!(in alloc; "lose {place}"),
    }
}
