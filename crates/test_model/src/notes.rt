//! What endpoints note beside the world: which numbers a writer sent and was asked for, and whether a reader owes an
//! ACKNACK. No reply depends on it.

use crate::reading::has;
use crate::sends::gap_end;
use crate::world::World;
use dds_base::{Event, NoMemory, ReaderNo, WriterNo};
use dds_qos::Due;

impl World {
    /// Whether a number is pending, and the reader won't get it: it is dropped, or its key isn't in the reader's
    /// filter.
    fn is_silent(&self, writer: WriterNo, reader: ReaderNo, sn: u64) -> bool {
        self.is_pending(writer, sn) && !self.is_offered(writer, reader, sn)
    }

    /// Whether all numbers from one to another are silent.
    fn is_silent_run(&self, writer: WriterNo, reader: ReaderNo, from: u64, to: u64) -> bool {
        from <= to && (from..=to).all(|n| self.is_silent(writer, reader, n))
    }

    /// Whether a reader owes a writer an ACKNACK: a HEARTBEAT came since the last one was sent. A watcher owes none.
    pub fn owes(&self, reader: ReaderNo, writer: WriterNo) -> bool {
        match self.from_writer(reader, writer) {
            Some(held) => held.owes,
            None => false,
        }
    }

    /// Whether a number is to be sent to a strict reader: pending, not acknowledged, and asked for or never sent.
    fn is_due(&self, writer: WriterNo, reader: ReaderNo, sn: u64) -> bool {
        match self.for_reader(writer, reader) {
            Some(held) => {
                self.is_pending(writer, sn)
                    && held.acked <= sn
                    && (held.sent < sn || has(&held.asked, sn))
            }
            None => false,
        }
    }

    /// Whether a number is to be sent to a watcher: at hand and relevant, and above all that was sent.
    fn is_watch_due(&self, writer: WriterNo, reader: ReaderNo, sn: u64) -> bool {
        match self.for_reader(writer, reader) {
            Some(held) => {
                self.is_at_hand(writer, reader, sn)
                    && self.is_relevant(writer, reader, sn)
                    && held.sent < sn
            }
            None => false,
        }
    }

    /// What a writer is to send a watcher next: the least number that is due, as a DATA.
    fn watch_due(&self, writer: WriterNo, reader: ReaderNo) -> Option<Due> {
        for sn in 1..=self.written(writer) {
            if self.is_watch_due(writer, reader, sn) {
                return Some(Due::Data(sn));
            }
        }
        None
    }

    /// What a writer is to send a reader next: the least number that is due, as a DATA or as a GAP, to a watcher never
    /// as a GAP.
    pub fn due(&self, writer: WriterNo, reader: ReaderNo) -> Option<Due> {
        if self.layout.is_watcher(reader) {
            return self.watch_due(writer, reader);
        }
        self.strict_due(writer, reader)
    }

    /// What a writer is to send a strict reader next.
    fn strict_due(&self, writer: WriterNo, reader: ReaderNo) -> Option<Due> {
        for sn in 1..=self.written(writer) {
            if self.is_due(writer, reader, sn) {
                if self.is_offered(writer, reader, sn) {
                    return Some(Due::Data(sn));
                }
                return Some(Due::Gap(sn));
            }
        }
        None
    }
}

/// What a reader asked for, without a number that is sent to it and the unbroken run of silent numbers that ends with
/// it.
fn asked_beside(
    world: &World,
    writer: WriterNo,
    reader: ReaderNo,
    sn: u64,
) -> Result<Vec<u64>, NoMemory> {
    let mut asked = Vec::new(world.alloc);
    if let Some(held) = world.for_reader(writer, reader) {
        for n in &held.asked {
            if *n != sn && !world.is_silent_run(writer, reader, *n, sn) {
                asked.push(*n)?;
            }
        }
    }
    Ok(asked)
}

/// A DATA of this number was sent to a reader, or a GAP with this number below the base of its set. The greatest number
/// sent grows, and what the reader asked for loses the number and the unbroken run of silent numbers that ends with it.
fn note_sent(
    world: &mut World,
    writer: WriterNo,
    reader: ReaderNo,
    sn: u64,
) -> Result<(), NoMemory> {
    let asked = asked_beside(world, writer, reader, sn)?;
    if let Some(held) = world.for_reader_mut(writer, reader) {
        held.sent = held.sent.max(sn);
        held.asked = asked;
    }
    Ok(())
}

/// Notes an event that sent a packet, on a full bus too.
pub(crate) fn note(world: &mut World, event: &Event) -> Result<(), NoMemory> {
    match *event {
        Event::SendData { writer, reader, sn } => note_sent(world, writer, reader, sn),
        Event::SendGap {
            writer,
            reader,
            start,
        } => {
            let end = gap_end(world, writer, reader, start);
            note_sent(world, writer, reader, end.saturating_sub(1))
        }
        Event::SendAckNack { reader, writer } => {
            if let Some(held) = world.from_writer_mut(reader, writer) {
                held.owes = false;
            }
            Ok(())
        }
        _ => Ok(()),
    }
}
