//! The messages that are sent, and the bus.

use crate::world::World;
use dds_base::{
    AckNack, DataMsg, GapMsg, Heartbeat, NoMemory, Packet, ReaderNo, Refusal, Reply, SnSet,
    WriterNo,
};

/// The DATA of a number. None where the number isn't at hand or isn't relevant.
fn data(world: &World, writer: WriterNo, reader: ReaderNo, sn: u64) -> Option<Packet> {
    if !world.is_at_hand(writer, reader, sn) || !world.is_relevant(writer, reader, sn) {
        return None;
    }
    let message = DataMsg::new(reader, world.sample(writer, sn)?)?;
    Some(Packet::Data(message))
}

/// The first number after this one that the reader may still get, or that is unwritten.
pub(crate) fn gap_end(world: &World, writer: WriterNo, reader: ReaderNo, start: u64) -> u64 {
    for sn in start..world.written(writer) {
        if world.is_offered(writer, reader, sn + 1) {
            return sn + 1;
        }
    }
    world.written(writer).saturating_add(1)
}

/// The GAP from a number on. None where the reader is a watcher, or no matched strict reader awaits the number, or the
/// reader may still get it.
fn gap(world: &World, writer: WriterNo, reader: ReaderNo, start: u64) -> Option<Packet> {
    if world.layout.is_watcher(reader) {
        return None;
    }
    if !world.is_pending(writer, start) || world.is_offered(writer, reader, start) {
        return None;
    }
    let set = SnSet::new(gap_end(world, writer, reader, start), &[])?;
    let message = GapMsg::new(writer, reader, start, set)?;
    Some(Packet::Gap(message))
}

/// The least number that a writer keeps, or else the next one.
fn first_kept(world: &World, writer: WriterNo) -> u64 {
    let written = world.written(writer);
    for sn in 1..=written {
        if world.is_kept(writer, sn) {
            return sn;
        }
    }
    written.saturating_add(1)
}

/// The HEARTBEAT of a writer. None to a watcher.
fn heartbeat(world: &World, writer: WriterNo, reader: ReaderNo) -> Option<Packet> {
    if world.layout.is_watcher(reader) {
        return None;
    }
    let first = first_kept(world, writer);
    let message = Heartbeat::new(writer, reader, first, world.written(writer))?;
    Some(Packet::Heartbeat(message))
}

/// The numbers of a writer that a reader asks for: of the 256 from its base on, those heard of that have no mark.
fn missing(world: &World, reader: ReaderNo, writer: WriterNo) -> Result<Vec<u64>, NoMemory> {
    let base = world.base(reader, writer);
    let heard = world.heard(reader, writer);
    let mut missing = Vec::new(world.alloc);
    for n in base..base.saturating_add(256) {
        if n <= heard && !world.is_marked(reader, writer, n) {
            missing.push(n)?;
        }
    }
    Ok(missing)
}

/// The ACKNACK of a reader. None of a watcher.
fn acknack(world: &World, reader: ReaderNo, writer: WriterNo) -> Result<Option<Packet>, NoMemory> {
    if world.layout.is_watcher(reader) {
        return Ok(None);
    }
    let missing = missing(world, reader, writer)?;
    match SnSet::new(world.base(reader, writer), &missing) {
        Some(set) => Ok(Some(Packet::AckNack(AckNack {
            reader,
            writer,
            set,
        }))),
        None => Ok(None),
    }
}

/// Puts a packet at the lowest free place of the bus. A full bus loses it.
fn send(world: &mut World, packet: Packet) -> Reply {
    let place = world.bus.iter().position(|p| p.is_none());
    if let Some(place) = place {
        if let Some(held) = world.bus.get_mut(place) {
            *held = Some(packet);
        }
    }
    Reply::Sent(place)
}

/// Sends what there is to send.
fn send_some(world: &mut World, packet: Option<Packet>) -> Reply {
    match packet {
        Some(packet) => send(world, packet),
        None => Reply::Refused(Refusal::NothingToSend),
    }
}

/// A writer sends a DATA.
pub(crate) fn send_data(world: &mut World, writer: WriterNo, reader: ReaderNo, sn: u64) -> Reply {
    if !world.layout.matched(writer, reader) {
        return Reply::Refused(Refusal::Foreign);
    }
    let packet = data(world, writer, reader, sn);
    send_some(world, packet)
}

/// A writer sends a GAP.
pub(crate) fn send_gap(world: &mut World, writer: WriterNo, reader: ReaderNo, start: u64) -> Reply {
    if !world.layout.matched(writer, reader) {
        return Reply::Refused(Refusal::Foreign);
    }
    let packet = gap(world, writer, reader, start);
    send_some(world, packet)
}

/// A writer sends its HEARTBEAT. It always has one for a strict reader.
pub(crate) fn send_heartbeat(world: &mut World, writer: WriterNo, reader: ReaderNo) -> Reply {
    if !world.layout.matched(writer, reader) {
        return Reply::Refused(Refusal::Foreign);
    }
    let packet = heartbeat(world, writer, reader);
    send_some(world, packet)
}

/// A reader sends its ACKNACK. A strict one always has one.
pub(crate) fn send_acknack(
    world: &mut World,
    reader: ReaderNo,
    writer: WriterNo,
) -> Result<Reply, NoMemory> {
    if !world.layout.matched(writer, reader) {
        return Ok(Reply::Refused(Refusal::Foreign));
    }
    let packet = acknack(world, reader, writer)?;
    Ok(send_some(world, packet))
}
