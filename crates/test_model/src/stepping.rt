//! One step: what an event does and replies.

use crate::arrivals::{deliver, lose};
use crate::notes::note;
use crate::rules::fire;
use crate::sends::{send_acknack, send_data, send_gap, send_heartbeat};
use crate::takes::take;
use crate::world::World;
use crate::writes::write;
use dds_base::{Event, NoMemory, Reply, Sample};

/// Makes an event, and answers its reply.
fn made(world: &mut World, event: &Event, wanted: &Option<Sample>) -> Result<Reply, NoMemory> {
    match *event {
        Event::Write {
            writer,
            key,
            payload,
        } => write(world, writer, key, payload),
        Event::Fire { rule } => Ok(fire(world, rule)),
        Event::Take { reader, key } => take(world, reader, key, wanted),
        Event::SendData { writer, reader, sn } => Ok(send_data(world, writer, reader, sn)),
        Event::SendGap {
            writer,
            reader,
            start,
        } => Ok(send_gap(world, writer, reader, start)),
        Event::SendHeartbeat { writer, reader } => Ok(send_heartbeat(world, writer, reader)),
        Event::SendAckNack { reader, writer } => send_acknack(world, reader, writer),
        Event::Deliver { place, keep } => deliver(world, place, keep),
        Event::Lose { place } => Ok(lose(world, place)),
    }
}

/// Makes an event in the world, and answers its reply. A refusal changes nothing. A take that may give samples of
/// several writers gives the wanted one where it may, as one that was taken elsewhere, and else one of the writer whose
/// sample was stored first. An `Err` means that memory ran out; the world may be changed in part then, and is of no
/// more use.
pub fn step_as(
    world: &mut World,
    event: &Event,
    wanted: &Option<Sample>,
) -> Result<Reply, NoMemory> {
    let reply = made(world, event, wanted)?;
    if let Reply::Sent(_) = reply {
        note(world, event)?;
    }
    Ok(reply)
}

/// `step_as` with nothing wanted.
pub fn step(world: &mut World, event: &Event) -> Result<Reply, NoMemory> {
    step_as(world, event, &None)
}
