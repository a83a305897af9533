//! A writer that no rule limits, which keeps the last samples of each key alone, and a reader that never acknowledges.

use dds_base::{Event, KeyNo, Packet, ReaderNo, Reply, WriterNo};
use dds_domain::Simulator;
use std::alloc::Global;
use test_files::plans::planned;

const DEPLOYMENT: &str = r#"version = 3
participants = [{ name = "p", domain = 0 }, { name = "q", domain = 0 }]
topics = [{ name = "t", type = "Num", keys = ["a", "b"] }]
writers = [{ name = "w", participant = "p", topic = "t", depth = 4 }]
readers = [{ name = "r", participant = "q", topic = "t", reliability = "RELIABLE", history = "KEEP_ALL" }]
applications = [
  { name = "writing", participant = "p", writers = ["w"] },
  { name = "reading", participant = "q", readers = ["r"] },
]
connections = [{ writer = "w", reader = "r" }]

[[rules]]
name = "clock"
application = "writing"
writes = [{ writer = "w", key = "a", count = 1 }, { writer = "w", key = "b", count = 1 }]
start = "unlimited"
"#;

/// The simulator before the first event.
fn open(alloc: Global) -> Option<Simulator> {
    match Simulator::open(alloc, planned(alloc, DEPLOYMENT)?) {
        Ok(simulator) => Some(simulator),
        Err((_, plan)) => {
            drop(plan);
            None
        }
    }
}

/// Sends a packet, which is lost, and gives what it was.
fn send_and_lose(simulator: &mut Simulator, sending: Event) -> Option<Packet> {
    let Ok(Reply::Sent(Some(place))) = simulator.step(sending) else {
        return None;
    };
    let packet = *simulator.at(place)?;
    match simulator.step(Event::Lose { place }) {
        Ok(Reply::Dropped) => Some(packet),
        _ => None,
    }
}

/// Writes a sample under one of the two keys, and sends it and a HEARTBEAT, which are lost. Gives the HEARTBEAT.
fn write(simulator: &mut Simulator, number: usize) -> Option<Packet> {
    let writer = WriterNo::new(0);
    let reader = ReaderNo::new(0);
    let key = KeyNo::new(number & 1);
    let payload = [7; 32];
    let Ok(Reply::Written(sn)) = simulator.step(Event::Write {
        writer,
        key,
        payload,
    }) else {
        return None;
    };
    send_and_lose(simulator, Event::SendData { writer, reader, sn })?;
    send_and_lose(simulator, Event::SendHeartbeat { writer, reader })
}

/// Writes so many samples, and gives the last HEARTBEAT.
fn write_all(simulator: &mut Simulator, samples: usize) -> Option<Packet> {
    let mut last = None;
    for number in 0..samples {
        last = Some(write(simulator, number)?);
    }
    last
}

/// The numbers of the first and the last sample that the writer has for its reader after so many writes, as its
/// HEARTBEAT gives them. `None` where there was no memory, or an event did something unexpected.
pub(crate) fn write_freely(alloc: Global, samples: usize) -> Option<(u64, u64)> {
    let mut simulator = open(alloc)?;
    let last = write_all(&mut simulator, samples);
    drop(simulator);
    match last? {
        Packet::Heartbeat(heartbeat) => Some((heartbeat.first, heartbeat.last)),
        _ => None,
    }
}
