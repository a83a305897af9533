//! The world of a run: all that has happened so far, and the packets under way. Nothing is forgotten, and whatever can
//! be worked out from it is not kept beside it.

ghost use Rattle.std.specs.Prelude.{◌≡◌, IfOk};

use crate::layout::Layout;
use dds_base::{Data, KeyNo, NoMemory, Packet, ReaderNo, Sample, WriterNo};
use std::alloc::Global;

/// How many packets the bus holds at most.
pub const BUS_PLACES: usize = 4096;

/// The greatest number that a sample may have.
pub(crate) const LAST_NUMBER: u64 = (1 << 63) - 1;

/// What a writer wrote under a number.
#[derive(Clone, Copy, PartialEq, Eq)]
pub(crate) struct Entry {
    pub(crate) key: KeyNo,
    pub(crate) payload: Data,
}

/// What a writer holds for a reader.
#[derive(Drop)]
pub(crate) struct ForReader {
    /// The base that the reader acknowledged, 1 at first and always for a watcher.
    pub(crate) acked: u64,
    /// The greatest number noted as sent, 0 at first.
    pub(crate) sent: u64,
    /// The numbers that the last ACKNACK that counted asked for, without those sent since.
    pub(crate) asked: Vec<u64>,
}

/// A writer's past.
#[derive(Drop)]
pub(crate) struct WriterPast {
    /// What it wrote, in order. The first has the number 1.
    pub(crate) written: Vec<Entry>,
    /// By the number of the reader.
    pub(crate) readers: Vec<ForReader>,
}

/// What a reader holds for a writer.
#[derive(Drop)]
pub(crate) struct FromWriter {
    /// The numbers marked as irrelevant.
    pub(crate) irrelevant: Vec<u64>,
    /// The numbers marked as lost, which the reader gave up.
    pub(crate) lost: Vec<u64>,
    /// The greatest last number of a HEARTBEAT, 0 at first.
    pub(crate) heard: u64,
    /// Whether an ACKNACK is owed.
    pub(crate) owes: bool,
}

/// A reader's past.
#[derive(Drop)]
pub(crate) struct ReaderPast {
    /// The samples that it stored, in the order of storing.
    pub(crate) received: Vec<Sample>,
    /// The samples that its application took.
    pub(crate) taken: Vec<Sample>,
    /// The samples that a newer one replaced.
    pub(crate) overwritten: Vec<Sample>,
    /// By the number of the writer.
    pub(crate) writers: Vec<FromWriter>,
}

/// A deployment and all that has happened in it.
#[derive(Drop)]
pub struct World {
    pub(crate) alloc: Global,
    pub(crate) layout: Layout,
    pub(crate) writers: Vec<WriterPast>,
    pub(crate) readers: Vec<ReaderPast>,
    /// How often each rule fired.
    pub(crate) fired: Vec<u64>,
    /// The packet at each place of the bus.
    pub(crate) bus: Vec<Option<Packet>>,
}

/// A writer that has done nothing, among so many readers.
fn new_writer(alloc: Global, readers: usize) -> Result<WriterPast, NoMemory> {
    let mut held = Vec::new(alloc);
    for _ in 0..readers {
        held.push(ForReader {
            acked: 1,
            sent: 0,
            asked: Vec::new(alloc),
        })?;
    }
    Ok(WriterPast {
        written: Vec::new(alloc),
        readers: held,
    })
}

/// A reader that has done nothing, among so many writers.
fn new_reader(alloc: Global, writers: usize) -> Result<ReaderPast, NoMemory> {
    let mut held = Vec::new(alloc);
    for _ in 0..writers {
        held.push(FromWriter {
            irrelevant: Vec::new(alloc),
            lost: Vec::new(alloc),
            heard: 0,
            owes: false,
        })?;
    }
    Ok(ReaderPast {
        received: Vec::new(alloc),
        taken: Vec::new(alloc),
        overwritten: Vec::new(alloc),
        writers: held,
    })
}

fn new_writers(alloc: Global, layout: &Layout) -> Result<Vec<WriterPast>, NoMemory> {
    let mut writers = Vec::new(alloc);
    for _ in &layout.writers {
        writers.push(new_writer(alloc, layout.readers.len())?)?;
    }
    Ok(writers)
}

fn new_readers(alloc: Global, layout: &Layout) -> Result<Vec<ReaderPast>, NoMemory> {
    let mut readers = Vec::new(alloc);
    for _ in &layout.readers {
        readers.push(new_reader(alloc, layout.writers.len())?)?;
    }
    Ok(readers)
}

/// A bus without a packet.
pub fn empty_bus(alloc: Global) -> Result<Vec<Option<Packet>>, NoMemory> {
    let mut bus = Vec::new(alloc);
    for _ in 0..BUS_PLACES {
        bus.push(None)?;
    }
    Ok(bus)
}

impl World {
    /// The world before the first event. An `Err` means that memory ran out.
    pub fn open(alloc: Global, layout: Layout) -> Result<World, NoMemory>
        ensures { IfOk result (λ v. v.layout ≡ layout) }
    {
        let mut fired = Vec::new(alloc);
        for _ in &layout.rules {
            fired.push(0)?;
        }
        Ok(World {
            alloc,
            writers: new_writers(alloc, &layout)?,
            readers: new_readers(alloc, &layout)?,
            fired,
            bus: empty_bus(alloc)?,
            layout,
        })
    }

    /// The deployment.
    pub fn layout(&self) -> &Layout
        ensures { result.now ≡ self.now.layout }
    {
        &self.layout
    }

    /// The packet at a place of the bus, if there is one.
    pub fn at(&self, place: usize) -> Option<Packet> {
        match self.bus.get(place) {
            Some(packet) => *packet,
            None => None,
        }
    }

    /// What a writer wrote, nothing where there is no such writer.
    pub(crate) fn entries(&self, writer: WriterNo) -> &[Entry] {
        match self.writers.get(writer.number()) {
            Some(past) => past.written.as_slice(),
            None => &[],
        }
    }

    /// What a writer holds for a reader.
    pub(crate) fn for_reader(&self, writer: WriterNo, reader: ReaderNo) -> Option<&ForReader> {
        self.writers
            .get(writer.number())?
            .readers
            .get(reader.number())
    }

    /// What a reader holds for a writer.
    pub(crate) fn from_writer(&self, reader: ReaderNo, writer: WriterNo) -> Option<&FromWriter> {
        self.readers
            .get(reader.number())?
            .writers
            .get(writer.number())
    }

    pub(crate) fn for_reader_mut(
        &mut self,
        writer: WriterNo,
        reader: ReaderNo,
    ) -> Option<&mut ForReader> {
        self.writers
            .get_mut(writer.number())?
            .readers
            .get_mut(reader.number())
    }

    pub(crate) fn from_writer_mut(
        &mut self,
        reader: ReaderNo,
        writer: WriterNo,
    ) -> Option<&mut FromWriter> {
        self.readers
            .get_mut(reader.number())?
            .writers
            .get_mut(writer.number())
    }

    /// The base that a reader acknowledged to a writer.
    pub fn acked(&self, writer: WriterNo, reader: ReaderNo) -> u64 {
        match self.for_reader(writer, reader) {
            Some(held) => held.acked,
            None => 1,
        }
    }

    /// The greatest last number of a HEARTBEAT of a writer that reached a reader.
    pub fn heard(&self, reader: ReaderNo, writer: WriterNo) -> u64 {
        match self.from_writer(reader, writer) {
            Some(held) => held.heard,
            None => 0,
        }
    }
}
