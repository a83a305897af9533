//! Applications that ask for one event over and over.

use dds_base::{Event, KeyNo, NoMemory, ReaderNo, Reply, WriterNo};
use dds_peers::{Act, App, Diary};
use std::alloc::Global;

/// Wants its event so many times and then stops. It may be short of memory before one of its calls.
#[derive(Drop)]
pub(crate) struct Script {
    diary: Diary,
    event: Event,
    left: u64,
    short_in: Option<u64>,
}

impl Script {
    pub(crate) fn new(alloc: Global, event: Event, left: u64) -> Script {
        Script {
            diary: Diary::new(alloc),
            event,
            left,
            short_in: None,
        }
    }

    /// It is short of memory after so many calls.
    pub(crate) fn short_in(self, calls: u64) -> Script {
        let Script {
            diary,
            event,
            left,
            ..
        } = self;
        Script {
            diary,
            event,
            left,
            short_in: Some(calls),
        }
    }

    /// Its diary has an entry that it didn't make.
    pub(crate) fn with_an_entry(self) -> Result<Script, NoMemory> {
        let mut script = self;
        script.diary.plan(script.event)?;
        script.diary.enter(&Reply::Fired);
        Ok(script)
    }
}

impl App for Script {
    ghost notes = { λ s. s.diary };

    ghost identity = { λ _. 0 };

    fn act(&mut self) -> Result<Act, NoMemory> {
        if self.short_in == Some(0) {
            return Err(NoMemory);
        }
        if self.left == 0 {
            return Ok(Act::Stop);
        }
        self.diary.plan(self.event)?;
        self.left -= 1;
        if let Some(calls) = self.short_in {
            self.short_in = Some(calls.saturating_sub(1));
        }
        Ok(Act::Do(self.event))
    }

    fn hear(&mut self, reply: &Reply) {
        self.diary.enter(reply);
    }

    fn diary(&self) -> &Diary {
        &self.diary
    }
}

/// Writes a sample of the first key at a writer.
pub(crate) fn write_at(writer: usize) -> Event {
    Event::Write {
        writer: WriterNo::new(writer),
        key: KeyNo::new(0),
        payload: [0; 32],
    }
}

/// Takes a sample of the first key at a reader.
pub(crate) fn take_at(reader: usize) -> Event {
    Event::Take {
        reader: ReaderNo::new(reader),
        key: KeyNo::new(0),
    }
}
