//! What was written and what came where, while a run is made: for each writer the keys of its samples in order, and for
//! each pair the next number to come.

use dds_base::{KeyNo, NoMemory, ReaderNo, WriterNo};
use std::alloc::Global;

/// The samples that were written, and how far each pair has come. Numbers begin at 1.
#[derive(Drop)]
pub(crate) struct History {
    /// By writer, the keys of its samples.
    written: Vec<Vec<KeyNo>>,
    /// By writer and then by reader, how many numbers came.
    came: Vec<u64>,
    readers: usize,
}

impl History {
    /// The history of so many writers and readers before anything is written.
    pub(crate) fn new(alloc: Global, writers: usize, readers: usize) -> Result<History, NoMemory> {
        let mut written = Vec::new(alloc);
        for _ in 0..writers {
            if written.push(Vec::new(alloc)).is_err() {
                return Err(NoMemory);
            }
        }
        Ok(History {
            written,
            came: vec![in alloc; 0; writers.saturating_mul(readers)]?,
            readers,
        })
    }

    /// Adds a sample of a key.
    pub(crate) fn write(&mut self, writer: WriterNo, key: KeyNo) -> Result<(), NoMemory> {
        if let Some(keys) = self.written.get_mut(writer.number()) {
            keys.push(key)?;
        }
        Ok(())
    }

    /// The place of a pair.
    fn pair(&self, writer: WriterNo, reader: ReaderNo) -> Option<usize> {
        writer
            .number()
            .checked_mul(self.readers)?
            .checked_add(reader.number())
    }

    /// How many numbers of a writer reached a reader.
    fn came(&self, writer: WriterNo, reader: ReaderNo) -> Option<u64> {
        let pair = self.pair(writer, reader)?;
        self.came.get(pair).copied()
    }

    /// The next number to come, if it is written, and its key.
    pub(crate) fn next(&self, writer: WriterNo, reader: ReaderNo) -> Option<(u64, KeyNo)> {
        let came = self.came(writer, reader)?;
        let keys = self.written.get(writer.number())?;
        let key = keys.get(usize::try_from(came).ok()?)?;
        Some((came.checked_add(1)?, *key))
    }

    /// All numbers up to this one came.
    pub(crate) fn came_up_to(&mut self, writer: WriterNo, reader: ReaderNo, upto: u64) {
        let Some(pair) = self.pair(writer, reader) else {
            return;
        };
        if let Some(came) = self.came.get_mut(pair) {
            *came = upto;
        }
    }

    /// Whether a number of a writer reached a reader.
    pub(crate) fn has_come(&self, writer: WriterNo, reader: ReaderNo) -> bool {
        match self.came(writer, reader) {
            Some(came) => came > 0,
            None => false,
        }
    }

    /// How many samples of the keys were written that have not reached a reader.
    pub(crate) fn under_way(&self, writer: WriterNo, reader: ReaderNo, keys: &[KeyNo]) -> usize {
        let Some(rest) = self.rest(writer, reader) else {
            return 0;
        };
        rest.iter().filter(|key| keys.contains(key)).count()
    }

    /// The keys of the samples that have not reached a reader, in the order of their numbers.
    fn rest(&self, writer: WriterNo, reader: ReaderNo) -> Option<&[KeyNo]> {
        let came = usize::try_from(self.came(writer, reader)?).ok()?;
        self.written.get(writer.number())?.get(came..)
    }

    /// How many numbers come before the first sample of one of the keys that has not reached a reader, if there is such
    /// a sample.
    pub(crate) fn before(
        &self,
        writer: WriterNo,
        reader: ReaderNo,
        keys: &[KeyNo],
    ) -> Option<usize> {
        let rest = self.rest(writer, reader)?;
        rest.iter().position(|key| keys.contains(key))
    }
}
