//! The path of a place in a document, which grows and shrinks on the way through it.

use dds_base::NoMemory;
use std::alloc::Global;

/// A path as the faults of files have it: names with a dot between them, and `[n]` for the nth element of an array,
/// from 0.
#[derive(Drop)]
pub(crate) struct Path {
    alloc: Global,
    text: Vec<u8>,
}

impl Path {
    /// The path of the whole document.
    pub(crate) fn new(alloc: Global) -> Path {
        Path {
            alloc,
            text: Vec::new(alloc),
        }
    }

    /// How many bytes the path has.
    pub(crate) fn len(&self) -> usize {
        self.text.len()
    }

    /// Goes back to the first bytes of the path.
    pub(crate) fn cut(&mut self, length: usize) {
        self.text.truncate(length);
    }

    /// Goes to a name below.
    pub(crate) fn push_name(&mut self, name: &[u8]) -> Result<(), NoMemory> {
        if !self.text.is_empty() {
            self.text.push(b'.')?;
        }
        self.text.extend_from_slice(name)?;
        Ok(())
    }

    /// Goes to an element of an array.
    pub(crate) fn push_index(&mut self, index: usize) -> Result<(), NoMemory> {
        let text = format!(in self.alloc; "[{index}]")?;
        self.text.extend_from_slice(text.as_bytes())?;
        Ok(())
    }

    /// The path's bytes.
    pub(crate) fn as_slice(&self) -> &[u8] {
        self.text.as_slice()
    }

    /// The path's bytes, kept apart from it.
    pub(crate) fn copy(&self) -> Result<Vec<u8>, NoMemory> {
        let mut text = Vec::new(self.alloc);
        text.extend_from_slice(self.text.as_slice())?;
        Ok(text)
    }
}
