//! Entries under names.
ghost use Rattle.std.specs.Prelude.{◌≡◌, ◌++◌, ◌∷◌, [], length, vec_len, None, OnErr, OnOk};
ghost use Rattle.dds_base.specs.Names.{number_of};

use crate::NoMemory;
use crate::names::Names;
use std::alloc::Global;

/// The entries of a section with their names. The number of a name is the place of both.
#[derive(Drop)]
pub struct Section<T> {
    pub names: Names,
    pub entries: Vec<T>,
    ghost paired: { length names ≡ vec_len entries },
}

impl<T: Drop> Section<T> {
    pub fn new(alloc: Global) -> Section<T>
        ensures names { result.names ≡ [] }
        ensures entries { result.entries.items ≡ [] }
    {
        Section {
            names: Names::new(alloc),
            entries: Vec::new(alloc),
        }
    }

    /// Adds an entry under a new name. Fails only where no memory is left, and then nothing changes.
    pub fn push(&mut self, alloc: Global, name: &str, entry: T) -> Result<(), NoMemory>
        requires { number_of self.old.names name.now ≡ None }
        ensures names { OnOk result (self.new.names ≡ self.old.names ++ name.now ∷ []) }
        ensures entries { OnOk result (self.new.entries.items ≡ self.old.entries.items ++ entry ∷ []) }
        ensures same_names { OnErr result (self.new.names ≡ self.old.names) }
        ensures same_entries { OnErr result (self.new.entries.items ≡ self.old.entries.items) }
    {
        let name = String::from_str(alloc, name)?;
        self.entries.reserve(1)?;
        self.names.push(name)?;
        self.entries.push_reserved(entry);
        Ok(())
    }
}
