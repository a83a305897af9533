//! Journals.
ghost use Rattle.std.specs.Prelude.{◌≡◌};

use crate::entry::Entry;
use std::marker::Model;

/// All that was entered into a book, in order. A contract sees the list.
#[derive(Drop)]
pub struct Journal {
    pub(crate) entries: Vec<Entry>,
}

impl Model for Journal {
    ghost use Rattle.std.specs.Prelude.{List};
    ghost use Rattle.dds_book.specs.declared.entry.Entry.{Entry};

    ghost Value = { List Entry };

    ghost view = { λ j. j.entries.items };
}

impl Journal {
    /// The entries, at most 1,048,576.
    pub fn entries(&self) -> &[Entry]
        ensures { result.now ≡ self.now }
    {
        self.entries.as_slice()
    }
}
