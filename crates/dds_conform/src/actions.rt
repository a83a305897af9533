//! What a line of a trace says.
ghost use Rattle.std.specs.Prelude.{◌≡◌};
ghost use Rattle.dds_conform.specs.Entries.{entry_action, entry_application, entry_line};

use dds_base::{AppNo, KeyNo, ReaderNo, WriterNo};

/// What an application did.
#[derive(Clone, Copy, Debug, PartialEq, Eq)]
pub enum Action {
    /// It wrote a sample of a key.
    Write { writer: WriterNo, key: KeyNo },
    /// It took a sample of a key.
    Take { reader: ReaderNo, key: KeyNo },
}

/// A line of a trace, by its number from 1, and what an application did.
#[derive(Clone, Copy, Debug, PartialEq, Eq)]
pub enum Entry {
    /// It wrote a sample of a key.
    Wrote {
        line: usize,
        application: AppNo,
        writer: WriterNo,
        key: KeyNo,
    },
    /// It took a sample of a key.
    Took {
        line: usize,
        application: AppNo,
        reader: ReaderNo,
        key: KeyNo,
    },
}

impl Entry {
    /// The entry of a line that reports an application's action.
    pub fn new(line: usize, application: AppNo, action: Action) -> Entry
        ensures line { entry_line result ≡ line }
        ensures application { entry_application result ≡ application }
        ensures action { entry_action result ≡ action }
    {
        match action {
            Action::Write { writer, key } => Entry::Wrote {
                line,
                application,
                writer,
                key,
            },
            Action::Take { reader, key } => Entry::Took {
                line,
                application,
                reader,
                key,
            },
        }
    }

    /// The number of the line, from 1.
    pub fn line(self) -> usize
        ensures { result ≡ entry_line self }
    {
        match self {
            Entry::Wrote { line, .. } => line,
            Entry::Took { line, .. } => line,
        }
    }

    /// The application.
    pub fn application(self) -> AppNo
        ensures { result ≡ entry_application self }
    {
        match self {
            Entry::Wrote { application, .. } => application,
            Entry::Took { application, .. } => application,
        }
    }

    /// What the application did.
    pub fn action(self) -> Action
        ensures { result ≡ entry_action self }
    {
        match self {
            Entry::Wrote { writer, key, .. } => Action::Write { writer, key },
            Entry::Took { reader, key, .. } => Action::Take { reader, key },
        }
    }
}
