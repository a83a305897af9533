//! Files in memory, readers that fail, and what commands answer to two such files.
ghost use Rattle.std.specs.Prelude.{◌≡◌, ◌||◌};
ghost use Rattle.dds_answers.specs.Reading.{is_worn};

use crate::tests::expecting::expect_equal;
use dds_answers::{
    Answer, Counted, Exit, MAX_FILE, Output, Sources, Stream, ToolFault, check_answer, give,
    match_answer, migrate_answer, propose_answer, read_file, read_files, tell_fault,
};
use dds_options::Detail;
use std::alloc::Global;
use std::io::{self, ErrorKind, Read};
use std::process::Abort;
use std::str;

/// A file that is interrupted for a while before it gives its bytes, gives at most `chunk` of them at a time, and fails
/// after some.
#[derive(Drop)]
pub(crate) struct Rough<'a> {
    pub bytes: &'a [u8],
    pub interruptions: u32,
    pub chunk: usize,
    pub fails_after: usize,
}

impl<'a> Read for Rough<'a> {
    fn read(&mut self, buf: &mut [u8]) -> io::Result<usize> {
        if self.interruptions > 0 {
            self.interruptions -= 1;
            return Err(io::Error::from(ErrorKind::Interrupted));
        }
        if self.fails_after == 0 {
            return Err(io::Error::from(ErrorKind::Other));
        }
        let mut first = self.bytes;
        if first.len() > self.fails_after {
            first = &first[..self.fails_after];
        }
        if first.len() > self.chunk {
            first = &first[..self.chunk];
        }
        let count = first.read(buf)?;
        if count <= self.bytes.len() && count <= self.fails_after {
            self.bytes = &self.bytes[count..];
            self.fails_after -= count;
        }
        Ok(count)
    }
}

/// A deployment at the path `d` and a certificate at the path `c`, and no other file. It counts the files that were
/// opened, those that were given back, and notes whether one has failed.
#[derive(Clone, Copy)]
pub(crate) struct Pair<'a> {
    pub deployment: &'a [u8],
    pub certificate: &'a [u8],
    pub interruptions: u32,
    pub chunk: usize,
    pub fails_after: usize,
    pub opened: u64,
    pub closed: u64,
    pub has_failed: bool,
}

/// Two files that are read without a fault.
pub(crate) fn readable<'a>(deployment: &'a [u8], certificate: &'a [u8]) -> Pair<'a> {
    Pair {
        deployment,
        certificate,
        interruptions: 0,
        chunk: usize::MAX,
        fails_after: usize::MAX,
        opened: 0,
        closed: 0,
        has_failed: false,
    }
}

impl<'a> Sources for Pair<'a> {
    type R = Rough<'a>;

    ghost has_failed = { λ p. p.has_failed };

    fn open(&mut self, path: &str) -> Option<Rough<'a>> {
        self.opened = self.opened.saturating_add(1);
        let bytes = match path {
            "d" => self.deployment,
            "c" => self.certificate,
            _ => {
                self.has_failed = true;
                return None;
            }
        };
        Some(Rough {
            bytes,
            interruptions: self.interruptions,
            chunk: self.chunk,
            fails_after: self.fails_after,
        })
    }

    fn close(&mut self, reader: Counted<Rough<'a>>)
        ensures { self.new.has_failed ≡ (is_worn reader.entry.failed reader.entry.interrupted || self.old.has_failed) }
    {
        self.closed = self.closed.saturating_add(1);
        if reader.is_worn() {
            self.has_failed = true;
        }
    }
}

/// The text of what was written, to be compared.
pub(crate) fn text_of(bytes: &[u8]) -> &str {
    match str::from_utf8(bytes) {
        Ok(text) => text,
        Err(_) => "(bytes that are no text)",
    }
}

/// A command on the files `d` and `c`, or on `d` alone.
#[derive(Clone, Copy, Debug, PartialEq)]
pub(crate) enum Command {
    Check,
    Match,
    Propose,
    Migrate,
}

impl Command {
    fn answer<S: Sources>(self, alloc: Global, files: &mut S) -> Result<Answer, ToolFault> {
        if self == Command::Check {
            let (d, c) = read_files(alloc, files, "d", "c", MAX_FILE)?;
            return check_answer(alloc, d.as_slice(), c.as_slice(), Detail::Plain);
        }
        let bytes = read_file(alloc, files, "d")?;
        match self {
            Command::Match => match_answer(alloc, bytes.as_slice()),
            Command::Propose => propose_answer(alloc, bytes.as_slice()),
            Command::Check | Command::Migrate => migrate_answer(alloc, bytes.as_slice()),
        }
    }

    /// Writes what the command answers to files, as the program does.
    pub(crate) fn run<S: Sources, O: Output, E: Output>(
        self,
        alloc: Global,
        files: &mut S,
        out: &mut O,
        err: &mut E,
    ) -> Exit {
        match give(self.answer(alloc, files), out, err) {
            Ok(exit) => exit,
            Err(fault) => tell_fault(alloc, err, &fault),
        }
    }
}

/// What a command writes for two files, and how it ends.
#[derive(Drop)]
pub(crate) struct Told {
    pub(crate) exit: Exit,
    out: Vec<u8>,
    err: Vec<u8>,
}

impl Told {
    /// What was written to the output.
    pub(crate) fn out(&self) -> &str {
        text_of(self.out.as_slice())
    }

    /// What was written to the error output.
    pub(crate) fn err(&self) -> &str {
        text_of(self.err.as_slice())
    }
}

pub(crate) fn told_by(alloc: Global, command: Command, files: &mut Pair) -> Told {
    let mut out = Stream::new(Vec::new(alloc));
    let mut err = Stream::new(Vec::new(alloc));
    let exit = command.run(alloc, files, &mut out, &mut err);
    Told {
        exit,
        out: out.writer,
        err: err.writer,
    }
}

/// Compares the status and what is written.
pub(crate) fn expect(
    rt: &impl Abort,
    alloc: Global,
    command: Command,
    mut files: Pair,
    status: u8,
    output: &str,
    errors: &str,
) {
    let told = told_by(alloc, command, &mut files);
    expect_equal(rt, (command, told.out()), (command, output), "output");
    expect_equal(rt, (command, told.err()), (command, errors), "errors");
    let have = (command, told.exit.status());
    expect_equal(rt, have, (command, status), "status");
}
