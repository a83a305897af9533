//! Files that are as large as they may be or too large, every beginning of a file, readers that are slow or fail, and
//! an output that fails, by each command.
use crate::tests::expecting::expect_equal;
use crate::tests::files::{Command, Pair, expect, readable, text_of, told_by};
use crate::tests::plans::NO_MEMORY;
use dds_answers::{Exit, MAX_FILE, Stream};
use std::alloc::Global;
use std::io::{self, ErrorKind, Write};
use std::process::Abort;
use test_files::proposed::PING_PROPOSED;
use test_files::texts::{PING, PING_CERT};

/// Commands, and what each answers to PING.
static ANSWERS: [(Command, &str); 3] = [
    (Command::Check, "yes\nbound ping_r k 3\nbound pong_r k 3\n"),
    (
        Command::Match,
        "match ping_w ping_r\nnone ping_w pong_r topic\nnone pong_w ping_r topic\nmatch pong_w pong_r\n",
    ),
    (Command::Propose, PING_PROPOSED),
];

/// Each command answers these files as it answers PING.
fn expect_answers(rt: &impl Abort, alloc: Global, files: Pair) {
    for (command, answer) in ANSWERS {
        expect(rt, alloc, command, files, 0, answer, "");
    }
}

/// Each command answers these files with this status and this text on the error output, and nothing else.
fn expect_fault(rt: &impl Abort, alloc: Global, files: Pair, status: u8, errors: &str) {
    for (command, _) in ANSWERS {
        expect(rt, alloc, command, files, status, "", errors);
    }
}

/// PING with lines of comment, so many bytes in all.
fn padded(rt: &impl Abort, alloc: Global, size: usize) -> String {
    let room = size.saturating_sub(PING.len());
    let line = "###############################################################\n";
    let lines = line.repeat(alloc, room / 64).expect(rt, NO_MEMORY);
    let rest = "#".repeat(alloc, room % 64).expect(rt, NO_MEMORY);
    format!(in alloc; "{PING}{lines}{rest}").expect(rt, NO_MEMORY)
}

#[test]
fn takes_the_largest_file(rt: HostRuntime) {
    let largest = padded(&rt, rt.alloc(), MAX_FILE);
    expect_equal(&rt, largest.len(), MAX_FILE, "the largest file");
    let files = readable(largest.as_bytes(), PING_CERT.as_bytes());
    expect_answers(&rt, rt.alloc(), files);
}

#[test]
fn tells_a_file_that_is_too_large(rt: HostRuntime) {
    let alloc = rt.alloc();
    let larger = padded(&rt, alloc, MAX_FILE + 1);
    expect_equal(&rt, larger.len(), MAX_FILE + 1, "a larger file");
    let too_large = "ddscheck: 4 TooLarge\n";
    let first = readable(larger.as_bytes(), PING_CERT.as_bytes());
    expect_fault(&rt, alloc, first, 2, too_large);
    let second = readable(b"", larger.as_bytes());
    expect(&rt, alloc, Command::Check, second, 2, "", too_large);
}

/// PING in files that are interrupted so often, give at most so many bytes at a time, and fail after so many.
fn rough(interruptions: u32, chunk: usize, fails_after: usize) -> Pair<'static> {
    Pair {
        deployment: PING.as_bytes(),
        certificate: PING_CERT.as_bytes(),
        interruptions,
        chunk,
        fails_after,
        opened: 0,
        closed: 0,
        has_failed: false,
    }
}

#[test]
fn reads_slow_files(rt: HostRuntime) {
    let rows: [(u32, usize); 6] = [
        (0, 1),
        (0, 2),
        (0, 7),
        (1, usize::MAX),
        (1000, usize::MAX),
        (1000, 1),
    ];
    for (interruptions, chunk) in rows {
        let files = rough(interruptions, chunk, usize::MAX);
        expect_answers(&rt, rt.alloc(), files);
    }
}

#[test]
fn tells_failed_reads(rt: HostRuntime) {
    let rows: [(u32, usize, usize); 6] = [
        (1001, usize::MAX, usize::MAX),
        (1001, 1, usize::MAX),
        (0, usize::MAX, 0),
        (0, usize::MAX, 10),
        (0, 1, 10),
        (0, usize::MAX, PING.len()),
    ];
    for (interruptions, chunk, fails_after) in rows {
        let files = rough(interruptions, chunk, fails_after);
        expect_fault(&rt, rt.alloc(), files, 3, "ddscheck: 5 Read\n");
    }
}

#[test]
fn opens_and_closes_each_file_once(rt: HostRuntime) {
    let rows: [(Command, u64); 4] = [
        (Command::Check, 2),
        (Command::Match, 1),
        (Command::Propose, 1),
        (Command::Migrate, 1),
    ];
    for (command, opened) in rows {
        let mut files = readable(PING.as_bytes(), PING_CERT.as_bytes());
        drop(told_by(rt.alloc(), command, &mut files));
        let seen = (files.opened, files.closed, files.has_failed);
        let wanted = (command, (opened, opened, false));
        expect_equal(&rt, (command, seen), wanted, "opened and closed");
    }
}

/// An output that takes so many bytes, and then none.
#[derive(Drop)]
struct Full {
    room: usize,
}

impl Write for Full {
    fn write(&mut self, buf: &[u8]) -> io::Result<usize> {
        if self.room == 0 {
            return Err(io::Error::from(ErrorKind::BrokenPipe));
        }
        let count = buf.len().min(self.room);
        self.room -= count;
        Ok(count)
    }

    fn flush(&mut self) -> io::Result<()> {
        Ok(())
    }
}

/// What a command reports where its output takes so many bytes.
fn expect_write_fault(rt: &impl Abort, alloc: Global, command: Command, room: usize) {
    let mut files = readable(PING.as_bytes(), PING_CERT.as_bytes());
    let mut err = Stream::new(Vec::new(alloc));
    let mut out = Stream::new(Full { room });
    let exit = command.run(alloc, &mut files, &mut out, &mut err);
    let seen = (exit, exit.status(), out.has_failed);
    let wanted = (command, (Exit::Device, 3, true));
    expect_equal(rt, (command, seen), wanted, "a full output");
    let errors = text_of(err.writer.as_slice());
    let wanted = (command, "ddscheck: 6 Write\n");
    expect_equal(rt, (command, errors), wanted, "a full output");
}

#[test]
fn tells_a_failed_write(rt: HostRuntime) {
    for (command, _) in ANSWERS {
        for room in [0, 1, 5] {
            expect_write_fault(&rt, rt.alloc(), command, room);
        }
    }
}

// Where the error output takes nothing, only the status is given.
#[test]
fn answers_the_status_without_an_error_output(rt: HostRuntime) {
    let alloc = rt.alloc();
    for (command, _) in ANSWERS {
        let mut files = readable(b"", PING_CERT.as_bytes());
        let mut out = Stream::new(Vec::new(alloc));
        let mut err = Stream::new(Full { room: 0 });
        let exit = command.run(alloc, &mut files, &mut out, &mut err);
        let seen = (exit.status(), out.writer.len(), err.has_failed);
        let wanted = (command, (2, 0, true));
        expect_equal(&rt, (command, seen), wanted, "no error output");
    }
}

/// Runs a command on two files, whatever it answers of them.
fn expect_an_answer(rt: &impl Abort, alloc: Global, command: Command, mut files: Pair, end: usize) {
    let status = told_by(alloc, command, &mut files).exit.status();
    let have = (command, end, status <= 2);
    expect_equal(rt, have, (command, end, true), "a beginning of a file");
}

/// A command reads every beginning of a deployment.
fn over_beginnings(rt: &impl Abort, alloc: Global, command: Command) {
    let (deployment, certificate) = (PING.as_bytes(), PING_CERT.as_bytes());
    for end in 0..deployment.len() {
        let files = readable(&deployment[..end], certificate);
        expect_an_answer(rt, alloc, command, files, end);
    }
}

#[test]
fn reads_every_beginning_by_check(rt: HostRuntime) {
    over_beginnings(&rt, rt.alloc(), Command::Check);
}

#[test]
fn reads_every_beginning_by_match(rt: HostRuntime) {
    over_beginnings(&rt, rt.alloc(), Command::Match);
}

#[test]
fn reads_every_beginning_by_propose(rt: HostRuntime) {
    over_beginnings(&rt, rt.alloc(), Command::Propose);
}

#[test]
fn reads_every_beginning_of_a_certificate(rt: HostRuntime) {
    let (deployment, certificate) = (PING.as_bytes(), PING_CERT.as_bytes());
    for end in 0..certificate.len() {
        let files = readable(deployment, &certificate[..end]);
        expect_an_answer(&rt, rt.alloc(), Command::Check, files, end);
    }
}
