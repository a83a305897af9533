//! A file of version 1 and what `migrate` prints of it have the same answers: of worked files, and of drawn ones.
use crate::tests::expecting::expect_equal;
use crate::tests::files::{Command, Told, readable, told_by};
use crate::tests::plans::NO_MEMORY;
use std::alloc::Global;
use std::process::Abort;
use test_files::drawn::deployment;
use test_files::texts::{LOOP, LOOP_CERT, PING, PING_CERT, SMALL, SMALL_CERT, TWO, TWO_CERT};

/// A deployment of inline tables, with a filter and without connections.
const INLINE: &str = r#"version = 1
participants = [{ name = "p", domain = 0 }, { name = "q", domain = 0 }]
topics = [{ name = "t", type = "T", keys = ["a", "b"] }, { name = "u", type = "T", keys = ["c"] }]
writers = [{ name = "w", participant = "p", topic = "t" }, { name = "v", participant = "q", topic = "t" }]
readers = [
  { name = "r", participant = "q", topic = "t" },
  { name = "s", participant = "p", topic = "t", filter = ["b"] },
]
applications = [
  { name = "x", participant = "p", writers = ["w"], readers = ["s"] },
  { name = "y", participant = "q", writers = ["v"], readers = ["r"] },
]
"#;

/// What a command answers to the texts of two files.
fn told_of(alloc: Global, command: Command, deployment: &str, certificate: &str) -> Told {
    let mut files = readable(deployment.as_bytes(), certificate.as_bytes());
    told_by(alloc, command, &mut files)
}

/// The command answers both deployments alike.
fn expect_same(
    rt: &impl Abort,
    alloc: Global,
    command: Command,
    one: &str,
    two: &str,
    certificate: &str,
) {
    let first = told_of(alloc, command, one, certificate);
    let second = told_of(alloc, command, two, certificate);
    expect_equal(rt, (command, second.out()), (command, first.out()), one);
    expect_equal(rt, (command, second.err()), (command, first.err()), one);
    expect_equal(rt, (command, second.exit), (command, first.exit), one);
}

/// What is printed of a file is of version 2, can't be migrated again, and is answered as the file.
fn expect_migrated(rt: &impl Abort, alloc: Global, text: &str, certificate: &str) {
    let printed = told_of(alloc, Command::Migrate, text, "");
    expect_equal(rt, printed.err(), "", text);
    expect_equal(rt, printed.exit.status(), 0, text);
    let new = printed.out();
    expect_equal(rt, new.contains("version = 2\n"), true, new);
    let again = told_of(alloc, Command::Migrate, new, "");
    let wanted = "ddscheck: deployment 2 WrongVersion version\n";
    expect_equal(rt, again.err(), wanted, new);
    expect_same(rt, alloc, Command::Match, text, new, "");
    expect_same(rt, alloc, Command::Propose, text, new, "");
    expect_same(rt, alloc, Command::Check, text, new, certificate);
}

/// Deployments with a certificate.
static WORKED: [(&str, &str); 5] = [
    (PING, PING_CERT),
    (LOOP, LOOP_CERT),
    (SMALL, SMALL_CERT),
    (TWO, TWO_CERT),
    (INLINE, "version = 1"),
];

#[test]
fn migrates_worked_files(rt: HostRuntime) {
    for (text, certificate) in &WORKED {
        expect_migrated(&rt, rt.alloc(), text, certificate);
    }
}

/// The certificate of a drawn deployment is the one that is proposed for it, or `none`.
fn expect_drawn(rt: &impl Abort, alloc: Global, seed: u32) {
    let text = deployment(alloc, seed).expect(rt, NO_MEMORY);
    let proposed = told_of(alloc, Command::Propose, text.as_str(), "");
    expect_migrated(rt, alloc, text.as_str(), proposed.out());
}

#[test]
fn migrates_drawn_files(rt: HostRuntime) {
    for seed in 0..50u32 {
        expect_drawn(&rt, rt.alloc(), seed);
    }
}
