//! What a reader notes of each of its writers.

ghost use Rattle.std.specs.Prelude.{◌≡◌, ◌≤◌, IfOk, IsTrue};
ghost use Rattle.std.specs.List.{All};
ghost use Rattle.dds_base.specs.Numbered.{AreRising};
ghost use Rattle.dds_base.specs.Sets.{last_number};
ghost use Rattle.dds_reader.specs.Notes.{has_writer, heard_in, hears, hears_one, opened, owes_in, pays, pays_one};

use dds_base::{NoMemory, Numbered, WriterNo, place_of};
use std::alloc::Global;

/// What a reader notes of one of its writers (DDSI-RTPS 2.5, clause 8.4.10.4), its marks aside.
#[derive(Clone, Copy, Debug, PartialEq, Eq)]
pub struct WriterProxy {
    pub writer: WriterNo,
    /// The greatest last number that a HEARTBEAT of the writer gave, 0 to 2^63 - 1.
    pub heard: u64,
    /// Whether a HEARTBEAT came since the last ACKNACK to the writer was built.
    pub owes: bool,
}

impl Numbered for WriterProxy {
    ghost number_of = { λ p. p.writer };

    fn number(&self) -> usize {
        self.writer.number()
    }
}

// The notes of writers of which nothing is heard.
pub(crate) fn open_proxies(
    alloc: Global,
    writers: &[WriterNo],
) -> Result<Vec<WriterProxy>, NoMemory>
    ensures { IfOk result (λ v. v.items ≡ opened writers.now) }
{
    let mut proxies = Vec::with_capacity(alloc, writers.len())?;
    for writer in writers {
        proxies.push_reserved(WriterProxy {
            writer: *writer,
            heard: 0,
            owes: false,
        });
    }
    Ok(proxies)
}

// In what follows `rising` says that the notes stand in order of their writers' numbers, so that one is found by
// halving.

// Whether a writer is noted.
pub(crate) fn has_writer(proxies: &[WriterProxy], rising: bool, writer: WriterNo) -> bool
    requires { IsTrue rising → AreRising (λ p. p.writer) proxies.now }
    ensures { result ≡ has_writer writer proxies.now }
{
    place_of(proxies, rising, writer.number()).is_some()
}

// The greatest last number heard from a writer.
pub(crate) fn heard_from(proxies: &[WriterProxy], rising: bool, writer: WriterNo) -> u64
    requires order { IsTrue rising → AreRising (λ p. p.writer) proxies.now }
    requires fits { All (λ p. p.heard ≤ last_number) proxies.now }
    ensures heard { result ≡ heard_in writer proxies.now }
    ensures small { result ≤ last_number }
{
    match place_of(proxies, rising, writer.number()) {
        Some(at) => proxies[at].heard,
        None => 0,
    }
}

// Whether an ACKNACK is owed to a writer.
pub(crate) fn owes_to(proxies: &[WriterProxy], rising: bool, writer: WriterNo) -> bool
    requires { IsTrue rising → AreRising (λ p. p.writer) proxies.now }
    ensures { result ≡ owes_in writer proxies.now }
{
    match place_of(proxies, rising, writer.number()) {
        Some(at) => proxies[at].owes,
        None => false,
    }
}

// Notes a HEARTBEAT of a writer with this last number.
pub(crate) fn hear(proxies: &mut Vec<WriterProxy>, rising: bool, writer: WriterNo, last: u64)
    requires { IsTrue rising → AreRising (λ p. p.writer) proxies.old.items }
    ensures { proxies.new.items ≡ hears writer last proxies.old.items }
{
    if !rising {
        hear_each(proxies, writer, last);
    } else if let Some(at) = place_of(proxies, rising, writer.number()) {
        proxies[at] = hear_one(proxies[at], writer, last);
    }
}

// The same by a walk, in whatever order the notes stand.
fn hear_each(proxies: &mut [WriterProxy], writer: WriterNo, last: u64)
    ensures { proxies.new ≡ hears writer last proxies.old }
{
    for proxy in proxies.iter_mut() {
        *proxy = hear_one(*proxy, writer, last);
    }
}

fn hear_one(proxy: WriterProxy, writer: WriterNo, last: u64) -> WriterProxy
    ensures { result ≡ hears_one writer last proxy }
{
    if proxy.writer == writer {
        WriterProxy {
            writer,
            heard: proxy.heard.max(last),
            owes: true,
        }
    } else {
        proxy
    }
}

// Notes that an ACKNACK to a writer was built.
pub(crate) fn pay(proxies: &mut Vec<WriterProxy>, rising: bool, writer: WriterNo)
    requires { IsTrue rising → AreRising (λ p. p.writer) proxies.old.items }
    ensures { proxies.new.items ≡ pays writer proxies.old.items }
{
    if !rising {
        pay_each(proxies, writer);
    } else if let Some(at) = place_of(proxies, rising, writer.number()) {
        proxies[at] = pay_one(proxies[at], writer);
    }
}

// The same by a walk, in whatever order the notes stand.
fn pay_each(proxies: &mut [WriterProxy], writer: WriterNo)
    ensures { proxies.new ≡ pays writer proxies.old }
{
    for proxy in proxies.iter_mut() {
        *proxy = pay_one(*proxy, writer);
    }
}

fn pay_one(proxy: WriterProxy, writer: WriterNo) -> WriterProxy
    ensures { result ≡ pays_one writer proxy }
{
    if proxy.writer == writer {
        WriterProxy {
            writer,
            heard: proxy.heard,
            owes: false,
        }
    } else {
        proxy
    }
}
