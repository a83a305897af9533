//! What a plain reader notes of each of its writers.

ghost use Rattle.std.specs.Prelude.{◌≡◌, ◌≤◌, ◌==◌, IfOk, position};
ghost use Rattle.std.specs.List.{All};
ghost use Rattle.dds_base.specs.Sets.{last_number};
ghost use Rattle.dds_reader.specs.Notes.{has_writer, heard_in, hears, hears_one, opened, owes_in, pays, pays_one};

use dds_base::{NoMemory, WriterNo};
use dds_reader::WriterProxy;
use std::alloc::Global;

// The notes of writers of which nothing is heard.
pub(crate) fn opened(alloc: Global, writers: &[WriterNo]) -> Result<Vec<WriterProxy>, NoMemory>
    ensures { IfOk result (λ v. v.items ≡ opened writers.now) }
{
    let mut proxies = Vec::with_capacity(alloc, writers.len())?;
    for writer in writers {
        proxies.push_reserved(WriterProxy {
            writer: *writer,
            heard: 0,
            owes: false,
        });
    }
    Ok(proxies)
}

pub(crate) fn has_writer(proxies: &[WriterProxy], writer: WriterNo) -> bool
    ensures { result ≡ has_writer writer proxies.now }
{
    proxies.iter().any(|p| p.writer == writer)
}

fn place_of(proxies: &[WriterProxy], writer: WriterNo) -> Option<usize>
    ensures { result ≡ position (λ p. p.writer == writer) proxies.now }
{
    proxies.iter().position(|p| p.writer == writer)
}

// The greatest last number heard from a writer.
pub(crate) fn heard_from(proxies: &[WriterProxy], writer: WriterNo) -> u64
    requires { All (λ p. p.heard ≤ last_number) proxies.now }
    ensures heard { result ≡ heard_in writer proxies.now }
    ensures small { result ≤ last_number }
{
    match place_of(proxies, writer) {
        Some(at) => proxies[at].heard,
        None => 0,
    }
}

// Whether an ACKNACK is owed to a writer.
pub(crate) fn owes_to(proxies: &[WriterProxy], writer: WriterNo) -> bool
    ensures { result ≡ owes_in writer proxies.now }
{
    match place_of(proxies, writer) {
        Some(at) => proxies[at].owes,
        None => false,
    }
}

// Notes a HEARTBEAT of a writer with this last number.
pub(crate) fn hear(proxies: &mut Vec<WriterProxy>, writer: WriterNo, last: u64)
    ensures { proxies.new.items ≡ hears writer last proxies.old.items }
{
    hear_all(proxies, writer, last);
}

fn hear_all(proxies: &mut [WriterProxy], writer: WriterNo, last: u64)
    ensures { proxies.new ≡ hears writer last proxies.old }
{
    for proxy in proxies.iter_mut() {
        *proxy = hear_one(*proxy, writer, last);
    }
}

fn hear_one(proxy: WriterProxy, writer: WriterNo, last: u64) -> WriterProxy
    ensures { result ≡ hears_one writer last proxy }
{
    if proxy.writer == writer {
        WriterProxy {
            writer,
            heard: proxy.heard.max(last),
            owes: true,
        }
    } else {
        proxy
    }
}

// Notes that an ACKNACK to a writer was built.
pub(crate) fn pay(proxies: &mut Vec<WriterProxy>, writer: WriterNo)
    ensures { proxies.new.items ≡ pays writer proxies.old.items }
{
    pay_all(proxies, writer);
}

fn pay_all(proxies: &mut [WriterProxy], writer: WriterNo)
    ensures { proxies.new ≡ pays writer proxies.old }
{
    for proxy in proxies.iter_mut() {
        *proxy = pay_one(*proxy, writer);
    }
}

fn pay_one(proxy: WriterProxy, writer: WriterNo) -> WriterProxy
    ensures { result ≡ pays_one writer proxy }
{
    if proxy.writer == writer {
        WriterProxy {
            writer,
            heard: proxy.heard,
            owes: false,
        }
    } else {
        proxy
    }
}
