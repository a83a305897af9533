//! The longest lists: each key of each endpoint of the greatest plan, by entries without `key`. No list has more single
//! keys, since one more names an endpoint and key again. So TooMany is reported for arrays alone.

use crate::tests::expecting::expect_equal;
use crate::tests::plans::{NO_MEMORY, certificate_of, plan_of};
use dds_cert::{CertFault, read_certificate};
use dds_match::Plan;
use dds_weights::Certificate;
use std::alloc::Global;
use std::process::Abort;

/// So many endpoints of a kind a plan may have.
const ENDPOINTS: u32 = 256;

/// So many keys a topic may have.
const KEYS: u32 = 64;

/// A text, so many times a part with its number in the place of `#`, and a third.
fn numbered(
    rt: &impl Abort,
    alloc: Global,
    start: &str,
    part: &str,
    times: u32,
    end: &str,
) -> String {
    let mut text = String::from_str(alloc, start).expect(rt, NO_MEMORY);
    for n in 0..times {
        let number = format!(in alloc; "{n}").expect(rt, NO_MEMORY);
        let entry = part
            .replace(alloc, "#", number.as_str())
            .expect(rt, NO_MEMORY);
        text.push_str(entry.as_str()).expect(rt, NO_MEMORY);
    }
    text.push_str(end).expect(rt, NO_MEMORY);
    text
}

/// A list of this name, with an entry for each endpoint.
fn list_of(rt: &impl Abort, alloc: Global, name: &str, part: &str, end: &str) -> String {
    let start = format!(in alloc; "{name} = [").expect(rt, NO_MEMORY);
    numbered(rt, alloc, start.as_str(), part, ENDPOINTS, end)
}

/// A topic of 64 keys, 256 writers and 256 readers.
fn greatest(rt: &impl Abort, alloc: Global) -> String {
    let topics = numbered(
        rt,
        alloc,
        "version = 1\nparticipants = [{ name = \"p\", domain = 0 }]\ntopics = [{ name = \"t\", type = \"T\", keys = [",
        "\"k#\", ",
        KEYS,
        "] }]\n",
    );
    let writer = "{ name = \"w#\", participant = \"p\", topic = \"t\" }, ";
    let writers = list_of(rt, alloc, "writers", writer, "]\n");
    let reader = "{ name = \"r#\", participant = \"p\", topic = \"t\" }, ";
    let readers = list_of(rt, alloc, "readers", reader, "]\n");
    let own_writers = list_of(
        rt,
        alloc,
        "applications = [{ name = \"x\", participant = \"p\", writers",
        "\"w#\", ",
        "], ",
    );
    let own_readers = list_of(rt, alloc, "readers", "\"r#\", ", "] }]\n");
    format!(in alloc; "{topics}{writers}{readers}{own_writers}{own_readers}").expect(rt, NO_MEMORY)
}

/// A certificate that names each key of each endpoint in each list, and after them in `permits` what `more` says.
fn longest(rt: &impl Abort, alloc: Global, more: &str) -> String {
    let bound = "{ reader = \"r#\", row = \"m\", bound = 1 }, ";
    let bounds = list_of(rt, alloc, "version = 2\nbounds", bound, "]\n");
    let reader = "{ reader = \"r#\", weight = 2 }, ";
    let samples = list_of(rt, alloc, "[[rows]]\nname = \"m\"\nsamples", reader, "]\n");
    let takes = list_of(rt, alloc, "takes", reader, "]\n");
    let writer = "{ writer = \"w#\", weight = 3 }, ";
    let permits = list_of(rt, alloc, "permits", writer, more);
    format!(in alloc; "{bounds}{samples}{takes}{permits}]\n").expect(rt, NO_MEMORY)
}

/// The lists are as long as they may be, and end with the last key of the last endpoint.
fn expect_longest(rt: &impl Abort, found: &Certificate) {
    expect_equal(rt, found.rows.len(), 1, "rows");
    expect_equal(rt, found.bounds.len(), 16_384, "bounds");
    for row in &found.rows {
        expect_equal(rt, row.samples.len(), 16_384, "samples");
        expect_equal(rt, row.takes.len(), 16_384, "takes");
        expect_equal(rt, row.permits.len(), 16_384, "permits");
        let Some(last) = row.permits.get(16_383) else {
            panic!(rt; "no last permit");
        };
        let have = (last.endpoint.number(), last.key.number(), last.weight);
        expect_equal(rt, have, (255, 63, 3), "the last permit");
    }
}

/// The message for a certificate: the number and the name of the fault and its path, or `ok`.
fn told(rt: &impl Abort, alloc: Global, plan: &Plan, bytes: &[u8]) -> String {
    let told = match read_certificate(alloc, plan, bytes) {
        Ok(certificate) => {
            drop(certificate);
            String::from_str(alloc, "ok")
        }
        Err(CertFault::NoMemory) => String::from_str(alloc, "11 NoMemory"),
        Err(CertFault::At(fault)) => {
            let kind = fault.kind;
            format!(in alloc; "{} {} {}", kind.number(), kind.name(), fault.path)
        }
    };
    told.expect(rt, NO_MEMORY)
}

/// The longest certificate is read, and one with a further entry has a fault.
#[test]
fn reads_the_longest_lists(rt: HostRuntime) {
    let alloc = rt.alloc();
    let deployment = greatest(&rt, alloc);
    let plan = plan_of(&rt, alloc, deployment.as_str());
    let text = longest(&rt, alloc, "");
    let found = certificate_of(&rt, alloc, &plan, text.as_str());
    expect_equal(&rt, found.fits(&plan), true, "fits");
    expect_longest(&rt, &found);
    drop(found);
    let text = longest(&rt, alloc, "{ writer = \"w7\", key = \"k9\", weight = 1 }");
    let answer = told(&rt, alloc, &plan, text.as_bytes());
    let wanted = "8 Duplicate rows[0].permits[256]";
    expect_equal(&rt, answer.as_str(), wanted, "one more");
    drop(plan);
}
