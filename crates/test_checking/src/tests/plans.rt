//! Plans of deployment files, and certificates that are read for them. The functions have no clauses: what they give is
//! compared when the tests run, and nothing of it is to be proved.

use dds_cert::read_certificate;
use dds_match::Plan;
use dds_weights::Certificate;
use std::alloc::Global;
use std::process::Abort;
use test_files::plans::planned;

/// The message where memory is refused, which ends a test.
pub(crate) const NO_MEMORY: &str = "no memory";

/// Two topics, of the keys `a`, `b`, `c` and of the key `d`, each with a writer. The reader `r` takes all keys of the
/// first, `s` two of them, which it names in another order, `o` is of the second topic, and `e` takes no key.
pub(crate) const FILTERS: &str = r#"version = 1
participants = [{ name = "p", domain = 0 }]
topics = [{ name = "t", type = "T", keys = ["a", "b", "c"] }, { name = "u", type = "T", keys = ["d"] }]
writers = [{ name = "w", participant = "p", topic = "t" }, { name = "v", participant = "p", topic = "u" }]
readers = [
  { name = "r", participant = "p", topic = "t" },
  { name = "s", participant = "p", topic = "t", filter = ["c", "a"] },
  { name = "o", participant = "p", topic = "u" },
  { name = "e", participant = "p", topic = "t", filter = [] },
]
applications = [{ name = "x", participant = "p", writers = ["w", "v"], readers = ["r", "s", "o", "e"] }]
"#;

/// The plan of a deployment without a fault.
pub(crate) fn plan_of(rt: &impl Abort, alloc: Global, text: &str) -> Plan {
    planned(alloc, text).expect(rt, "no plan of the deployment")
}

/// Reads a certificate without a fault for a plan.
pub(crate) fn certificate_of(
    rt: &impl Abort,
    alloc: Global,
    plan: &Plan,
    text: &str,
) -> Certificate {
    read_certificate(alloc, plan, text.as_bytes()).expect(rt, "no certificate")
}
