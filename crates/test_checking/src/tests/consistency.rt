//! Which policies of one endpoint go together, and which fault comes where they don't: worked by hand, and as Eclipse
//! Cyclone DDS 0.10.2 answers, which doesn't name the fault.
//!
//! A case is a line of words: the side, the endpoint and the fault, or `-` for none. An endpoint is `name=value` joined
//! by `;`, where `ms` is `max_samples` and `mspi` is `max_samples_per_instance`, or `-` where all policies have their
//! defaults.

mod answers;

use crate::tests::expecting::expect_equal;
use dds_qos::{
    AccessScope, DestinationOrder, Durability, Duration, History, HistoryKind, Liveliness,
    LivelinessKind, Ownership, Policies, Presentation, QosFault, ReaderQos, Reliability,
    ResourceLimits, WriterQos, consistent_reader, consistent_writer,
};

/// The defaults of all policies but RELIABILITY.
fn defaults(reliability: Reliability) -> Policies {
    Policies {
        durability: Durability::Volatile,
        presentation: Presentation {
            access_scope: AccessScope::Instance,
            coherent: false,
            ordered: false,
        },
        deadline: Duration::Infinite,
        latency_budget: Duration::Nanoseconds(0),
        ownership: Ownership::Shared,
        liveliness: Liveliness {
            kind: LivelinessKind::Automatic,
            lease: Duration::Infinite,
        },
        reliability,
        destination_order: DestinationOrder::ByReceptionTimestamp,
        history: History {
            kind: HistoryKind::KeepLast,
            depth: 1,
        },
        resource_limits: ResourceLimits {
            max_samples: None,
            max_instances: None,
            max_samples_per_instance: None,
        },
    }
}

fn history_kind(word: &str) -> Option<HistoryKind> {
    match word {
        "KEEP_LAST" => Some(HistoryKind::KeepLast),
        "KEEP_ALL" => Some(HistoryKind::KeepAll),
        _ => None,
    }
}

fn number(word: &str) -> Option<u32> {
    word.parse::<u32>().ok()
}

/// Sets one policy. `None` where there is no such one, or no such value of it.
fn set(policies: &mut Policies, name: &str, value: &str) -> Option<()> {
    match name {
        "history" => policies.history.kind = history_kind(value)?,
        "depth" => policies.history.depth = number(value)?,
        "ms" => policies.resource_limits.max_samples = Some(number(value)?),
        "mspi" => policies.resource_limits.max_samples_per_instance = Some(number(value)?),
        _ => return None,
    }
    Some(())
}

/// The policies of an endpoint.
fn policies_of(text: &str, reliability: Reliability) -> Option<Policies> {
    let mut all = defaults(reliability);
    if text != "-" {
        for part in text.split(';') {
            let (name, value) = part.split_once("=")?;
            set(&mut all, name, value)?;
        }
    }
    Some(all)
}

fn writer_of(text: &str) -> Option<WriterQos> {
    let offered = policies_of(text, Reliability::Reliable)?;
    Some(WriterQos { offered })
}

fn reader_of(text: &str) -> Option<ReaderQos> {
    let requested = policies_of(text, Reliability::BestEffort)?;
    Some(ReaderQos { requested })
}

fn fault_of(word: &str) -> Option<Result<(), QosFault>> {
    match word {
        "-" => Some(Ok(())),
        "DepthOverLimit" => Some(Err(QosFault::DepthOverLimit)),
        "SamplesUnderInstance" => Some(Err(QosFault::SamplesUnderInstance)),
        _ => None,
    }
}

/// Whether the policies of the endpoint go together as the line says. `None` where it is no case.
fn goes_together(line: &str) -> Option<bool> {
    let mut words = line.split(' ');
    let side = words.next()?;
    let endpoint = words.next()?;
    let wanted = fault_of(words.next()?)?;
    match side {
        "writer" => Some(consistent_writer(&writer_of(endpoint)?) == wanted),
        "reader" => Some(consistent_reader(&reader_of(endpoint)?) == wanted),
        _ => None,
    }
}

#[test]
fn policies_go_together(rt: HostRuntime) {
    let rows: [&str; 6] = [
        "writer history=KEEP_LAST;depth=2;mspi=1 DepthOverLimit",
        "writer history=KEEP_ALL;depth=2;mspi=1 -",
        "writer history=KEEP_ALL;depth=2;ms=1;mspi=2 SamplesUnderInstance",
        "writer history=KEEP_LAST;depth=3;ms=1;mspi=2 DepthOverLimit",
        "reader history=KEEP_LAST;depth=2 -",
        "reader history=KEEP_LAST;depth=2;ms=1 -",
    ];
    for row in rows {
        expect_equal(&rt, goes_together(row), Some(true), row);
    }
}

#[test]
fn policies_go_together_as_elsewhere(rt: HostRuntime) {
    let mut cases: u64 = 0;
    for line in answers::CASES.lines() {
        expect_equal(&rt, goes_together(line), Some(true), line);
        cases = cases.wrapping_add(1);
    }
    expect_equal(&rt, cases, 85, "cases");
}
