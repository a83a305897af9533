//! The text of certificates, byte for byte.

use crate::tests::expecting::expect_equal;
use crate::tests::plans::{FILTERS, NO_MEMORY, plan_of};
use crate::tests::weights::{Placed, PlainBound, PlainTotal, PlainWeight};
use dds_base::{KeyNo, ReaderNo};
use dds_match::Plan;
use dds_weights::{Bound, Certificate, Row, Total, Weight, certificate_text};
use std::alloc::Global;
use std::process::Abort;
use test_files::proposed::{PING_PROPOSED, SMALL_PROPOSED};
use test_files::texts::{PING, SMALL, TWO};

/// A certificate of TWO with a total and an empty row.
const TWO_TEXT: &str = r#"version = 1

[[rows]]
name = "m"
samples = [
  { reader = "r", key = "a", weight = 1 },
  { reader = "r", key = "b", weight = 4294967295 },
]
takes = []
permits = []

[[rows]]
name = "n"
samples = []
takes = []
permits = []

[[bounds]]
reader = "r"
key = "b"
row = "n"
bound = 0

[[totals]]
reader = "r"
row = "m"
bound = 4294967295
"#;

/// A certificate of FILTERS whose lists name endpoints and keys from last to first, and some with a weight of zero.
const FILTERS_TEXT: &str = r#"version = 1

[[rows]]
name = "m"
samples = [
  { reader = "r", key = "a", weight = 1 },
  { reader = "r", key = "c", weight = 3 },
  { reader = "s", key = "a", weight = 4 },
  { reader = "s", key = "c", weight = 5 },
  { reader = "o", key = "d", weight = 6 },
]
takes = []
permits = [
  { writer = "w", key = "a", weight = 7 },
  { writer = "w", key = "b", weight = 8 },
  { writer = "v", key = "d", weight = 9 },
]

[[bounds]]
reader = "o"
key = "d"
row = "m"
bound = 2

[[bounds]]
reader = "s"
key = "c"
row = "m"
bound = 1

[[totals]]
reader = "s"
row = "m"
bound = 2

[[totals]]
reader = "r"
row = "m"
bound = 1
"#;

/// The weights of endpoints.
fn weights<E: Placed>(rt: &impl Abort, alloc: Global, list: &[PlainWeight]) -> Vec<Weight<E>> {
    let mut all = Vec::new(alloc);
    for (place, key, weight) in list {
        let weight = Weight {
            endpoint: E::at(*place),
            key: KeyNo::new(*key),
            weight: *weight,
        };
        all.push(weight).expect(rt, NO_MEMORY);
    }
    all
}

/// The name of a row, and the weights of its samples, takes and permits.
type PlainRow = (
    &'static str,
    &'static [PlainWeight],
    &'static [PlainWeight],
    &'static [PlainWeight],
);

fn row(rt: &impl Abort, alloc: Global, wanted: &PlainRow) -> Row {
    let (name, samples, takes, permits) = *wanted;
    Row {
        name: String::from_str(alloc, name).expect(rt, NO_MEMORY),
        samples: weights(rt, alloc, samples),
        takes: weights(rt, alloc, takes),
        permits: weights(rt, alloc, permits),
    }
}

fn rows(rt: &impl Abort, alloc: Global, wanted: &[PlainRow]) -> Vec<Row> {
    let mut all = Vec::new(alloc);
    for each in wanted {
        all.push(row(rt, alloc, each)).expect(rt, NO_MEMORY);
    }
    all
}

/// A certificate, the deployment that it is for, and the text that is expected.
struct Written {
    about: &'static str,
    deployment: &'static str,
    rows: &'static [PlainRow],
    bounds: &'static [PlainBound],
    totals: &'static [PlainTotal],
    text: &'static str,
}

fn bounds(rt: &impl Abort, alloc: Global, wanted: &[PlainBound]) -> Vec<Bound> {
    let mut all = Vec::new(alloc);
    for (reader, key, row, bound) in wanted {
        let bound = Bound {
            reader: ReaderNo::new(*reader),
            key: KeyNo::new(*key),
            row: *row,
            bound: *bound,
        };
        all.push(bound).expect(rt, NO_MEMORY);
    }
    all
}

fn totals(rt: &impl Abort, alloc: Global, wanted: &[PlainTotal]) -> Vec<Total> {
    let mut all = Vec::new(alloc);
    for (reader, row, bound) in wanted {
        let total = Total {
            reader: ReaderNo::new(*reader),
            row: *row,
            bound: *bound,
        };
        all.push(total).expect(rt, NO_MEMORY);
    }
    all
}

/// Compares the text of a certificate that fits the plan.
fn expect_text(
    rt: &impl Abort,
    alloc: Global,
    plan: &Plan,
    certificate: &Certificate,
    wanted: &Written,
) {
    expect_equal(rt, certificate.fits(plan), true, wanted.about);
    let text = certificate_text(alloc, plan, certificate).expect(rt, NO_MEMORY);
    expect_equal(rt, text.as_str(), wanted.text, wanted.about);
}

/// Writes a certificate for the plan of its deployment, and compares the text.
fn expect_written(rt: &impl Abort, alloc: Global, wanted: &Written) {
    let plan = plan_of(rt, alloc, wanted.deployment);
    let certificate = Certificate {
        rows: rows(rt, alloc, wanted.rows),
        bounds: bounds(rt, alloc, wanted.bounds),
        totals: totals(rt, alloc, wanted.totals),
    };
    expect_text(rt, alloc, &plan, &certificate, wanted);
    drop(certificate);
    drop(plan);
}

/// Each reader and writer of PING, with the same weight.
const BOTH: &[PlainWeight] = &[(0, 0, 5040), (1, 0, 5040)];

const ONE: &[PlainWeight] = &[(0, 0, 5040)];

/// Samples of FILTERS from the last reader and key to the first.
const SAMPLES: &[PlainWeight] = &[
    (2, 0, 6),
    (1, 2, 5),
    (1, 0, 4),
    (0, 2, 3),
    (0, 1, 0),
    (0, 0, 1),
];

const TAKES: &[PlainWeight] = &[(1, 2, 0), (0, 0, 0)];

const PERMITS: &[PlainWeight] = &[(1, 0, 9), (0, 2, 0), (0, 1, 8), (0, 0, 7)];

static CASES: [Written; 7] = [
    Written {
        about: "two rows",
        deployment: PING,
        rows: &[("w0", BOTH, BOTH, BOTH), ("w1", BOTH, BOTH, BOTH)],
        bounds: &[(0, 0, 0, 3), (1, 0, 1, 3)],
        totals: &[],
        text: PING_PROPOSED,
    },
    Written {
        about: "an empty list",
        deployment: SMALL,
        rows: &[("w0", ONE, &[], ONE)],
        bounds: &[(0, 0, 0, 2)],
        totals: &[],
        text: SMALL_PROPOSED,
    },
    Written {
        about: "a list that weighs nothing",
        deployment: SMALL,
        rows: &[("w0", ONE, &[(0, 0, 0)], ONE)],
        bounds: &[(0, 0, 0, 2)],
        totals: &[],
        text: SMALL_PROPOSED,
    },
    Written {
        about: "totals after bounds",
        deployment: TWO,
        rows: &[
            ("m", &[(0, 1, 4294967295), (0, 0, 1)], &[], &[(0, 0, 0)]),
            ("n", &[], &[], &[]),
        ],
        bounds: &[(0, 1, 1, 0)],
        totals: &[(0, 0, 4294967295)],
        text: TWO_TEXT,
    },
    Written {
        about: "endpoints and keys in file order",
        deployment: FILTERS,
        rows: &[("m", SAMPLES, TAKES, PERMITS)],
        bounds: &[(2, 0, 0, 2), (1, 2, 0, 1)],
        totals: &[(1, 0, 2), (0, 0, 1)],
        text: FILTERS_TEXT,
    },
    Written {
        about: "the version alone",
        deployment: PING,
        rows: &[],
        bounds: &[],
        totals: &[],
        text: "version = 1\n",
    },
    Written {
        about: "the version alone, of a deployment without endpoints",
        deployment: "version = 1",
        rows: &[],
        bounds: &[],
        totals: &[],
        text: "version = 1\n",
    },
];

#[test]
fn writes_certificates(rt: HostRuntime) {
    for case in &CASES {
        expect_written(&rt, rt.alloc(), case);
    }
}
