//! Certificate files without a fault: the rows, bounds and totals that are read.

use crate::tests::expecting::expect_equal;
use crate::tests::plans::{FILTERS, NO_MEMORY, certificate_of, plan_of};
use crate::tests::weights::{
    PlainBound, PlainRow, PlainTotal, PlainWeight, plain_bounds, plain_row, plain_totals,
};
use dds_match::Plan;
use dds_weights::{Certificate, Row};
use std::alloc::Global;
use std::process::Abort;
use test_files::texts::{LOOP, LOOP_CERT, PING, PING_CERT, SMALL, SMALL_CERT, TWO, TWO_CERT};

/// The weights of a row, as readers or writers, keys and weights.
#[derive(Clone, Copy)]
struct WantedLists {
    samples: &'static [PlainWeight],
    takes: &'static [PlainWeight],
    permits: &'static [PlainWeight],
}

/// A row that is expected.
enum WantedRow {
    /// A name, and weights that the samples, the takes and the permits share.
    Even(&'static str, &'static [PlainWeight]),
    /// A name, and weights of each kind.
    Uneven(&'static str, WantedLists),
}

impl WantedRow {
    fn name(&self) -> &'static str {
        match self {
            WantedRow::Even(name, _) | WantedRow::Uneven(name, _) => name,
        }
    }

    fn lists(&self) -> WantedLists {
        match self {
            WantedRow::Even(_, all) => WantedLists {
                samples: all,
                takes: all,
                permits: all,
            },
            WantedRow::Uneven(_, lists) => *lists,
        }
    }
}

/// A certificate that is expected.
struct Wanted {
    rows: &'static [WantedRow],
    bounds: &'static [PlainBound],
    totals: &'static [PlainTotal],
}

/// A certificate file with parts of it replaced, and what is read.
struct File {
    about: &'static str,
    text: &'static str,
    edits: &'static [(&'static str, &'static str)],
    wanted: Wanted,
}

/// Compares a row, also the order of its lists.
fn expect_row(rt: &impl Abort, alloc: Global, have: &Row, wanted: &WantedRow) {
    expect_equal(rt, have.name.as_str(), wanted.name(), "the name");
    let weights = plain_row(rt, alloc, have);
    expect_weights(rt, &weights, wanted.lists());
}

fn expect_weights(rt: &impl Abort, have: &PlainRow, wanted: WantedLists) {
    expect_equal(rt, have.samples.as_slice(), wanted.samples, "samples");
    expect_equal(rt, have.takes.as_slice(), wanted.takes, "takes");
    expect_equal(rt, have.permits.as_slice(), wanted.permits, "permits");
}

fn expect_rows(rt: &impl Abort, alloc: Global, rows: &[Row], wanted: &[WantedRow]) {
    expect_equal(rt, rows.len(), wanted.len(), "rows");
    for (have, want) in rows.iter().zip(wanted) {
        expect_row(rt, alloc, have, want);
    }
}

/// Compares a certificate, also the order of its lists.
fn expect_certificate(rt: &impl Abort, alloc: Global, have: &Certificate, wanted: &Wanted) {
    expect_rows(rt, alloc, &have.rows, wanted.rows);
    let bounds = plain_bounds(rt, alloc, &have.bounds);
    expect_equal(rt, bounds.as_slice(), wanted.bounds, "bounds");
    let totals = plain_totals(rt, alloc, &have.totals);
    expect_equal(rt, totals.as_slice(), wanted.totals, "totals");
}

/// A text with one part of it replaced, which has to be there.
fn replaced(rt: &impl Abort, alloc: Global, text: &str, old: &str, new: &str) -> String {
    expect_equal(rt, text.contains(old), true, old);
    text.replace(alloc, old, new).expect(rt, NO_MEMORY)
}

/// The text of a file with its changes.
fn text_of(rt: &impl Abort, alloc: Global, file: &File) -> String {
    let mut text = String::from_str(alloc, file.text).expect(rt, NO_MEMORY);
    for (old, new) in file.edits {
        text = replaced(rt, alloc, text.as_str(), old, new);
    }
    text
}

/// Reads a file for the plan, and compares what is read.
fn expect_file(rt: &impl Abort, alloc: Global, plan: &Plan, file: &File) {
    let text = text_of(rt, alloc, file);
    let found = certificate_of(rt, alloc, plan, text.as_str());
    expect_equal(rt, found.fits(plan), true, file.about);
    expect_certificate(rt, alloc, &found, &file.wanted);
    drop(found);
}

/// Reads files for the plan of a deployment, and compares what is read.
fn expect_files(rt: &impl Abort, alloc: Global, deployment: &str, files: &[File]) {
    let plan = plan_of(rt, alloc, deployment);
    for file in files {
        expect_file(rt, alloc, &plan, file);
    }
    drop(plan);
}

static PING_FILES: [File; 2] = [
    File {
        about: "all that is under way weighs one",
        text: PING_CERT,
        edits: &[],
        wanted: Wanted {
            rows: &[WantedRow::Even("m", &[(0, 0, 1), (1, 0, 1)])],
            bounds: &[(0, 0, 0, 3), (1, 0, 0, 3)],
            totals: &[],
        },
    },
    File {
        about: "the sections in another order",
        text: "totals = [{ bound = 5, row = \"n\", reader = \"pong_r\" }]\nbounds = []\nrows = [{ name = \"m\" }, \
        { name = \"n\" }]\nversion = 1\n",
        edits: &[],
        wanted: Wanted {
            rows: &[WantedRow::Even("m", &[]), WantedRow::Even("n", &[])],
            bounds: &[],
            totals: &[(1, 1, 5)],
        },
    },
];

static LOOP_FILES: [File; 2] = [
    File {
        about: "what stands for two samples weighs two",
        text: LOOP_CERT,
        edits: &[],
        wanted: Wanted {
            rows: &[WantedRow::Even("m", &[(0, 0, 1), (1, 0, 2)])],
            bounds: &[(0, 0, 0, 4), (1, 0, 0, 2)],
            totals: &[],
        },
    },
    File {
        about: "all weigh one, and the bounds are four",
        text: LOOP_CERT,
        edits: &[("weight = 2", "weight = 1"), ("bound = 2", "bound = 4")],
        wanted: Wanted {
            rows: &[WantedRow::Even("m", &[(0, 0, 1), (1, 0, 1)])],
            bounds: &[(0, 0, 0, 4), (1, 0, 0, 4)],
            totals: &[],
        },
    },
];

static SMALL_FILES: [File; 3] = [
    File {
        about: "one writer and one reader",
        text: SMALL_CERT,
        edits: &[],
        wanted: Wanted {
            rows: &[WantedRow::Even("m", &[(0, 0, 1)])],
            bounds: &[(0, 0, 0, 3)],
            totals: &[],
        },
    },
    File {
        about: "the greatest weights and bounds",
        text: SMALL_CERT,
        edits: &[
            ("weight = 1", "weight = 4294967295"),
            ("bound = 3", "bound = 4294967295"),
        ],
        wanted: Wanted {
            rows: &[WantedRow::Even("m", &[(0, 0, 4294967295)])],
            bounds: &[(0, 0, 0, 4294967295)],
            totals: &[],
        },
    },
    File {
        about: "nothing but the version",
        text: "version = 1",
        edits: &[],
        wanted: Wanted {
            rows: &[],
            bounds: &[],
            totals: &[],
        },
    },
];

static TWO_FILES: [File; 4] = [
    File {
        about: "two keys that count together",
        text: TWO_CERT,
        edits: &[],
        wanted: Wanted {
            rows: &[WantedRow::Even("m", &[(0, 0, 1), (0, 1, 1)])],
            bounds: &[(0, 0, 0, 2), (0, 1, 0, 2)],
            totals: &[],
        },
    },
    File {
        about: "without bounds",
        text: TWO_CERT,
        edits: &[(
            "bounds = [\n  { reader = \"r\", key = \"a\", row = \"m\", bound = 2 },\n  { reader = \"r\", \
            key = \"b\", row = \"m\", bound = 2 },\n]\n",
            "",
        )],
        wanted: Wanted {
            rows: &[WantedRow::Even("m", &[(0, 0, 1), (0, 1, 1)])],
            bounds: &[],
            totals: &[],
        },
    },
    File {
        about: "a take of the first key weighs two",
        text: TWO_CERT,
        edits: &[(
            "takes = [{ reader = \"r\", key = \"a\", weight = 1 }",
            "takes = [{ reader = \"r\", key = \"a\", weight = 2 }",
        )],
        wanted: Wanted {
            rows: &[WantedRow::Uneven(
                "m",
                WantedLists {
                    samples: &[(0, 0, 1), (0, 1, 1)],
                    takes: &[(0, 0, 2), (0, 1, 1)],
                    permits: &[(0, 0, 1), (0, 1, 1)],
                },
            )],
            bounds: &[(0, 0, 0, 2), (0, 1, 0, 2)],
            totals: &[],
        },
    },
    File {
        about: "a total of both keys",
        text: TWO_CERT,
        edits: &[(
            "\n[[rows]]\n",
            "totals = [{ reader = \"r\", row = \"m\", bound = 2 }]\n\n[[rows]]\n",
        )],
        wanted: Wanted {
            rows: &[WantedRow::Even("m", &[(0, 0, 1), (0, 1, 1)])],
            bounds: &[(0, 0, 0, 2), (0, 1, 0, 2)],
            totals: &[(0, 0, 2)],
        },
    },
];

/// Several rows, with keys by their place in the topic whatever the order of a filter, weights of zero, and lists that
/// aren't in the order of endpoints and keys: weights are put in this order, bounds and totals stay in the file's.
const MIXED: &str = r#"version = 1
totals = [
  { reader = "o", row = "last", bound = 0 },
  { reader = "r", row = "first", bound = 4294967295 },
]
bounds = [
  { reader = "s", key = "c", row = "last", bound = 7 },
  { reader = "r", key = "b", row = "first", bound = 0 },
  { reader = "s", key = "a", row = "last", bound = 6 },
]

[[rows]]
permits = [{ weight = 3, key = "d", writer = "v" }, { writer = "w", key = "c", weight = 0x10 }]
name = "first"

[[rows]]
name = "none"
takes = []

[[rows]]
name = "last"
samples = [
  { reader = "s", key = "c", weight = 2 },
  { reader = "o", key = "d", weight = 0 },
  { reader = "s", key = "a", weight = 1_000 },
  { reader = "r", key = "b", weight = 5 },
]
takes = [{ reader = "r", key = "c", weight = 9 }]
"#;

/// What is read of `MIXED`.
const MIXED_WANTED: Wanted = Wanted {
    rows: &[
        WantedRow::Uneven(
            "first",
            WantedLists {
                samples: &[],
                takes: &[],
                permits: &[(0, 2, 16), (1, 0, 3)],
            },
        ),
        WantedRow::Even("none", &[]),
        WantedRow::Uneven(
            "last",
            WantedLists {
                samples: &[(0, 1, 5), (1, 0, 1000), (1, 2, 2), (2, 0, 0)],
                takes: &[(0, 2, 9)],
                permits: &[],
            },
        ),
    ],
    bounds: &[(1, 2, 2, 7), (0, 1, 0, 0), (1, 0, 2, 6)],
    totals: &[(2, 2, 0), (0, 0, 4294967295)],
};

/// Entries without `key`, which stand for the keys of the filter in its order or of the topic, among entries with one.
const KEYLESS: &str = r#"version = 2
bounds = [
  { reader = "o", key = "d", row = "m", bound = 1 },
  { reader = "s", row = "n", bound = 6 },
  { reader = "e", row = "m", bound = 5 },
  { reader = "r", row = "m", bound = 0 },
]
totals = [{ reader = "s", row = "m", bound = 8 }]

[[rows]]
name = "m"
samples = [
  { reader = "s", weight = 2 },
  { reader = "e", weight = 9 },
  { reader = "r", key = "b", weight = 5 },
  { reader = "o", weight = 0 },
]
takes = [{ reader = "r", weight = 7 }]
permits = [{ writer = "v", weight = 3 }, { weight = 4, writer = "w" }]

[[rows]]
name = "n"
takes = [{ reader = "e", weight = 1 }, { reader = "e", weight = 2 }]
permits = [
  { writer = "w", key = "c", weight = 1 },
  { writer = "v", weight = 1 },
  { writer = "w", key = "a", weight = 2 },
]
"#;

static FILTERS_FILES: [File; 3] = [
    File {
        about: "rows, bounds and totals in the order of the file",
        text: MIXED,
        edits: &[],
        wanted: MIXED_WANTED,
    },
    File {
        about: "version 2 with a key in each entry",
        text: MIXED,
        edits: &[("version = 1", "version = 2")],
        wanted: MIXED_WANTED,
    },
    File {
        about: "version 2 with and without keys",
        text: KEYLESS,
        edits: &[],
        wanted: Wanted {
            rows: &[
                WantedRow::Uneven(
                    "m",
                    WantedLists {
                        samples: &[(0, 1, 5), (1, 0, 2), (1, 2, 2), (2, 0, 0)],
                        takes: &[(0, 0, 7), (0, 1, 7), (0, 2, 7)],
                        permits: &[(0, 0, 4), (0, 1, 4), (0, 2, 4), (1, 0, 3)],
                    },
                ),
                WantedRow::Uneven(
                    "n",
                    WantedLists {
                        samples: &[],
                        takes: &[],
                        permits: &[(0, 0, 2), (0, 2, 1), (1, 0, 1)],
                    },
                ),
            ],
            bounds: &[
                (2, 0, 0, 1),
                (1, 2, 1, 6),
                (1, 0, 1, 6),
                (0, 0, 0, 0),
                (0, 1, 0, 0),
                (0, 2, 0, 0),
            ],
            totals: &[(1, 0, 8)],
        },
    },
];

#[test]
fn reads_certificates_of_applications_that_answer(rt: HostRuntime) {
    expect_files(&rt, rt.alloc(), PING, &PING_FILES);
    expect_files(&rt, rt.alloc(), LOOP, &LOOP_FILES);
}

#[test]
fn reads_certificates_of_one_writer(rt: HostRuntime) {
    expect_files(&rt, rt.alloc(), SMALL, &SMALL_FILES);
    expect_files(&rt, rt.alloc(), TWO, &TWO_FILES);
}

#[test]
fn reads_rows_bounds_and_totals_in_their_order(rt: HostRuntime) {
    expect_files(&rt, rt.alloc(), FILTERS, &FILTERS_FILES);
}
