//! The bounds and totals of a checked deployment: both those that are searched in its certificate and those of its
//! tables.

use crate::tests::expecting::expect_equal;
use crate::tests::plans::NO_MEMORY;
use dds_base::{KeyNo, ReaderNo};
use dds_check::Checked;
use std::process::Abort;
use test_files::plans::checked;
use test_files::texts::{PING, PING_CERT};

/// A total of the first reader of `PING`, which stands behind its certificate.
const TOTAL: &str = "\n[[totals]]\nreader = \"ping_r\"\nrow = \"m\"\nbound = 5\n";

/// A key of a reader, with the bound that the certificate gives it.
const BOUNDS: [(usize, usize, Option<u64>); 5] = [
    (0, 0, Some(3)),
    (1, 0, Some(3)),
    (0, 1, None),
    (2, 0, None),
    (300, 70, None),
];

/// A reader, with its total.
const TOTALS: [(usize, Option<u64>); 4] = [(0, Some(5)), (1, None), (2, None), (300, None)];

fn expect_bounds(rt: &impl Abort, checked: &Checked) {
    let table = checked.bounds();
    for (reader, key, wanted) in &BOUNDS {
        let reader = ReaderNo::new(*reader);
        let key = KeyNo::new(*key);
        let searched = checked.bound(reader, key);
        expect_equal(rt, searched, *wanted, "the bound that is searched");
        let tabled = table.of(reader, key).map(u64::from);
        expect_equal(rt, tabled, *wanted, "the bound of the table");
    }
}

fn expect_totals(rt: &impl Abort, checked: &Checked) {
    let table = checked.totals();
    for (reader, wanted) in &TOTALS {
        let reader = ReaderNo::new(*reader);
        let searched = checked.total(reader);
        expect_equal(rt, searched, *wanted, "the total that is searched");
        let tabled = table.of(reader).map(u64::from);
        expect_equal(rt, tabled, *wanted, "the total of the table");
    }
}

#[test]
fn tells_bounds_and_totals(rt: HostRuntime) {
    let alloc = rt.alloc();
    let certificate = format!(in alloc; "{PING_CERT}{TOTAL}").expect(&rt, NO_MEMORY);
    let checked = checked(alloc, PING, certificate.as_str()).expect(
        &rt,
        "the certificate is accepted",
    );
    expect_bounds(&rt, &checked);
    expect_totals(&rt, &checked);
    drop(checked);
}
