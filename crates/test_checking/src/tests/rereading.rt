//! Certificates of many kinds, made by numbers that look like chance, and what is read of their text again.

use crate::tests::expecting::expect_equal;
use crate::tests::plans::{FILTERS, NO_MEMORY, certificate_of, plan_of};
use crate::tests::weights::{Placed, PlainWeight, plain_row};
use dds_base::{KeyNo, ReaderNo};
use dds_match::Plan;
use dds_weights::{Bound, Certificate, Row, Total, Weight, certificate_text};
use std::alloc::Global;
use std::process::Abort;
use test_files::dice::Dice;
use test_files::texts::{LOOP, LOOP_CERT, PING, PING_CERT, SMALL, SMALL_CERT, TWO, TWO_CERT};

/// The place of an endpoint, and of a key in its topic.
type Place = (usize, usize);

/// The readers of FILTERS in file order, with the keys of their filters in the order of the topic.
static READER_PLACES: [Place; 6] = [(0, 0), (0, 1), (0, 2), (1, 0), (1, 2), (2, 0)];

/// The writers of FILTERS in file order, with the keys of their topics.
static WRITER_PLACES: [Place; 4] = [(0, 0), (0, 1), (0, 2), (1, 0)];

/// A weight or a bound.
fn amount(dice: &mut Dice) -> u32 {
    let roll = dice.roll();
    match roll % 5 {
        0 => 0,
        1 => 1,
        2 => 5040,
        3 => roll,
        _ => u32::MAX - roll,
    }
}

/// Weights of some of these places, from the first to the last or the other way round.
fn weights<E: Placed>(
    rt: &impl Abort,
    alloc: Global,
    dice: &mut Dice,
    places: &[Place],
) -> Vec<Weight<E>> {
    let mut all = Vec::new(alloc);
    for (endpoint, key) in places {
        if dice.comes() {
            let weight = Weight {
                endpoint: E::at(*endpoint),
                key: KeyNo::new(*key),
                weight: amount(dice),
            };
            all.push(weight).expect(rt, NO_MEMORY);
        }
    }
    if dice.comes() {
        all.reverse();
    }
    all
}

fn rows(rt: &impl Abort, alloc: Global, dice: &mut Dice, count: usize) -> Vec<Row> {
    let mut all = Vec::new(alloc);
    for i in 0..count {
        let row = Row {
            name: format!(in alloc; "m{i}").expect(rt, NO_MEMORY),
            samples: weights(rt, alloc, dice, &READER_PLACES),
            takes: weights(rt, alloc, dice, &READER_PLACES),
            permits: weights(rt, alloc, dice, &WRITER_PLACES),
        };
        all.push(row).expect(rt, NO_MEMORY);
    }
    all
}

/// Bounds of some places, each by one of so many rows.
fn bounds(rt: &impl Abort, alloc: Global, dice: &mut Dice, rows: usize) -> Vec<Bound> {
    let mut all = Vec::new(alloc);
    for (reader, key) in READER_PLACES {
        if dice.comes() {
            let bound = Bound {
                reader: ReaderNo::new(reader),
                key: KeyNo::new(key),
                row: dice.below(rows),
                bound: amount(dice),
            };
            all.push(bound).expect(rt, NO_MEMORY);
        }
    }
    if dice.comes() {
        all.reverse();
    }
    all
}

/// Totals of some readers, each by one of so many rows.
fn totals(rt: &impl Abort, alloc: Global, dice: &mut Dice, rows: usize) -> Vec<Total> {
    let mut all = Vec::new(alloc);
    for reader in 0..3 {
        if dice.comes() {
            let total = Total {
                reader: ReaderNo::new(reader),
                row: dice.below(rows),
                bound: amount(dice),
            };
            all.push(total).expect(rt, NO_MEMORY);
        }
    }
    all
}

/// A certificate for FILTERS, of up to three rows, with and without bounds and totals.
fn made(rt: &impl Abort, alloc: Global, number: u32) -> Certificate {
    let mut dice = Dice::new(number);
    let count = (number % 4) as usize;
    let rows = rows(rt, alloc, &mut dice, count);
    let bounds = if count > 0 && number / 4 % 2 == 0 {
        bounds(rt, alloc, &mut dice, count)
    } else {
        Vec::new(alloc)
    };
    let totals = if count > 0 && number / 8 % 2 == 0 {
        totals(rt, alloc, &mut dice, count)
    } else {
        Vec::new(alloc)
    };
    Certificate {
        rows,
        bounds,
        totals,
    }
}

/// The weight of an endpoint and a key, 0 where the list does not name them.
fn weight_of(list: &[PlainWeight], place: Place) -> u32 {
    let found = list
        .iter()
        .find(|entry| entry.0 == place.0 && entry.1 == place.1);
    match found {
        Some(entry) => entry.2,
        None => 0,
    }
}

/// The weights that are not zero, in the order of the places.
fn in_order(
    rt: &impl Abort,
    alloc: Global,
    list: &[PlainWeight],
    places: &[Place],
) -> Vec<PlainWeight> {
    let mut all = Vec::new(alloc);
    for place in places {
        let weight = weight_of(list, *place);
        if weight != 0 {
            all.push((place.0, place.1, weight)).expect(rt, NO_MEMORY);
        }
    }
    all
}

/// Compares the weights that were read with those that were written: these in order and without zeros.
fn expect_weights(
    rt: &impl Abort,
    alloc: Global,
    found: &[PlainWeight],
    written: &[PlainWeight],
    places: &[Place],
) {
    let wanted = in_order(rt, alloc, written, places);
    expect_equal(rt, found, wanted.as_slice(), "weights");
}

fn expect_row(rt: &impl Abort, alloc: Global, found: &Row, written: &Row) {
    expect_equal(rt, found.name.as_str(), written.name.as_str(), "the name");
    let found = plain_row(rt, alloc, found);
    let written = plain_row(rt, alloc, written);
    expect_weights(rt, alloc, &found.samples, &written.samples, &READER_PLACES);
    expect_weights(rt, alloc, &found.takes, &written.takes, &READER_PLACES);
    expect_weights(rt, alloc, &found.permits, &written.permits, &WRITER_PLACES);
}

fn expect_rows(rt: &impl Abort, alloc: Global, found: &[Row], written: &[Row]) {
    expect_equal(rt, found.len(), written.len(), "rows");
    for (have, want) in found.iter().zip(written) {
        expect_row(rt, alloc, have, want);
    }
}

/// Writes a certificate, reads it again, and compares both; and then their texts.
fn expect_again(rt: &impl Abort, alloc: Global, plan: &Plan, written: &Certificate) {
    expect_equal(rt, written.fits(plan), true, "fits");
    let text = certificate_text(alloc, plan, written).expect(rt, NO_MEMORY);
    let found = certificate_of(rt, alloc, plan, text.as_str());
    expect_rows(rt, alloc, &found.rows, &written.rows);
    let (have, wanted) = (found.bounds.as_slice(), written.bounds.as_slice());
    expect_equal(rt, have, wanted, "bounds");
    let (have, wanted) = (found.totals.as_slice(), written.totals.as_slice());
    expect_equal(rt, have, wanted, "totals");
    let again = certificate_text(alloc, plan, &found).expect(rt, NO_MEMORY);
    expect_equal(rt, again.as_str(), text.as_str(), "the text");
    drop(found);
}

/// Certificates of every kind are written and read.
#[test]
fn reads_made_certificates_again(rt: HostRuntime) {
    let plan = plan_of(&rt, rt.alloc(), FILTERS);
    for number in 0..64 {
        let written = made(&rt, rt.alloc(), number);
        expect_again(&rt, rt.alloc(), &plan, &written);
        drop(written);
    }
    drop(plan);
}

/// Reads a certificate, writes it, and reads it again.
fn expect_read_again(rt: &impl Abort, alloc: Global, deployment: &str, certificate: &str) {
    let plan = plan_of(rt, alloc, deployment);
    let written = certificate_of(rt, alloc, &plan, certificate);
    expect_again(rt, alloc, &plan, &written);
    drop(written);
    drop(plan);
}

#[test]
fn reads_certificates_that_were_read_again(rt: HostRuntime) {
    let files: [[&str; 2]; 4] = [
        [PING, PING_CERT],
        [LOOP, LOOP_CERT],
        [SMALL, SMALL_CERT],
        [TWO, TWO_CERT],
    ];
    for [deployment, certificate] in files {
        expect_read_again(&rt, rt.alloc(), deployment, certificate);
    }
}
