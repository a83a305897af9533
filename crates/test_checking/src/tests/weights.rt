//! The lists of a certificate as plain numbers.

use crate::tests::plans::NO_MEMORY;
use dds_base::{Endpoint, ReaderNo, WriterNo};
use dds_weights::{Bound, Row, Total, Weight};
use std::alloc::Global;
use std::process::Abort;

/// The place of an endpoint, the place of a key in its topic, and the weight.
pub(crate) type PlainWeight = (usize, usize, u32);

/// The place of a reader, the place of a key in its topic, the place of a row, and the bound.
pub(crate) type PlainBound = (usize, usize, usize, u32);

/// The place of a reader, the place of a row, and the bound.
pub(crate) type PlainTotal = (usize, usize, u32);

/// The weights of a row.
#[derive(Drop)]
pub(crate) struct PlainRow {
    pub(crate) samples: Vec<PlainWeight>,
    pub(crate) takes: Vec<PlainWeight>,
    pub(crate) permits: Vec<PlainWeight>,
}

/// An endpoint that is made of its place.
pub(crate) trait Placed: Endpoint {
    fn at(place: usize) -> Self;
}

impl Placed for ReaderNo {
    fn at(place: usize) -> ReaderNo {
        ReaderNo::new(place)
    }
}

impl Placed for WriterNo {
    fn at(place: usize) -> WriterNo {
        WriterNo::new(place)
    }
}

fn plain<E: Endpoint>(rt: &impl Abort, alloc: Global, list: &[Weight<E>]) -> Vec<PlainWeight> {
    let mut all = Vec::new(alloc);
    for entry in list {
        let weight = (entry.endpoint.place(), entry.key.number(), entry.weight);
        all.push(weight).expect(rt, NO_MEMORY);
    }
    all
}

pub(crate) fn plain_row(rt: &impl Abort, alloc: Global, row: &Row) -> PlainRow {
    PlainRow {
        samples: plain(rt, alloc, &row.samples),
        takes: plain(rt, alloc, &row.takes),
        permits: plain(rt, alloc, &row.permits),
    }
}

pub(crate) fn plain_bounds(rt: &impl Abort, alloc: Global, list: &[Bound]) -> Vec<PlainBound> {
    let mut all = Vec::new(alloc);
    for entry in list {
        let (reader, key) = (entry.reader.number(), entry.key.number());
        all.push((reader, key, entry.row, entry.bound))
            .expect(rt, NO_MEMORY);
    }
    all
}

pub(crate) fn plain_totals(rt: &impl Abort, alloc: Global, list: &[Total]) -> Vec<PlainTotal> {
    let mut all = Vec::new(alloc);
    for entry in list {
        let total = (entry.reader.number(), entry.row, entry.bound);
        all.push(total).expect(rt, NO_MEMORY);
    }
    all
}
