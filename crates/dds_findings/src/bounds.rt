//! Which entry of a certificate's file each of its bounds comes from: an entry without a key stands for one bound of
//! each key of its reader.

use crate::located::Located;
use dds_base::{KeyNo, NoMemory, ReaderNo};
use dds_lists::Deployment;
use dds_weights::{Bound, Certificate};
use std::alloc::Global;

/// For each bound of a certificate, the place of its entry in the file, from 0.
pub(crate) fn bound_entries(
    alloc: Global,
    lists: &Deployment,
    certificate: &Certificate,
    file: &Located,
) -> Result<Vec<usize>, NoMemory> {
    let mut entries = Vec::new(alloc);
    let mut entry: usize = 0;
    let mut left: usize = 0;
    for bound in &certificate.bounds {
        if left == 0 {
            left = bounds_of_entry(alloc, lists, file, entry, bound)?;
            entry = entry.saturating_add(1);
        }
        entries.push(entry.saturating_sub(1))?;
        left = left.saturating_sub(1);
    }
    Ok(entries)
}

/// How many bounds the entry stands for of which this bound is the first.
fn bounds_of_entry(
    alloc: Global,
    lists: &Deployment,
    file: &Located,
    entry: usize,
    bound: &Bound,
) -> Result<usize, NoMemory> {
    let key = format!(in alloc; "bounds[{entry}].key")?;
    if file.has(key.as_str()) || bound.reader.number() >= lists.readers() {
        return Ok(1);
    }
    Ok(lists.reader(bound.reader).filter.len())
}

/// The place of the first bound of a key of a reader, or how many bounds there are.
pub(crate) fn bound_place(certificate: &Certificate, reader: ReaderNo, key: KeyNo) -> usize {
    let bounds = certificate.bounds.as_slice();
    bounds
        .iter()
        .position(|b| b.reader == reader && b.key == key)
        .unwrap_or(bounds.len())
}

/// The place of the first total of a reader, or how many totals there are.
pub(crate) fn total_place(certificate: &Certificate, reader: ReaderNo) -> usize {
    let totals = certificate.totals.as_slice();
    totals
        .iter()
        .position(|t| t.reader == reader)
        .unwrap_or(totals.len())
}
