//! The bounds and the totals of a certificate by reader and key: a look-up takes no memory.
ghost use Rattle.std.specs.Prelude.{◌≡◌, ◌<◌, Some, None};
ghost use Rattle.dds_check.specs.Tables.{bound_of, total_of, ShowsBounds, ShowsTotals};

use dds_base::grid::{ENDPOINTS, KEYS};
use dds_base::{KeyNo, ReaderNo, are_rising, place_of};
use dds_weights::{Bound, Total};
use std::marker::Model;

/// The bounds of a certificate, and whether they have the order of readers and then of keys. Those of one reader are at
/// hand, so that they're found at once in whatever order they stand. Contracts see it as the list.
#[derive(Drop)]
pub struct Bounds<'a> {
    entries: &'a [Bound],
    rising: bool,
    reader: ReaderNo,
    cells: [Option<u32>; KEYS],
}

impl<'a> Model for Bounds<'a> {
    ghost use Rattle.std.specs.Prelude.{List, IsTrue};
    ghost use Rattle.dds_base.specs.Numbered.{AreRising};
    ghost use Rattle.dds_weights.specs.declared.certificate.Bound.{Bound};
    ghost use Rattle.dds_weights.specs.Places.{bound_number};
    ghost use Rattle.dds_check.specs.Tables.{ShowsBounds};

    ghost Value = { List Bound };

    ghost view = { λ t. t.entries.now };

    ghost invariant = { λ t. (IsTrue t.rising → AreRising bound_number t.entries.now)
        × ShowsBounds t.reader t.cells t.entries.now };
}

/// The totals of a certificate, with each where its reader says if that is a place. Contracts see it as the list.
#[derive(Drop)]
pub struct Totals<'a> {
    entries: &'a [Total],
    cells: [Option<u32>; ENDPOINTS],
}

impl<'a> Model for Totals<'a> {
    ghost use Rattle.std.specs.Prelude.{List};
    ghost use Rattle.dds_weights.specs.declared.certificate.Total.{Total};
    ghost use Rattle.dds_check.specs.Tables.{ShowsTotals};

    ghost Value = { List Total };

    ghost view = { λ t. t.entries.now };

    ghost invariant = { λ t. ShowsTotals t.cells t.entries.now };
}

fn bound_cells(entries: &[Bound], reader: ReaderNo) -> [Option<u32>; KEYS]
    ensures { ShowsBounds reader result entries.now }
{
    let mut cells = [None; KEYS];
    let mut i = entries.len();
    while 0 < i {
        i -= 1;
        let x = &entries[i];
        let key = x.key.number();
        if x.reader == reader && key < KEYS {
            cells[key] = Some(x.bound);
        }
    }
    cells
}

fn total_cells(entries: &[Total]) -> [Option<u32>; ENDPOINTS]
    ensures { ShowsTotals result entries.now }
{
    let mut cells = [None; ENDPOINTS];
    let mut i = entries.len();
    while 0 < i {
        i -= 1;
        let x = &entries[i];
        let reader = x.reader.number();
        if reader < ENDPOINTS {
            cells[reader] = Some(x.bound);
        }
    }
    cells
}

impl<'a> Bounds<'a> {
    /// The table of a list of bounds. Of entries for one reader and key the first counts.
    pub fn new(entries: &'a [Bound]) -> Bounds<'a>
        ensures { result ≡ entries.now }
    {
        let reader = ReaderNo::new(0);
        Bounds {
            entries,
            rising: are_rising(entries),
            reader,
            cells: bound_cells(entries, reader),
        }
    }

    /// The same table with the bounds of a reader at hand, which takes a walk over a list that isn't ordered. In an
    /// ordered one they're found by halving.
    pub fn near(&self, reader: ReaderNo) -> Bounds<'a>
        ensures { result ≡ self.now }
    {
        if self.rising {
            return Bounds {
                entries: self.entries,
                rising: self.rising,
                reader: self.reader,
                cells: self.cells,
            };
        }
        Bounds {
            entries: self.entries,
            rising: self.rising,
            reader,
            cells: bound_cells(self.entries, reader),
        }
    }

    /// The bound of a key of a reader, if there is one. At the reader at hand it takes constant time. At others it is
    /// found by halving in an ordered list, and by a walk in another.
    pub fn of(&self, reader: ReaderNo, key: KeyNo) -> Option<u32>
        ensures { result ≡ bound_of self.now reader key }
    {
        let r = reader.number();
        let k = key.number();
        if self.reader == reader && k < KEYS {
            self.cells[k]
        } else if r < ENDPOINTS && k < KEYS {
            match place_of(self.entries, self.rising, r * KEYS + k) {
                Some(at) => Some(self.entries[at].bound),
                None => None,
            }
        } else {
            find_bound(self.entries, reader, key)
        }
    }
}

impl<'a> Totals<'a> {
    /// The table of a list of totals. Of entries for one reader the first counts.
    pub fn new(entries: &'a [Total]) -> Totals<'a>
        ensures { result ≡ entries.now }
    {
        Totals {
            entries,
            cells: total_cells(entries),
        }
    }

    /// The total of a reader, if there is one.
    pub fn of(&self, reader: ReaderNo) -> Option<u32>
        ensures { result ≡ total_of self.now reader }
    {
        let r = reader.number();
        if r < ENDPOINTS {
            self.cells[r]
        } else {
            find_total(self.entries, reader)
        }
    }
}

/// The bound of a key of a reader in a list of bounds, if there is one: the first that the list names. Each call goes
/// over the list.
pub fn find_bound(bounds: &[Bound], reader: ReaderNo, key: KeyNo) -> Option<u32>
    ensures { result ≡ bound_of bounds.now reader key }
{
    for b in bounds {
        if b.reader == reader && b.key == key {
            return Some(b.bound);
        }
    }
    None
}

/// The total of a reader in a list of totals, if there is one: the first that the list names. Each call goes over the
/// list.
pub fn find_total(totals: &[Total], reader: ReaderNo) -> Option<u32>
    ensures { result ≡ total_of totals.now reader }
{
    for t in totals {
        if t.reader == reader {
            return Some(t.bound);
        }
    }
    None
}
