//! Tallies of entries by endpoint and key.
ghost use Rattle.std.specs.Prelude.{◌≡◌, ℕ, ◌+◌, ◌<◌, ◌^◌, IfOk, length, replicate, slice_index};
ghost use Rattle.dds_base.specs.Grid.{most_endpoints, most_keys};
ghost use Rattle.dds_conform.specs.Tallies.{IsOneMore, tally_at};

use dds_base::grid::{KEYS, PLACES};
use dds_base::{KeyNo, NoMemory};
use std::alloc::Global;
use std::marker::Model;

/// So many zeros.
fn zeros(alloc: Global, places: usize) -> Result<Vec<u64>, NoMemory>
    ensures { IfOk result (λ v. v.items ≡ replicate places 0) }
{
    let counts = vec![in alloc; 0; places]?;
    Ok(counts)
}

/// So many counts of nothing.
fn counts_of(alloc: Global, places: usize) -> Result<Vec<u64>, NoMemory>
    ensures size { IfOk result (λ v. length v.items ≡ places) }
    ensures each { IfOk result (λ v. (n : ℕ) → slice_index v.items n ≡ 0) }
{
    let counts = zeros(alloc, places)?;
    Ok(counts)
}

/// How many entries there are of each endpoint and key.
#[derive(Drop)]
pub(crate) struct Tally {
    counts: Vec<u64>,
}

impl Model for Tally {
    ghost use Rattle.std.specs.Prelude.{◌≡◌, List, ℕ, length};
    ghost use Rattle.dds_base.specs.Grid.{most_places};

    ghost Value = { List ℕ };

    ghost view = { λ t. t.counts.items };

    ghost invariant = { λ t. length t.counts.items ≡ most_places };
}

impl Tally {
    /// A tally of no entries.
    pub(crate) fn new(alloc: Global) -> Result<Tally, NoMemory>
        ensures { IfOk result (λ t. (i k : ℕ) → tally_at t i k ≡ 0) }
    {
        let counts = counts_of(alloc, PLACES)?;
        Ok(Tally { counts })
    }

    /// How many there are of an endpoint and key.
    pub(crate) fn at(&self, endpoint: usize, key: KeyNo) -> u64
        requires endpoint { endpoint < most_endpoints }
        requires key { key < most_keys }
        ensures { result ≡ tally_at self.now endpoint key }
    {
        self.counts[endpoint * KEYS + key.number()]
    }

    /// Counts one more of an endpoint and key.
    pub(crate) fn add(&mut self, endpoint: usize, key: KeyNo)
        requires endpoint { endpoint < most_endpoints }
        requires key { key < most_keys }
        requires room { tally_at self.old endpoint key + 1 < 2 ^ 64 }
        ensures { IsOneMore self.old self.new endpoint key }
    {
        self.counts[endpoint * KEYS + key.number()] += 1;
    }
}
