//! Counts by endpoint and key, each read and changed in one step.
ghost use Rattle.std.specs.Prelude.{◌≡◌, ◌+◌, ◌*◌, ◌<◌, ◌≤◌, ◌^◌, IfOk};
ghost use Rattle.dds_base.specs.Grid.{most_endpoints, most_keys};
ghost use Rattle.dds_rules.specs.Counts.{IsMoreBy, count_at, no_counts, only_at};

use dds_base::NoMemory;
use dds_base::grid::KEYS;
use std::alloc::Global;
use std::marker::Model;

/// Counts by endpoint and key: a row of 64 places for each endpoint.
#[derive(Drop)]
pub(crate) struct Counts {
    endpoints: usize,
    places: Vec<u64>,
}

impl Model for Counts {
    ghost use Rattle.std.specs.Prelude.{◌≡◌, ◌*◌, length};
    ghost use Rattle.dds_base.specs.Grid.{most_keys};
    ghost use Rattle.dds_rules.specs.Counts.{CountTable};

    ghost Value = { CountTable };

    ghost view = { λ t. record { endpoints = t.endpoints; places = t.places.items } };

    ghost invariant = { λ t. length t.places.items ≡ t.endpoints * most_keys };
}

impl Counts {
    /// A table for so many endpoints, at most 256, in which each count is 0.
    pub(crate) fn new(alloc: Global, endpoints: usize) -> Result<Counts, NoMemory>
        requires { endpoints ≤ most_endpoints }
        ensures { IfOk result (λ t. t ≡ no_counts endpoints) }
    {
        let places = vec![in alloc; 0; endpoints * KEYS]?;
        Ok(Counts { endpoints, places })
    }

    /// The count of an endpoint and a key, 0 where the table has no such place.
    pub(crate) fn at(&self, endpoint: usize, key: usize) -> u64
        ensures value { result ≡ count_at self.now endpoint key }
        ensures place { 0 < result → (endpoint < self.now.endpoints) × (key < most_keys) }
    {
        if endpoint < self.endpoints && key < KEYS {
            self.places[endpoint * KEYS + key]
        } else {
            0
        }
    }

    /// Adds so many at an endpoint and a key.
    pub(crate) fn add(&mut self, endpoint: usize, key: usize, more: u64)
        requires endpoint { endpoint < self.old.endpoints }
        requires key { key < most_keys }
        requires room { count_at self.old endpoint key + more < 2 ^ 64 }
        ensures { IsMoreBy (only_at endpoint key more) self.old self.new }
    {
        self.places[endpoint * KEYS + key] += more;
    }

    /// Takes away so many at an endpoint and a key.
    pub(crate) fn subtract(&mut self, endpoint: usize, key: usize, fewer: u64)
        requires endpoint { endpoint < self.old.endpoints }
        requires key { key < most_keys }
        requires there { fewer ≤ count_at self.old endpoint key }
        ensures { IsMoreBy (only_at endpoint key fewer) self.new self.old }
    {
        self.places[endpoint * KEYS + key] -= fewer;
    }
}
