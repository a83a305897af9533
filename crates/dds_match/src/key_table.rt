//! Marks at endpoints and keys, each read in one step.
ghost use Rattle.std.specs.Prelude.{◌≡◌, ◌+◌, ◌*◌, ◌<◌, ◌≤◌, ◌==◌, ◌&&◌, Bool, false, List, length, replicate, IfOk};
ghost use Rattle.dds_base.specs.Grid.{most_endpoints, most_keys};
ghost use Rattle.dds_match.specs.Marks.{AddsMarks, is_marked};

use dds_base::NoMemory;
use dds_base::grid::KEYS;
use std::alloc::Global;
use std::marker::Model;

/// Marks at endpoints and keys: a row of 64 places for each endpoint.
#[derive(Drop)]
pub(crate) struct KeyTable {
    endpoints: usize,
    marks: Vec<bool>,
}

impl Model for KeyTable {
    ghost use Rattle.std.specs.Prelude.{◌≡◌, ◌*◌, Bool, List, length};
    ghost use Rattle.dds_base.specs.Grid.{most_keys};

    ghost Value = { List Bool };

    ghost view = { λ t. t.marks.items };

    ghost invariant = { λ t. length t.marks.items ≡ t.endpoints * most_keys };
}

impl KeyTable {
    /// A table without marks, for so many endpoints, at most 256.
    pub(crate) fn new(alloc: Global, endpoints: usize) -> Result<KeyTable, NoMemory>
        requires { endpoints ≤ most_endpoints }
        ensures { IfOk result (λ t. t ≡ replicate (endpoints * most_keys) false) }
    {
        let marks = vec![in alloc; false; endpoints * KEYS]?;
        Ok(KeyTable { endpoints, marks })
    }

    /// Whether there is a mark: never where the table has no such place.
    pub(crate) fn has(&self, endpoint: usize, key: usize) -> bool
        ensures { result ≡ is_marked self.now endpoint key }
    {
        endpoint < self.endpoints && key < KEYS && self.marks[endpoint * KEYS + key]
    }

    /// Makes a mark.
    pub(crate) fn mark(&mut self, endpoint: usize, key: usize)
        requires endpoint { endpoint * most_keys < length self.old }
        requires key { key < most_keys }
        ensures { AddsMarks self.old self.new (λ i k. (endpoint == i) && (key == k)) }
    {
        self.marks[endpoint * KEYS + key] = true;
    }
}
