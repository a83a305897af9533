//! The weights of a row while it is made, each found in one step.
ghost use Rattle.std.specs.Prelude.{◌≡◌, ◌*◌, ◌^◌, ◌≤◌, ◌==◌, ◌&&◌, ℕ, length, IfOk, if◌then◌else◌};
ghost use Rattle.dds_check.specs.Tables.{weighed_by};
ghost use Rattle.dds_propose.specs.Following.{IsZero};
ghost use Rattle.dds_propose.specs.Tables.{cell, is_place};

use dds_base::grid::{ENDPOINTS, KEYS, PLACES};
use dds_base::{Endpoint, KeyNo, NoMemory, Portion};
use std::alloc::Global;
use std::marker::Model;

/// A number for each key of each endpoint of one kind, 0 to 4,294,967,295.
#[derive(Drop)]
pub(crate) struct Table {
    cells: Vec<u32>,
}

impl Model for Table {
    ghost use Rattle.std.specs.Prelude.{◌≡◌, ℕ, List, length};
    ghost use Rattle.dds_base.specs.Grid.{most_places};

    ghost Value = { List ℕ };

    ghost view = { λ t. t.cells.items };

    ghost invariant = { λ t. length t.cells.items ≡ most_places };
}

impl Table {
    /// The table of zeros.
    #[tactic(auto, unfolding(crate::specs::Tables::cell))]
    fn zero(alloc: Global) -> Result<Table, NoMemory>
        ensures { IfOk result (λ t. (e k : ℕ) → cell t e k ≡ 0) }
    {
        let cells = vec![in alloc; 0; PLACES]?;
        Ok(Table { cells })
    }

    /// The number of a key of an endpoint, 0 where there is no such place.
    #[tactic(auto, unfolding(crate::specs::Tables::cell))]
    pub(crate) fn at<E: Endpoint>(&self, endpoint: E, key: KeyNo) -> u32
        ensures { result ≡ cell self.now (E.number_of endpoint) key }
    {
        let e = endpoint.place();
        let k = key.number();
        if e < ENDPOINTS && k < KEYS {
            self.cells[e * KEYS + k]
        } else {
            0
        }
    }

    /// Puts a number at a key of an endpoint. Nothing changes where there is no such place.
    #[tactic(auto, unfolding(crate::specs::Tables::cell))]
    pub(crate) fn put<E: Endpoint>(&mut self, endpoint: E, key: KeyNo, number: u32)
        ensures { (e k : ℕ) → cell self.new e k
            ≡ if is_place e k && ((e == E.number_of endpoint) && (k == key)) then number else cell self.old e k }
    {
        let e = endpoint.place();
        let k = key.number();
        if e < ENDPOINTS && k < KEYS {
            self.cells[e * KEYS + k] = number;
        }
    }

    /// The sum of count times weight over what a rule takes or writes.
    pub(crate) fn weighed<E: Endpoint>(&self, portions: &[Portion<E>]) -> u128
        ensures value { result ≡ weighed_by E.number_of portions.now (cell self.now) }
        ensures small { result ≤ length portions.now * 2 ^ 48 }
    {
        let mut total: u128 = 0;
        for portion in portions {
            total += u128::from(portion.count) * u128::from(self.at(portion.endpoint, portion.key));
        }
        total
    }
}

/// The weights of a row.
#[derive(Drop)]
pub(crate) struct Weights {
    /// On samples that were written for a reader and not taken.
    pub(crate) samples: Table,
    /// What the weight of a sample has risen by since the permits last followed it.
    pub(crate) risen: Table,
    /// On takes that no rule has spent.
    pub(crate) takes: Table,
    /// On writes that are permitted and not made.
    pub(crate) permits: Table,
}

impl Weights {
    /// All weights are 0.
    pub(crate) fn zero(alloc: Global) -> Result<Weights, NoMemory>
        ensures { IfOk result IsZero }
    {
        Ok(Weights {
            samples: Table::zero(alloc)?,
            risen: Table::zero(alloc)?,
            takes: Table::zero(alloc)?,
            permits: Table::zero(alloc)?,
        })
    }
}
