//! What a book is opened from, and the names of books.
ghost use Rattle.std.specs.Prelude.{◌≡◌, length, IfOk, IfErr};
ghost use Rattle.dds_book.specs.Kit.{ArePairs};
ghost use Rattle.dds_book.specs.Owning.{seat_count};

use crate::entry::Entry;
use crate::halves::{Half, Holder};
use crate::owning::seat_count;
use dds_base::NoMemory;
use dds_check::Checked;
use dds_domain::Domain;
use std::alloc::Global;
use std::marker::{Brand, Model};

/// Names one plan and one list of the seats' tables, so that a book and its seats belong together by their types. A
/// function over any name, called with `Brand`, is handed a kit and opens its book.
pub trait Name {
    ghost use Rattle.std.specs.Prelude.{List};
    ghost use Rattle.atomic_table.specs.Seated.{TableId};
    ghost use Rattle.dds_lists.specs.Lists.{Lists};

    ghost plan: { Lists };

    ghost tables: { List TableId };
}

impl Name for Brand {
    ghost use Rattle.std.specs.Prelude.{[]};
    ghost use Rattle.dds_book.specs.Kit.{no_lists};

    ghost plan = { no_lists };

    ghost tables = { [] };
}

/// A domain before its first event, and a pair of halves for each seat. A contract sees the checked plan, and the table
/// of each pair.
#[derive(Drop)]
pub struct Kit {
    pub(crate) domain: Domain,
    pub(crate) holders: Vec<Holder<Entry>>,
    pub(crate) halves: Vec<Half<Entry>>,
}

impl Model for Kit {
    ghost use Rattle.std.specs.Prelude.{map};
    ghost use Rattle.dds_domain.specs.Standing.{IsOpening};
    ghost use Rattle.dds_book.specs.Kit.{ArePairs, KitState, table_of};

    ghost Value = { KitState };

    ghost view = { λ k. record { checked = k.domain.checked; tables = map table_of k.halves.items } };

    ghost invariant = { λ k. IsOpening k.domain × ArePairs k.holders.items k.halves.items };
}

impl Kit {
    /// Opens the domain of a checked plan, and makes a pair of halves for each seat. An `Err` means that memory ran
    /// out, and gives the plan back.
    pub fn new(alloc: Global, checked: Checked) -> Result<Kit, (NoMemory, Checked)>
        ensures plan { IfOk result (λ k. k.checked ≡ checked) }
        ensures seats { IfOk result (λ k. length k.tables ≡ seat_count checked.plan) }
        ensures back { IfErr result (λ e. e.1 ≡ checked) }
    {
        let Ok((holders, halves)) = pairs(alloc, seat_count(checked.plan().lists())) else {
            return Err((NoMemory, checked));
        };
        let domain = Domain::open(alloc, checked)?;
        Ok(Kit {
            domain,
            holders,
            halves,
        })
    }
}

// A pair of halves for each seat.
fn pairs(alloc: Global, count: usize) -> Result<(Vec<Holder<Entry>>, Vec<Half<Entry>>), NoMemory>
    ensures count { IfOk result (λ r. length r.1.items ≡ count) }
    ensures pairs { IfOk result (λ r. ArePairs r.0.items r.1.items) }
{
    let mut holders = Vec::new(alloc);
    let mut halves = Vec::new(alloc);
    for seat in 0..count {
        let (holder, half) = Holder::open(alloc, seat as u64)?;
        holders.push(holder)?;
        halves.push(half)?;
    }
    Ok((holders, halves))
}
