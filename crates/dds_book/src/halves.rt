//! Two halves of one list, its front. Two halves of one pair in hand have equal fronts, and the one change, which takes
//! both, gives both the same new front. So whoever holds one half knows what the other shows, wherever that one is.
ghost use Rattle.std.specs.Prelude.{◌≡◌, ◌+◌, ◌<◌, ◌^◌, [], length, IfOk};
ghost use Rattle.dds_book.specs.Halves.{entries_by, half_of, holder_of};

mod steps;

use crate::halves::steps::{OnePair, agree, begin, change};
use atomic_table::{Badge, Table};
use dds_base::NoMemory;
use std::alloc::Global;
use std::collections::LinkedList;
use std::marker::{Brand, Model};
use std::mem;

/// An entry of a front has an owner.
pub trait Owned {
    ghost use Rattle.std.specs.Prelude.{ℕ};

    ghost owner: { Self → ℕ };
}

/// What the holder of some parts of a pair knows: the front, and right after two halves were joined the front of the
/// other one beside it. A half is one part and the whole is two. No value of it is made: it stands in proofs alone.
pub struct PairView<E> {
    pub parts: u64,
    pub front: LinkedList<E>,
    pub beside: LinkedList<E>,
}

/// One half of a pair. A contract sees which pair it is of, by its table, and the front.
#[derive(Drop)]
pub struct Half<E> {
    badge: Badge<PairView<E>>,
}

impl<E> Model for Half<E> {
    ghost use Rattle.dds_book.specs.Halves.{HalfState, IsHeld, front_in, half_of};

    ghost Value = { HalfState E };

    ghost view = { λ h. half_of h.badge.table_id (front_in h.badge.views) };

    ghost invariant = { λ h. IsHeld h.badge.views };
}

/// The other half of a pair, with the pair's table, for whoever makes the changes. A contract sees the table, the owner
/// whose entries the table counts, and the front.
#[derive(Drop)]
pub struct Holder<E: Owned> {
    table: Table<(), PairView<E>, u64, OnePair, Global>,
    badge: Badge<PairView<E>>,
}

impl<E: Owned> Model for Holder<E> {
    ghost use Rattle.std.specs.Prelude.{◌≡◌};
    ghost use Rattle.dds_book.specs.Halves.{HolderState, IsHeld, front_in, holder_of};

    ghost Value = { HolderState E };

    ghost view = { λ h. holder_of h.table.shared.table_id h.table.shared.key (front_in h.badge.views) };

    ghost invariant = { λ h. IsHeld h.badge.views × (h.badge.table_id ≡ h.table.shared.table_id)
        × (h.table.shared.table_id.words ≡ 1) × (h.table.shared.table_id.slots ≡ 0) };
}

impl<E: Owned> Holder<E> {
    /// A new pair with empty fronts, for the entries of an owner.
    pub fn open(alloc: Global, owner: u64) -> Result<(Holder<E>, Half<E>), NoMemory>
        ensures pair { IfOk result (λ r. r.0 ≡ holder_of r.1.table owner []) }
        ensures empty { IfOk result (λ r. r.1.front ≡ []) }
    {
        let (table, mut mine) = Table::of_words(alloc, &[0], &owner)?;
        let theirs = begin(&table.shared, &mut mine);
        let holder = Holder {
            table,
            badge: mine.into_badge(),
        };
        let half = Half {
            badge: theirs.into_badge(),
        };
        Ok((holder, half))
    }

    /// Gives both halves of the pair a new front, with one entry more of the owner. The two fronts were equal.
    pub fn advance(&mut self, half: &mut Half<E>, front: &[E])
        requires table { half.old.table ≡ self.old.table }
        requires more { entries_by E.owner self.old.owner front.now
            ≡ entries_by E.owner self.old.owner self.old.front + 1 }
        requires room { length front.now < 2 ^ 63 }
        ensures equal { half.old.front ≡ self.old.front }
        ensures half { half.new ≡ half_of half.old.table front.now }
        ensures own { self.new ≡ holder_of self.old.table self.old.owner front.now }
    {
        let mine = mem::replace(&mut self.badge, Badge::blank()).into_seat::<()>();
        let theirs = mem::replace(&mut half.badge, Badge::blank()).into_seat::<()>();
        let (mine, theirs) = change::<E, Brand>(&self.table.shared, mine, theirs, front);
        self.badge = mine.into_badge();
        half.badge = theirs.into_badge();
    }

    /// The two fronts are equal. The half is used up: the pair can't change any more.
    pub fn compare(&mut self, half: Half<E>)
        requires { half.table ≡ self.old.table }
        ensures equal { half.front ≡ self.old.front }
        ensures same { self.new ≡ self.old }
    {
        let Half { badge } = half;
        let theirs = badge.into_seat::<()>();
        let mine = mem::replace(&mut self.badge, Badge::blank()).into_seat::<()>();
        let mine = agree(&self.table.shared, mine, theirs);
        self.badge = mine.into_badge();
    }
}
