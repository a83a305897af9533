//! The steps on the table of one pair. A step changes the one word, or looks at it, in one atomic step.
ghost use Rattle.std.specs.Prelude.{◌≡◌, ◌+◌, ◌<◌, ◌^◌, [], length};
ghost use Rattle.dds_book.specs.Halves.{entries_by, whole};

use crate::halves::{Owned, PairView};
use atomic_table::{Join, Play, Seat, Shared, Split, TableRule};
use std::marker::{Brand, PhantomData};

/// The rule of a pair.
pub(crate) struct OnePair;

impl<E: Owned> TableRule<(), PairView<E>, u64> for OnePair {
    ghost use Rattle.std.specs.Prelude.{[]};
    ghost use Rattle.dds_book.specs.Halves.{IsPair, whole};

    ghost holds = { λ by. IsPair E.owner by };

    ghost first = { λ _. whole [] };
}

/// Joins two halves.
struct Both;

impl<E> Join<PairView<E>> for Both {
    ghost use Rattle.dds_book.specs.Halves.{both, spent};

    ghost both = { both };

    ghost spent = { spent };
}

/// Cuts a whole in two.
struct InHalves;

impl<E> Split<PairView<E>> for InHalves {
    ghost use Rattle.dds_book.specs.Halves.{half};

    ghost left = { half };

    ghost right = { half };
}

/// The front that a change gives. A step's outcome has no parameter of its own, so the front gets into it by this type;
/// a call at `Brand` picks it.
pub(crate) trait Given<E> {
    ghost use Rattle.std.specs.Prelude.{List};

    ghost front: { List E };
}

impl<E> Given<E> for Brand {
    ghost use Rattle.std.specs.Prelude.{[]};

    ghost front = { [] };
}

/// One more entry of the owner, and the front is the one given.
struct Grow<F> {
    front: PhantomData<F>,
}

impl<E, F: Given<E>> Play<(), PairView<E>> for Grow<F> {
    ghost use Rattle.dds_book.specs.Halves.{grown};

    ghost then = { grown F.front };
}

/// The two fronts that were joined are equal.
struct SeeEqual;

impl<E> Play<(), PairView<E>> for SeeEqual {
    ghost use Rattle.dds_book.specs.Halves.{compared};

    ghost then = { compared };
}

/// Cuts the whole of a new table in two.
pub(crate) fn begin<E: Owned>(
    table: &Shared<(), PairView<E>, u64, OnePair>,
    mine: &mut Seat<(), PairView<E>>,
) -> Seat<(), PairView<E>>
    requires table { (mine.old.table_id ≡ table.now.table_id) × (table.now.table_id.words ≡ 1) }
    requires whole { mine.old.me ≡ (whole [], []) }
    ensures tables { (mine.new.table_id ≡ table.now.table_id) × (result.table_id ≡ table.now.table_id) }
    ensures slots { (mine.new.me.1 ≡ []) × (result.me.1 ≡ []) }
    ensures parts { (0 < mine.new.me.0.parts) × (0 < result.me.0.parts) }
    ensures fronts { (mine.new.me.0.front ≡ []) × (result.me.0.front ≡ []) }
{
    table.split_seat::<InHalves>(mine)
}

/// Joins two halves, changes the front, and cuts the whole in two again.
pub(crate) fn change<E: Owned, F: Given<E>>(
    table: &Shared<(), PairView<E>, u64, OnePair>,
    mut mine: Seat<(), PairView<E>>,
    theirs: Seat<(), PairView<E>>,
    front: &[E],
) -> (Seat<(), PairView<E>>, Seat<(), PairView<E>>)
    requires front { front.now ≡ F.front }
    requires tables { (mine.table_id ≡ table.now.table_id) × (theirs.table_id ≡ table.now.table_id)
        × (table.now.table_id.words ≡ 1) }
    requires slots { (mine.me.1 ≡ []) × (theirs.me.1 ≡ []) }
    requires parts { (0 < mine.me.0.parts) × (0 < theirs.me.0.parts) }
    requires more { entries_by E.owner table.now.key front.now ≡ entries_by E.owner table.now.key mine.me.0.front + 1 }
    requires room { length front.now < 2 ^ 63 }
    ensures equal { mine.me.0.front ≡ theirs.me.0.front }
    ensures tables { (result.0.table_id ≡ table.now.table_id) × (result.1.table_id ≡ table.now.table_id) }
    ensures slots { (result.0.me.1 ≡ []) × (result.1.me.1 ≡ []) }
    ensures parts { (0 < result.0.me.0.parts) × (0 < result.1.me.0.parts) }
    ensures fronts { (result.0.me.0.front ≡ front.now) × (result.1.me.0.front ≡ front.now) }
{
    table.join_seat::<Both>(&mut mine, theirs);
    table.fetch_add::<Grow<F>>(&mut mine, 0, 1);
    let theirs = table.split_seat::<InHalves>(&mut mine);
    (mine, theirs)
}

/// Joins two halves and looks, which shows that their fronts were equal.
pub(crate) fn agree<E: Owned>(
    table: &Shared<(), PairView<E>, u64, OnePair>,
    mut mine: Seat<(), PairView<E>>,
    theirs: Seat<(), PairView<E>>,
) -> Seat<(), PairView<E>>
    requires tables { (mine.table_id ≡ table.now.table_id) × (theirs.table_id ≡ table.now.table_id)
        × (table.now.table_id.words ≡ 1) }
    requires slots { (mine.me.1 ≡ []) × (theirs.me.1 ≡ []) }
    requires parts { (0 < mine.me.0.parts) × (0 < theirs.me.0.parts) }
    ensures equal { mine.me.0.front ≡ theirs.me.0.front }
    ensures same { (result.table_id ≡ table.now.table_id) × (result.me.1 ≡ []) × (0 < result.me.0.parts)
        × (result.me.0.front ≡ mine.me.0.front) }
{
    table.join_seat::<Both>(&mut mine, theirs);
    table.load::<SeeEqual>(&mut mine, 0);
    mine
}
