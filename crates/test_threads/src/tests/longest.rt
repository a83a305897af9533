//! A journal with as many entries as it has room for.

ghost use Rattle.dds_book.specs.Kit.{IsKitOf};

use crate::tests::expecting::expect_equal;
use crate::tests::kits::{empty_take, kit};
use crate::tests::without_memory::opened;
use dds_base::{Refusal, Reply};
use dds_book::{BookFault, BookState, Kit, Name, Seat};
use std::alloc::Global;
use std::marker::Brand;
use std::process::Abort;
use std::test::Fail;

/// How many entries a journal has at most.
const MOST: usize = 1_048_576;

/// Takes where nothing is to be taken, until the journal is full.
fn fill<N: Name>(rt: &impl Abort, state: &mut BookState<N>, seat: &mut Seat<N>) {
    for _ in 0..MOST {
        match state.enter(seat, empty_take()) {
            Ok(reply) => assert_eq!(rt; reply, Reply::Refused(Refusal::Empty)),
            Err(fault) => panic!(rt; "{fault:?}"),
        }
    }
}

fn expect_full<N: Name>(rt: &impl Abort, state: &mut BookState<N>, seat: &mut Seat<N>) {
    fill(rt, state, seat);
    assert!(rt; matches!(state.enter(seat, empty_take()), Err(BookFault::JournalFull)));
    state.stop();
    assert!(rt; matches!(state.enter(seat, empty_take()), Err(BookFault::Closed)));
}

fn expect_longest<N: Name>(rt: &impl Abort, alloc: Global, kit: Kit)
    requires { IsKitOf N.plan N.tables kit }
{
    let (mut state, mut seats) = opened::<N>(rt, alloc, kit);
    expect_equal(rt, seats.len(), 4, "seats");
    if let Some(seat) = seats.get_mut(0) {
        expect_full(rt, &mut state, seat);
    }
    drop(seats);
    drop(state);
}

#[test]
fn a_journal_that_is_full(rt: HostRuntime) -> Result<(), Fail> {
    let kit = kit(&rt, rt.alloc());
    expect_longest::<Brand>(&rt, rt.alloc(), kit);
    Ok(())
}
