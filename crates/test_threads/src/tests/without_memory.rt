//! The calls of seats where memory is refused: nothing is entered, and the same call then answers as with ample memory.
//! The test also passes where any one allocation is refused, which is how it is run once for each allocation that it
//! makes.

ghost use Rattle.dds_book.specs.Kit.{IsKitOf};

use crate::tests::expecting::expect_equal;
use crate::tests::kits::{CALLS, FATE, kit};
use dds_base::{Event, Reply};
use dds_book::{BookFault, BookState, Kit, Name, Seat};
use std::alloc::Global;
use std::marker::Brand;
use std::process::Abort;
use std::test::Fail;
use test_model::worked::{Told, event_of, told_of};

/// Enters an event, and once more where memory is refused: then nothing was entered before.
fn entered<N: Name>(
    rt: &impl Abort,
    state: &mut BookState<N>,
    seat: &mut Seat<N>,
    event: Event,
) -> Result<Reply, BookFault> {
    let before = state.changes();
    let again = event;
    match state.enter(seat, event) {
        Err(BookFault::NoMemory) => {
            expect_equal(rt, state.changes(), before, "changes");
            state.enter(seat, again)
        }
        answer => answer,
    }
}

fn told(answer: Result<Reply, BookFault>) -> Result<Told, BookFault> {
    match answer {
        Ok(reply) => Ok(told_of(&reply)),
        Err(fault) => Err(fault),
    }
}

fn expect_calls<N: Name>(rt: &impl Abort, state: &mut BookState<N>, seats: &mut Vec<Seat<N>>) {
    for (number, asked, owed) in &CALLS {
        if let (Some(event), Some(seat)) = (event_of(*asked), seats.get_mut(*number)) {
            let answer = entered(rt, state, seat, event);
            assert_eq!(rt; told(answer), *owed, "{event:?}");
        }
    }
}

/// Turns of participants after the calls: the seat, the turn, and the answer, none where there is nothing to do. The
/// sample was sent and has arrived, so what is left is the HEARTBEAT of its writer, and the ACKNACK that it asks for.
const TURNS: [(usize, u64, Option<Told>); 7] = [
    (2, 0, None),
    (2, 1, None),
    (3, 6, None),
    (2, 4, Some(Told::Sent(0))),
    (3, 1, Some(Told::Heard)),
    (3, 6, Some(Told::Sent(0))),
    (2, 1, Some(Told::Acked)),
];

/// Makes what is due at a participant's seat, and once more where memory is refused.
fn pumped<N: Name>(
    rt: &impl Abort,
    state: &mut BookState<N>,
    seat: &mut Seat<N>,
    turn: u64,
) -> Result<Option<(Event, Reply)>, BookFault> {
    if !state.is_participant(seat) {
        panic!(rt; "not a participant's seat")
    }
    match state.pump(seat, turn, FATE) {
        Err(BookFault::NoMemory) => state.pump(seat, turn, FATE),
        answer => answer,
    }
}

/// The reply to the event that was due, if one was.
fn told_of_turn(
    rt: &impl Abort,
    answer: Result<Option<(Event, Reply)>, BookFault>,
) -> Option<Told> {
    match answer {
        Ok(Some((_, reply))) => Some(told_of(&reply)),
        Ok(None) => None,
        Err(fault) => panic!(rt; "{fault:?}"),
    }
}

fn expect_turns<N: Name>(rt: &impl Abort, state: &mut BookState<N>, seats: &mut Vec<Seat<N>>) {
    for (number, turn, owed) in &TURNS {
        if let Some(seat) = seats.get_mut(*number) {
            let answer = pumped(rt, state, seat, *turn);
            let have = (*number, *turn, told_of_turn(rt, answer));
            expect_equal(rt, have, (*number, *turn, *owed), "a turn of a seat");
        }
    }
}

/// A stopped book makes nothing that is due.
fn expect_closed<N: Name>(rt: &impl Abort, state: &mut BookState<N>, seats: &mut Vec<Seat<N>>) {
    state.stop();
    if let Some(seat) = seats.get_mut(2) {
        let answer = pumped(rt, state, seat, 4);
        assert!(rt; matches!(answer, Err(BookFault::Closed)));
    }
}

/// The state of a kit with its seats; where memory is refused the kit comes back, and the state is opened again.
pub(crate) fn opened<N: Name>(
    rt: &impl Abort,
    alloc: Global,
    kit: Kit,
) -> (BookState<N>, Vec<Seat<N>>)
    requires { IsKitOf N.plan N.tables kit }
{
    let kit = match BookState::open(alloc, kit) {
        Ok(both) => return both,
        Err((_, kit)) => kit,
    };
    match BookState::open(alloc, kit) {
        Ok(both) => both,
        Err(_) => panic!(rt; "no memory for the book, twice"),
    }
}

fn expect_state<N: Name>(rt: &impl Abort, alloc: Global, kit: Kit)
    requires { IsKitOf N.plan N.tables kit }
{
    let (mut state, mut seats) = opened::<N>(rt, alloc, kit);
    expect_calls(rt, &mut state, &mut seats);
    expect_turns(rt, &mut state, &mut seats);
    expect_closed(rt, &mut state, &mut seats);
    drop(seats);
    drop(state);
}

// It passes also where any one allocation is refused.
#[test]
fn calls_without_memory(rt: HostRuntime) -> Result<(), Fail> {
    let kit = kit(&rt, rt.alloc());
    expect_state::<Brand>(&rt, rt.alloc(), kit);
    Ok(())
}
