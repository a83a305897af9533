//! The seats of two applications and their participants at a book, call by call.

ghost use Rattle.dds_book.specs.Kit.{IsKitOf};

use crate::tests::expecting::expect_equal;
use crate::tests::kits::{CALLS, ENTERED, empty_take, kit};
use dds_base::{Fate, Reply};
use dds_book::{Book, BookFault, Journal, Kit, Name, Seat};
use std::alloc::Global;
use std::marker::Brand;
use std::process::Abort;
use std::sync::Wait;
use std::test::Fail;
use std::time::{Clock, Duration};
use test_model::worked::{Move, Told, event_of, told_of};

fn told(answer: Result<Reply, BookFault>) -> Result<Told, BookFault> {
    match answer {
        Ok(reply) => Ok(told_of(&reply)),
        Err(fault) => Err(fault),
    }
}

fn expect_call<N: Name, R: Wait + Abort>(
    rt: &R,
    book: &Book<N>,
    seat: &mut Seat<N>,
    asked: Move,
    owed: Result<Told, BookFault>,
) {
    if let Some(event) = event_of(asked) {
        let answer = book.call(rt, seat, event);
        assert_eq!(rt; told(answer), owed, "{event:?}");
    }
}

fn expect_calls<N: Name, R: Wait + Abort>(rt: &R, book: &Book<N>, seats: &mut Vec<Seat<N>>) {
    for (number, asked, owed) in &CALLS {
        match seats.get_mut(*number) {
            Some(seat) => expect_call(rt, book, seat, *asked, *owed),
            None => panic!(rt; "no seat {number}"),
        }
    }
}

/// The journal has the calls that were entered, in order.
fn expect_entries(rt: &impl Abort, journal: &Journal) {
    let entered = CALLS.iter().filter(|call| call.2.is_ok());
    expect_equal(rt, journal.entries().len(), ENTERED, "entries");
    for (entry, (number, asked, owed)) in journal.entries().iter().zip(entered) {
        let wanted = (*number, event_of(*asked));
        expect_equal(rt, (entry.seat, Some(entry.event)), wanted, "an entry");
        expect_equal(rt, Ok(told_of(&entry.reply)), *owed, "its reply");
    }
}

/// What comes of the turn of a participant.
fn expect_turn<N: Name, R: Wait + Abort>(
    rt: &R,
    book: &Book<N>,
    seats: &mut Vec<Seat<N>>,
    turn: u64,
    owed: Result<Option<Told>, BookFault>,
) {
    let Some(seat) = seats.get_mut(2) else {
        panic!(rt; "no seat of a participant")
    };
    if !book.is_participant(rt, seat) {
        panic!(rt; "not a participant's seat")
    }
    let made = match book.pump(rt, seat, turn, Fate::Pass) {
        Ok(Some((_, reply))) => Ok(Some(told_of(&reply))),
        Ok(None) => Ok(None),
        Err(fault) => Err(fault),
    };
    expect_equal(rt, made, owed, "a turn");
}

/// A stopped book enters nothing of any seat.
fn expect_closed<N: Name, R: Wait + Abort>(rt: &R, book: &Book<N>, seats: &mut Vec<Seat<N>>) {
    for seat in seats.iter_mut() {
        let answer = book.call(rt, seat, empty_take());
        expect_equal(rt, told(answer), Err(BookFault::Closed), "a closed book");
    }
}

fn opened<N: Name>(rt: &impl Abort, alloc: Global, kit: Kit) -> (Book<N>, Vec<Seat<N>>)
    requires { IsKitOf N.plan N.tables kit }
{
    match Book::open(alloc, kit) {
        Ok(both) => both,
        Err((_, kit)) => {
            drop(kit);
            panic!(rt; "no memory for the book")
        }
    }
}

fn expect_book<N: Name, R: Wait + Clock + Abort>(rt: &R, alloc: Global, kit: Kit)
    requires { IsKitOf N.plan N.tables kit }
{
    let (book, mut seats) = opened::<N>(rt, alloc, kit);
    expect_calls(rt, &book, &mut seats);
    // In turn 0 a DATA would be due, and there's none.
    expect_turn(rt, &book, &mut seats, 0, Ok(None));
    expect_equal(rt, book.wait_change(rt, 4), Some(5), "a change");
    expect_equal(rt, book.wait_change(rt, 5), None, "no change");
    expect_equal(rt, book.rest(rt, 4), Ok(Some(5)), "a rest after a change");
    expect_equal(rt, book.rest(rt, 5), Ok(None), "a rest without a change");
    expect_equal(rt, book.wait_arrival(rt, 4), Ok(Some(5)), "a change before");
    expect_equal(rt, book.wait_arrival(rt, 5), Ok(None), "no arrival");
    let limit = Duration::from_millis(1);
    expect_equal(
        rt,
        book.give_way(rt, 5, limit),
        Ok(None),
        "no change by another",
    );
    book.stop(rt);
    expect_equal(
        rt,
        book.rest(rt, 4),
        Ok(Some(5)),
        "a change before the stop",
    );
    expect_equal(
        rt,
        book.rest(rt, 5),
        Err(BookFault::Closed),
        "a stopped book",
    );
    expect_equal(
        rt,
        book.wait_arrival(rt, 5),
        Err(BookFault::Closed),
        "a stopped book",
    );
    expect_equal(
        rt,
        book.give_way(rt, 5, limit),
        Err(BookFault::Closed),
        "a stopped book",
    );
    expect_equal(rt, book.wait_change(rt, 5), None, "a wait in vain");
    expect_closed(rt, &book, &mut seats);
    // In turn 4 a HEARTBEAT would be due.
    expect_turn(rt, &book, &mut seats, 4, Err(BookFault::Closed));
    let journal = book.close(rt, seats);
    expect_entries(rt, &journal);
    drop(journal);
}

#[test]
fn a_sample_goes_from_seat_to_seat(rt: HostRuntime) -> Result<(), Fail> {
    let kit = kit(&rt, rt.alloc());
    expect_book::<Brand, _>(&rt, rt.alloc(), kit);
    Ok(())
}
