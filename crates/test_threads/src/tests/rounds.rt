//! Rounds of participants, turn by turn as the schedule has them.

ghost use Rattle.dds_book.specs.Kit.{IsKitOf};

use crate::tests::expecting::expect_equal;
use crate::tests::kits::{CALLS, FATE, kit};
use crate::tests::without_memory::opened;
use dds_book::{BookFault, BookState, Kit, Name, Pace, Round, RoundEnd, Seat};
use std::alloc::Global;
use std::marker::Brand;
use std::process::Abort;
use std::test::Fail;
use test_model::worked::event_of;

/// A round, and its result.
#[derive(Clone, Copy)]
struct Case {
    seat: usize,
    /// How many events it may enter.
    limit: u64,
    /// The participant's pace before it.
    from: Pace,
    entered: u64,
    end: RoundEnd,
    /// The participant's pace after it.
    to: Pace,
}

/// Before a participant's first turn.
const START: Pace = Pace {
    turn: 0,
    moved: 0,
    heartbeats: 0,
};

/// After the first round, which ends with turn 4.
const SENT: Pace = Pace {
    turn: 5,
    moved: 0,
    heartbeats: 1,
};

/// After the second round, which ends with turn 12.
const SENT_AGAIN: Pace = Pace {
    turn: 13,
    moved: 1,
    heartbeats: 2,
};

/// Rounds after the calls: a sample was sent and has arrived, and isn't acknowledged.
const ROUNDS: [Case; 4] = [
    // In turn 4 the HEARTBEAT of the writer is due.
    Case {
        seat: 2,
        limit: 1,
        from: START,
        entered: 1,
        end: RoundEnd::Full,
        to: SENT,
    },
    // In turn 5 it arrives. Nobody can have answered in turn 12, so it's sent again.
    Case {
        seat: 2,
        limit: 100,
        from: SENT,
        entered: 2,
        end: RoundEnd::GivesWay,
        to: SENT_AGAIN,
    },
    // In turn 1 it arrives, in turn 6 it's answered, and in turn 7 the answer arrives. Then eight turns have nothing.
    Case {
        seat: 3,
        limit: 100,
        from: START,
        entered: 3,
        end: RoundEnd::Quiet,
        to: Pace {
            turn: 16,
            moved: 2,
            heartbeats: 0,
        },
    },
    // The sample is acknowledged, so there's nothing to do.
    Case {
        seat: 2,
        limit: 100,
        from: SENT_AGAIN,
        entered: 0,
        end: RoundEnd::Quiet,
        to: Pace {
            turn: 21,
            moved: 1,
            heartbeats: 2,
        },
    },
];

fn make_calls<N: Name>(rt: &impl Abort, state: &mut BookState<N>, seats: &mut Vec<Seat<N>>) {
    for (number, asked, owed) in &CALLS {
        if let (Some(event), Some(seat)) = (event_of(*asked), seats.get_mut(*number)) {
            let answer = state.enter(seat, event);
            assert_eq!(rt; answer.is_ok(), owed.is_ok(), "{event:?}");
        }
    }
}

fn round_of<N: Name>(
    rt: &impl Abort,
    state: &mut BookState<N>,
    seat: &mut Seat<N>,
    pace: &mut Pace,
    limit: u64,
) -> Round {
    if !state.is_participant(seat) {
        panic!(rt; "not a participant's seat")
    }
    state.turns(seat, pace, &[FATE], limit)
}

fn expect_round<N: Name>(
    rt: &impl Abort,
    state: &mut BookState<N>,
    seat: &mut Seat<N>,
    case: &Case,
) {
    let before = state.changes();
    let mut pace = case.from;
    let round = round_of(rt, state, seat, &mut pace, case.limit);
    let changes = before.saturating_add(case.entered);
    expect_equal(rt, round.entered, case.entered, "events of a round");
    expect_equal(rt, round.end, case.end, "the end of a round");
    expect_equal(rt, round.changes, changes, "changes");
    expect_equal(rt, pace, case.to, "the pace after a round");
}

fn expect_rounds<N: Name>(rt: &impl Abort, state: &mut BookState<N>, seats: &mut Vec<Seat<N>>) {
    for case in &ROUNDS {
        if let Some(seat) = seats.get_mut(case.seat) {
            expect_round(rt, state, seat, case);
        }
    }
}

/// A round of a stopped book enters nothing.
fn expect_closed<N: Name>(rt: &impl Abort, state: &mut BookState<N>, seats: &mut Vec<Seat<N>>) {
    state.stop();
    if let Some(seat) = seats.get_mut(2) {
        let mut pace = START;
        let round = round_of(rt, state, seat, &mut pace, 1);
        expect_equal(rt, round.entered, 0, "events of a stopped book");
        let closed = RoundEnd::Fault(BookFault::Closed);
        expect_equal(rt, round.end, closed, "a stopped book");
    }
}

fn expect_state<N: Name>(rt: &impl Abort, alloc: Global, kit: Kit)
    requires { IsKitOf N.plan N.tables kit }
{
    let (mut state, mut seats) = opened::<N>(rt, alloc, kit);
    make_calls(rt, &mut state, &mut seats);
    expect_rounds(rt, &mut state, &mut seats);
    expect_closed(rt, &mut state, &mut seats);
    drop(seats);
    drop(state);
}

#[test]
fn rounds_of_participants(rt: HostRuntime) -> Result<(), Fail> {
    let kit = kit(&rt, rt.alloc());
    expect_state::<Brand>(&rt, rt.alloc(), kit);
    Ok(())
}
