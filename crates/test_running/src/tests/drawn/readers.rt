//! Drawn messages of two writers, of four keys of which the reader takes three: in any order, some twice, with holes,
//! and at times of a writer that the reader doesn't know.

use crate::tests::drawn::told::{Call, Kind, Seen, Told};
use crate::tests::drawn::{Dice, Subject, Tally, reader_limits};
use crate::tests::forms::ReaderForm;
use crate::tests::readers::Listener;
use dds_base::{KeyNo, NoMemory, Rejection, WriterNo};
use dds_reader::Reader;
use std::alloc::Global;
use std::process::Abort;
use std::test::Fail;
use test_forms::PlainReader;

impl<R: ReaderForm> Subject for Listener<R> {
    fn make(&mut self, dice: &mut Dice) -> Result<Told, NoMemory> {
        let writer = if dice.below(16) == 0 {
            2
        } else {
            dice.place(2)
        };
        let key = dice.place(4);
        let base = self.base(writer);
        let near = dice.around(base);
        match dice.below(6) {
            0 | 1 => Ok(Told::Data(self.data(writer, near, key)?)),
            2 => {
                let end = near.wrapping_add(dice.below(5));
                let numbers = dice.three_from(end);
                let count = dice.place(4);
                Ok(Told::Gap(self.gap(writer, near, end, &numbers[..count])?))
            }
            3 => {
                let last = near.wrapping_add(dice.below(40));
                Ok(Told::Heartbeat(self.heartbeat(writer, near, last)?))
            }
            4 => Ok(Told::AckNack(self.acknack(writer))),
            _ => Ok(Told::Took(self.take(key))),
        }
    }

    fn shown(&self) -> Seen {
        Seen::Reader(self.seen())
    }
}

const LIMITS: [[Option<u32>; 4]; 3] = [
    [None; 4],
    [None, Some(6), Some(2), Some(4)],
    [Some(2), Some(5), None, None],
];

const CALLS: [Call; 5] = [
    Call::OnData,
    Call::OnGap,
    Call::OnHeartbeat,
    Call::AckNack,
    Call::Take,
];

/// What comes at both kinds of readers.
const KINDS: [(Call, Kind); 11] = [
    (Call::OnData, Kind::Stored),
    (Call::OnData, Kind::Overwrote),
    (Call::OnData, Kind::Rejected(Rejection::InstancesLimit)),
    (Call::OnData, Kind::Rejected(Rejection::SamplesLimit)),
    (
        Call::OnData,
        Kind::Rejected(Rejection::SamplesPerInstanceLimit),
    ),
    (Call::OnData, Kind::Repeat),
    (Call::OnData, Kind::Irrelevant),
    (Call::OnData, Kind::Stranger),
    (Call::OnHeartbeat, Kind::Heard),
    (Call::Take, Kind::Something),
    (Call::Take, Kind::Nothing),
];

/// What comes at reliable readers alone.
const RELIABLE: [(Call, Kind); 4] = [
    (Call::OnGap, Kind::Irrelevant),
    (Call::OnGap, Kind::NoneIrrelevant),
    (Call::OnHeartbeat, Kind::Lost),
    (Call::AckNack, Kind::Something),
];

/// Compares readers of the limits that a seed has.
fn compare(
    rt: &impl Abort,
    alloc: Global,
    tally: &mut Tally,
    watching: bool,
    seed: usize,
) -> Result<(), NoMemory> {
    let filter = [KeyNo::new(0), KeyNo::new(1), KeyNo::new(2)];
    let writers = [WriterNo::new(0), WriterNo::new(1)];
    let limits = reader_limits(LIMITS[seed % 3]);
    let fast = Listener::<Reader>::new(alloc, watching, limits, &filter, &writers)?;
    let plain = Listener::<PlainReader>::new(alloc, watching, limits, &filter, &writers)?;
    tally.compare(rt, fast, plain, seed as u64, 100)
}

/// Compares readers of each of the limits, and gives the calls that were made. A plain reader grows slow with all that
/// it ever marked, so each reader gets few calls.
fn compared(rt: &impl Abort, alloc: Global, watching: bool) -> Result<Tally, NoMemory> {
    let mut tally = Tally::new(alloc);
    for seed in 0..180 {
        compare(rt, alloc, &mut tally, watching, seed)?;
    }
    Ok(tally)
}

#[test]
fn drawn_calls_of_readers(rt: HostRuntime) -> Result<(), Fail> {
    let reliable = compared(&rt, rt.alloc(), false)?;
    reliable.expect(&rt, &CALLS, &KINDS);
    reliable.expect(&rt, &[], &RELIABLE);
    let watching = compared(&rt, rt.alloc(), true)?;
    watching.expect(&rt, &CALLS, &KINDS);
    Ok(())
}
