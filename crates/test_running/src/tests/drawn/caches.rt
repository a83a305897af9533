//! Drawn samples of two writers and four keys, which rise in number from each writer and are released late.

use crate::tests::caches::Fed;
use crate::tests::drawn::told::{Call, Kind, Seen, Told};
use crate::tests::drawn::{Dice, Subject, Tally, reader_limits};
use crate::tests::forms::CacheForm;
use dds_base::{NoMemory, Rejection};
use dds_cache::Cache;
use std::alloc::Global;
use std::process::Abort;
use std::test::Fail;
use test_forms::PlainCache;

impl<C: CacheForm> Subject for Fed<C> {
    fn make(&mut self, dice: &mut Dice) -> Result<Told, NoMemory> {
        let writer = dice.place(2);
        let key = dice.place(4);
        let last = self.last(writer);
        match dice.below(5) {
            0 | 1 => {
                let sn = last.wrapping_add(1).wrapping_add(dice.below(3));
                Ok(Told::Admitted(self.admit(writer, sn, key)?))
            }
            2 => {
                let upto = last.wrapping_add(2).saturating_sub(dice.below(12));
                self.release(writer, upto);
                Ok(Told::Released)
            }
            _ => Ok(Told::Took(self.take(key))),
        }
    }

    fn shown(&self) -> Seen {
        Seen::Cache(self.seen())
    }
}

const LIMITS: [[Option<u32>; 4]; 3] = [
    [None; 4],
    [None, Some(8), Some(3), Some(4)],
    [Some(2), Some(5), None, None],
];

const CALLS: [Call; 3] = [Call::Admit, Call::Release, Call::Take];

const KINDS: [(Call, Kind); 7] = [
    (Call::Admit, Kind::Stored),
    (Call::Admit, Kind::Overwrote),
    (Call::Admit, Kind::Rejected(Rejection::InstancesLimit)),
    (Call::Admit, Kind::Rejected(Rejection::SamplesLimit)),
    (
        Call::Admit,
        Kind::Rejected(Rejection::SamplesPerInstanceLimit),
    ),
    (Call::Take, Kind::Something),
    (Call::Take, Kind::Nothing),
];

/// Compares caches of the limits that a seed has.
fn compare(rt: &impl Abort, alloc: Global, tally: &mut Tally, seed: usize) -> Result<(), NoMemory> {
    let limits = reader_limits(LIMITS[seed % 3]);
    let fast = Fed::<Cache>::new(alloc, limits)?;
    let plain = Fed::<PlainCache>::new(alloc, limits)?;
    tally.compare(rt, fast, plain, seed as u64, 2000)
}

#[test]
fn drawn_calls_of_caches(rt: HostRuntime) -> Result<(), Fail> {
    let mut tally = Tally::new(rt.alloc());
    for seed in 0..9 {
        compare(&rt, rt.alloc(), &mut tally, seed)?;
    }
    tally.expect(&rt, &CALLS, &KINDS);
    Ok(())
}
