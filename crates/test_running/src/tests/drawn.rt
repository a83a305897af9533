//! Drawn calls on both forms of a cache, a reader and a writer: each answer is the same, and so is all that is seen
//! after each call.
//!
//! Each form has dice of its own, which begin alike, and draws its calls by them and by what it shows. So both draw the
//! same calls as long as they show the same.

ghost use Rattle.std.specs.Prelude.{◌<◌};

mod caches;
mod readers;
mod told;
mod writers;

use crate::tests::drawn::told::{Call, Kind, Seen, Told};
use dds_base::NoMemory;
use dds_qos::ReaderLimits;
use std::alloc::Global;
use std::process::Abort;

/// The limits of a reader: how many samples it keeps of a key, and how many samples, keys and samples of a key it may
/// have.
fn reader_limits(row: [Option<u32>; 4]) -> ReaderLimits {
    let [
        keep_last,
        max_samples,
        max_instances,
        max_samples_per_instance,
    ] = row;
    ReaderLimits {
        keep_last,
        max_samples,
        max_instances,
        max_samples_per_instance,
    }
}

/// What draws numbers, by a linear congruential generator.
#[derive(Clone, Copy)]
struct Dice {
    state: u64,
}

impl Dice {
    fn new(seed: u64) -> Dice {
        Dice { state: seed }
    }

    /// A number below the count.
    fn below(&mut self, count: u64) -> u64
        requires { 0 < count }
        ensures { result < count }
    {
        let state = self
            .state
            .wrapping_mul(6364136223846793005)
            .wrapping_add(1442695040888963407);
        self.state = state;
        (state >> 33) % count
    }

    /// A place below the count, as of a key or a writer.
    fn place(&mut self, count: usize) -> usize
        requires { 0 < count }
        ensures { result < count }
    {
        self.below(count as u64) as usize
    }

    /// A number from two below this one to 40 above it, mostly a near one, and 0 at least.
    fn around(&mut self, number: u64) -> u64 {
        let reach = if self.below(4) == 0 { 43 } else { 7 };
        number.wrapping_add(self.below(reach)).saturating_sub(2)
    }

    /// Three numbers from this one to 29 above it, in any order.
    fn three_from(&mut self, number: u64) -> [u64; 3] {
        [
            number.wrapping_add(self.below(30)),
            number.wrapping_add(self.below(30)),
            number.wrapping_add(self.below(30)),
        ]
    }
}

/// A form of a cache, a reader or a writer.
trait Subject: Drop {
    /// Makes a drawn call, and gives its answer.
    fn make(&mut self, dice: &mut Dice) -> Result<Told, NoMemory>;

    /// All that it shows.
    fn shown(&self) -> Seen;
}

/// Makes the next drawn call on both forms, and gives it with the kind of its answer. `None` where the answers differ,
/// or what is seen then.
fn make_both<F: Subject, P: Subject>(
    fast: &mut F,
    plain: &mut P,
    fast_dice: &mut Dice,
    plain_dice: &mut Dice,
) -> Result<Option<(Call, Kind)>, NoMemory> {
    let told = fast.make(fast_dice)?;
    let plainly = plain.make(plain_dice)?;
    if told == plainly && fast.shown() == plain.shown() {
        Ok(Some((told.call(), told.kind())))
    } else {
        Ok(None)
    }
}

/// The calls that were made, with the kinds of their answers.
#[derive(Drop)]
struct Tally {
    answers: Vec<(Call, Kind)>,
}

impl Tally {
    fn new(alloc: Global) -> Tally {
        Tally {
            answers: Vec::new(alloc),
        }
    }

    /// Gives both forms so many of the same drawn calls, and notes them.
    fn compare<F: Subject, P: Subject>(
        &mut self,
        rt: &impl Abort,
        fast: F,
        plain: P,
        seed: u64,
        calls: usize,
    ) -> Result<(), NoMemory> {
        let mut fast = fast;
        let mut plain = plain;
        let mut fast_dice = Dice::new(seed);
        let mut plain_dice = Dice::new(seed);
        for call in 0..calls {
            match make_both(&mut fast, &mut plain, &mut fast_dice, &mut plain_dice)? {
                Some(answer) => self.answers.push(answer)?,
                None => panic!(rt;
                    "call {call}, seed {seed}: another answer, or something else is seen"
                ),
            }
        }
        Ok(())
    }

    /// Each of the calls was made 2,000 times at least, and each of the kinds of answers came.
    fn expect(&self, rt: &impl Abort, calls: &[Call], kinds: &[(Call, Kind)]) {
        for call in calls {
            let count = self.answers.iter().filter(|a| a.0 == *call).count();
            assert!(rt; count >= 2000, "{call:?}: {count} times");
        }
        for kind in kinds {
            assert!(rt; self.answers.contains(kind), "{kind:?} never came");
        }
    }
}
