//! Readers call by call: limits, messages that come twice or out of order, numbers that are lost or irrelevant, and
//! ACKNACKs; and watchers. Each run is made on both forms.
ghost use Rattle.std.specs.Prelude.{◌≡◌};

use crate::tests::caches::{is_sent, sample};
use crate::tests::forms::ReaderForm;
use dds_base::{
    AckNack, Arrival, DataMsg, GapMsg, Heartbeat, KeyNo, NoMemory, ReaderNo, Rejection, Sample,
    SnSet, WriterNo,
};
use dds_qos::ReaderLimits;
use dds_reader::Reader;
use std::alloc::Global;
use std::process::Abort;
use std::test::Fail;
use test_forms::PlainReader;

/// The number after the last one that a sample has.
const END: u64 = 1 << 63;

/// One call of a reader of the writer 0.
#[derive(Clone, Copy, Debug)]
enum Call {
    /// A DATA with this number and key.
    Data(u64, usize),
    /// A DATA of a writer that the reader doesn't know.
    StrangeData,
    /// A GAP with this start, this base of its set and these numbers in it.
    Gap(u64, u64, &'static [u64]),
    /// A HEARTBEAT with this first and this last number.
    Heartbeat(u64, u64),
    AckNack,
    StrangeAckNack,
    Take(usize),
    /// How many samples are stored.
    Stored,
    /// Whether an ACKNACK is owed.
    Owes,
    /// The base of the writer.
    Base,
}

/// What is answered.
#[derive(Clone, Copy, Debug, PartialEq, Eq)]
enum Answer {
    New,
    Repeat,
    Irrelevant(u64),
    Overwrote(u64),
    Rejected(Rejection),
    Heard,
    Lost(u64),
    Stranger,
    /// An ACKNACK with this base, which asks for the numbers from the second to the third.
    Asks(u64, u64, u64),
    /// An ACKNACK with this base, which asks for nothing.
    AsksNothing(u64),
    NoAckNack,
    Took(u64),
    Empty,
    Stores(usize),
    Owes(bool),
    Base(u64),
    /// No answer of a reader: there is no such message, or the answer has other bytes than were sent.
    Wrong,
}

/// What a reader shows of its marks, its notes and its samples.
#[derive(Clone, Copy, Debug, PartialEq, Eq)]
pub(crate) struct Seen {
    /// The bases of the writers 0 and 1.
    base: [u64; 2],
    /// Whether an ACKNACK is owed to each of them.
    owes: [bool; 2],
    stored: usize,
    /// How many samples of each of the first keys are stored.
    unread: [usize; 4],
}

/// A reader and its number, which its messages name.
#[derive(Drop)]
pub(crate) struct Listener<R: ReaderForm> {
    me: ReaderNo,
    reader: R,
    ghost named: { (R.state reader).me ≡ me },
}

/// The answer to a message that came, or `Wrong` where there is no such message.
fn arrived(arrival: Option<Arrival>, key: usize) -> Answer {
    match arrival {
        Some(Arrival::New) => Answer::New,
        Some(Arrival::Repeat) => Answer::Repeat,
        Some(Arrival::Irrelevant(count)) => Answer::Irrelevant(count),
        Some(Arrival::Overwrote(old)) if is_sent(&old, key) => Answer::Overwrote(old.sn),
        Some(Arrival::Rejected(why)) => Answer::Rejected(why),
        Some(Arrival::Heard) => Answer::Heard,
        Some(Arrival::Lost(count)) => Answer::Lost(count),
        Some(Arrival::Stranger) => Answer::Stranger,
        Some(Arrival::Overwrote(_)) | None => Answer::Wrong,
    }
}

fn acknacked(acknack: Option<AckNack>) -> Answer {
    match acknack {
        Some(acknack) => asked(&acknack.set),
        None => Answer::NoAckNack,
    }
}

fn taken(took: Option<Sample>, key: usize) -> Answer {
    match took {
        Some(took) if is_sent(&took, key) => Answer::Took(took.sn),
        Some(_) => Answer::Wrong,
        None => Answer::Empty,
    }
}

/// What a set asks for, where it is an unbroken run of numbers.
fn asked(set: &SnSet) -> Answer {
    let base = set.base();
    let mut first = None;
    let mut last = base;
    let mut count: u64 = 0;
    for n in (0..256).map(|k| base + k) {
        if set.contains(n) {
            first = first.or(Some(n));
            last = n;
            count = count.wrapping_add(1);
        }
    }
    match first {
        None => Answer::AsksNothing(base),
        Some(first) if last.wrapping_sub(first) == count.wrapping_sub(1) => Answer::Asks(
            base, first, last,
        ),
        Some(_) => Answer::Wrong,
    }
}

impl<R: ReaderForm> Listener<R> {
    /// A watcher, or a reliable reader.
    pub(crate) fn new(
        alloc: Global,
        watching: bool,
        limits: ReaderLimits,
        filter: &[KeyNo],
        writers: &[WriterNo],
    ) -> Result<Listener<R>, NoMemory> {
        let me = ReaderNo::new(5);
        let reader = if watching {
            R::watching(alloc, me, limits, filter, writers)?
        } else {
            R::new(alloc, me, limits, filter, writers)?
        };
        Ok(Listener { me, reader })
    }

    /// The base of a writer.
    pub(crate) fn base(&self, writer: usize) -> u64 {
        self.reader.base(WriterNo::new(writer))
    }

    /// A DATA arrives. `None` where there is no such message, as of the two below.
    pub(crate) fn data(
        &mut self,
        writer: usize,
        sn: u64,
        key: usize,
    ) -> Result<Option<Arrival>, NoMemory> {
        let Some(data) = DataMsg::new(self.me, sample(writer, sn, key)) else {
            return Ok(None);
        };
        let arrival = self.reader.on_data(&data)?;
        Ok(Some(arrival))
    }

    pub(crate) fn gap(
        &mut self,
        writer: usize,
        start: u64,
        base: u64,
        numbers: &[u64],
    ) -> Result<Option<Arrival>, NoMemory> {
        let Some(set) = SnSet::new(base, numbers) else {
            return Ok(None);
        };
        let Some(gap) = GapMsg::new(WriterNo::new(writer), self.me, start, set) else {
            return Ok(None);
        };
        let arrival = self.reader.on_gap(&gap)?;
        Ok(Some(arrival))
    }

    pub(crate) fn heartbeat(
        &mut self,
        writer: usize,
        first: u64,
        last: u64,
    ) -> Result<Option<Arrival>, NoMemory> {
        let Some(heartbeat) = Heartbeat::new(WriterNo::new(writer), self.me, first, last) else {
            return Ok(None);
        };
        let arrival = self.reader.on_heartbeat(&heartbeat)?;
        Ok(Some(arrival))
    }

    pub(crate) fn acknack(&mut self, writer: usize) -> Option<AckNack> {
        self.reader.acknack(WriterNo::new(writer))
    }

    pub(crate) fn take(&mut self, key: usize) -> Option<Sample> {
        self.reader.take(KeyNo::new(key))
    }

    /// What shows whether a call changed something.
    pub(crate) fn seen(&self) -> Seen {
        let (first, second) = (WriterNo::new(0), WriterNo::new(1));
        Seen {
            base: [self.reader.base(first), self.reader.base(second)],
            owes: [self.reader.owes(first), self.reader.owes(second)],
            stored: self.reader.stored(),
            unread: [
                self.reader.unread(KeyNo::new(0)),
                self.reader.unread(KeyNo::new(1)),
                self.reader.unread(KeyNo::new(2)),
                self.reader.unread(KeyNo::new(3)),
            ],
        }
    }

    /// Makes a call, and once more where no memory was left for it and it changed nothing.
    fn call(&mut self, call: Call) -> Result<Answer, NoMemory> {
        let before = self.seen();
        match self.attempt(call) {
            Err(_) if self.seen() == before => self.attempt(call),
            answer => answer,
        }
    }

    fn attempt(&mut self, call: Call) -> Result<Answer, NoMemory> {
        match call {
            Call::Data(sn, key) => Ok(arrived(self.data(0, sn, key)?, key)),
            Call::StrangeData => Ok(arrived(self.data(1, 1, 0)?, 0)),
            Call::Gap(start, base, numbers) => Ok(arrived(self.gap(0, start, base, numbers)?, 0)),
            Call::Heartbeat(first, last) => Ok(arrived(self.heartbeat(0, first, last)?, 0)),
            Call::AckNack => Ok(acknacked(self.acknack(0))),
            Call::StrangeAckNack => Ok(acknacked(self.acknack(1))),
            Call::Take(key) => Ok(taken(self.take(key), key)),
            Call::Stored => Ok(Answer::Stores(self.reader.stored())),
            Call::Owes => Ok(Answer::Owes(self.reader.owes(WriterNo::new(0)))),
            Call::Base => Ok(Answer::Base(self.base(0))),
        }
    }
}

/// A reader, and its calls in order with their answers.
struct Run {
    about: &'static str,
    watching: bool,
    limits: ReaderLimits,
    keys: usize,
    calls: &'static [(Call, Answer)],
}

const NO_LIMITS: ReaderLimits = ReaderLimits {
    keep_last: None,
    max_samples: None,
    max_instances: None,
    max_samples_per_instance: None,
};

/// Two keys, of which the reader may know one, with one sample of it.
const ONE_OF_ONE: &[(Call, Answer)] = &[
    (Call::Data(1, 0), Answer::New),
    (
        Call::Data(2, 1),
        Answer::Rejected(Rejection::InstancesLimit),
    ),
    (
        Call::Data(3, 0),
        Answer::Rejected(Rejection::SamplesPerInstanceLimit),
    ),
    (Call::Take(0), Answer::Took(1)),
    (Call::Data(3, 0), Answer::New),
    (Call::Take(0), Answer::Empty),
    (Call::Heartbeat(3, 3), Answer::Lost(1)),
    (Call::Take(0), Answer::Took(3)),
    (Call::Data(3, 0), Answer::Repeat),
];

/// The last sample of each of two keys, and one sample in all.
const LAST_OF_ONE: &[(Call, Answer)] = &[
    (Call::Data(1, 0), Answer::New),
    (Call::Data(2, 0), Answer::Overwrote(1)),
    (Call::Data(3, 1), Answer::Rejected(Rejection::SamplesLimit)),
    (Call::Take(0), Answer::Took(2)),
    (Call::Data(3, 1), Answer::New),
];

/// Not more than the first 256 numbers from the base are asked for.
const MUCH_MISSING: &[(Call, Answer)] = &[
    (Call::Heartbeat(1, 300), Answer::Heard),
    (Call::Owes, Answer::Owes(true)),
    (Call::AckNack, Answer::Asks(1, 1, 256)),
    (Call::Owes, Answer::Owes(false)),
    (Call::Data(2, 0), Answer::New),
    (Call::Gap(1, 1, &[1]), Answer::Irrelevant(1)),
    (Call::AckNack, Answer::Asks(3, 3, 258)),
];

/// No number is left.
const ALL_IRRELEVANT: &[(Call, Answer)] = &[
    (Call::Gap(1, END, &[]), Answer::Irrelevant(END - 1)),
    (Call::Data(5, 0), Answer::Repeat),
    (Call::AckNack, Answer::AsksNothing(END)),
    (Call::Take(0), Answer::Empty),
];

/// A writer that the reader doesn't know.
const STRANGERS: &[(Call, Answer)] = &[
    (Call::StrangeData, Answer::Stranger),
    (Call::StrangeAckNack, Answer::NoAckNack),
    (Call::Stored, Answer::Stores(0)),
];

/// The last comes first, and two come twice.
const TWICE: &[(Call, Answer)] = &[
    (Call::Data(3, 0), Answer::New),
    (Call::Data(1, 0), Answer::New),
    (Call::Data(1, 0), Answer::Repeat),
    (Call::Data(2, 0), Answer::New),
    (Call::Data(3, 0), Answer::Repeat),
    (Call::Take(0), Answer::Took(1)),
    (Call::Take(0), Answer::Took(2)),
    (Call::Take(0), Answer::Took(3)),
    (Call::Take(0), Answer::Empty),
];

/// Nothing is taken until the first one came.
const FIRST_COMES_LAST: &[(Call, Answer)] = &[
    (Call::Data(2, 0), Answer::New),
    (Call::Data(3, 0), Answer::New),
    (Call::Take(0), Answer::Empty),
    (Call::Data(1, 0), Answer::New),
    (Call::Stored, Answer::Stores(3)),
    (Call::Take(0), Answer::Took(1)),
    (Call::Take(0), Answer::Took(2)),
    (Call::Take(0), Answer::Took(3)),
];

/// A HEARTBEAT before its sample and again after it.
const HEARD_TWICE: &[(Call, Answer)] = &[
    (Call::Heartbeat(1, 1), Answer::Heard),
    (Call::AckNack, Answer::Asks(1, 1, 1)),
    (Call::Data(1, 0), Answer::New),
    (Call::AckNack, Answer::AsksNothing(2)),
    (Call::Heartbeat(1, 1), Answer::Heard),
];

/// The reader takes one of two keys, and GAPs cover the other.
const GAPS: &[(Call, Answer)] = &[
    (Call::Gap(1, 2, &[]), Answer::Irrelevant(1)),
    (Call::Data(2, 0), Answer::New),
    (Call::Gap(3, 4, &[]), Answer::Irrelevant(1)),
    (Call::Take(0), Answer::Took(2)),
    (Call::AckNack, Answer::AsksNothing(4)),
];

/// A watcher gives up what comes after a later one.
const WATCHES: &[(Call, Answer)] = &[
    (Call::Data(2, 0), Answer::New),
    (Call::Base, Answer::Base(3)),
    (Call::Data(1, 0), Answer::Repeat),
    (Call::Stored, Answer::Stores(1)),
    (Call::Take(0), Answer::Took(2)),
    (Call::Take(0), Answer::Empty),
    (Call::Data(2, 0), Answer::Repeat),
    (Call::Base, Answer::Base(3)),
    (Call::StrangeData, Answer::Stranger),
];

/// A watcher of the last sample.
const WATCHES_LAST: &[(Call, Answer)] = &[
    (Call::Data(1, 0), Answer::New),
    (Call::Data(3, 0), Answer::Overwrote(1)),
    (Call::Base, Answer::Base(4)),
    (Call::Data(2, 0), Answer::Repeat),
    (Call::Take(0), Answer::Took(3)),
    (Call::Take(0), Answer::Empty),
];

/// A watcher marks nothing with a sample that it rejects, which may come again after a take.
const WATCHES_ONE: &[(Call, Answer)] = &[
    (Call::Data(2, 0), Answer::New),
    (
        Call::Data(5, 0),
        Answer::Rejected(Rejection::SamplesPerInstanceLimit),
    ),
    (Call::Base, Answer::Base(3)),
    (Call::Stored, Answer::Stores(1)),
    (Call::Take(0), Answer::Took(2)),
    (Call::Data(5, 0), Answer::New),
    (Call::Base, Answer::Base(6)),
    (Call::Take(0), Answer::Took(5)),
];

/// A watcher heeds no GAP and no HEARTBEAT, and sends no ACKNACK.
const HEEDS_DATA_ALONE: &[(Call, Answer)] = &[
    (Call::Data(2, 0), Answer::New),
    (Call::Gap(3, 5, &[6]), Answer::Irrelevant(0)),
    (Call::Heartbeat(4, 9), Answer::Heard),
    (Call::Owes, Answer::Owes(false)),
    (Call::AckNack, Answer::NoAckNack),
    (Call::StrangeAckNack, Answer::NoAckNack),
    (Call::Base, Answer::Base(3)),
    (Call::Data(3, 0), Answer::New),
    (Call::Take(0), Answer::Took(2)),
    (Call::Take(0), Answer::Took(3)),
];

/// A watcher passes over a key that it doesn't take, and gives up what comes before it.
const WATCHES_ONE_KEY: &[(Call, Answer)] = &[
    (Call::Data(4, 1), Answer::Irrelevant(1)),
    (Call::Base, Answer::Base(5)),
    (Call::Data(3, 0), Answer::Repeat),
    (Call::Stored, Answer::Stores(0)),
    (Call::Data(5, 0), Answer::New),
    (Call::Base, Answer::Base(6)),
];

static RUNS: [Run; 14] = [
    Run {
        about: "one sample of one key",
        watching: false,
        limits: ReaderLimits {
            keep_last: None,
            max_samples: Some(2),
            max_instances: Some(1),
            max_samples_per_instance: Some(1),
        },
        keys: 2,
        calls: ONE_OF_ONE,
    },
    Run {
        about: "the last sample of each key, one in all",
        watching: false,
        limits: ReaderLimits {
            keep_last: Some(1),
            max_samples: Some(1),
            max_instances: None,
            max_samples_per_instance: None,
        },
        keys: 2,
        calls: LAST_OF_ONE,
    },
    Run {
        about: "300 numbers are missing",
        watching: false,
        limits: NO_LIMITS,
        keys: 1,
        calls: MUCH_MISSING,
    },
    Run {
        about: "every number is irrelevant",
        watching: false,
        limits: NO_LIMITS,
        keys: 1,
        calls: ALL_IRRELEVANT,
    },
    Run {
        about: "a writer that the reader doesn't know",
        watching: false,
        limits: NO_LIMITS,
        keys: 1,
        calls: STRANGERS,
    },
    Run {
        about: "samples that come twice",
        watching: false,
        limits: THREE_OF_A_KEY,
        keys: 1,
        calls: TWICE,
    },
    Run {
        about: "the first sample comes last",
        watching: false,
        limits: THREE_OF_A_KEY,
        keys: 1,
        calls: FIRST_COMES_LAST,
    },
    Run {
        about: "the same HEARTBEAT before and after its sample",
        watching: false,
        limits: TWO_OF_A_KEY,
        keys: 1,
        calls: HEARD_TWICE,
    },
    Run {
        about: "a GAP before and after a sample",
        watching: false,
        limits: THREE_OF_A_KEY,
        keys: 1,
        calls: GAPS,
    },
    Run {
        about: "a watcher, and an older sample that comes late",
        watching: true,
        limits: NO_LIMITS,
        keys: 1,
        calls: WATCHES,
    },
    Run {
        about: "a watcher of the last sample",
        watching: true,
        limits: LAST_OF_A_KEY,
        keys: 1,
        calls: WATCHES_LAST,
    },
    Run {
        about: "a watcher that rejects",
        watching: true,
        limits: ONE_OF_A_KEY,
        keys: 1,
        calls: WATCHES_ONE,
    },
    Run {
        about: "a watcher, and what it doesn't heed",
        watching: true,
        limits: THREE_OF_A_KEY,
        keys: 1,
        calls: HEEDS_DATA_ALONE,
    },
    Run {
        about: "a watcher of one key",
        watching: true,
        limits: NO_LIMITS,
        keys: 1,
        calls: WATCHES_ONE_KEY,
    },
];

const LAST_OF_A_KEY: ReaderLimits = ReaderLimits {
    keep_last: Some(1),
    max_samples: None,
    max_instances: None,
    max_samples_per_instance: None,
};

const ONE_OF_A_KEY: ReaderLimits = ReaderLimits {
    keep_last: None,
    max_samples: None,
    max_instances: None,
    max_samples_per_instance: Some(1),
};

const TWO_OF_A_KEY: ReaderLimits = ReaderLimits {
    keep_last: None,
    max_samples: None,
    max_instances: None,
    max_samples_per_instance: Some(2),
};

const THREE_OF_A_KEY: ReaderLimits = ReaderLimits {
    keep_last: None,
    max_samples: None,
    max_instances: None,
    max_samples_per_instance: Some(3),
};

/// The reader of a run, which takes the first keys.
fn reader_of<R: ReaderForm>(alloc: Global, run: &Run) -> Result<Listener<R>, NoMemory> {
    let both = [KeyNo::new(0), KeyNo::new(1)];
    let filter = if run.keys == 1 {
        &both[..1]
    } else {
        both.as_slice()
    };
    Listener::new(alloc, run.watching, run.limits, filter, &[WriterNo::new(0)])
}

/// The reader of a run, made once more where no memory was left for it.
fn made_for<R: ReaderForm>(alloc: Global, run: &Run) -> Result<Listener<R>, NoMemory> {
    match reader_of(alloc, run) {
        Err(_) => reader_of(alloc, run),
        made => made,
    }
}

fn expect_answer(rt: &impl Abort, about: &str, call: &Call, have: Answer, wanted: Answer) {
    assert_eq!(rt; have, wanted, "{about}: {call:?}");
}

fn expect<R: ReaderForm>(rt: &impl Abort, alloc: Global, run: &Run) -> Result<(), NoMemory> {
    let mut listener = made_for::<R>(alloc, run)?;
    for (call, answer) in run.calls {
        let have = listener.call(*call)?;
        expect_answer(rt, run.about, call, have, *answer);
    }
    Ok(())
}

// It passes also where any one allocation is refused.
#[test]
fn readers_call_by_call(rt: HostRuntime) -> Result<(), Fail> {
    for run in &RUNS {
        expect::<Reader>(&rt, rt.alloc(), run)?;
        expect::<PlainReader>(&rt, rt.alloc(), run)?;
    }
    Ok(())
}
