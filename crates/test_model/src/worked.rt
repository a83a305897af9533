//! Worked runs: each event with the reply that was worked out for it by hand, in plain numbers. Tests of the whole make
//! them in the world of this crate, and in the parts that a running deployment is made of.

use dds_base::{
    Arrival, Event, KeyNo, Packet, ReaderNo, Refusal, Rejection, Reply, RuleNo, Sample, WriterNo,
};

/// The deployment of a run.
#[derive(Clone, Copy, PartialEq, Eq)]
pub enum Stage {
    /// One writer, one reader that takes so many samples of an instance, one key, and as many permits.
    Small(u32),
    /// The keys 0 and 1, of which the reader takes 0 alone. There are one permit of key 0 and two of key 1.
    Filtered,
    /// As `Small(2)`, but the writer keeps one sample.
    Narrow,
    /// As `Small(3)`, with a watcher of the same application, reader 1, that stores the last sample of an instance.
    Watched,
    /// As `Small(3)`, but the reader is a watcher.
    WatcherAlone,
    /// As `Small(3)`, but the writer keeps the last two samples of an instance.
    KeepsLast,
    /// As `Small(3)`, but the writer follows a clock without permits, and the reader has yet to take two samples at
    /// most.
    CapOfTwo,
    /// As `CapOfTwo`, but the writer keeps the last sample, and the reader can't take one sample yet at most.
    LagOfOne,
    /// Two writers and two readers. Rule 0 takes one of reader 1 and writes two of writer 0, which it may do twice at
    /// first. Rule 1 takes two of reader 0 and writes one of writer 1. The readers take four and two samples of an
    /// instance.
    Loop,
}

/// An event, or a question about what is there.
#[derive(Clone, Copy)]
pub enum Move {
    /// The writer, the key, and the byte that its payload is filled with.
    Write(usize, usize, u8),
    Fire(usize),
    /// The reader and the key.
    Take(usize, usize),
    /// The writer, the reader and the number.
    SendData(usize, usize, u64),
    SendGap(usize, usize, u64),
    /// The writer and the reader.
    SendHeartbeat(usize, usize),
    /// The reader and the writer.
    SendAckNack(usize, usize),
    /// The place, and whether the packet stays there.
    Deliver(usize, bool),
    Lose(usize),
    /// Which packet is at the place.
    Look(usize),
    /// How many samples the writer keeps.
    Kept(usize),
    /// How many samples the reader stores.
    Stored(usize),
    /// The base that the reader, the second, acknowledged to the writer, the first.
    Acked(usize, usize),
}

/// What is replied.
#[derive(Clone, Copy, Debug, PartialEq, Eq)]
pub enum Told {
    Refused(Refusal),
    Written(u64),
    Fired,
    /// The number of the sample, and the byte that its payload is filled with.
    Took(u64, u8),
    /// The place.
    Sent(usize),
    /// The bus was full.
    NotSent,
    New,
    Repeat,
    Irrelevant(u64),
    Overwrote(u64, u8),
    Rejected(Rejection),
    Heard,
    Lost(u64),
    Stranger,
    Acked,
    Dropped,
    /// A DATA with this number.
    Data(u64),
    /// A GAP with this start and this base of its set, which is empty.
    Gap(u64, u64),
    /// A HEARTBEAT with this first and last number.
    Heartbeat(u64, u64),
    /// An ACKNACK with this base, which asks for nothing.
    AsksNothing(u64),
    /// An ACKNACK with this base, which asks for this number alone.
    Asks(u64, u64),
    NoPacket,
    /// How many, or which number.
    Number(u64),
    /// Nothing of the kind: the bytes of a payload differ, or a set has other numbers.
    Wrong,
}

/// A run from the opening on.
pub struct Run {
    pub about: &'static str,
    pub stage: Stage,
    pub moves: &'static [(Move, Told)],
}

/// The event of a move. None for a question.
pub fn event_of(asked: Move) -> Option<Event> {
    match asked {
        Move::Write(w, k, byte) => Some(Event::Write {
            writer: WriterNo::new(w),
            key: KeyNo::new(k),
            payload: [byte; 32],
        }),
        Move::Fire(u) => Some(Event::Fire {
            rule: RuleNo::new(u),
        }),
        Move::Take(r, k) => Some(Event::Take {
            reader: ReaderNo::new(r),
            key: KeyNo::new(k),
        }),
        Move::SendData(w, r, sn) => Some(Event::SendData {
            writer: WriterNo::new(w),
            reader: ReaderNo::new(r),
            sn,
        }),
        Move::SendGap(w, r, start) => Some(Event::SendGap {
            writer: WriterNo::new(w),
            reader: ReaderNo::new(r),
            start,
        }),
        Move::SendHeartbeat(w, r) => Some(Event::SendHeartbeat {
            writer: WriterNo::new(w),
            reader: ReaderNo::new(r),
        }),
        Move::SendAckNack(r, w) => Some(Event::SendAckNack {
            reader: ReaderNo::new(r),
            writer: WriterNo::new(w),
        }),
        Move::Deliver(place, keep) => Some(Event::Deliver { place, keep }),
        Move::Lose(place) => Some(Event::Lose { place }),
        Move::Look(_) | Move::Kept(_) | Move::Stored(_) | Move::Acked(..) => None,
    }
}

/// The number and the byte of a sample, where its payload is one byte throughout.
fn plain(sample: &Sample) -> Option<(u64, u8)> {
    let byte = sample.payload[0];
    if sample.payload == [byte; 32] {
        Some((sample.sn, byte))
    } else {
        None
    }
}

fn told_of_arrival(arrival: &Arrival) -> Told {
    match arrival {
        Arrival::New => Told::New,
        Arrival::Repeat => Told::Repeat,
        Arrival::Irrelevant(count) => Told::Irrelevant(*count),
        Arrival::Overwrote(old) => match plain(old) {
            Some((sn, byte)) => Told::Overwrote(sn, byte),
            None => Told::Wrong,
        },
        Arrival::Rejected(why) => Told::Rejected(*why),
        Arrival::Heard => Told::Heard,
        Arrival::Lost(count) => Told::Lost(*count),
        Arrival::Stranger => Told::Stranger,
    }
}

/// A reply in plain numbers.
pub fn told_of(reply: &Reply) -> Told {
    match reply {
        Reply::Refused(why) => Told::Refused(*why),
        Reply::Written(sn) => Told::Written(*sn),
        Reply::Fired => Told::Fired,
        Reply::Took(sample) => match plain(sample) {
            Some((sn, byte)) => Told::Took(sn, byte),
            None => Told::Wrong,
        },
        Reply::Sent(Some(place)) => Told::Sent(*place),
        Reply::Sent(None) => Told::NotSent,
        Reply::Arrived(arrival) => told_of_arrival(arrival),
        Reply::Acked => Told::Acked,
        Reply::Dropped => Told::Dropped,
    }
}

/// A packet in plain numbers. Of an ACKNACK's set the first 256 numbers are looked at, which are all that it may have.
pub fn told_of_packet(packet: &Option<Packet>) -> Told {
    match packet {
        None => Told::NoPacket,
        Some(Packet::Data(data)) => Told::Data(data.sample.sn),
        Some(Packet::Gap(gap)) => {
            let base = gap.set.base();
            if (base..base.saturating_add(256)).any(|n| gap.set.contains(n)) {
                Told::Wrong
            } else {
                Told::Gap(gap.start, base)
            }
        }
        Some(Packet::Heartbeat(heartbeat)) => Told::Heartbeat(heartbeat.first, heartbeat.last),
        Some(Packet::AckNack(acknack)) => {
            let base = acknack.set.base();
            let mut asked = (base..base.saturating_add(256)).filter(|n| acknack.set.contains(*n));
            match (asked.next(), asked.next()) {
                (None, _) => Told::AsksNothing(base),
                (Some(n), None) => Told::Asks(base, n),
                (Some(_), Some(_)) => Told::Wrong,
            }
        }
    }
}

/// The samples come out of order and twice; they are taken in order and once.
const OUT_OF_ORDER: &[(Move, Told)] = &[
    (Move::Write(0, 0, 11), Told::Written(1)),
    (Move::Write(0, 0, 12), Told::Written(2)),
    (Move::Write(0, 0, 13), Told::Written(3)),
    (Move::SendData(0, 0, 3), Told::Sent(0)),
    (Move::SendData(0, 0, 1), Told::Sent(1)),
    (Move::SendData(0, 0, 2), Told::Sent(2)),
    (Move::Deliver(0, true), Told::New),
    (Move::Deliver(1, true), Told::New),
    (Move::Deliver(1, false), Told::Repeat),
    (Move::Deliver(2, false), Told::New),
    (Move::Deliver(0, false), Told::Repeat),
    (Move::Take(0, 0), Told::Took(1, 11)),
    (Move::Take(0, 0), Told::Took(2, 12)),
    (Move::Take(0, 0), Told::Took(3, 13)),
    (Move::Take(0, 0), Told::Refused(Refusal::Empty)),
];

/// A reader asks for what it misses, and acknowledges it; an old ACKNACK that comes late changes nothing.
const ACKNOWLEDGED: &[(Move, Told)] = &[
    (Move::Write(0, 0, 11), Told::Written(1)),
    (Move::SendData(0, 0, 1), Told::Sent(0)),
    (Move::SendHeartbeat(0, 0), Told::Sent(1)),
    (Move::Look(1), Told::Heartbeat(1, 1)),
    (Move::Deliver(1, true), Told::Heard),
    (Move::SendAckNack(0, 0), Told::Sent(2)),
    (Move::Look(2), Told::Asks(1, 1)),
    (Move::Deliver(0, false), Told::New),
    (Move::SendAckNack(0, 0), Told::Sent(0)),
    (Move::Look(0), Told::AsksNothing(2)),
    (Move::Kept(0), Told::Number(1)),
    (Move::Deliver(0, false), Told::Acked),
    (Move::Kept(0), Told::Number(0)),
    (Move::Acked(0, 0), Told::Number(2)),
    (Move::Deliver(2, false), Told::Acked),
    (Move::Acked(0, 0), Told::Number(2)),
    (Move::Kept(0), Told::Number(0)),
    (Move::Deliver(1, false), Told::Heard),
    (
        Move::SendData(0, 0, 1),
        Told::Refused(Refusal::NothingToSend),
    ),
];

/// Nothing is taken until the first sample came.
const FIRST_COMES_LAST: &[(Move, Told)] = &[
    (Move::Write(0, 0, 11), Told::Written(1)),
    (Move::Write(0, 0, 12), Told::Written(2)),
    (Move::Write(0, 0, 13), Told::Written(3)),
    (Move::SendData(0, 0, 2), Told::Sent(0)),
    (Move::SendData(0, 0, 3), Told::Sent(1)),
    (Move::SendData(0, 0, 1), Told::Sent(2)),
    (Move::Deliver(0, false), Told::New),
    (Move::Deliver(1, false), Told::New),
    (Move::Take(0, 0), Told::Refused(Refusal::Empty)),
    (Move::Deliver(2, false), Told::New),
    (Move::Stored(0), Told::Number(3)),
    (Move::Take(0, 0), Told::Took(1, 11)),
    (Move::Take(0, 0), Told::Took(2, 12)),
    (Move::Take(0, 0), Told::Took(3, 13)),
];

/// The reader takes one of two keys, and GAPs cover the other.
const GAPS: &[(Move, Told)] = &[
    (Move::Write(0, 1, 11), Told::Written(1)),
    (Move::Write(0, 0, 12), Told::Written(2)),
    (Move::Write(0, 1, 13), Told::Written(3)),
    (Move::SendGap(0, 0, 1), Told::Sent(0)),
    (Move::Look(0), Told::Gap(1, 2)),
    (Move::SendData(0, 0, 2), Told::Sent(1)),
    (Move::Look(1), Told::Data(2)),
    (Move::SendGap(0, 0, 3), Told::Sent(2)),
    (Move::Look(2), Told::Gap(3, 4)),
    (Move::Deliver(0, false), Told::Irrelevant(1)),
    (Move::Deliver(1, false), Told::New),
    (Move::Deliver(2, false), Told::Irrelevant(1)),
    (Move::Take(0, 0), Told::Took(2, 12)),
    (Move::Take(0, 1), Told::Refused(Refusal::Foreign)),
    (Move::SendAckNack(0, 0), Told::Sent(0)),
    (Move::Look(0), Told::AsksNothing(4)),
    (Move::Deliver(0, false), Told::Acked),
    (Move::Kept(0), Told::Number(0)),
];

/// A writer that keeps one sample writes the next one when the first is acknowledged.
const FULL: &[(Move, Told)] = &[
    (Move::Write(0, 0, 11), Told::Written(1)),
    (Move::Write(0, 0, 12), Told::Refused(Refusal::Full)),
    (Move::SendData(0, 0, 1), Told::Sent(0)),
    (Move::Deliver(0, false), Told::New),
    (Move::SendAckNack(0, 0), Told::Sent(0)),
    (Move::Deliver(0, false), Told::Acked),
    (Move::Write(0, 0, 12), Told::Written(2)),
];

/// A rule that needs two takes isn't fired after one.
const HALF: &[(Move, Told)] = &[
    (Move::Write(1, 0, 11), Told::Refused(Refusal::NoPermit)),
    (Move::Write(0, 0, 12), Told::Written(1)),
    (Move::SendData(0, 0, 1), Told::Sent(0)),
    (Move::Deliver(0, false), Told::New),
    (Move::Take(0, 0), Told::Took(1, 12)),
    (Move::Fire(1), Told::Refused(Refusal::NotEnough)),
];

/// A watcher takes the last sample alone: an older one that comes late counts as a repeat. It is sent nothing but DATA,
/// and sends nothing.
const WATCHED: &[(Move, Told)] = &[
    (Move::Write(0, 0, 11), Told::Written(1)),
    (Move::Write(0, 0, 12), Told::Written(2)),
    (Move::Write(0, 0, 13), Told::Written(3)),
    (Move::SendData(0, 1, 2), Told::Sent(0)),
    (Move::SendData(0, 1, 3), Told::Sent(1)),
    (Move::SendData(0, 1, 1), Told::Sent(2)),
    (Move::Deliver(0, false), Told::New),
    (Move::Deliver(1, false), Told::Overwrote(2, 12)),
    (Move::Deliver(2, false), Told::Repeat),
    (Move::Stored(1), Told::Number(1)),
    (Move::Take(1, 0), Told::Took(3, 13)),
    (Move::Take(1, 0), Told::Refused(Refusal::Empty)),
    (
        Move::SendHeartbeat(0, 1),
        Told::Refused(Refusal::NothingToSend),
    ),
    (
        Move::SendAckNack(1, 0),
        Told::Refused(Refusal::NothingToSend),
    ),
    (
        Move::SendGap(0, 1, 1),
        Told::Refused(Refusal::NothingToSend),
    ),
    (Move::Acked(0, 1), Told::Number(1)),
    (Move::Kept(0), Told::Number(3)),
];

/// A writer whose reader is a watcher keeps nothing, and can send the last sample alone.
const WATCHER_ALONE: &[(Move, Told)] = &[
    (Move::Write(0, 0, 11), Told::Written(1)),
    (Move::Write(0, 0, 12), Told::Written(2)),
    (Move::Kept(0), Told::Number(0)),
    (
        Move::SendData(0, 0, 1),
        Told::Refused(Refusal::NothingToSend),
    ),
    (Move::SendData(0, 0, 2), Told::Sent(0)),
    (Move::Deliver(0, false), Told::New),
    (Move::Take(0, 0), Told::Took(2, 12)),
];

/// A writer that keeps the last two samples drops the first one. A GAP announces it, so that no HEARTBEAT makes the
/// reader give it up.
const DROPPED: &[(Move, Told)] = &[
    (Move::Write(0, 0, 11), Told::Written(1)),
    (Move::Write(0, 0, 12), Told::Written(2)),
    (Move::Kept(0), Told::Number(2)),
    (Move::Write(0, 0, 13), Told::Written(3)),
    (Move::Kept(0), Told::Number(2)),
    (
        Move::SendData(0, 0, 1),
        Told::Refused(Refusal::NothingToSend),
    ),
    (Move::SendHeartbeat(0, 0), Told::Sent(0)),
    (Move::Look(0), Told::Heartbeat(2, 3)),
    (Move::SendGap(0, 0, 1), Told::Sent(1)),
    (Move::Look(1), Told::Gap(1, 2)),
    (
        Move::SendGap(0, 0, 2),
        Told::Refused(Refusal::NothingToSend),
    ),
    (Move::Deliver(1, false), Told::Irrelevant(1)),
    (Move::Deliver(0, false), Told::Heard),
    (Move::SendData(0, 0, 2), Told::Sent(0)),
    (Move::Deliver(0, false), Told::New),
    (Move::Take(0, 0), Told::Took(2, 12)),
    (Move::SendAckNack(0, 0), Told::Sent(0)),
    (Move::Look(0), Told::Asks(3, 3)),
    (Move::Deliver(0, false), Told::Acked),
    (Move::Acked(0, 0), Told::Number(3)),
    (Move::Kept(0), Told::Number(1)),
    (
        Move::SendGap(0, 0, 1),
        Told::Refused(Refusal::NothingToSend),
    ),
    (Move::SendData(0, 0, 3), Told::Sent(0)),
    (Move::Deliver(0, false), Told::New),
    (Move::Take(0, 0), Told::Took(3, 13)),
];

/// A reader gives up the dropped sample where a HEARTBEAT comes before its DATA, which then is a repeat.
const LOST: &[(Move, Told)] = &[
    (Move::Write(0, 0, 11), Told::Written(1)),
    (Move::SendData(0, 0, 1), Told::Sent(0)),
    (Move::Write(0, 0, 12), Told::Written(2)),
    (Move::Write(0, 0, 13), Told::Written(3)),
    (Move::SendHeartbeat(0, 0), Told::Sent(1)),
    (Move::SendData(0, 0, 2), Told::Sent(2)),
    (Move::Deliver(2, false), Told::New),
    (Move::Take(0, 0), Told::Refused(Refusal::Empty)),
    (Move::Deliver(1, false), Told::Lost(1)),
    (Move::Take(0, 0), Told::Took(2, 12)),
    (Move::Deliver(0, false), Told::Repeat),
    (Move::SendGap(0, 0, 1), Told::Sent(0)),
    (Move::Deliver(0, false), Told::Irrelevant(0)),
    (Move::Stored(0), Told::Number(0)),
];

/// By a cap of two the third write waits for a take.
const CAPPED: &[(Move, Told)] = &[
    (Move::Write(0, 0, 7), Told::Written(1)),
    (Move::Write(0, 0, 8), Told::Written(2)),
    (Move::Write(0, 0, 9), Told::Refused(Refusal::NotYet)),
    (Move::SendData(0, 0, 1), Told::Sent(0)),
    (Move::Deliver(0, false), Told::New),
    (Move::Write(0, 0, 9), Told::Refused(Refusal::NotYet)),
    (Move::Take(0, 0), Told::Took(1, 7)),
    (Move::Write(0, 0, 9), Told::Written(3)),
    (Move::Write(0, 0, 10), Told::Refused(Refusal::NotYet)),
];

/// By a lag of one the second write waits until the first sample is delivered, and not until it is taken.
const LAGGED: &[(Move, Told)] = &[
    (Move::Write(0, 0, 7), Told::Written(1)),
    (Move::Write(0, 0, 8), Told::Refused(Refusal::NotYet)),
    (Move::SendData(0, 0, 1), Told::Sent(0)),
    (Move::Write(0, 0, 8), Told::Refused(Refusal::NotYet)),
    (Move::Deliver(0, false), Told::New),
    (Move::Write(0, 0, 8), Told::Written(2)),
    (
        Move::SendData(0, 0, 1),
        Told::Refused(Refusal::NothingToSend),
    ),
    (Move::SendHeartbeat(0, 0), Told::Sent(0)),
    (Move::Deliver(0, false), Told::Heard),
    (Move::Write(0, 0, 9), Told::Refused(Refusal::NotYet)),
    (Move::SendData(0, 0, 2), Told::Sent(0)),
    (Move::Deliver(0, false), Told::New),
    (Move::Take(0, 0), Told::Took(1, 7)),
    (Move::Take(0, 0), Told::Took(2, 8)),
    (Move::Take(0, 0), Told::Refused(Refusal::Empty)),
];

/// The runs of a writer that follows a clock.
pub static CLOCK_RUNS: [Run; 2] = [
    Run {
        about: "a write waits for a take",
        stage: Stage::CapOfTwo,
        moves: CAPPED,
    },
    Run {
        about: "a write waits for a delivery",
        stage: Stage::LagOfOne,
        moves: LAGGED,
    },
];

/// The runs of writers with KEEP_LAST, which no checked deployment of versions 1 and 2 has.
pub static KEEP_LAST_RUNS: [Run; 2] = [
    Run {
        about: "a GAP announces a dropped sample",
        stage: Stage::KeepsLast,
        moves: DROPPED,
    },
    Run {
        about: "a reader gives up a dropped sample",
        stage: Stage::KeepsLast,
        moves: LOST,
    },
];

/// The worked runs.
pub static RUNS: [Run; 8] = [
    Run {
        about: "samples come out of order and twice",
        stage: Stage::Small(3),
        moves: OUT_OF_ORDER,
    },
    Run {
        about: "an old ACKNACK comes late",
        stage: Stage::Small(2),
        moves: ACKNOWLEDGED,
    },
    Run {
        about: "the first sample comes last",
        stage: Stage::Small(3),
        moves: FIRST_COMES_LAST,
    },
    Run {
        about: "GAPs tell of a key that the reader doesn't take",
        stage: Stage::Filtered,
        moves: GAPS,
    },
    Run {
        about: "a writer keeps one sample",
        stage: Stage::Narrow,
        moves: FULL,
    },
    Run {
        about: "a rule needs two takes",
        stage: Stage::Loop,
        moves: HALF,
    },
    Run {
        about: "a watcher beside a strict reader",
        stage: Stage::Watched,
        moves: WATCHED,
    },
    Run {
        about: "a watcher and no strict reader",
        stage: Stage::WatcherAlone,
        moves: WATCHER_ALONE,
    },
];
