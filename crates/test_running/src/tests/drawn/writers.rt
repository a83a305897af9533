//! Drawn calls of a writer with three readers: one of three of the four keys, one of the first key alone, and a watcher
//! of two. Some writers begin near the end of the numbers.

use crate::tests::drawn::told::{Call, Kind, Seen, Told};
use crate::tests::drawn::{Dice, Subject, Tally};
use crate::tests::forms::WriterForm;
use crate::tests::writers::{Speaker, proxy};
use dds_base::NoMemory;
use dds_qos::{Due, WriterLimits};
use dds_writer::{Proxy, WriteRefused, Writer};
use std::alloc::Global;
use std::process::Abort;
use std::test::Fail;
use test_forms::PlainWriter;

/// The number that is 200 below the last one of a writer.
const NEAR_THE_END: u64 = (1 << 63) - 201;

impl<W: WriterForm> Subject for Speaker<W> {
    fn make(&mut self, dice: &mut Dice) -> Result<Told, NoMemory> {
        let key = dice.place(4);
        let reader = dice.place(4).wrapping_add(1);
        let base = self.base(reader).unwrap_or(1);
        let written = self.counts().0;
        let centre = if dice.below(2) == 0 { base } else { written };
        let near = dice.around(centre);
        match dice.below(9) {
            0 | 1 => Ok(Told::Wrote(self.attempt(key, (near % 251) as u8))),
            2 | 3 => {
                let numbers = dice.three_from(near);
                let count = dice.place(4);
                self.acknack(reader, near, &numbers[..count]);
                Ok(Told::Acknowledged)
            }
            4 => {
                let due = if dice.below(2) == 0 {
                    self.due(reader)
                } else {
                    None
                };
                let sent = match due {
                    Some(Due::Data(sn)) => sn,
                    Some(Due::Gap(start)) => start,
                    None => near,
                };
                self.note_sent(reader, sent);
                Ok(Told::Noted)
            }
            5 => Ok(Told::Due(self.due(reader))),
            6 => Ok(Told::DataTo(self.data_to(reader, near))),
            7 => Ok(Told::GapTo(self.gap_to(reader, near))),
            _ => Ok(Told::HeartbeatTo(self.heartbeat_to(reader))),
        }
    }

    fn shown(&self) -> Seen {
        Seen::Writer(self.seen())
    }
}

const LIMITS: [WriterLimits; 3] = [
    WriterLimits {
        keep_last: None,
        max_samples: None,
        max_instances: None,
        max_samples_per_instance: None,
    },
    WriterLimits {
        keep_last: None,
        max_samples: Some(12),
        max_instances: Some(3),
        max_samples_per_instance: Some(6),
    },
    WriterLimits {
        keep_last: Some(2),
        max_samples: Some(7),
        max_instances: None,
        max_samples_per_instance: None,
    },
];

const CALLS: [Call; 7] = [
    Call::Write,
    Call::OnAckNack,
    Call::NoteSent,
    Call::Due,
    Call::Data,
    Call::Gap,
    Call::Heartbeat,
];

const KINDS: [(Call, Kind); 14] = [
    (Call::Write, Kind::Something),
    (Call::Write, Kind::Refused(WriteRefused::SequenceEnd)),
    (Call::Write, Kind::Refused(WriteRefused::InstanceLimit)),
    (Call::Write, Kind::Refused(WriteRefused::Full)),
    (Call::Write, Kind::Refused(WriteRefused::InstanceFull)),
    (Call::Due, Kind::DueData),
    (Call::Due, Kind::DueGap),
    (Call::Due, Kind::Nothing),
    (Call::Data, Kind::Something),
    (Call::Data, Kind::Nothing),
    (Call::Gap, Kind::Something),
    (Call::Gap, Kind::Nothing),
    (Call::Heartbeat, Kind::Something),
    (Call::Heartbeat, Kind::Nothing),
];

fn three_readers(alloc: Global) -> Result<Vec<Proxy>, NoMemory> {
    let mut proxies = Vec::new(alloc);
    proxies.push(proxy(alloc, 1, 3, false)?)?;
    proxies.push(proxy(alloc, 2, 1, false)?)?;
    proxies.push(proxy(alloc, 3, 2, true)?)?;
    Ok(proxies)
}

/// Compares writers of the limits that a seed has. Those of the last seeds begin near the end of the numbers.
fn compare(rt: &impl Abort, alloc: Global, tally: &mut Tally, seed: usize) -> Result<(), NoMemory> {
    let limits = LIMITS[seed % 3];
    let written = if seed < 9 { 0 } else { NEAR_THE_END };
    let fast = Speaker::<Writer>::starting(alloc, limits, three_readers(alloc)?, written)?;
    let plain = Speaker::<PlainWriter>::starting(alloc, limits, three_readers(alloc)?, written)?;
    tally.compare(rt, fast, plain, seed as u64, 2000)
}

#[test]
fn drawn_calls_of_writers(rt: HostRuntime) -> Result<(), Fail> {
    let mut tally = Tally::new(rt.alloc());
    for seed in 0..12 {
        compare(&rt, rt.alloc(), &mut tally, seed)?;
    }
    tally.expect(&rt, &CALLS, &KINDS);
    Ok(())
}
