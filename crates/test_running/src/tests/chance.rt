//! Events drawn by a small linear congruential generator, the same at each run.

use dds_base::{Data, Event, KeyNo, ReaderNo, RuleNo, WriterNo};
use dds_qos::Due;
use test_model::World;

/// A generator.
#[derive(Clone, Copy, Debug)]
pub(crate) struct Chance {
    state: u64,
}

impl Chance {
    pub(crate) fn new(seed: u64) -> Chance {
        Chance { state: seed }
    }

    /// A number below the bound, 0 where that is 0.
    pub(crate) fn below(&mut self, bound: u64) -> u64 {
        self.state = self
            .state
            .wrapping_mul(6_364_136_223_846_793_005)
            .wrapping_add(1_442_695_040_888_963_407);
        let high = self.state >> 33;
        if bound == 0 { 0 } else { high % bound }
    }

    /// A number below the count in most draws, and the count itself, which nothing has, in one of 16.
    fn number(&mut self, count: usize) -> usize {
        if self.below(16) == 0 {
            return count;
        }
        self.below(count as u64) as usize
    }

    fn writer(&mut self, world: &World) -> WriterNo {
        WriterNo::new(self.number(world.layout().writers.len()))
    }

    fn reader(&mut self, world: &World) -> ReaderNo {
        ReaderNo::new(self.number(world.layout().readers.len()))
    }

    fn key(&mut self) -> KeyNo {
        KeyNo::new(self.number(2))
    }

    /// A number of a writer: mostly one of the next four from the base that the reader acknowledged, for a watcher
    /// mostly one of the last four written, and at times any up to the one after the next to be written.
    fn sn(&mut self, world: &World, writer: WriterNo, reader: ReaderNo) -> u64 {
        if self.below(8) == 0 {
            return self.below(world.written(writer).saturating_add(3));
        }
        let apart = self.below(4);
        if world.layout().is_watcher(reader) {
            return world.written(writer).saturating_sub(apart);
        }
        world.acked(writer, reader).saturating_add(apart)
    }

    /// A place: one of the first eight.
    fn place(&mut self) -> usize {
        self.below(8) as usize
    }

    fn payload(&mut self) -> Data {
        [(self.below(256) & 0xff) as u8; 32]
    }

    fn write(&mut self, world: &World) -> Event {
        let payload = self.payload();
        Event::Write {
            writer: self.writer(world),
            key: self.key(),
            payload,
        }
    }

    fn send_data(&mut self, world: &World) -> Event {
        let (writer, reader) = (self.writer(world), self.reader(world));
        Event::SendData {
            writer,
            reader,
            sn: self.sn(world, writer, reader),
        }
    }

    fn send_gap(&mut self, world: &World) -> Event {
        let (writer, reader) = (self.writer(world), self.reader(world));
        Event::SendGap {
            writer,
            reader,
            start: self.sn(world, writer, reader),
        }
    }

    /// The DATA of the writer 0 that is due to some reader, or else any event.
    fn due_data(&mut self, world: &World) -> Event {
        let writer = WriterNo::new(0);
        let reader = self.reader(world);
        match world.due(writer, reader) {
            Some(Due::Data(sn)) => Event::SendData { writer, reader, sn },
            _ => self.event(world),
        }
    }

    /// An event that moves the samples of the writer 0, the reader 0 and the rule 0 on.
    fn onward(&mut self, world: &World) -> Event {
        let (writer, reader) = (WriterNo::new(0), ReaderNo::new(0));
        let key = KeyNo::new(0);
        match self.below(5) {
            0 => Event::Fire {
                rule: RuleNo::new(0),
            },
            1 => Event::Write {
                writer,
                key,
                payload: self.payload(),
            },
            2 => self.due_data(world),
            3 => Event::Take { reader, key },
            _ => Event::SendAckNack { reader, writer },
        }
    }

    /// An event in this world, often one that moves samples on or delivers.
    pub(crate) fn lively_event(&mut self, world: &World) -> Event {
        match self.below(3) {
            0 => self.onward(world),
            1 => Event::Deliver {
                place: self.place(),
                keep: false,
            },
            _ => self.event(world),
        }
    }

    /// An event in this world.
    pub(crate) fn event(&mut self, world: &World) -> Event {
        match self.below(20) {
            0 | 1 | 2 => self.write(world),
            3 => Event::Fire {
                rule: RuleNo::new(self.number(world.layout().rules.len())),
            },
            4 | 5 | 6 => Event::Take {
                reader: self.reader(world),
                key: self.key(),
            },
            7 | 8 | 9 => self.send_data(world),
            10 | 11 => self.send_gap(world),
            12 => Event::SendHeartbeat {
                writer: self.writer(world),
                reader: self.reader(world),
            },
            13 | 14 => Event::SendAckNack {
                reader: self.reader(world),
                writer: self.writer(world),
            },
            15 => Event::Lose {
                place: self.place(),
            },
            16 => Event::Deliver {
                place: self.place(),
                keep: true,
            },
            _ => Event::Deliver {
                place: self.place(),
                keep: false,
            },
        }
    }
}
