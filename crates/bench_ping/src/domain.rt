//! The deployment of `examples/ping` in a domain that one thread drives: a sample goes to the other side and another
//! one comes back, so many times.

use dds_base::{Arrival, Event, KeyNo, ReaderNo, Reply, RuleNo, WriterNo};
use dds_domain::Domain;
use std::alloc::Global;
use std::time::{Clock, Duration, Instant};
use test_files::plans::checked;
use test_files::texts::{PING, PING_CERT};

/// The domain before the first event.
fn opened(alloc: Global) -> Option<Domain> {
    match Domain::open(alloc, checked(alloc, PING, PING_CERT)?) {
        Ok(domain) => Some(domain),
        Err((_, checked)) => {
            drop(checked);
            None
        }
    }
}

/// Makes an event that does what it is for: it gives the number of what was written, the place of what was sent, and 0
/// for what came, was taken or fired. `None` where the event did something else.
fn made(domain: &mut Domain, event: Event) -> Option<u64> {
    match domain.step(event) {
        Ok(Reply::Written(sn)) => Some(sn),
        Ok(Reply::Sent(Some(place))) => Some(place as u64),
        Ok(Reply::Arrived(Arrival::New) | Reply::Took(_) | Reply::Fired | Reply::Acked) => Some(0),
        _ => None,
    }
}

/// One direction: a writer, its reader, and the rule that spends what is taken there.
#[derive(Clone, Copy)]
struct Way {
    writer: WriterNo,
    reader: ReaderNo,
    rule: RuleNo,
}

impl Way {
    fn new(writer: usize, rule: usize) -> Way {
        Way {
            writer: WriterNo::new(writer),
            reader: ReaderNo::new(writer),
            rule: RuleNo::new(rule),
        }
    }

    /// Writes and sends a sample, which arrives.
    fn send(&self, domain: &mut Domain) -> Option<()> {
        let Way { writer, reader, .. } = *self;
        let write = Event::Write {
            writer,
            key: KeyNo::new(0),
            payload: [7; 32],
        };
        let sn = made(domain, write)?;
        let place = made(domain, Event::SendData { writer, reader, sn })? as usize;
        made(domain, Event::Deliver { place, keep: false })?;
        Some(())
    }

    /// Takes a sample and spends it.
    fn take(&self, domain: &mut Domain) -> Option<()> {
        let take = Event::Take {
            reader: self.reader,
            key: KeyNo::new(0),
        };
        made(domain, take)?;
        made(domain, Event::Fire { rule: self.rule })?;
        Some(())
    }

    /// Acknowledges what arrived.
    fn acknowledge(&self, domain: &mut Domain) -> Option<()> {
        let Way { writer, reader, .. } = *self;
        let place = made(domain, Event::SendAckNack { reader, writer })? as usize;
        made(domain, Event::Deliver { place, keep: false })?;
        Some(())
    }

    fn cross(&self, domain: &mut Domain, acknowledges: bool) -> Option<()> {
        self.send(domain)?;
        self.take(domain)?;
        if acknowledges {
            self.acknowledge(domain)?;
        }
        Some(())
    }
}

/// Makes so many round trips, with an acknowledgement after each `every` samples of a writer. `None` where an event did
/// something else than it is for.
fn round_trips(domain: &mut Domain, trips: usize, every: usize) -> Option<()> {
    let to = Way::new(0, 1);
    let back = Way::new(1, 0);
    for trip in 0..trips {
        let acknowledges = trip.checked_rem(every)? == 0;
        to.cross(domain, acknowledges)?;
        back.cross(domain, acknowledges)?;
    }
    to.acknowledge(domain)?;
    back.acknowledge(domain)
}

/// How long the round trips took. `None` where an event did something else than it is for, or the clock failed.
fn timed<R: Clock>(rt: &R, domain: &mut Domain, trips: usize, every: usize) -> Option<Duration> {
    let began = Instant::now(rt).ok()?;
    round_trips(domain, trips, every)?;
    began.elapsed(rt).ok()
}

/// What is kept and stored of each of the two writers and readers after the round trips, and how long these took.
#[derive(Clone, Copy)]
pub(crate) struct Driven {
    pub kept: [usize; 2],
    pub stored: [usize; 2],
    pub took: Duration,
}

/// Makes so many round trips, with an acknowledgement after each `every` samples of a writer. `None` where there was no
/// memory for the domain, an event did something else than it is for, or the clock failed.
pub(crate) fn drive<R: Clock>(rt: &R, alloc: Global, trips: usize, every: usize) -> Option<Driven> {
    let mut domain = opened(alloc)?;
    let took = timed(rt, &mut domain, trips, every);
    let kept = [domain.kept(WriterNo::new(0)), domain.kept(WriterNo::new(1))];
    let stored = [
        domain.stored(ReaderNo::new(0)),
        domain.stored(ReaderNo::new(1)),
    ];
    drop(domain);
    Some(Driven {
        kept,
        stored,
        took: took?,
    })
}
