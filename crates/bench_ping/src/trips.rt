//! How long round trips take: from an application's nth write to its nth take, each when the call was let through.

ghost use Rattle.std.specs.Prelude.{◌≡◌};

use dds_base::{AppNo, NoMemory, Reply};
use dds_peers::{Act, App, Diary, Gate, Steady};
use std::alloc::Global;
use std::sync::Arc;
use std::sync::atomic::{AtomicU64, Ordering};
use std::time::{Clock, Instant};

/// The application whose round trips are timed: the one that writes first.
const TIMED: usize = 0;

/// What the gate and the timed application share, in nanoseconds.
#[derive(Drop)]
pub(crate) struct Times {
    /// When its last call was let through, since the run began.
    call: AtomicU64,
    /// How long half of its round trips took at most.
    half: AtomicU64,
    /// How long 99 of 100 took at most.
    most: AtomicU64,
}

impl Times {
    pub(crate) fn new() -> Times {
        Times {
            call: AtomicU64::new(0),
            half: AtomicU64::new(0),
            most: AtomicU64::new(0),
        }
    }

    /// How many microseconds half of the round trips and 99 of 100 took at most.
    pub(crate) fn microseconds(&self) -> (u64, u64) {
        (
            self.half.load(Ordering::SeqCst) / 1_000,
            self.most.load(Ordering::SeqCst) / 1_000,
        )
    }
}

/// Lets every call through, and notes when it let through the timed application's.
#[derive(Drop)]
pub(crate) struct Watch<'a, R> {
    pub(crate) rt: &'a R,
    pub(crate) began: Instant,
    pub(crate) times: Arc<Times, Global>,
}

impl<'a, R: Clock + Sync> Gate for Watch<'a, R> {
    fn pass(&self, app: AppNo) {
        if app.number() != TIMED {
            return;
        }
        let Ok(since) = self.began.elapsed(self.rt) else {
            return;
        };
        if let Ok(nanoseconds) = u64::try_from(since.as_nanos()) {
            self.times.call.store(nanoseconds, Ordering::SeqCst);
        }
    }
}

/// A steady application that notes when it wrote and when it took.
#[derive(Drop)]
pub(crate) struct Timed {
    alloc: Global,
    app: AppNo,
    steady: Steady,
    times: Arc<Times, Global>,
    writes: Vec<u64>,
    takes: Vec<u64>,
    is_short: bool,
}

impl Timed {
    pub(crate) fn new(
        alloc: Global,
        app: AppNo,
        steady: Steady,
        times: Arc<Times, Global>,
    ) -> Timed {
        Timed {
            alloc,
            app,
            steady,
            times,
            writes: Vec::new(alloc),
            takes: Vec::new(alloc),
            is_short: false,
        }
    }

    /// Notes when a write or a take of the timed application was let through.
    fn note(&mut self, reply: &Reply) -> Result<(), NoMemory>
        ensures { self.new.steady ≡ self.old.steady }
    {
        if self.app.number() != TIMED {
            return Ok(());
        }
        let now = self.times.call.load(Ordering::SeqCst);
        match reply {
            Reply::Written(_) => self.writes.push(now)?,
            Reply::Took(_) => self.takes.push(now)?,
            _ => {}
        }
        Ok(())
    }

    /// How long each round trip took, the shortest first.
    fn trips(&self) -> Result<Vec<u64>, NoMemory> {
        let mut trips = Vec::new(self.alloc);
        for (written, taken) in self.writes.iter().zip(self.takes.iter()) {
            trips.push(taken.saturating_sub(*written))?;
        }
        trips.sort_unstable();
        Ok(trips)
    }

    /// Stores how long half of the round trips and 99 of 100 took at most.
    fn tell(&self) {
        let Ok(trips) = self.trips() else {
            return;
        };
        if let Some(half) = trips.get(trips.len() / 2) {
            self.times.half.store(*half, Ordering::SeqCst);
        }
        if let Some(most) = trips.get(trips.len() / 100 * 99) {
            self.times.most.store(*most, Ordering::SeqCst);
        }
    }
}

impl App for Timed {
    ghost notes = { λ t. t.steady.diary };

    ghost identity = { λ t. t.steady.app };

    fn act(&mut self) -> Result<Act, NoMemory> {
        if self.is_short {
            return Err(NoMemory);
        }
        let act = self.steady.act()?;
        if act == Act::Stop {
            self.tell();
        }
        Ok(act)
    }

    fn hear(&mut self, reply: &Reply) {
        self.is_short = self.note(reply).is_err() || self.is_short;
        self.steady.hear(reply);
    }

    fn diary(&self) -> &Diary {
        self.steady.diary()
    }
}
