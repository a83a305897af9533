//! A flight: what is under way of one key from a writer to one reader.
ghost use Rattle.std.specs.Prelude.{◌≡◌, ◌≤◌, IfOk, unwrap_or};
ghost use Rattle.std.specs.VecDeque.{deque_capacity};
ghost use Rattle.dds_flights.specs.Flight.{HasRoom, after_take, after_write, is_full, is_lagging, newest_after};
ghost use Rattle.dds_flights.specs.Flight.{opening_flight, remembered};

use dds_base::{KeyNo, NoMemory, ReaderNo};
use dds_qos::admission::is_reached;
use std::alloc::Global;
use std::collections::VecDeque;
use std::marker::Model;

/// The samples of one key that a writer wrote and that one reader lacks, where the plan bounds them by a cap, by a lag
/// or by both. A cap counts what the reader has yet to take. A lag asks for the numbers of the newest samples, as many
/// as the lag: none more is available late where the oldest of these is below the reader's base.
#[derive(Drop)]
pub struct Flight {
    reader: ReaderNo,
    key: KeyNo,
    cap: Option<u32>,
    lag: Option<u32>,
    untaken: u32,
    // The oldest first. There is room for as many as the lag.
    newest: VecDeque<u64>,
}

impl Model for Flight {
    ghost use Rattle.std.specs.Prelude.{◌≤◌, unwrap_or};
    ghost use Rattle.std.specs.VecDeque.{deque_capacity};
    ghost use Rattle.dds_flights.specs.Flight.{FlightState};

    ghost Value = { FlightState };

    ghost view = { λ f. record {
      reader = f.reader;
      key = f.key;
      cap = f.cap;
      lag = f.lag;
      untaken = f.untaken;
      newest = f.newest.items;
    } };

    ghost invariant = { λ f. unwrap_or f.lag 0 ≤ deque_capacity f.newest };
}

/// Adds a number to the newest ones, of which there are at most so many.
fn remember(newest: &mut VecDeque<u64>, most: u32, number: u64)
    requires { most ≤ deque_capacity newest.old }
    ensures items { newest.new.items ≡ remembered most newest.old.items number }
    ensures room { deque_capacity newest.new ≡ deque_capacity newest.old }
{
    if most == 0 {
        return;
    }
    if newest.len() >= most as usize {
        newest.pop_front();
    }
    newest.push_back_reserved(number);
}

/// Whether as many as the lag of the newest numbers are not below the base.
fn is_lagging(lag: Option<u32>, newest: &VecDeque<u64>, base: u64) -> bool
    ensures { result ≡ is_lagging lag newest.now.items base }
{
    let Some(lag) = lag else {
        return false;
    };
    if newest.len() < lag as usize {
        return false;
    }
    match newest.front() {
        Some(oldest) => base <= *oldest,
        None => true,
    }
}

impl Flight {
    /// A flight before the first event. An `Err` means that memory ran out.
    pub(crate) fn new(
        alloc: Global,
        reader: ReaderNo,
        key: KeyNo,
        cap: Option<u32>,
        lag: Option<u32>,
    ) -> Result<Flight, NoMemory>
        ensures { IfOk result (λ f. f ≡ opening_flight reader key cap lag) }
    {
        let newest = VecDeque::with_capacity(alloc, lag.unwrap_or(0) as usize)?;
        Ok(Flight {
            reader,
            key,
            cap,
            lag,
            untaken: 0,
            newest,
        })
    }

    /// The reader.
    pub fn reader(&self) -> ReaderNo
        ensures { result ≡ self.now.reader }
    {
        self.reader
    }

    /// The key.
    pub fn key(&self) -> KeyNo
        ensures { result ≡ self.now.key }
    {
        self.key
    }

    /// Whether no more samples of the key may be written now, where this is the reader's base of the writer: as many as
    /// the cap are to be taken, or as many as the lag are not below the base.
    pub fn is_full(&self, base: u64) -> bool
        ensures { result ≡ is_full self.now base }
    {
        is_reached(self.cap, self.untaken as usize) || is_lagging(self.lag, &self.newest, base)
    }

    /// The writer wrote a sample of a key under this number.
    pub(crate) fn note_write(&mut self, key: KeyNo, number: u64)
        requires { self.old.key ≡ key → HasRoom self.old }
        ensures { self.new ≡ after_write key number self.old }
    {
        if self.key != key {
            return;
        }
        if self.cap.is_some() {
            self.untaken += 1;
        }
        if let Some(lag) = self.lag {
            remember(&mut self.newest, lag, number);
        }
    }

    /// A reader took a sample of a key.
    pub(crate) fn note_take(&mut self, reader: ReaderNo, key: KeyNo)
        ensures { self.new ≡ after_take reader key self.old }
    {
        if self.reader == reader && self.key == key {
            self.untaken = self.untaken.saturating_sub(1);
        }
    }
}
