//! The flights of a writer.
ghost use Rattle.std.specs.Prelude.{◌≡◌, ◌<◌, [], All, IfOk, OnOk, length, map};
ghost use Rattle.dds_match.specs.Network.{IsNetwork};
ghost use Rattle.dds_match.specs.Plan.{network_of};
ghost use Rattle.dds_flights.specs.Flight.{HasRoom, after_take, after_write};
ghost use Rattle.dds_flights.specs.Standing.{AddsReader, FlightsStand, has_span};

use crate::flight::Flight;
use dds_base::grid::KEYS;
use dds_base::{KeyNo, NoMemory, ReaderNo, WriterNo};
use dds_match::Plan;
use std::alloc::Global;
use std::marker::Model;

/// The flights of one writer: one for each reader and key with a cap or a lag. A contract sees them as a list.
#[derive(Drop)]
pub struct Flights {
    flights: Vec<Flight>,
}

impl Model for Flights {
    ghost use Rattle.std.specs.Prelude.{List};
    ghost use Rattle.dds_flights.specs.Flight.{FlightState};

    ghost Value = { List FlightState };

    ghost view = { λ a. a.flights.items };
}

/// Adds the flights of a reader.
fn add_reader(
    alloc: Global,
    plan: &Plan,
    writer: WriterNo,
    reader: ReaderNo,
    flights: &mut Vec<Flight>,
) -> Result<(), NoMemory>
    ensures { OnOk result (AddsReader (network_of plan.now) writer reader flights.old.items flights.new.items) }
{
    plan.assert_well_formed();
    for k in 0..KEYS {
        let key = KeyNo::new(k);
        let cap = plan.cap(writer, reader, key);
        let lag = plan.lag(writer, reader, key);
        if cap.is_some() || lag.is_some() {
            flights.push(Flight::new(alloc, reader, key, cap, lag)?)?;
        }
    }
    Ok(())
}

/// Whether it is said how soon the reader takes samples, or how soon it can.
fn has_span(plan: &Plan, reader: ReaderNo) -> bool
    ensures { result ≡ has_span plan.now reader }
{
    plan.taken_within(reader).is_some() || plan.available_within(reader).is_some()
}

impl Flights {
    /// The flights of a writer of a plan before the first event. An `Err` means that memory ran out.
    pub fn open(alloc: Global, plan: &Plan, writer: WriterNo) -> Result<Flights, NoMemory>
        ensures { IfOk result (FlightsStand (network_of plan.now) writer [] (λ r k. 0)) }
    {
        plan.assert_well_formed();
        let mut flights = Vec::new(alloc);
        for r in 0..plan.lists().readers() {
            let reader = ReaderNo::new(r);
            if has_span(plan, reader) {
                add_reader(alloc, plan, writer, reader, &mut flights)?;
            }
        }
        Ok(Flights { flights })
    }

    /// The flights.
    pub fn as_slice(&self) -> &[Flight]
        ensures { result.now ≡ self.now }
    {
        &self.flights
    }

    /// The writer wrote a sample of a key under this number. No flight of the key was full.
    pub fn note_write(&mut self, key: KeyNo, number: u64)
        requires { All (λ f. f.key ≡ key → HasRoom f) self.old }
        ensures { self.new ≡ map (after_write key number) self.old }
    {
        for flight in self.flights.iter_mut() {
            flight.note_write(key, number);
        }
    }

    /// A reader took a sample of a key of the writer.
    pub fn note_take(&mut self, reader: ReaderNo, key: KeyNo)
        ensures { self.new ≡ map (after_take reader key) self.old }
    {
        for flight in self.flights.iter_mut() {
            flight.note_take(reader, key);
        }
    }
}
