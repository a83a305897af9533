//! The parts of a deployment that is run: its plan, the writers and readers, the ledger, the flights and the bus.

use crate::bus::Bus;
use dds_flights::Flights;
use dds_match::Plan;
use dds_reader::Reader;
use dds_rules::Ledger;
use dds_writer::Writer;
use std::marker::Model;

/// The parts of a deployment that is run, checked or not. Endpoints stand at the places of their numbers.
#[derive(Drop)]
pub(crate) struct Parts {
    pub(crate) plan: Plan,
    pub(crate) writers: Vec<Writer>,
    pub(crate) readers: Vec<Reader>,
    pub(crate) ledger: Ledger,
    /// What is under way from each writer to readers with a cap or a lag.
    pub(crate) flights: Vec<Flights>,
    pub(crate) bus: Bus,
}

impl Model for Parts {
    ghost use Rattle.std.specs.Coded.{codes, coded_ℕ};
    ghost use Rattle.std.specs.Ordering.{nat_cmp};
    ghost use Rattle.std.specs.FinSet as set;
    ghost use Rattle.dds_domain.specs.Standing.{PartsState};
    ghost use Rattle.dds_domain.specs.View.{view_of};

    ghost Value = { PartsState };

    ghost coded = { Prim.hlevel (codes, set.code {R = nat_cmp} coded_ℕ) };

    ghost view = { view_of };
}
