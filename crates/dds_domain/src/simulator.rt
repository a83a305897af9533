//! A simulator: a plan that is run, whether a certificate is accepted for it or not.
ghost use Rattle.std.specs.Prelude.{◌≡◌, ◌≤◌, ◌++◌, ◌∷◌, [], List, length, option_map, IfOk, IfErr, OnErr, MatchResult};
ghost use Rattle.dds_runs.specs.Steps.{Event as EventValue, Reply as ReplyValue};
ghost use Rattle.dds_domain.specs.Standing.{GoesOn, IsRunning, OnRefused, Runs, StandsAfter, paired, world_after};

use crate::opening::open;
use crate::parts::Parts;
use dds_base::{Event, NoMemory, Packet, Reply};
use dds_match::Plan;
use std::alloc::Global;
use std::marker::Model;

/// Writers, readers, rule ledger and bus of a plan. What was done to them since they were opened, event by event with
/// its reply, is a run of the plan, and they stand for the world that it leads to. Of a plan in which a reader's bounds
/// don't suffice, a reply may report a sample that is rejected or overwritten.
#[derive(Drop)]
pub struct Simulator {
    parts: Parts,
    alloc: Global,
}

impl Model for Simulator {
    ghost use Rattle.std.specs.Coded.{codes, coded_ℕ};
    ghost use Rattle.std.specs.Ordering.{nat_cmp};
    ghost use Rattle.std.specs.FinSet as set;
    ghost use Rattle.dds_domain.specs.Standing.{PartsState, IsRunning};

    ghost Value = { PartsState };

    ghost coded = { Prim.hlevel (codes, set.code {R = nat_cmp} coded_ℕ) };

    ghost view = { λ a. a.parts };

    ghost invariant = { λ a. IsRunning a.parts };
}

impl Simulator {
    /// The simulator of a plan before the first event: nothing is written, sent or stored. An `Err` means that memory
    /// ran out, and gives the plan back.
    pub fn open(alloc: Global, plan: Plan) -> Result<Simulator, (NoMemory, Plan)>
        ensures plan { IfOk result (λ s. s.plan ≡ plan) }
        ensures opening { IfOk result (StandsAfter []) }
        ensures back { IfErr result (λ e. e.1 ≡ plan) }
    {
        let parts = open(alloc, plan)?;
        Ok(Simulator { parts, alloc })
    }

    /// Makes an event and returns its reply: after whatever run the simulator stood for its world, that run with
    /// the event and its reply is a run of the plan, and the simulator stands for the world after it. A `Refused`
    /// changes nothing. An `Err` means that memory ran out; it changes nothing.
    pub fn step(&mut self, event: Event) -> Result<Reply, NoMemory>
        ensures stood { IsRunning self.old }
        ensures steps { IfOk result (λ reply. GoesOn self.old ((event, reply) ∷ []) self.new) }
        ensures refused { IfOk result (λ reply. OnRefused reply (self.new ≡ self.old)) }
        ensures plan { self.new.plan ≡ self.old.plan }
        ensures err { OnErr result (self.new ≡ self.old) }
    {
        self.parts.step(event)
    }

    /// Makes events one after the other and returns their replies: after whatever run the simulator stood for its
    /// world, that run with these events and their replies is a run of the plan, and the simulator stands for the world
    /// after it. A `Refused` changes nothing. An `Err` means that memory ran out: then it has the replies of the events
    /// that were done, which stay done, and no later event was.
    pub fn run(&mut self, events: &[Event]) -> Result<Vec<Reply>, (NoMemory, Vec<Reply>)>
        ensures all { IfOk result (λ replies. length replies.items ≡ length events.now) }
        ensures some { IfErr result (λ e. length e.1.items ≤ length events.now) }
        ensures stood { IsRunning self.old }
        ensures runs { MatchResult result (λ replies. GoesOn self.old (paired events.now replies.items) self.new)
            (λ e. GoesOn self.old (paired events.now e.1.items) self.new) }
        ensures each { MatchResult result (λ replies. Runs self.old (paired events.now replies.items) self.new)
            (λ e. Runs self.old (paired events.now e.1.items) self.new) }
        ensures plan { self.new.plan ≡ self.old.plan }
    {
        self.parts.run(self.alloc, events)
    }

    /// The plan that the simulator runs.
    pub fn plan(&self) -> &Plan
        ensures { result.now ≡ self.now.plan }
    {
        &self.parts.plan
    }

    /// The packet at a place of the bus, 0 to 4,095, if there is one.
    pub fn at(&self, place: usize) -> Option<&Packet>
        ensures { (ms : List (EventValue × ReplyValue)) → StandsAfter ms self.now
            → option_map (λ p. p.now) result ≡ (world_after self.now.plan ms).bus place }
    {
        self.parts.bus.packet(place)
    }

    /// Gives the plan up again.
    pub fn close(self) -> Plan
        ensures { result ≡ self.plan }
    {
        let Simulator { parts, .. } = self;
        let Parts { plan, .. } = parts;
        plan
    }
}
