//! One event, and events one after the other.
ghost use Rattle.std.specs.Prelude.{◌≡◌, ◌≤◌, length, IfErr, IfOk, MatchResult, OnErr};
ghost use Rattle.dds_domain.specs.Standing.{HasWorld, IsRunning, OnRefused, Runs, StepsNotes, StepsWorld, paired};

use crate::parts::Parts;
use dds_base::{Arrival, Event, NoMemory, Reply};
use dds_qos::Due;
use std::alloc::Global;

impl Parts {
    /// Makes an event and returns its reply. An `Err` means that memory ran out; it changes nothing.
    pub(crate) fn step(&mut self, event: Event) -> Result<Reply, NoMemory>
        requires { HasWorld self.old }
        ensures steps { IfOk result (λ reply. StepsWorld self.old event reply self.new) }
        ensures notes { IfOk result (λ reply. StepsNotes self.old event reply self.new) }
        ensures refused { IfOk result (λ reply. OnRefused reply (self.new ≡ self.old)) }
        ensures plan { self.new.plan ≡ self.old.plan }
        ensures err { OnErr result (self.new ≡ self.old) }
    {
        match event {
            Event::Write {
                writer,
                key,
                payload,
            } => self.write(writer, key, payload),
            Event::Fire { rule } => Ok(self.fire(rule)),
            Event::Take { reader, key } => Ok(self.take(reader, key)),
            Event::SendData { writer, reader, sn } => {
                Ok(self.send_message(writer, reader, Due::Data(sn)))
            }
            Event::SendGap {
                writer,
                reader,
                start,
            } => Ok(self.send_message(writer, reader, Due::Gap(start))),
            Event::SendHeartbeat { writer, reader } => Ok(self.send_heartbeat(writer, reader)),
            Event::SendAckNack { reader, writer } => Ok(self.send_acknack(reader, writer)),
            Event::Deliver { place, keep } => self.deliver(place, keep),
            Event::Lose { place } => Ok(self.lose(place)),
        }
    }

    /// Makes events one after the other and returns their replies. An `Err` means that memory ran out: then it has
    /// the replies of the events that were done, which stay done, and no later event was.
    pub(crate) fn run(
        &mut self,
        alloc: Global,
        events: &[Event],
    ) -> Result<Vec<Reply>, (NoMemory, Vec<Reply>)>
        requires { IsRunning self.old }
        ensures all { IfOk result (λ replies. length replies.items ≡ length events.now) }
        ensures some { IfErr result (λ e. length e.1.items ≤ length events.now) }
        ensures runs { MatchResult result (λ replies. Runs self.old (paired events.now replies.items) self.new)
            (λ e. Runs self.old (paired events.now e.1.items) self.new) }
    {
        // The borrow checker finds the type inside `Reply` where the code names it.
        let _arrival: Option<Arrival> = None;
        let mut replies = Vec::new(alloc);
        if replies.reserve(events.len()).is_err() {
            return Err((NoMemory, replies));
        }
        for event in events {
            match self.step(*event) {
                Ok(reply) => replies.push_reserved(reply),
                Err(_) => return Err((NoMemory, replies)),
            }
        }
        Ok(replies)
    }
}
