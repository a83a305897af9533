//! What the bus does with a packet: it delivers it, or loses it.
ghost use Rattle.std.specs.Prelude.{◌≡◌, IfOk, OnErr, Some};
ghost use Rattle.dds_base.specs.declared.events.Event.TheVariants.{Deliver, Lose};
ghost use Rattle.dds_domain.specs.Bus.{at_place};
ghost use Rattle.dds_domain.specs.Standing.{HasWorld, IsSent, OnRefused, Receives, ReceivesNotes, StepsNotes};
ghost use Rattle.dds_domain.specs.Standing.{StepsWorld};

use crate::parts::Parts;
use dds_base::{NoMemory, Packet, Refusal, Reply};

impl Parts {
    // A packet arrives at its reader, or an ACKNACK at its writer. An `Err` means that memory ran out; it changes
    // nothing.
    fn receive(&mut self, packet: &Packet) -> Result<Reply, NoMemory>
        requires { IsSent self.old packet.now }
        ensures receives { IfOk result
            (λ reply. Receives self.old packet.now reply self.new × ReceivesNotes self.old packet.now self.new) }
        ensures arrives { IfOk result (λ reply. OnRefused reply ⊥) }
        ensures bus { self.new.bus ≡ self.old.bus }
        ensures plan { self.new.plan ≡ self.old.plan }
        ensures err { OnErr result (self.new ≡ self.old) }
    {
        match packet {
            Packet::Data(data) => {
                let arrival = self.readers[data.reader.number()].on_data(data)?;
                Ok(Reply::Arrived(arrival))
            }
            Packet::Gap(gap) => {
                let arrival = self.readers[gap.reader.number()].on_gap(gap)?;
                Ok(Reply::Arrived(arrival))
            }
            Packet::Heartbeat(heartbeat) => {
                let arrival = self.readers[heartbeat.reader.number()].on_heartbeat(heartbeat)?;
                Ok(Reply::Arrived(arrival))
            }
            Packet::AckNack(acknack) => {
                self.writers[acknack.writer.number()].on_acknack(acknack);
                Ok(Reply::Acked)
            }
        }
    }

    /// The packet at a place arrives. Where it is kept, it stays there too.
    pub(crate) fn deliver(&mut self, place: usize, keep: bool) -> Result<Reply, NoMemory>
        requires { HasWorld self.old }
        ensures steps { IfOk result (λ reply. StepsWorld self.old (Deliver place keep) reply self.new) }
        ensures notes { IfOk result (λ reply. StepsNotes self.old (Deliver place keep) reply self.new) }
        ensures refused { IfOk result (λ reply. OnRefused reply (self.new ≡ self.old)) }
        ensures plan { self.new.plan ≡ self.old.plan }
        ensures err { OnErr result (self.new ≡ self.old) }
    {
        match self.bus.at(place) {
            None => Ok(Reply::Refused(Refusal::NoPacket)),
            Some(packet) => {
                let Ok(reply) = self.receive(&packet) else {
                    return Err(NoMemory);
                };
                if !keep {
                    self.bus.clear(place);
                }
                Ok(reply)
            }
        }
    }

    /// The packet at a place is lost.
    pub(crate) fn lose(&mut self, place: usize) -> Reply
        requires { HasWorld self.old }
        ensures steps { StepsWorld self.old (Lose place) result self.new }
        ensures notes { StepsNotes self.old (Lose place) result self.new }
        ensures refused { OnRefused result (self.new ≡ self.old) }
        ensures plan { self.new.plan ≡ self.old.plan }
    {
        if self.bus.at(place).is_none() {
            return Reply::Refused(Refusal::NoPacket);
        }
        self.bus.clear(place);
        Reply::Dropped
    }
}
