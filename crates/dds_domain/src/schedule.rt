//! What a participant is to do in its turn.
ghost use Rattle.std.specs.Prelude.{◌≡◌, ◌<◌, ◌≤◌, length, true, Some};
ghost use Rattle.dds_match.specs.Plan.{matched, network_of};
ghost use Rattle.dds_runs.specs.World.{World};
ghost use Rattle.dds_domain.specs.Noted.{Noted};
ghost use Rattle.dds_domain.specs.Schedule.{acknack_due, as_data, as_gap, by_fate, due, due_to, first_by_reader};
ghost use Rattle.dds_domain.specs.Schedule.{first_by_writer, first_of_reader, first_of_writer, heartbeat_due, load};
ghost use Rattle.dds_domain.specs.Schedule.{send_due, sending_of, writer_due};
ghost use Rattle.dds_domain.specs.Standing.{PartsAt, IsRunning};
ghost use Rattle.dds_domain.specs.declared.schedule.Sending.TheVariants.{AckNack};

use crate::parts::Parts;
use dds_base::{Event, Fate, ParticipantNo, ReaderNo, WriterNo};
use dds_qos::Due;

/// So many packets make a crowded bus, to which a participant turns in every turn.
const CROWDED: usize = 64;

/// What a participant sends in an even turn.
#[derive(Clone, Copy)]
pub(crate) enum Sending {
    Data,
    Gap,
    Heartbeat,
    AckNack,
}

impl Sending {
    /// What is sent in an even turn: the four in a circle.
    fn of(turn: u64) -> Sending
        ensures { result ≡ sending_of turn }
    {
        match turn / 2 % 4 {
            0 => Sending::Data,
            1 => Sending::Gap,
            2 => Sending::Heartbeat,
            _ => Sending::AckNack,
        }
    }
}

// The sending of what is due, if that is a DATA.
fn data_event(writer: WriterNo, reader: ReaderNo, due: Due) -> Option<Event>
    ensures { result ≡ as_data writer reader (Some due) }
{
    match due {
        Due::Data(sn) => Some(Event::SendData { writer, reader, sn }),
        Due::Gap(_) => None,
    }
}

// The sending of what is due, if that is a GAP.
fn gap_event(writer: WriterNo, reader: ReaderNo, due: Due) -> Option<Event>
    ensures { result ≡ as_gap writer reader (Some due) }
{
    match due {
        Due::Gap(start) => Some(Event::SendGap {
            writer,
            reader,
            start,
        }),
        Due::Data(_) => None,
    }
}

impl Parts {
    /// What a participant is to do in its turn, if anything.
    pub(crate) fn due(&self, participant: ParticipantNo, turn: u64, fate: Fate) -> Option<Event>
        requires { IsRunning self.now }
        ensures { (v : World) (noted : Noted) → PartsAt v noted self.now
            → result ≡ due self.now.plan v noted participant turn fate }
    {
        let odd = turn % 2 == 1;
        let enough = if odd { 1 } else { CROWDED };
        if self.bus.count() >= enough {
            return self.by_fate(fate);
        }
        if odd {
            return None;
        }
        self.send_due(participant, Sending::of(turn))
    }

    // What a fate makes of the bus. `None` where the bus is empty.
    fn by_fate(&self, fate: Fate) -> Option<Event>
        requires { IsRunning self.now }
        ensures { (v : World) (noted : Noted) → PartsAt v noted self.now → 1 ≤ load v → result ≡ Some (by_fate v fate) }
    {
        let lowest = self.bus.lowest()?;
        match fate {
            Fate::Pass => Some(Event::Deliver {
                place: lowest,
                keep: false,
            }),
            Fate::Keep => Some(Event::Deliver {
                place: lowest,
                keep: true,
            }),
            Fate::Last => Some(Event::Deliver {
                place: self.bus.highest()?,
                keep: false,
            }),
            Fate::Lose => Some(Event::Lose { place: lowest }),
        }
    }

    // The first sending of a kind that is due at a participant.
    fn send_due(&self, participant: ParticipantNo, sending: Sending) -> Option<Event>
        requires { IsRunning self.now }
        ensures { (v : World) (noted : Noted) → PartsAt v noted self.now
            → result ≡ send_due self.now.plan v noted participant sending }
    {
        match sending {
            Sending::AckNack => self.acknack_due(participant),
            _ => self.write_due(participant, sending),
        }
    }

    // The first DATA, GAP or HEARTBEAT that is due at a participant: by its writer, then by reader.
    fn write_due(&self, participant: ParticipantNo, sending: Sending) -> Option<Event>
        requires { IsRunning self.now }
        ensures { (v : World) (noted : Noted) → PartsAt v noted self.now
            → result ≡ first_by_writer self.now.plan participant (due_to (network_of self.now.plan) v noted sending) }
    {
        for writer in self.plan.writers_at(participant) {
            if let Some(event) = self.due_of_writer(*writer, sending) {
                return Some(event);
            }
        }
        None
    }

    // The first DATA, GAP or HEARTBEAT that is due of a writer, by reader.
    fn due_of_writer(&self, writer: WriterNo, sending: Sending) -> Option<Event>
        requires { IsRunning self.now }
        ensures { (v : World) (noted : Noted) → PartsAt v noted self.now
            → result ≡ first_of_writer self.now.plan writer (due_to (network_of self.now.plan) v noted sending) }
    {
        for reader in self.plan.readers_of(writer) {
            if let Some(event) = self.due_to(writer, *reader, sending) {
                return Some(event);
            }
        }
        None
    }

    // The DATA, GAP or HEARTBEAT that is due of a writer to a reader that it matches.
    fn due_to(&self, writer: WriterNo, reader: ReaderNo, sending: Sending) -> Option<Event>
        requires standing { IsRunning self.now }
        requires pair { matched self.now.plan writer reader ≡ true }
        ensures { (v : World) (noted : Noted) → PartsAt v noted self.now
            → result ≡ due_to (network_of self.now.plan) v noted sending writer reader }
    {
        match sending {
            Sending::Data => data_event(writer, reader, self.message_due(writer, reader)?),
            Sending::Gap => gap_event(writer, reader, self.message_due(writer, reader)?),
            Sending::Heartbeat => self.heartbeat_due(writer, reader),
            Sending::AckNack => None,
        }
    }

    // What its writer is to send next, a DATA or a GAP.
    fn message_due(&self, writer: WriterNo, reader: ReaderNo) -> Option<Due>
        requires standing { IsRunning self.now }
        requires pair { matched self.now.plan writer reader ≡ true }
        ensures { (v : World) (noted : Noted) → PartsAt v noted self.now
            → result ≡ writer_due (network_of self.now.plan) v noted writer reader }
    {
        self.writers[writer.number()].due(reader)
    }

    // A HEARTBEAT is due to a strict reader that has not acknowledged all that is written.
    fn heartbeat_due(&self, writer: WriterNo, reader: ReaderNo) -> Option<Event>
        requires standing { IsRunning self.now }
        requires pair { matched self.now.plan writer reader ≡ true }
        ensures { (v : World) (noted : Noted) → PartsAt v noted self.now
            → result ≡ heartbeat_due (network_of self.now.plan) v writer reader }
    {
        let from = &self.writers[writer.number()];
        if self.plan.watcher(reader) {
            return None;
        }
        if from.base(reader) > from.written() {
            return None;
        }
        Some(Event::SendHeartbeat { writer, reader })
    }

    // The first ACKNACK that is due at a participant: by its reader, then by writer.
    fn acknack_due(&self, participant: ParticipantNo) -> Option<Event>
        requires { IsRunning self.now }
        ensures { (v : World) (noted : Noted) → PartsAt v noted self.now
            → result ≡ first_by_reader self.now.plan participant (acknack_due noted) }
    {
        for reader in self.plan.readers_at(participant) {
            if let Some(event) = self.due_of_reader(*reader) {
                return Some(event);
            }
        }
        None
    }

    // The first ACKNACK that is due of a reader, by writer.
    fn due_of_reader(&self, reader: ReaderNo) -> Option<Event>
        requires standing { IsRunning self.now }
        requires reader { reader < length self.now.readers }
        ensures { (v : World) (noted : Noted) → PartsAt v noted self.now
            → result ≡ first_of_reader self.now.plan reader (acknack_due noted) }
    {
        let from = &self.readers[reader.number()];
        for writer in self.plan.writers_of(reader) {
            if from.owes(*writer) {
                return Some(Event::SendAckNack {
                    reader,
                    writer: *writer,
                });
            }
        }
        None
    }
}
