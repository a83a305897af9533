//! What drawn calls answer, and what forms show after them.

use crate::tests::{caches, readers, writers};
use dds_base::{AckNack, Arrival, DataMsg, GapMsg, Heartbeat, Rejection, Sample};
use dds_qos::{Admit, Due};
use dds_writer::WriteRefused;

/// What a call answered: `None` where it wasn't made, since there is no such message or the form has no such peer.
#[derive(Clone, Copy, PartialEq, Eq)]
pub(super) enum Told {
    Admitted(Option<Admit>),
    Released,
    Took(Option<Sample>),
    Data(Option<Arrival>),
    Gap(Option<Arrival>),
    Heartbeat(Option<Arrival>),
    AckNack(Option<AckNack>),
    Wrote(Result<u64, WriteRefused>),
    Acknowledged,
    Noted,
    Due(Option<Due>),
    DataTo(Option<DataMsg>),
    GapTo(Option<GapMsg>),
    HeartbeatTo(Option<Heartbeat>),
}

/// A call.
#[derive(Clone, Copy, Debug, PartialEq, Eq)]
pub(super) enum Call {
    Admit,
    Release,
    Take,
    OnData,
    OnGap,
    OnHeartbeat,
    AckNack,
    Write,
    OnAckNack,
    NoteSent,
    Due,
    Data,
    Gap,
    Heartbeat,
}

/// A kind of answer.
#[derive(Clone, Copy, Debug, PartialEq, Eq)]
pub(super) enum Kind {
    Nothing,
    Something,
    Stored,
    Overwrote,
    Rejected(Rejection),
    Repeat,
    Irrelevant,
    NoneIrrelevant,
    Heard,
    Lost,
    Stranger,
    Refused(WriteRefused),
    DueData,
    DueGap,
}

/// All that a form shows.
#[derive(Clone, Copy, PartialEq, Eq)]
pub(super) enum Seen {
    Cache(caches::Seen),
    Reader(readers::Seen),
    Writer(writers::Seen),
}

impl Told {
    pub(super) fn call(&self) -> Call {
        match self {
            Told::Admitted(_) => Call::Admit,
            Told::Released => Call::Release,
            Told::Took(_) => Call::Take,
            Told::Data(_) => Call::OnData,
            Told::Gap(_) => Call::OnGap,
            Told::Heartbeat(_) => Call::OnHeartbeat,
            Told::AckNack(_) => Call::AckNack,
            Told::Wrote(_) => Call::Write,
            Told::Acknowledged => Call::OnAckNack,
            Told::Noted => Call::NoteSent,
            Told::Due(_) => Call::Due,
            Told::DataTo(_) => Call::Data,
            Told::GapTo(_) => Call::Gap,
            Told::HeartbeatTo(_) => Call::Heartbeat,
        }
    }

    pub(super) fn kind(&self) -> Kind {
        match self {
            Told::Admitted(Some(Admit::Stored)) => Kind::Stored,
            Told::Admitted(Some(Admit::Overwrote(_))) => Kind::Overwrote,
            Told::Admitted(Some(Admit::Rejected(why))) => Kind::Rejected(*why),
            Told::Data(Some(arrival)) => kind_of(arrival),
            Told::Gap(Some(arrival)) => kind_of(arrival),
            Told::Heartbeat(Some(arrival)) => kind_of(arrival),
            Told::Wrote(Err(why)) => Kind::Refused(*why),
            Told::Due(Some(Due::Data(_))) => Kind::DueData,
            Told::Due(Some(Due::Gap(_))) => Kind::DueGap,
            Told::Admitted(None) | Told::Took(None) | Told::Data(None) | Told::Gap(None) => {
                Kind::Nothing
            }
            Told::Heartbeat(None) | Told::AckNack(None) | Told::Due(None) => Kind::Nothing,
            Told::DataTo(None) | Told::GapTo(None) | Told::HeartbeatTo(None) => Kind::Nothing,
            _ => Kind::Something,
        }
    }
}

fn kind_of(arrival: &Arrival) -> Kind {
    match arrival {
        Arrival::New => Kind::Stored,
        Arrival::Repeat => Kind::Repeat,
        Arrival::Irrelevant(0) => Kind::NoneIrrelevant,
        Arrival::Irrelevant(_) => Kind::Irrelevant,
        Arrival::Overwrote(_) => Kind::Overwrote,
        Arrival::Rejected(why) => Kind::Rejected(*why),
        Arrival::Heard => Kind::Heard,
        Arrival::Lost(_) => Kind::Lost,
        Arrival::Stranger => Kind::Stranger,
    }
}
