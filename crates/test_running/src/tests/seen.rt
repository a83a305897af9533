//! Which kinds of replies came, so that a comparison in which little happened is found out.

use dds_base::{Arrival, Refusal, Rejection, Reply};

/// A kind of reply.
#[derive(Clone, Copy, Debug, PartialEq, Eq)]
pub(crate) enum Kind {
    Foreign,
    NoPermit,
    NotYet,
    SequenceEnd,
    InstanceLimit,
    Full,
    InstanceFull,
    NotEnough,
    CountLimit,
    Empty,
    NothingToSend,
    NoPacket,
    Written,
    Fired,
    Took,
    Sent,
    NotSent,
    New,
    Repeat,
    Irrelevant,
    Overwrote,
    InstancesLimit,
    SamplesLimit,
    SamplesPerInstanceLimit,
    Heard,
    Lost,
    Stranger,
    Acked,
    Dropped,
}

fn kind_of_refusal(why: &Refusal) -> Kind {
    match why {
        Refusal::Foreign => Kind::Foreign,
        Refusal::NoPermit => Kind::NoPermit,
        Refusal::NotYet => Kind::NotYet,
        Refusal::SequenceEnd => Kind::SequenceEnd,
        Refusal::InstanceLimit => Kind::InstanceLimit,
        Refusal::Full => Kind::Full,
        Refusal::InstanceFull => Kind::InstanceFull,
        Refusal::NotEnough => Kind::NotEnough,
        Refusal::CountLimit => Kind::CountLimit,
        Refusal::Empty => Kind::Empty,
        Refusal::NothingToSend => Kind::NothingToSend,
        Refusal::NoPacket => Kind::NoPacket,
    }
}

fn kind_of_arrival(arrival: &Arrival) -> Kind {
    match arrival {
        Arrival::New => Kind::New,
        Arrival::Repeat => Kind::Repeat,
        Arrival::Irrelevant(_) => Kind::Irrelevant,
        Arrival::Overwrote(_) => Kind::Overwrote,
        Arrival::Rejected(Rejection::InstancesLimit) => Kind::InstancesLimit,
        Arrival::Rejected(Rejection::SamplesLimit) => Kind::SamplesLimit,
        Arrival::Rejected(Rejection::SamplesPerInstanceLimit) => Kind::SamplesPerInstanceLimit,
        Arrival::Heard => Kind::Heard,
        Arrival::Lost(_) => Kind::Lost,
        Arrival::Stranger => Kind::Stranger,
    }
}

pub(crate) fn kind_of(reply: &Reply) -> Kind {
    match reply {
        Reply::Refused(why) => kind_of_refusal(why),
        Reply::Written(_) => Kind::Written,
        Reply::Fired => Kind::Fired,
        Reply::Took(_) => Kind::Took,
        Reply::Sent(Some(_)) => Kind::Sent,
        Reply::Sent(None) => Kind::NotSent,
        Reply::Arrived(arrival) => kind_of_arrival(arrival),
        Reply::Acked => Kind::Acked,
        Reply::Dropped => Kind::Dropped,
    }
}
