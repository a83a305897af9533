//! The texts of replies.
ghost use Rattle.std.specs.Prelude.{◌≡◌, IfOk, string_bytes};
ghost use Rattle.dds_events.specs.Replies.{arrival_text, refusal_name, rejection_name, reply_text, sample_text};

use dds_base::{Arrival, NoMemory, Refusal, Rejection, Reply, Sample};
use dds_lists::Deployment;
use dds_text::names::writer_name;
use std::alloc::Global;

/// The word for why an event is refused: the name of the variant.
pub(crate) fn refusal_name(refusal: Refusal) -> &'static str
    ensures { result.now ≡ refusal_name refusal }
{
    match refusal {
        Refusal::Foreign => "Foreign",
        Refusal::NoPermit => "NoPermit",
        Refusal::NotYet => "NotYet",
        Refusal::SequenceEnd => "SequenceEnd",
        Refusal::InstanceLimit => "InstanceLimit",
        Refusal::Full => "Full",
        Refusal::InstanceFull => "InstanceFull",
        Refusal::NotEnough => "NotEnough",
        Refusal::CountLimit => "CountLimit",
        Refusal::Empty => "Empty",
        Refusal::NothingToSend => "NothingToSend",
        Refusal::NoPacket => "NoPacket",
    }
}

/// The word for the limit that a rejected sample met: the name of the variant.
pub fn rejection_name(rejection: Rejection) -> &'static str
    ensures { result.now ≡ rejection_name rejection }
{
    match rejection {
        Rejection::InstancesLimit => "InstancesLimit",
        Rejection::SamplesLimit => "SamplesLimit",
        Rejection::SamplesPerInstanceLimit => "SamplesPerInstanceLimit",
    }
}

/// The writer of a sample, and its number there.
fn sample_text(alloc: Global, lists: &Deployment, sample: &Sample) -> Result<String, NoMemory>
    ensures { IfOk result (λ text. string_bytes text ≡ sample_text lists.now sample.now) }
{
    let writer = writer_name(lists, sample.writer);
    let number = sample.sn;
    format!(in alloc; "{writer} {number}")
}

/// What a message did at a reader.
fn arrival_text(alloc: Global, lists: &Deployment, arrival: &Arrival) -> Result<String, NoMemory>
    ensures { IfOk result (λ text. string_bytes text ≡ arrival_text lists.now arrival.now) }
{
    match arrival {
        Arrival::New => String::from_str(alloc, "new"),
        Arrival::Repeat => String::from_str(alloc, "repeat"),
        Arrival::Irrelevant(count) => format!(in alloc; "irrelevant {count}"),
        Arrival::Overwrote(sample) => {
            let sample = sample_text(alloc, lists, sample)?;
            format!(in alloc; "overwrote {sample}")
        }
        Arrival::Rejected(kind) => {
            let kind = rejection_name(*kind);
            format!(in alloc; "rejected {kind}")
        }
        Arrival::Heard => String::from_str(alloc, "heard"),
        Arrival::Lost(count) => format!(in alloc; "lost {count}"),
        Arrival::Stranger => String::from_str(alloc, "stranger"),
    }
}

/// What an event did, in words: of a sample its writer and its number there, without its data. `NoMemory` is the only
/// error.
pub fn reply_text(alloc: Global, lists: &Deployment, reply: &Reply) -> Result<String, NoMemory>
    ensures { IfOk result (λ text. string_bytes text ≡ reply_text lists.now reply.now) }
{
    match reply {
        Reply::Refused(refusal) => {
            let refusal = refusal_name(*refusal);
            format!(in alloc; "refused {refusal}")
        }
        Reply::Written(number) => format!(in alloc; "written {number}"),
        Reply::Fired => String::from_str(alloc, "fired"),
        Reply::Took(sample) => {
            let sample = sample_text(alloc, lists, sample)?;
            format!(in alloc; "took {sample}")
        }
        Reply::Sent(Some(place)) => format!(in alloc; "place {place}"),
        Reply::Sent(None) => String::from_str(alloc, "no place"),
        Reply::Arrived(arrival) => arrival_text(alloc, lists, arrival),
        Reply::Acked => String::from_str(alloc, "acked"),
        Reply::Dropped => String::from_str(alloc, "dropped"),
    }
}
