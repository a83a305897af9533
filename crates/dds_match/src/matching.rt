//! Whether a writer and a reader match (OMG DDS 1.4, clause 2.2.3).
ghost use Rattle.std.specs.Prelude.{◌≡◌, ◌<◌, length};
ghost use Rattle.dds_lists.specs.WellFormed.{IsWellFormed};
ghost use Rattle.dds_match.specs.Matching.{reason, why_not};

use crate::partitions::lists_match;
use dds_base::{ReaderNo, WriterNo};
use dds_lists::Deployment;
use dds_qos::{PolicySet, incompatible};

/// Why a writer and a reader do not match, the first reason in this order.
#[derive(Clone, Copy, Debug, PartialEq, Eq)]
pub enum WhyNot {
    /// Their participants are in different domains.
    OtherDomain,
    /// They name different topics. A topic is its name with its type.
    OtherTopic,
    /// No partition of one matches a partition of the other.
    Partitions,
    /// These policies are incompatible, at least one.
    Policies(PolicySet),
}

/// Why the two do not match, from the lists themselves.
#[tactic(auto, unfolding(crate::specs::Matching::reason))]
pub(crate) fn why_not_by_lists(lists: &Deployment, w: WriterNo, r: ReaderNo) -> Option<WhyNot>
    requires well_formed { IsWellFormed lists.now }
    requires writer { w < length lists.now.writers.entries }
    requires reader { r < length lists.now.readers.entries }
    ensures { result ≡ why_not lists.now w r }
{
    let writer = lists.writer(w);
    let reader = lists.reader(r);
    if lists.participant(writer.participant).domain
        != lists.participant(reader.participant).domain
    {
        return Some(WhyNot::OtherDomain);
    }
    if writer.topic != reader.topic {
        return Some(WhyNot::OtherTopic);
    }
    if !lists_match(&writer.partitions, &reader.partitions) {
        return Some(WhyNot::Partitions);
    }
    let policies = incompatible(&writer.qos, &reader.qos);
    if policies.is_empty() {
        None
    } else {
        Some(WhyNot::Policies(policies))
    }
}
