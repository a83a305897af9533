//! Which policies keep a writer and a reader from matching: those whose offer does not meet the request (OMG DDS 1.4,
//! clause 2.2.3).

ghost use Rattle.std.specs.Prelude.{◌≡◌};
ghost use Rattle.dds_qos.specs.Compatibility.{name_of, contains, is_empty, incompatible, is_met, is_presentation_met};
ghost use Rattle.dds_qos.specs.Compatibility.{is_liveliness_met};

use crate::policies::{Liveliness, Policies, Presentation, ReaderQos, WriterQos};

/// The policies in which an offer is compared with a request, in the order in which they are reported. The clauses are
/// those of OMG DDS 1.4.
#[derive(Clone, Copy, Debug, PartialEq, Eq)]
pub enum Policy {
    /// DURABILITY, clause 2.2.3.4: what of the past a late reader could get.
    Durability,
    /// PRESENTATION, clause 2.2.3.6: scope, coherent access and ordered access.
    Presentation,
    /// DEADLINE, clause 2.2.3.7: how long at most until the next sample of an instance.
    Deadline,
    /// LATENCY_BUDGET, clause 2.2.3.8: how long a delivery may take.
    LatencyBudget,
    /// OWNERSHIP, clause 2.2.3.9: the two have to be equal.
    Ownership,
    /// LIVELINESS, clause 2.2.3.11: who asserts that the writer is alive, and how often.
    Liveliness,
    /// RELIABILITY, clause 2.2.3.14: whether lost samples are sent again.
    Reliability,
    /// DESTINATION_ORDER, clause 2.2.3.17: by which timestamp samples are ordered.
    DestinationOrder,
}

impl Policy {
    /// All eight, each once, in their order.
    pub const ALL: [Policy; 8] = [
        Policy::Durability,
        Policy::Presentation,
        Policy::Deadline,
        Policy::LatencyBudget,
        Policy::Ownership,
        Policy::Liveliness,
        Policy::Reliability,
        Policy::DestinationOrder,
    ];

    /// The name in the standard, in capital letters.
    pub fn name(self) -> &'static str
        ensures { result.now ≡ name_of self }
    {
        match self {
            Policy::Durability => "DURABILITY",
            Policy::Presentation => "PRESENTATION",
            Policy::Deadline => "DEADLINE",
            Policy::LatencyBudget => "LATENCY_BUDGET",
            Policy::Ownership => "OWNERSHIP",
            Policy::Liveliness => "LIVELINESS",
            Policy::Reliability => "RELIABILITY",
            Policy::DestinationOrder => "DESTINATION_ORDER",
        }
    }
}

/// A set of policies. Each field says whether the policy of its name is in it.
#[derive(Clone, Copy, Debug, PartialEq, Eq)]
pub struct PolicySet {
    pub durability: bool,
    pub presentation: bool,
    pub deadline: bool,
    pub latency_budget: bool,
    pub ownership: bool,
    pub liveliness: bool,
    pub reliability: bool,
    pub destination_order: bool,
}

impl PolicySet {
    /// Whether the policy is in the set.
    pub fn contains(self, policy: Policy) -> bool
        ensures { result ≡ contains self policy }
    {
        match policy {
            Policy::Durability => self.durability,
            Policy::Presentation => self.presentation,
            Policy::Deadline => self.deadline,
            Policy::LatencyBudget => self.latency_budget,
            Policy::Ownership => self.ownership,
            Policy::Liveliness => self.liveliness,
            Policy::Reliability => self.reliability,
            Policy::DestinationOrder => self.destination_order,
        }
    }

    /// Whether no policy is in the set.
    pub fn is_empty(self) -> bool
        ensures { result ≡ is_empty self }
    {
        !Policy::ALL.iter().any(|policy| self.contains(*policy))
    }
}

/// The policies whose offer does not meet the request. Where there is none, quality of service lets the two match.
pub fn incompatible(writer: &WriterQos, reader: &ReaderQos) -> PolicySet
    ensures { result ≡ incompatible writer.now reader.now }
{
    let fails = |policy| !is_met(&writer.offered, &reader.requested, policy);
    PolicySet {
        durability: fails(Policy::Durability),
        presentation: fails(Policy::Presentation),
        deadline: fails(Policy::Deadline),
        latency_budget: fails(Policy::LatencyBudget),
        ownership: fails(Policy::Ownership),
        liveliness: fails(Policy::Liveliness),
        reliability: fails(Policy::Reliability),
        destination_order: fails(Policy::DestinationOrder),
    }
}

// Whether the offer meets the request in one policy.
fn is_met(offered: &Policies, requested: &Policies, policy: Policy) -> bool
    ensures { result ≡ is_met offered.now requested.now policy }
{
    match policy {
        Policy::Durability => offered.durability >= requested.durability,
        Policy::Presentation => is_presentation_met(offered.presentation, requested.presentation),
        Policy::Deadline => offered.deadline <= requested.deadline,
        Policy::LatencyBudget => offered.latency_budget <= requested.latency_budget,
        Policy::Ownership => offered.ownership == requested.ownership,
        Policy::Liveliness => is_liveliness_met(offered.liveliness, requested.liveliness),
        Policy::Reliability => offered.reliability >= requested.reliability,
        Policy::DestinationOrder => offered.destination_order >= requested.destination_order,
    }
}

// Whether PRESENTATION is met: in its scope, and in coherent and ordered access where they are asked for.
fn is_presentation_met(offered: Presentation, requested: Presentation) -> bool
    ensures { result ≡ is_presentation_met offered requested }
{
    offered.access_scope >= requested.access_scope
        && (offered.coherent || !requested.coherent)
        && (offered.ordered || !requested.ordered)
}

// Whether LIVELINESS is met: in its kind, and in the length of its lease.
fn is_liveliness_met(offered: Liveliness, requested: Liveliness) -> bool
    ensures { result ≡ is_liveliness_met offered requested }
{
    offered.kind >= requested.kind && offered.lease <= requested.lease
}
