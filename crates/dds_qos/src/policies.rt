//! The policies of a writer or a reader that decide matching, and the limits of what it keeps. An endpoint offers or
//! requests each of them (OMG DDS 1.4, clause 2.2.3).

/// DURABILITY: what of the past a late reader could get, least first.
#[derive(Clone, Copy, Debug, PartialEq, Eq, PartialOrd, Ord)]
pub enum Durability {
    Volatile,
    TransientLocal,
    Transient,
    Persistent,
}

/// The scope of PRESENTATION, least first.
#[derive(Clone, Copy, Debug, PartialEq, Eq, PartialOrd, Ord)]
pub enum AccessScope {
    Instance,
    Topic,
    Group,
}

/// PRESENTATION: how changes hang together.
#[derive(Clone, Copy, Debug, PartialEq, Eq)]
pub struct Presentation {
    pub access_scope: AccessScope,
    pub coherent: bool,
    pub ordered: bool,
}

/// A length of time. Every number is below infinite.
#[derive(Clone, Copy, Debug, PartialEq, Eq, PartialOrd, Ord)]
pub enum Duration {
    /// 0 to 2^63 - 1 nanoseconds.
    Nanoseconds(u64),
    Infinite,
}

/// OWNERSHIP: whether one writer at a time owns an instance.
#[derive(Clone, Copy, Debug, PartialEq, Eq)]
pub enum Ownership {
    Shared,
    Exclusive,
}

/// The kind of LIVELINESS, least first.
#[derive(Clone, Copy, Debug, PartialEq, Eq, PartialOrd, Ord)]
pub enum LivelinessKind {
    Automatic,
    ManualByParticipant,
    ManualByTopic,
}

/// LIVELINESS: who asserts that a writer is alive, and how often.
#[derive(Clone, Copy, Debug, PartialEq, Eq)]
pub struct Liveliness {
    pub kind: LivelinessKind,
    pub lease: Duration,
}

/// RELIABILITY, least first.
#[derive(Clone, Copy, Debug, PartialEq, Eq, PartialOrd, Ord)]
pub enum Reliability {
    BestEffort,
    Reliable,
}

/// DESTINATION_ORDER, least first.
#[derive(Clone, Copy, Debug, PartialEq, Eq, PartialOrd, Ord)]
pub enum DestinationOrder {
    ByReceptionTimestamp,
    BySourceTimestamp,
}

/// The kind of HISTORY.
#[derive(Clone, Copy, Debug, PartialEq, Eq)]
pub enum HistoryKind {
    KeepLast,
    KeepAll,
}

/// HISTORY: which samples of an instance stay.
#[derive(Clone, Copy, Debug, PartialEq, Eq)]
pub struct History {
    pub kind: HistoryKind,
    /// How many samples of an instance KEEP_LAST keeps, 1 to 2,147,483,647. KEEP_ALL doesn't look at it.
    pub depth: u32,
}

/// RESOURCE_LIMITS, each 1 to 2,147,483,647 samples or instances. `None` is unlimited.
#[derive(Clone, Copy, Debug, PartialEq, Eq)]
pub struct ResourceLimits {
    pub max_samples: Option<u32>,
    pub max_instances: Option<u32>,
    pub max_samples_per_instance: Option<u32>,
}

/// The policies of one endpoint, partitions aside.
#[derive(Clone, Copy, Debug, PartialEq, Eq)]
pub struct Policies {
    pub durability: Durability,
    pub presentation: Presentation,
    pub deadline: Duration,
    pub latency_budget: Duration,
    pub ownership: Ownership,
    pub liveliness: Liveliness,
    pub reliability: Reliability,
    pub destination_order: DestinationOrder,
    pub history: History,
    pub resource_limits: ResourceLimits,
}

/// What a writer offers.
#[derive(Clone, Copy, Debug, PartialEq, Eq)]
pub struct WriterQos {
    pub offered: Policies,
}

/// What a reader requests.
#[derive(Clone, Copy, Debug, PartialEq, Eq)]
pub struct ReaderQos {
    pub requested: Policies,
}
