//! The words of policies, as a deployment file has them.
ghost use Rattle.std.specs.Prelude.{◌≡◌};
ghost use Rattle.dds_text.specs.Words.{access_scope_word, destination_order_word, durability_word, flag_word};
ghost use Rattle.dds_text.specs.Words.{history_word, liveliness_word, ownership_word, reliability_word};

use dds_qos::{
    AccessScope, DestinationOrder, Durability, HistoryKind, LivelinessKind, Ownership, Reliability,
};

/// The word of a flag.
pub fn flag_word(flag: bool) -> &'static str
    ensures { result.now ≡ flag_word flag }
{
    if flag { "true" } else { "false" }
}

/// The word of a kind of durability (OMG DDS 1.4, clause 2.2.3.4).
pub fn durability_word(x: Durability) -> &'static str
    ensures { result.now ≡ durability_word x }
{
    match x {
        Durability::Volatile => "VOLATILE",
        Durability::TransientLocal => "TRANSIENT_LOCAL",
        Durability::Transient => "TRANSIENT",
        Durability::Persistent => "PERSISTENT",
    }
}

/// The word of a scope of presentation (OMG DDS 1.4, clause 2.2.3.6).
pub fn access_scope_word(x: AccessScope) -> &'static str
    ensures { result.now ≡ access_scope_word x }
{
    match x {
        AccessScope::Instance => "INSTANCE",
        AccessScope::Topic => "TOPIC",
        AccessScope::Group => "GROUP",
    }
}

/// The word of a kind of ownership (OMG DDS 1.4, clause 2.2.3.9).
pub fn ownership_word(x: Ownership) -> &'static str
    ensures { result.now ≡ ownership_word x }
{
    match x {
        Ownership::Shared => "SHARED",
        Ownership::Exclusive => "EXCLUSIVE",
    }
}

/// The word of a kind of liveliness (OMG DDS 1.4, clause 2.2.3.11).
pub fn liveliness_word(x: LivelinessKind) -> &'static str
    ensures { result.now ≡ liveliness_word x }
{
    match x {
        LivelinessKind::Automatic => "AUTOMATIC",
        LivelinessKind::ManualByParticipant => "MANUAL_BY_PARTICIPANT",
        LivelinessKind::ManualByTopic => "MANUAL_BY_TOPIC",
    }
}

/// The word of a kind of reliability (OMG DDS 1.4, clause 2.2.3.14).
pub fn reliability_word(x: Reliability) -> &'static str
    ensures { result.now ≡ reliability_word x }
{
    match x {
        Reliability::BestEffort => "BEST_EFFORT",
        Reliability::Reliable => "RELIABLE",
    }
}

/// The word of an order of samples (OMG DDS 1.4, clause 2.2.3.17).
pub fn destination_order_word(x: DestinationOrder) -> &'static str
    ensures { result.now ≡ destination_order_word x }
{
    match x {
        DestinationOrder::ByReceptionTimestamp => "BY_RECEPTION_TIMESTAMP",
        DestinationOrder::BySourceTimestamp => "BY_SOURCE_TIMESTAMP",
    }
}

/// The word of a kind of history (OMG DDS 1.4, clause 2.2.3.18).
pub fn history_word(x: HistoryKind) -> &'static str
    ensures { result.now ≡ history_word x }
{
    match x {
        HistoryKind::KeepLast => "KEEP_LAST",
        HistoryKind::KeepAll => "KEEP_ALL",
    }
}
