//! The policy fields of a writer or a reader (OMG DDS 1.4, clause 2.2.3). An absent field has its default; only the
//! default of RELIABILITY differs between the two, and the caller names it.
ghost use Rattle.std.specs.Prelude.{◌≡◌, map, string_bytes, Option, List, ℕ};
ghost use Rattle.std.specs.List.{list_all};
ghost use Rattle.toml.specs.View.{table_view};
ghost use Rattle.dds_fields.specs.Gives.{Gives};
ghost use Rattle.dds_fields.specs.Places.{place_text};
ghost use Rattle.dds_deploy.specs.Policies.{durability, access_scope, coherent, ordered, presentation};
ghost use Rattle.dds_deploy.specs.Policies.{duration_of, duration, deadline, latency_budget, ownership};
ghost use Rattle.dds_deploy.specs.Policies.{liveliness_kind, lease, liveliness, reliability, destination_order};
ghost use Rattle.dds_deploy.specs.Policies.{history_kind, depth, history, max_samples, max_instances};
ghost use Rattle.dds_deploy.specs.Policies.{max_samples_per_instance, resource_limits, timing, delivery, policies};
ghost use Rattle.dds_deploy.specs.Policies.{is_partition_byte, is_partition_name, partition, partitions};

use dds_base::is_name_byte;
use dds_base::limits::NAME_BYTES;
use dds_fields::fault::{FaultKind, ReadFault, refuse};
use dds_fields::field::{optional_number, text_of};
use dds_fields::items::{Items, optional_list};
use dds_fields::place::Place;
use dds_fields::words::{optional_duration, optional_flag, optional_limit, optional_word};
use dds_qos::{
    AccessScope, DestinationOrder, Durability, Duration, History, HistoryKind, Liveliness,
    LivelinessKind, Ownership, Policies, Presentation, Reliability, ResourceLimits,
};
use std::alloc::Global;
use toml::{Table, Value};

#[tactic(auto, unfolding(crate::specs::Policies::durability))]
fn durability(alloc: Global, path: &Place, table: &Table) -> Result<Durability, ReadFault>
    ensures { Gives (λ x. x) result (durability (place_text path.now) (table_view table.now)) }
{
    let words = [
        ("VOLATILE", Durability::Volatile),
        ("TRANSIENT_LOCAL", Durability::TransientLocal),
        ("TRANSIENT", Durability::Transient),
        ("PERSISTENT", Durability::Persistent),
    ];
    optional_word(
        alloc,
        &words,
        Durability::Volatile,
        path,
        table,
        "durability",
    )
}

#[tactic(auto, unfolding(crate::specs::Policies::access_scope))]
fn access_scope(alloc: Global, path: &Place, table: &Table) -> Result<AccessScope, ReadFault>
    ensures { Gives (λ x. x) result (access_scope (place_text path.now) (table_view table.now)) }
{
    let words = [
        ("INSTANCE", AccessScope::Instance),
        ("TOPIC", AccessScope::Topic),
        ("GROUP", AccessScope::Group),
    ];
    optional_word(
        alloc,
        &words,
        AccessScope::Instance,
        path,
        table,
        "access_scope",
    )
}

#[tactic(auto, unfolding(crate::specs::Policies::coherent))]
fn coherent(alloc: Global, path: &Place, table: &Table) -> Result<bool, ReadFault>
    ensures { Gives (λ x. x) result (coherent (place_text path.now) (table_view table.now)) }
{
    optional_flag(alloc, path, table, "coherent")
}

#[tactic(auto, unfolding(crate::specs::Policies::ordered))]
fn read_ordered(alloc: Global, path: &Place, table: &Table) -> Result<bool, ReadFault>
    ensures { Gives (λ x. x) result (ordered (place_text path.now) (table_view table.now)) }
{
    optional_flag(alloc, path, table, "ordered")
}

#[tactic(auto, unfolding(crate::specs::Policies::presentation))]
fn presentation(alloc: Global, path: &Place, table: &Table) -> Result<Presentation, ReadFault>
    ensures { Gives (λ x. x) result (presentation (place_text path.now) (table_view table.now)) }
{
    let access_scope = access_scope(alloc, path, table)?;
    let coherent = coherent(alloc, path, table)?;
    let ordered = read_ordered(alloc, path, table)?;
    Ok(Presentation {
        access_scope,
        coherent,
        ordered,
    })
}

fn duration_of(nanoseconds: Option<u64>) -> Duration
    ensures { result ≡ duration_of nanoseconds }
{
    match nanoseconds {
        Some(n) => Duration::Nanoseconds(n),
        None => Duration::Infinite,
    }
}

// A length of time, `absent` where the key is not there.
#[tactic(auto, unfolding(crate::specs::Policies::duration))]
fn duration(
    alloc: Global,
    absent: Option<u64>,
    path: &Place,
    table: &Table,
    key: &str,
) -> Result<Duration, ReadFault>
    ensures { Gives (λ x. x) result (duration key.now absent (place_text path.now) (table_view table.now)) }
{
    let nanoseconds = optional_duration(alloc, absent, path, table, key)?;
    Ok(duration_of(nanoseconds))
}

#[tactic(auto, unfolding(crate::specs::Policies::deadline))]
fn deadline(alloc: Global, path: &Place, table: &Table) -> Result<Duration, ReadFault>
    ensures { Gives (λ x. x) result (deadline (place_text path.now) (table_view table.now)) }
{
    duration(alloc, None, path, table, "deadline")
}

#[tactic(auto, unfolding(crate::specs::Policies::latency_budget))]
fn latency_budget(alloc: Global, path: &Place, table: &Table) -> Result<Duration, ReadFault>
    ensures { Gives (λ x. x) result (latency_budget (place_text path.now) (table_view table.now)) }
{
    duration(alloc, Some(0), path, table, "latency_budget")
}

#[tactic(auto, unfolding(crate::specs::Policies::ownership))]
fn ownership(alloc: Global, path: &Place, table: &Table) -> Result<Ownership, ReadFault>
    ensures { Gives (λ x. x) result (ownership (place_text path.now) (table_view table.now)) }
{
    let words = [
        ("SHARED", Ownership::Shared),
        ("EXCLUSIVE", Ownership::Exclusive),
    ];
    optional_word(alloc, &words, Ownership::Shared, path, table, "ownership")
}

#[tactic(auto, unfolding(crate::specs::Policies::liveliness_kind))]
fn liveliness_kind(alloc: Global, path: &Place, table: &Table) -> Result<LivelinessKind, ReadFault>
    ensures { Gives (λ x. x) result (liveliness_kind (place_text path.now) (table_view table.now)) }
{
    let words = [
        ("AUTOMATIC", LivelinessKind::Automatic),
        ("MANUAL_BY_PARTICIPANT", LivelinessKind::ManualByParticipant),
        ("MANUAL_BY_TOPIC", LivelinessKind::ManualByTopic),
    ];
    optional_word(
        alloc,
        &words,
        LivelinessKind::Automatic,
        path,
        table,
        "liveliness",
    )
}

#[tactic(auto, unfolding(crate::specs::Policies::lease))]
fn lease(alloc: Global, path: &Place, table: &Table) -> Result<Duration, ReadFault>
    ensures { Gives (λ x. x) result (lease (place_text path.now) (table_view table.now)) }
{
    duration(alloc, None, path, table, "lease")
}

#[tactic(auto, unfolding(crate::specs::Policies::liveliness))]
fn liveliness(alloc: Global, path: &Place, table: &Table) -> Result<Liveliness, ReadFault>
    ensures { Gives (λ x. x) result (liveliness (place_text path.now) (table_view table.now)) }
{
    let kind = liveliness_kind(alloc, path, table)?;
    let lease = lease(alloc, path, table)?;
    Ok(Liveliness { kind, lease })
}

#[tactic(auto, unfolding(crate::specs::Policies::reliability))]
fn reliability(
    alloc: Global,
    absent: Reliability,
    path: &Place,
    table: &Table,
) -> Result<Reliability, ReadFault>
    ensures { Gives (λ x. x) result (reliability absent (place_text path.now) (table_view table.now)) }
{
    let words = [
        ("BEST_EFFORT", Reliability::BestEffort),
        ("RELIABLE", Reliability::Reliable),
    ];
    optional_word(alloc, &words, absent, path, table, "reliability")
}

#[tactic(auto, unfolding(crate::specs::Policies::destination_order))]
fn destination_order(
    alloc: Global,
    path: &Place,
    table: &Table,
) -> Result<DestinationOrder, ReadFault>
    ensures { Gives (λ x. x) result (destination_order (place_text path.now) (table_view table.now)) }
{
    let words = [
        (
            "BY_RECEPTION_TIMESTAMP",
            DestinationOrder::ByReceptionTimestamp,
        ),
        ("BY_SOURCE_TIMESTAMP", DestinationOrder::BySourceTimestamp),
    ];
    optional_word(
        alloc,
        &words,
        DestinationOrder::ByReceptionTimestamp,
        path,
        table,
        "destination_order",
    )
}

#[tactic(auto, unfolding(crate::specs::Policies::history_kind))]
fn history_kind(alloc: Global, path: &Place, table: &Table) -> Result<HistoryKind, ReadFault>
    ensures { Gives (λ x. x) result (history_kind (place_text path.now) (table_view table.now)) }
{
    let words = [
        ("KEEP_LAST", HistoryKind::KeepLast),
        ("KEEP_ALL", HistoryKind::KeepAll),
    ];
    optional_word(alloc, &words, HistoryKind::KeepLast, path, table, "history")
}

#[tactic(auto, unfolding(crate::specs::Policies::depth))]
fn depth(alloc: Global, path: &Place, table: &Table) -> Result<u32, ReadFault>
    ensures { Gives (λ x. x) result (depth (place_text path.now) (table_view table.now)) }
{
    optional_number(alloc, 1, 2_147_483_647, 1, path, table, "depth")
}

#[tactic(auto, unfolding(crate::specs::Policies::history))]
fn history(alloc: Global, path: &Place, table: &Table) -> Result<History, ReadFault>
    ensures { Gives (λ x. x) result (history (place_text path.now) (table_view table.now)) }
{
    let kind = history_kind(alloc, path, table)?;
    let depth = depth(alloc, path, table)?;
    Ok(History { kind, depth })
}

#[tactic(auto, unfolding(crate::specs::Policies::max_samples))]
fn max_samples(alloc: Global, path: &Place, table: &Table) -> Result<Option<u32>, ReadFault>
    ensures { Gives (λ x. x) result (max_samples (place_text path.now) (table_view table.now)) }
{
    optional_limit(alloc, None, path, table, "max_samples")
}

#[tactic(auto, unfolding(crate::specs::Policies::max_instances))]
fn max_instances(alloc: Global, path: &Place, table: &Table) -> Result<Option<u32>, ReadFault>
    ensures { Gives (λ x. x) result (max_instances (place_text path.now) (table_view table.now)) }
{
    optional_limit(alloc, None, path, table, "max_instances")
}

#[tactic(auto, unfolding(crate::specs::Policies::max_samples_per_instance))]
fn max_samples_per_instance(
    alloc: Global,
    path: &Place,
    table: &Table,
) -> Result<Option<u32>, ReadFault>
    ensures { Gives (λ x. x) result (max_samples_per_instance (place_text path.now) (table_view table.now)) }
{
    optional_limit(alloc, None, path, table, "max_samples_per_instance")
}

#[tactic(auto, unfolding(crate::specs::Policies::resource_limits))]
fn resource_limits(alloc: Global, path: &Place, table: &Table) -> Result<ResourceLimits, ReadFault>
    ensures { Gives (λ x. x) result (resource_limits (place_text path.now) (table_view table.now)) }
{
    let max_samples = max_samples(alloc, path, table)?;
    let max_instances = max_instances(alloc, path, table)?;
    let max_samples_per_instance = max_samples_per_instance(alloc, path, table)?;
    Ok(ResourceLimits {
        max_samples,
        max_instances,
        max_samples_per_instance,
    })
}

// What is said of the past and of time.
#[tactic(auto, unfolding(crate::specs::Policies::timing))]
fn timing(
    alloc: Global,
    path: &Place,
    table: &Table,
) -> Result<(Durability, Presentation, Duration, Duration), ReadFault>
    ensures { Gives (λ x. x) result (timing (place_text path.now) (table_view table.now)) }
{
    let durability = durability(alloc, path, table)?;
    let presentation = presentation(alloc, path, table)?;
    let deadline = deadline(alloc, path, table)?;
    let latency_budget = latency_budget(alloc, path, table)?;
    Ok((durability, presentation, deadline, latency_budget))
}

// What is said of who writes and how samples come.
#[tactic(auto, unfolding(crate::specs::Policies::delivery))]
fn delivery(
    alloc: Global,
    absent: Reliability,
    path: &Place,
    table: &Table,
) -> Result<(Ownership, Liveliness, Reliability, DestinationOrder), ReadFault>
    ensures { Gives (λ x. x) result (delivery absent (place_text path.now) (table_view table.now)) }
{
    let ownership = ownership(alloc, path, table)?;
    let liveliness = liveliness(alloc, path, table)?;
    let reliability = reliability(alloc, absent, path, table)?;
    let destination_order = destination_order(alloc, path, table)?;
    Ok((ownership, liveliness, reliability, destination_order))
}

/// All policies but the partitions, with `absent` as the reliability where none is named, or the first fault.
#[tactic(auto, unfolding(crate::specs::Policies::policies))]
pub(crate) fn policies(
    alloc: Global,
    absent: Reliability,
    path: &Place,
    table: &Table,
) -> Result<Policies, ReadFault>
    ensures { Gives (λ x. x) result (policies absent (place_text path.now) (table_view table.now)) }
{
    let (durability, presentation, deadline, latency_budget) = timing(alloc, path, table)?;
    let (ownership, liveliness, reliability, destination_order) = delivery(
        alloc, absent, path, table,
    )?;
    let history = history(alloc, path, table)?;
    let resource_limits = resource_limits(alloc, path, table)?;
    Ok(Policies {
        durability,
        presentation,
        deadline,
        latency_budget,
        ownership,
        liveliness,
        reliability,
        destination_order,
        history,
        resource_limits,
    })
}

fn is_partition_byte(byte: u8) -> bool
    ensures { result ≡ is_partition_byte byte }
{
    is_name_byte(byte) || byte == b'*' || byte == b'?'
}

fn has_partition_bytes(text: &str) -> bool
    ensures { result ≡ list_all is_partition_byte text.now }
{
    text.as_bytes().iter().all(|b| is_partition_byte(*b))
}

fn is_partition_name(text: &str) -> bool
    ensures { result ≡ is_partition_name text.now }
{
    text.len() <= NAME_BYTES && has_partition_bytes(text)
}

// What reads the partitions of an endpoint.
#[derive(Clone, Copy)]
struct PartitionNames;

impl Items for PartitionNames {
    type Read = Vec<String>;

    ghost State = { List (List ℕ) };

    ghost state = { λ names. map string_bytes names.items };

    ghost step = { λ _. partition };

    #[tactic(auto, unfolding(crate::specs::Policies::partition))]
    fn add(
        &self,
        alloc: Global,
        all: &mut Vec<String>,
        path: &Place,
        value: &Value,
    ) -> Result<(), ReadFault> {
        let text = text_of(alloc, path, value)?;
        if !is_partition_name(text) {
            return Err(refuse(alloc, FaultKind::BadName, path));
        }
        all.push(String::from_str(alloc, text)?)?;
        Ok(())
    }
}

/// The names and patterns of the partitions, at most 16, or the first fault. Absent: none.
#[tactic(auto, unfolding(crate::specs::Policies::partitions))]
pub(crate) fn partitions(
    alloc: Global,
    path: &Place,
    table: &Table,
) -> Result<Vec<String>, ReadFault>
    ensures { Gives (λ v. map string_bytes v.items) result (partitions (place_text path.now) (table_view table.now)) }
{
    let none = Vec::new(alloc);
    optional_list(alloc, 16, &PartitionNames, none, path, table, "partitions")
}

/// The keys that the entry of a reader may have since version 4. Before it `taken_within` and `available_within` are
/// none of them, and before version 3 `may_lose` isn't either. But for `filter`, the fourth, the others are also keys
/// of a writer.
pub(crate) const READER_KEYS: [&str; 24] = [
    "taken_within",
    "available_within",
    "may_lose",
    "filter",
    "name",
    "participant",
    "topic",
    "durability",
    "access_scope",
    "coherent",
    "ordered",
    "deadline",
    "latency_budget",
    "ownership",
    "liveliness",
    "lease",
    "reliability",
    "destination_order",
    "history",
    "depth",
    "max_samples",
    "max_instances",
    "max_samples_per_instance",
    "partitions",
];
