//! The QoS profiles of the endpoints in XML (OMG DDS-XML 1.0, building block QoS). Policies and their kinds have the
//! names of the IDL (OMG DDS 1.4, clause 2.3.3).
ghost use Rattle.std.specs.Prelude.{◌≡◌, IfOk, map, string_bytes};
ghost use Rattle.dds_lists.specs.Views.{reader_view, writer_view};
ghost use Rattle.dds_xml.specs.Profiles.{delivery_elements, endpoint_elements, group_elements, history_element};
ghost use Rattle.dds_xml.specs.Profiles.{kind_element, limits_element, liveliness_element, partition_element};
ghost use Rattle.dds_xml.specs.Profiles.{partition_name, presentation_element, profile, qos_element, reader_library};
ghost use Rattle.dds_xml.specs.Profiles.{reader_profile, timing_elements, writer_library, writer_profile};

use crate::pieces::{duration_element, library, limit_element};
use dds_base::{ReaderNo, WriterNo};
use dds_lists::{Deployment, Reader, Writer};
use dds_qos::{History, Liveliness, Policies, Presentation, ResourceLimits};
use dds_text::names::name_at;
use dds_text::texts::{TextResult, text_of_each};
use dds_text::words::{
    access_scope_word, destination_order_word, durability_word, history_word, liveliness_word,
    ownership_word, reliability_word,
};
use std::alloc::Global;

/// A policy that is a kind and nothing else. `suffix` is the policy's word in the name of the kind.
fn kind_element(alloc: Global, policy: &str, kind: &str, suffix: &str) -> TextResult
    ensures { IfOk result (λ text. string_bytes text ≡ kind_element policy.now kind.now suffix.now) }
{
    format!(in alloc;
        "        <{policy}>\n          <kind>{kind}_{suffix}_QOS</kind>\n        </{policy}>\n"
    )
}

/// What is said of the past and of time.
fn timing_elements(alloc: Global, p: &Policies) -> TextResult
    ensures { IfOk result (λ text. string_bytes text ≡ timing_elements p.now) }
{
    let durability = kind_element(
        alloc,
        "durability",
        durability_word(p.durability),
        "DURABILITY",
    )?;
    let deadline = duration_element(alloc, "period", p.deadline)?;
    let budget = duration_element(alloc, "duration", p.latency_budget)?;
    format!(in alloc;
        "{durability}        <deadline>\n{deadline}        </deadline>\n        <latency_budget>\n\
         {budget}        </latency_budget>\n"
    )
}

fn liveliness_element(alloc: Global, x: Liveliness) -> TextResult
    ensures { IfOk result (λ text. string_bytes text ≡ liveliness_element x) }
{
    let kind = liveliness_word(x.kind);
    let lease = duration_element(alloc, "lease_duration", x.lease)?;
    format!(in alloc;
        "        <liveliness>\n          <kind>{kind}_LIVELINESS_QOS</kind>\n{lease}        </liveliness>\n"
    )
}

/// What is said of who writes and how samples come.
fn delivery_elements(alloc: Global, p: &Policies) -> TextResult
    ensures { IfOk result (λ text. string_bytes text ≡ delivery_elements p.now) }
{
    let ownership = kind_element(alloc, "ownership", ownership_word(p.ownership), "OWNERSHIP")?;
    let liveliness = liveliness_element(alloc, p.liveliness)?;
    let reliability = kind_element(
        alloc,
        "reliability",
        reliability_word(p.reliability),
        "RELIABILITY",
    )?;
    let order = kind_element(
        alloc,
        "destination_order",
        destination_order_word(p.destination_order),
        "DESTINATIONORDER",
    )?;
    format!(in alloc; "{ownership}{liveliness}{reliability}{order}")
}

fn history_element(alloc: Global, x: History) -> TextResult
    ensures { IfOk result (λ text. string_bytes text ≡ history_element x) }
{
    let kind = history_word(x.kind);
    let depth = x.depth;
    format!(in alloc;
        "        <history>\n          <kind>{kind}_HISTORY_QOS</kind>\n          \
         <depth>{depth}</depth>\n        </history>\n"
    )
}

fn limits_element(alloc: Global, x: ResourceLimits) -> TextResult
    ensures { IfOk result (λ text. string_bytes text ≡ limits_element x) }
{
    let samples = limit_element(alloc, "max_samples", x.max_samples)?;
    let instances = limit_element(alloc, "max_instances", x.max_instances)?;
    let of_one = limit_element(
        alloc,
        "max_samples_per_instance",
        x.max_samples_per_instance,
    )?;
    format!(in alloc;
        "        <resource_limits>\n{samples}{instances}{of_one}        </resource_limits>\n"
    )
}

/// The policies of a writer or a reader.
fn endpoint_elements(alloc: Global, p: &Policies) -> TextResult
    ensures { IfOk result (λ text. string_bytes text ≡ endpoint_elements p.now) }
{
    let timing = timing_elements(alloc, p)?;
    let delivery = delivery_elements(alloc, p)?;
    let history = history_element(alloc, p.history)?;
    let limits = limits_element(alloc, p.resource_limits)?;
    format!(in alloc; "{timing}{delivery}{history}{limits}")
}

fn presentation_element(alloc: Global, x: Presentation) -> TextResult
    ensures { IfOk result (λ text. string_bytes text ≡ presentation_element x) }
{
    let scope = access_scope_word(x.access_scope);
    let coherent = x.coherent;
    let ordered = x.ordered;
    format!(in alloc;
        "        <presentation>\n          <access_scope>{scope}_PRESENTATION_QOS</access_scope>\n          \
         <coherent_access>{coherent}</coherent_access>\n          \
         <ordered_access>{ordered}</ordered_access>\n        </presentation>\n"
    )
}

/// The name of a partition.
fn partition_name(alloc: Global, name: &str) -> TextResult
    ensures { IfOk result (λ text. string_bytes text ≡ partition_name name.now) }
{
    format!(in alloc; "            <element>{name}</element>\n")
}

fn partition_element(alloc: Global, partitions: &[String]) -> TextResult
    ensures { IfOk result (λ text. string_bytes text ≡ partition_element (map string_bytes partitions.now)) }
{
    let names = text_of_each(alloc, partitions, |partition| {
        partition_name(alloc, partition.as_str())
    })?;
    format!(in alloc;
        "        <partition>\n          <name>\n{names}          </name>\n        </partition>\n"
    )
}

/// The policies of a publisher or a subscriber.
fn group_elements(alloc: Global, p: &Policies, partitions: &[String]) -> TextResult
    ensures { IfOk result (λ text. string_bytes text ≡ group_elements p.now (map string_bytes partitions.now)) }
{
    let presentation = presentation_element(alloc, p.presentation)?;
    let partition = partition_element(alloc, partitions)?;
    format!(in alloc; "{presentation}{partition}")
}

/// Policies under the name of what they are of.
fn qos_element(alloc: Global, name: &str, policies: &str) -> TextResult
    ensures { IfOk result (λ text. string_bytes text ≡ qos_element name.now policies.now) }
{
    format!(in alloc; "      <{name}>\n{policies}      </{name}>\n")
}

/// The profile of an endpoint. `entity` and `group` are the elements of its own policies and of those of its publisher
/// or subscriber.
fn profile(
    alloc: Global,
    entity: &str,
    group: &str,
    name: &str,
    p: &Policies,
    partitions: &[String],
) -> TextResult
    ensures { IfOk result
        (λ text. string_bytes text ≡ profile entity.now group.now name.now p.now (map string_bytes partitions.now)) }
{
    let own = endpoint_elements(alloc, p)?;
    let own = qos_element(alloc, entity, own.as_str())?;
    let shared = group_elements(alloc, p, partitions)?;
    let shared = qos_element(alloc, group, shared.as_str())?;
    format!(in alloc; "    <qos_profile name=\"{name}\">\n{own}{shared}    </qos_profile>\n")
}

fn writer_profile(alloc: Global, name: &str, x: &Writer) -> TextResult
    ensures { IfOk result (λ text. string_bytes text ≡ writer_profile name.now (writer_view x.now)) }
{
    let partitions = x.partitions.as_slice();
    profile(
        alloc,
        "datawriter_qos",
        "publisher_qos",
        name,
        &x.qos.offered,
        partitions,
    )
}

fn reader_profile(alloc: Global, name: &str, x: &Reader) -> TextResult
    ensures { IfOk result (λ text. string_bytes text ≡ reader_profile name.now (reader_view x.now)) }
{
    let partitions = x.partitions.as_slice();
    profile(
        alloc,
        "datareader_qos",
        "subscriber_qos",
        name,
        &x.qos.requested,
        partitions,
    )
}

/// The profiles of all writers.
pub(crate) fn writer_library(alloc: Global, lists: &Deployment) -> TextResult
    ensures { IfOk result (λ text. string_bytes text ≡ writer_library lists.now) }
{
    library(alloc, "qos_library", "writers", lists.writers(), |w| {
        let name = name_at(lists.writer_names(), w);
        writer_profile(alloc, name, lists.writer(WriterNo::new(w)))
    })
}

/// The profiles of all readers.
pub(crate) fn reader_library(alloc: Global, lists: &Deployment) -> TextResult
    ensures { IfOk result (λ text. string_bytes text ≡ reader_library lists.now) }
{
    library(alloc, "qos_library", "readers", lists.readers(), |r| {
        let name = name_at(lists.reader_names(), r);
        reader_profile(alloc, name, lists.reader(ReaderNo::new(r)))
    })
}
