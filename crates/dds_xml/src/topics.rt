//! The domain library in XML: one domain, with the registered types and the topics (OMG DDS-XML 1.0, building block
//! Domains).
ghost use Rattle.std.specs.Prelude.{◌≡◌, IfOk, string_bytes};
ghost use Rattle.dds_lists.specs.Views.{topic_view};
ghost use Rattle.dds_text.specs.Names.{name_at};
ghost use Rattle.dds_xml.specs.Topics.{domain_library, register_type, register_types, topic_element, topics, type_ref};

use dds_base::TopicNo;
use dds_lists::{Deployment, Topic};
use dds_text::names::name_at;
use dds_text::texts::{TextResult, text_below};
use std::alloc::Global;

/// The type of a topic, by its module.
fn type_ref(alloc: Global, name: &str, x: &Topic) -> TextResult
    ensures { IfOk result (λ text. string_bytes text ≡ type_ref name.now (topic_view x.now)) }
{
    let type_name = x.type_name.as_str();
    format!(in alloc; "{name}::{type_name}")
}

/// The type of a topic, registered under that same name.
fn register_type(alloc: Global, name: &str, x: &Topic) -> TextResult
    ensures { IfOk result (λ text. string_bytes text ≡ register_type name.now (topic_view x.now)) }
{
    let type_ref = type_ref(alloc, name, x)?;
    format!(in alloc; "      <register_type name=\"{type_ref}\" type_ref=\"{type_ref}\"/>\n")
}

/// A topic with its registered type.
fn topic_element(alloc: Global, name: &str, x: &Topic) -> TextResult
    ensures { IfOk result (λ text. string_bytes text ≡ topic_element name.now (topic_view x.now)) }
{
    let type_ref = type_ref(alloc, name, x)?;
    format!(in alloc; "      <topic name=\"{name}\" register_type_ref=\"{type_ref}\"/>\n")
}

/// The name of the topic with this number.
fn topic_name(lists: &Deployment, t: usize) -> &str
    ensures { result.now ≡ name_at lists.now.topics.names t }
{
    name_at(lists.topic_names(), t)
}

/// The registered types of all topics.
fn register_types(alloc: Global, lists: &Deployment) -> TextResult
    ensures { IfOk result (λ text. string_bytes text ≡ register_types lists.now) }
{
    text_below(alloc, lists.topics(), |t| {
        register_type(alloc, topic_name(lists, t), lists.topic(TopicNo::new(t)))
    })
}

/// All topics.
fn topics(alloc: Global, lists: &Deployment) -> TextResult
    ensures { IfOk result (λ text. string_bytes text ≡ topics lists.now) }
{
    text_below(alloc, lists.topics(), |t| {
        topic_element(alloc, topic_name(lists, t), lists.topic(TopicNo::new(t)))
    })
}

/// The domain library: all types, then all topics.
#[tactic(auto, unfolding(crate::specs::Topics::domain_library))]
pub(crate) fn domain_library(alloc: Global, lists: &Deployment) -> TextResult
    ensures { IfOk result (λ text. string_bytes text ≡ domain_library lists.now) }
{
    let types = register_types(alloc, lists)?;
    let topics = topics(alloc, lists)?;
    format!(in alloc;
        "  <domain_library name=\"domains\">\n    <domain name=\"topics\">\n\
         {types}{topics}    </domain>\n  </domain_library>\n"
    )
}
