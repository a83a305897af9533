//! A deployment in DDS-XML (OMG DDS-XML 1.0).
ghost use Rattle.std.specs.Prelude.{◌≡◌, IfOk, string_bytes};
ghost use Rattle.dds_xml.specs.Document.{deployment_xml, entity_sections, profile_sections};

use crate::applications::application_library;
use crate::participants::participant_library;
use crate::profiles::{reader_library, writer_library};
use crate::topics::domain_library;
use crate::types::types_section;
use dds_lists::Deployment;
use dds_text::texts::TextResult;
use std::alloc::Global;

/// What endpoints use: the types of topics, and the QoS profiles.
fn profile_sections(alloc: Global, lists: &Deployment) -> TextResult
    ensures { IfOk result (λ text. string_bytes text ≡ profile_sections lists.now) }
{
    let types = types_section(alloc, lists)?;
    let writers = writer_library(alloc, lists)?;
    let readers = reader_library(alloc, lists)?;
    format!(in alloc; "{types}{writers}{readers}")
}

/// What there is: topics, participants with their endpoints, and applications.
fn entity_sections(alloc: Global, lists: &Deployment) -> TextResult
    ensures { IfOk result (λ text. string_bytes text ≡ entity_sections lists.now) }
{
    let domain = domain_library(alloc, lists)?;
    let participants = participant_library(alloc, lists)?;
    let applications = application_library(alloc, lists)?;
    format!(in alloc; "{domain}{participants}{applications}")
}

/// A deployment for other DDS tools, in DDS-XML (OMG DDS-XML 1.0): types, a QoS profile for each endpoint, topics,
/// participants with their endpoints, and applications, each in file order. Rules and connections have no place there
/// and are left out; a reader's `taken_within` and `available_within` are comments, as is the `joins` of a participant
/// that joins at any time. Lengths of time are in seconds and nanoseconds. The type of a topic is a struct of a key and
/// 32 bytes, in a module of the topic's name; the enum beside it has the topic's keys. `NoMemory` is the only error.
pub fn deployment_xml(alloc: Global, lists: &Deployment) -> TextResult
    ensures { IfOk result (λ text. string_bytes text ≡ deployment_xml lists.now) }
{
    let profiles = profile_sections(alloc, lists)?;
    let entities = entity_sections(alloc, lists)?;
    format!(in alloc;
        "<?xml version=\"1.0\" encoding=\"UTF-8\"?>\n<dds xmlns=\"http://www.omg.org/spec/DDS-XML\">\n  \
         <!-- Rules and connections have no place in DDS-XML and are left out. \
         The enum of a module lists the keys of its topic. -->\n\
         {profiles}{entities}</dds>\n"
    )
}
