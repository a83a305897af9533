//! The applications in XML, each with the endpoints that it owns (OMG DDS-XML 1.0, building block Applications).
ghost use Rattle.std.specs.Prelude.{◌≡◌, IfOk, string_bytes};
ghost use Rattle.dds_lists.specs.Views.{application_view};
ghost use Rattle.dds_xml.specs.Applications.{application_element, application_library, owned_element};

use crate::pieces::library;
use dds_base::AppNo;
use dds_lists::{Application, Deployment};
use dds_text::names::name_at;
use dds_text::texts::{TextResult, text_of_endpoints};
use std::alloc::Global;

/// The publisher or the subscriber of the endpoint with this name.
fn owned_element(alloc: Global, group: &str, name: &str) -> TextResult
    ensures { IfOk result (λ text. string_bytes text ≡ owned_element group.now name.now) }
{
    format!(in alloc; "        <{group} name=\"{name}\"/>\n")
}

/// An application at its participant.
fn application_element(alloc: Global, lists: &Deployment, name: &str, x: &Application) -> TextResult
    ensures { IfOk result
        (λ text. string_bytes text ≡ application_element lists.now name.now (application_view x.now)) }
{
    let participant = name_at(lists.participant_names(), x.participant.number());
    let writers = x.writers.as_slice();
    let publishers = text_of_endpoints(alloc, lists.writer_names(), writers, |name| {
        owned_element(alloc, "publisher", name)
    })?;
    let readers = x.readers.as_slice();
    let subscribers = text_of_endpoints(alloc, lists.reader_names(), readers, |name| {
        owned_element(alloc, "subscriber", name)
    })?;
    format!(in alloc;
        "    <application name=\"{name}\">\n      \
         <domain_participant name=\"{participant}\" base_name=\"participants::{participant}\">\n\
         {publishers}{subscribers}      \
         </domain_participant>\n    </application>\n"
    )
}

/// All applications.
pub(crate) fn application_library(alloc: Global, lists: &Deployment) -> TextResult
    ensures { IfOk result (λ text. string_bytes text ≡ application_library lists.now) }
{
    library(
        alloc,
        "application_library",
        "applications",
        lists.applications(),
        |a| {
            let name = name_at(lists.application_names(), a);
            application_element(alloc, lists, name, lists.application(AppNo::new(a)))
        },
    )
}
