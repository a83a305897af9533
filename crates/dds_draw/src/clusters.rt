//! Participants and applications as clusters.
ghost use Rattle.std.specs.Prelude.{◌≡◌, ◌<◌, IfOk, length, option_map, string_bytes};
ghost use Rattle.dds_lists.specs.Views.{application_view, participant_view};
ghost use Rattle.dds_text.specs.Texts.{each_below};
ghost use Rattle.dds_weights.specs.Views.{certificate_view};
ghost use Rattle.dds_draw.specs.Clusters.{application_at, application_cluster, application_members, border};
ghost use Rattle.dds_draw.specs.Clusters.{endpoint_name, participant_cluster, participant_clusters};
ghost use Rattle.dds_draw.specs.Clusters.{participant_members, reader_at, rule_at, writer_at};

use crate::nodes::{reader_node, rule_node, writer_node};
use dds_base::{AppNo, ParticipantNo, ReaderNo, RuleNo, WriterNo};
use dds_lists::{Application, Deployment, Joins, Participant};
use dds_text::names::name_at;
use dds_text::texts::{TextResult, text_below, text_of_endpoints};
use dds_weights::Certificate;
use std::alloc::Global;

/// The name of the node of an endpoint: its side, `writer` or `reader`, and its own name.
fn endpoint_name(alloc: Global, side: &str, name: &str) -> TextResult
    ensures { IfOk result (λ text. string_bytes text ≡ endpoint_name side.now name.now) }
{
    format!(in alloc; "      \"{side} {name}\";\n")
}

/// A rule, if it is one of the application.
fn rule_at(alloc: Global, lists: &Deployment, application: AppNo, u: usize) -> TextResult
    requires { u < length lists.now.rules.entries }
    ensures { IfOk result (λ text. string_bytes text ≡ rule_at lists.now application u) }
{
    let number = RuleNo::new(u);
    let rule = lists.rule(number);
    if rule.application != application {
        return Ok(String::new(alloc));
    }
    rule_node(alloc, lists, number, rule)
}

/// The nodes of the application's rules.
fn rules_of(alloc: Global, lists: &Deployment, application: AppNo) -> TextResult
    ensures { IfOk result
        (λ text. string_bytes text ≡ each_below (length lists.now.rules.entries) (rule_at lists.now application)) }
{
    text_below(
        alloc,
        lists.rules(),
        |u| rule_at(alloc, lists, application, u),
    )
}

/// The names of an application's writers and readers, and its rules.
fn application_members(
    alloc: Global,
    lists: &Deployment,
    number: AppNo,
    x: &Application,
) -> TextResult
    ensures { IfOk result (λ text. string_bytes text ≡ application_members lists.now number (application_view x.now)) }
{
    let writers = x.writers.as_slice();
    let writers = text_of_endpoints(alloc, lists.writer_names(), writers, |name| {
        endpoint_name(alloc, "writer", name)
    })?;
    let readers = x.readers.as_slice();
    let readers = text_of_endpoints(alloc, lists.reader_names(), readers, |name| {
        endpoint_name(alloc, "reader", name)
    })?;
    let rules = rules_of(alloc, lists, number)?;
    format!(in alloc; "{writers}{readers}{rules}")
}

/// The cluster of an application.
fn application_cluster(
    alloc: Global,
    lists: &Deployment,
    number: AppNo,
    x: &Application,
) -> TextResult
    ensures { IfOk result (λ text. string_bytes text ≡ application_cluster lists.now number (application_view x.now)) }
{
    let name = name_at(lists.application_names(), number.number());
    let members = application_members(alloc, lists, number, x)?;
    format!(in alloc;
        "    subgraph \"cluster application {name}\" {{\n      label=\"{name}\";\n      style=rounded;\n\
         {members}    }}\n"
    )
}

/// The cluster of an application, if it is at the participant.
fn application_at(
    alloc: Global,
    lists: &Deployment,
    participant: ParticipantNo,
    a: usize,
) -> TextResult
    requires { a < length lists.now.applications.entries }
    ensures { IfOk result (λ text. string_bytes text ≡ application_at lists.now participant a) }
{
    let number = AppNo::new(a);
    let application = lists.application(number);
    if application.participant != participant {
        return Ok(String::new(alloc));
    }
    application_cluster(alloc, lists, number, application)
}

/// The clusters of the participant's applications.
fn applications_of(alloc: Global, lists: &Deployment, participant: ParticipantNo) -> TextResult
    ensures { IfOk result
        (λ text. string_bytes text
        ≡ each_below (length lists.now.applications.entries) (application_at lists.now participant)) }
{
    text_below(
        alloc,
        lists.applications(),
        |a| application_at(alloc, lists, participant, a),
    )
}

/// A writer, if it is at the participant.
fn writer_at(alloc: Global, lists: &Deployment, participant: ParticipantNo, w: usize) -> TextResult
    requires { w < length lists.now.writers.entries }
    ensures { IfOk result (λ text. string_bytes text ≡ writer_at lists.now participant w) }
{
    let number = WriterNo::new(w);
    let writer = lists.writer(number);
    if writer.participant != participant {
        return Ok(String::new(alloc));
    }
    writer_node(alloc, lists, number, writer)
}

/// The nodes of the participant's writers.
fn writers_of(alloc: Global, lists: &Deployment, participant: ParticipantNo) -> TextResult
    ensures { IfOk result
        (λ text. string_bytes text ≡ each_below (length lists.now.writers.entries) (writer_at lists.now participant)) }
{
    text_below(
        alloc,
        lists.writers(),
        |w| writer_at(alloc, lists, participant, w),
    )
}

/// A reader, if it is at the participant.
fn reader_at(
    alloc: Global,
    lists: &Deployment,
    certificate: Option<&Certificate>,
    participant: ParticipantNo,
    r: usize,
) -> TextResult
    requires { r < length lists.now.readers.entries }
    ensures { IfOk result
        (λ text. string_bytes text
        ≡ reader_at lists.now (option_map (λ c. certificate_view c.now) certificate.entry) participant r) }
{
    let number = ReaderNo::new(r);
    let reader = lists.reader(number);
    if reader.participant != participant {
        return Ok(String::new(alloc));
    }
    reader_node(alloc, lists, certificate, number, reader)
}

/// The nodes of the participant's readers.
fn readers_of(
    alloc: Global,
    lists: &Deployment,
    certificate: Option<&Certificate>,
    participant: ParticipantNo,
) -> TextResult
    ensures { IfOk result
        (λ text. string_bytes text
        ≡ each_below (length lists.now.readers.entries) (reader_at lists.now (option_map
        (λ c. certificate_view c.now) certificate.entry) participant)) }
{
    text_below(
        alloc,
        lists.readers(),
        |r| reader_at(alloc, lists, certificate, participant, r),
    )
}

/// The applications, writers and readers of a participant.
fn participant_members(
    alloc: Global,
    lists: &Deployment,
    certificate: Option<&Certificate>,
    participant: ParticipantNo,
) -> TextResult
    ensures { IfOk result
        (λ text. string_bytes text
        ≡ participant_members lists.now (option_map (λ c. certificate_view c.now) certificate.entry) participant) }
{
    let applications = applications_of(alloc, lists, participant)?;
    let writers = writers_of(alloc, lists, participant)?;
    let readers = readers_of(alloc, lists, certificate, participant)?;
    format!(in alloc; "{applications}{writers}{readers}")
}

/// The border of a participant: dashed where it may come at any time.
fn border(joins: Joins) -> &'static str
    ensures { result.now ≡ border joins }
{
    match joins {
        Joins::Before => "",
        Joins::Any => "    style=dashed;\n",
    }
}

/// The cluster of a participant.
fn participant_cluster(
    alloc: Global,
    lists: &Deployment,
    certificate: Option<&Certificate>,
    number: ParticipantNo,
    x: &Participant,
) -> TextResult
    ensures { IfOk result
        (λ text. string_bytes text
        ≡ participant_cluster lists.now (option_map
        (λ c. certificate_view c.now) certificate.entry) number (participant_view x.now)) }
{
    let name = name_at(lists.participant_names(), number.number());
    let domain = x.domain;
    let border = border(x.joins);
    let members = participant_members(alloc, lists, certificate, number)?;
    format!(in alloc;
        "  subgraph \"cluster participant {name}\" {{\n    label=\"{name}, domain {domain}\";\n\
         {border}{members}  }}\n"
    )
}

/// The clusters of all participants, in file order.
#[tactic(auto, unfolding(crate::specs::Clusters::participant_clusters))]
pub(crate) fn participant_clusters(
    alloc: Global,
    lists: &Deployment,
    certificate: Option<&Certificate>,
) -> TextResult
    ensures { IfOk result
        (λ text. string_bytes text
        ≡ participant_clusters lists.now (option_map (λ c. certificate_view c.now) certificate.entry)) }
{
    text_below(alloc, lists.participants(), |p| {
        let number = ParticipantNo::new(p);
        participant_cluster(alloc, lists, certificate, number, lists.participant(number))
    })
}
