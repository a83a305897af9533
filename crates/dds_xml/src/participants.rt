//! The participants in XML, each with its writers and then its readers, in file order (OMG DDS-XML 1.0, building block
//! DomainParticipants).
ghost use Rattle.std.specs.Prelude.{◌≡◌, ◌<◌, IfOk, length, string_bytes};
ghost use Rattle.dds_lists.specs.Views.{participant_view, reader_view, writer_view};
ghost use Rattle.dds_xml.specs.Participants.{content_filter, data_reader, filter_expression, filter_term};
ghost use Rattle.dds_xml.specs.Participants.{joins_comment, participant_element, participant_library, publisher};
ghost use Rattle.dds_xml.specs.Participants.{publisher_at, publishers, span_comment, span_comments, subscriber};
ghost use Rattle.dds_xml.specs.Participants.{subscriber_at, subscribers};

use crate::pieces::library;
use dds_base::{KeyNo, Names, ParticipantNo, ReaderNo, WriterNo};
use dds_lists::{Deployment, Joins, Participant, Reader, Writer};
use dds_text::names::name_at;
use dds_text::texts::{TextResult, start_of, text_below};
use std::alloc::Global;

/// A writer, in a publisher of its name.
fn publisher(alloc: Global, lists: &Deployment, name: &str, x: &Writer) -> TextResult
    ensures { IfOk result (λ text. string_bytes text ≡ publisher lists.now name.now (writer_view x.now)) }
{
    let topic = name_at(lists.topic_names(), x.topic.number());
    format!(in alloc;
        "      <publisher name=\"{name}\">\n        <publisher_qos base_name=\"writers::{name}\"/>\n        \
         <data_writer name=\"{name}\" topic_ref=\"{topic}\">\n          \
         <datawriter_qos base_name=\"writers::{name}\"/>\n        </data_writer>\n      </publisher>\n"
    )
}

/// A key of a filter, by its place there.
fn filter_term(alloc: Global, key: &str, i: usize) -> TextResult
    ensures { IfOk result (λ text. string_bytes text ≡ filter_term key.now i) }
{
    let disjunction = start_of(i, "", " OR ");
    format!(in alloc; "{disjunction}key = '{key}'")
}

/// A filter as a condition on the key of a sample.
fn filter_expression(alloc: Global, keys: &Names, filter: &[KeyNo]) -> TextResult
    ensures { IfOk result (λ text. string_bytes text ≡ filter_expression keys.now filter.now) }
{
    if filter.is_empty() {
        return String::from_str(alloc, "key = ''");
    }
    text_below(alloc, filter.len(), |i| {
        filter_term(alloc, name_at(keys, filter[i].number()), i)
    })
}

/// The filter of a reader, nothing where it has all keys.
fn content_filter(alloc: Global, name: &str, keys: &Names, filter: &[KeyNo]) -> TextResult
    ensures { IfOk result (λ text. string_bytes text ≡ content_filter name.now keys.now filter.now) }
{
    if keys.len() <= filter.len() {
        return Ok(String::new(alloc));
    }
    let expression = filter_expression(alloc, keys, filter)?;
    format!(in alloc;
        "          <content_filter name=\"{name}\">\n            \
         <expression>{expression}</expression>\n          </content_filter>\n"
    )
}

/// A field of the file that has no place in XML, as a comment; nothing where the file has none.
fn span_comment(alloc: Global, field: &str, nanoseconds: Option<u64>) -> TextResult
    ensures { IfOk result (λ text. string_bytes text ≡ span_comment field.now nanoseconds) }
{
    match nanoseconds {
        Some(nanoseconds) => { format!(in alloc; "          <!-- {field} = {nanoseconds} -->\n") }
        None => Ok(String::new(alloc)),
    }
}

/// How soon after its write a reader takes each sample, and can take it.
fn span_comments(alloc: Global, x: &Reader) -> TextResult
    ensures { IfOk result (λ text. string_bytes text ≡ span_comments (reader_view x.now)) }
{
    let taken = span_comment(alloc, "taken_within", x.taken_within)?;
    let available = span_comment(alloc, "available_within", x.available_within)?;
    format!(in alloc; "{taken}{available}")
}

fn data_reader(alloc: Global, lists: &Deployment, name: &str, x: &Reader) -> TextResult
    requires { x.now.topic < length lists.now.topics.entries }
    ensures { IfOk result (λ text. string_bytes text ≡ data_reader lists.now name.now (reader_view x.now)) }
{
    let topic = name_at(lists.topic_names(), x.topic.number());
    let filter = content_filter(alloc, name, lists.keys(x.topic), x.filter.as_slice())?;
    let spans = span_comments(alloc, x)?;
    format!(in alloc;
        "        <data_reader name=\"{name}\" topic_ref=\"{topic}\">\n          \
         <datareader_qos base_name=\"readers::{name}\"/>\n{filter}{spans}        </data_reader>\n"
    )
}

/// A reader, in a subscriber of its name.
fn subscriber(alloc: Global, lists: &Deployment, name: &str, x: &Reader) -> TextResult
    requires { x.now.topic < length lists.now.topics.entries }
    ensures { IfOk result (λ text. string_bytes text ≡ subscriber lists.now name.now (reader_view x.now)) }
{
    let reader = data_reader(alloc, lists, name, x)?;
    format!(in alloc;
        "      <subscriber name=\"{name}\">\n        \
         <subscriber_qos base_name=\"readers::{name}\"/>\n{reader}      </subscriber>\n"
    )
}

/// The writer with this number, if it is at this participant.
fn publisher_at(alloc: Global, lists: &Deployment, p: ParticipantNo, w: usize) -> TextResult
    requires { w < length lists.now.writers.entries }
    ensures { IfOk result (λ text. string_bytes text ≡ publisher_at lists.now p w) }
{
    let x = lists.writer(WriterNo::new(w));
    if x.participant.number() != p.number() {
        return Ok(String::new(alloc));
    }
    publisher(alloc, lists, name_at(lists.writer_names(), w), x)
}

/// The writers of a participant.
fn publishers(alloc: Global, lists: &Deployment, p: ParticipantNo) -> TextResult
    ensures { IfOk result (λ text. string_bytes text ≡ publishers lists.now p) }
{
    text_below(alloc, lists.writers(), |w| publisher_at(alloc, lists, p, w))
}

/// The reader with this number, if it is at this participant.
fn subscriber_at(alloc: Global, lists: &Deployment, p: ParticipantNo, r: usize) -> TextResult
    requires { r < length lists.now.readers.entries }
    ensures { IfOk result (λ text. string_bytes text ≡ subscriber_at lists.now p r) }
{
    // The topic is there.
    lists.assert_well_formed();
    let x = lists.reader(ReaderNo::new(r));
    if x.participant.number() != p.number() {
        return Ok(String::new(alloc));
    }
    subscriber(alloc, lists, name_at(lists.reader_names(), r), x)
}

/// The readers of a participant.
fn subscribers(alloc: Global, lists: &Deployment, p: ParticipantNo) -> TextResult
    ensures { IfOk result (λ text. string_bytes text ≡ subscribers lists.now p) }
{
    text_below(
        alloc,
        lists.readers(),
        |r| subscriber_at(alloc, lists, p, r),
    )
}

/// When a participant comes, as a comment; nothing where it's there before the first write.
fn joins_comment(joins: Joins) -> &'static str
    ensures { result.now ≡ joins_comment joins }
{
    match joins {
        Joins::Before => "",
        Joins::Any => "      <!-- joins = \"any\" -->\n",
    }
}

/// A participant with its endpoints.
fn participant_element(
    alloc: Global,
    lists: &Deployment,
    p: ParticipantNo,
    x: &Participant,
) -> TextResult
    ensures { IfOk result (λ text. string_bytes text ≡ participant_element lists.now p (participant_view x.now)) }
{
    let name = name_at(lists.participant_names(), p.number());
    let domain = x.domain;
    let joins = joins_comment(x.joins);
    let publishers = publishers(alloc, lists, p)?;
    let subscribers = subscribers(alloc, lists, p)?;
    format!(in alloc;
        "    <domain_participant name=\"{name}\" domain_ref=\"domains::topics\" domain_id=\"{domain}\">\n\
         {joins}{publishers}{subscribers}    </domain_participant>\n"
    )
}

/// All participants.
pub(crate) fn participant_library(alloc: Global, lists: &Deployment) -> TextResult
    ensures { IfOk result (λ text. string_bytes text ≡ participant_library lists.now) }
{
    library(
        alloc,
        "domain_participant_library",
        "participants",
        lists.participants(),
        |p| {
            let number = ParticipantNo::new(p);
            participant_element(alloc, lists, number, lists.participant(number))
        },
    )
}
