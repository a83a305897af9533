//! The topic that was meant, where an endpoint is alone on one that's nearly another.

use dds_base::{ReaderNo, TopicNo, WriterNo};
use dds_lists::Deployment;
use dds_text::names::name_at;

/// What stands before the names of topics of ROS 2.
const ROS: &str = "rt/";

/// Whether one edit leads from one text to the other and leaves some of it: a character more, one less, or another one.
fn is_one_edit(one: &str, other: &str) -> bool {
    let some_stays = 1 < one.len() || 1 < other.len();
    let same = one
        .bytes()
        .zip(other.bytes())
        .take_while(|(a, b)| a == b)
        .count();
    let one = one.as_bytes().get(same..).unwrap_or(&[]);
    let other = other.as_bytes().get(same..).unwrap_or(&[]);
    let after_one = one.get(1..).unwrap_or(&[]);
    let after_other = other.get(1..).unwrap_or(&[]);
    let is_edit = after_one == after_other || after_one == other || one == after_other;
    some_stays && one != other && is_edit
}

/// Whether a name is the other with what stands before names of ROS 2.
fn is_prefixed(name: &str, other: &str) -> bool {
    name.strip_prefix(ROS) == Some(other)
}

/// Whether one name is nearly the other.
fn is_near(one: &str, other: &str) -> bool {
    is_one_edit(one, other) || is_prefixed(one, other) || is_prefixed(other, one)
}

/// Whether a writer is there, and has a topic.
fn writes(lists: &Deployment, writer: WriterNo, topic: TopicNo) -> bool {
    writer.number() < lists.writers() && lists.writer(writer).topic == topic
}

/// Whether a reader is there, and has a topic.
fn reads(lists: &Deployment, reader: ReaderNo, topic: TopicNo) -> bool {
    reader.number() < lists.readers() && lists.reader(reader).topic == topic
}

/// How many writers have a topic.
fn writers_of(lists: &Deployment, topic: TopicNo) -> usize {
    (0..lists.writers())
        .map(WriterNo::new)
        .filter(|writer| writes(lists, *writer, topic))
        .count()
}

/// How many readers have a topic.
fn readers_of(lists: &Deployment, topic: TopicNo) -> usize {
    (0..lists.readers())
        .map(ReaderNo::new)
        .filter(|reader| reads(lists, *reader, topic))
        .count()
}

/// Whether no more than one endpoint has a topic.
fn is_lonely(lists: &Deployment, topic: TopicNo) -> bool {
    writers_of(lists, topic).saturating_add(readers_of(lists, topic)) <= 1
}

/// The first topic with a name that's nearly that of this one and that passes a test, if there is one.
fn find_near<'a, F: Fn(TopicNo) -> bool>(
    lists: &'a Deployment,
    topic: TopicNo,
    test: F,
) -> Option<&'a str>
    requires { F.IsAlwaysCallable test }
{
    let name = name_at(lists.topic_names(), topic.number());
    for t in 0..lists.topics() {
        let other = name_at(lists.topic_names(), t);
        if is_near(name, other) && test(TopicNo::new(t)) {
            return Some(other);
        }
    }
    None
}

/// The topic that a writer was meant to have, where nobody else has its own: one with nearly the same name that a
/// reader has.
pub(crate) fn meant_by_writer(lists: &Deployment, writer: WriterNo) -> Option<&str> {
    if writer.number() >= lists.writers() {
        return None;
    }
    let topic = lists.writer(writer).topic;
    if !is_lonely(lists, topic) {
        return None;
    }
    find_near(lists, topic, |other| 0 < readers_of(lists, other))
}

/// The topic that a reader was meant to have, where nobody else has its own: one with nearly the same name that a
/// writer has.
pub(crate) fn meant_by_reader(lists: &Deployment, reader: ReaderNo) -> Option<&str> {
    if reader.number() >= lists.readers() {
        return None;
    }
    let topic = lists.reader(reader).topic;
    if !is_lonely(lists, topic) {
        return None;
    }
    find_near(lists, topic, |other| 0 < writers_of(lists, other))
}
