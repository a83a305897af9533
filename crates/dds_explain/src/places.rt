//! Where a writer and a reader are that don't meet: their domains, their topics and their partitions (OMG DDS 1.4,
//! clause 2.2.3).
ghost use Rattle.std.specs.Prelude.{◌≡◌, IfOk, map, string_bytes};
ghost use Rattle.dds_explain.specs.Places.{domain_line, partitions_line, reader_domain, reader_partitions};
ghost use Rattle.dds_explain.specs.Places.{reader_topic_name, topic_line, writer_domain, writer_partitions};
ghost use Rattle.dds_explain.specs.Places.{writer_topic_name};

use dds_base::{ReaderNo, WriterNo};
use dds_lists::Deployment;
use dds_show::pieces::text_items;
use dds_text::names::{name_at, reader_name, writer_name};
use dds_text::texts::TextResult;
use std::alloc::Global;

/// The domain of a writer's participant, 0 where there is no such writer.
fn writer_domain(lists: &Deployment, writer: WriterNo) -> u32
    ensures { result ≡ writer_domain lists.now writer }
{
    if writer.number() < lists.writers() {
        lists.participant(lists.writer(writer).participant).domain
    } else {
        0
    }
}

/// The domain of a reader's participant, 0 where there is no such reader.
fn reader_domain(lists: &Deployment, reader: ReaderNo) -> u32
    ensures { result ≡ reader_domain lists.now reader }
{
    if reader.number() < lists.readers() {
        lists.participant(lists.reader(reader).participant).domain
    } else {
        0
    }
}

/// The domains of a writer and of a reader.
pub(crate) fn domain_line(
    alloc: Global,
    lists: &Deployment,
    writer: WriterNo,
    reader: ReaderNo,
) -> TextResult
    ensures { IfOk result (λ text. string_bytes text ≡ domain_line lists.now writer reader) }
{
    let from = writer_domain(lists, writer);
    let to = reader_domain(lists, reader);
    let writer = writer_name(lists, writer);
    let reader = reader_name(lists, reader);
    format!(in alloc; "  domain: {writer} is in {from}, {reader} in {to}\n")
}

/// The name of a writer's topic, empty where there is no such writer.
fn writer_topic_name(lists: &Deployment, writer: WriterNo) -> &str
    ensures { result.now ≡ writer_topic_name lists.now writer }
{
    if writer.number() < lists.writers() {
        name_at(lists.topic_names(), lists.writer(writer).topic.number())
    } else {
        ""
    }
}

/// The name of a reader's topic, empty where there is no such reader.
fn reader_topic_name(lists: &Deployment, reader: ReaderNo) -> &str
    ensures { result.now ≡ reader_topic_name lists.now reader }
{
    if reader.number() < lists.readers() {
        name_at(lists.topic_names(), lists.reader(reader).topic.number())
    } else {
        ""
    }
}

/// The topics of a writer and of a reader.
pub(crate) fn topic_line(
    alloc: Global,
    lists: &Deployment,
    writer: WriterNo,
    reader: ReaderNo,
) -> TextResult
    ensures { IfOk result (λ text. string_bytes text ≡ topic_line lists.now writer reader) }
{
    let written = writer_topic_name(lists, writer);
    let read = reader_topic_name(lists, reader);
    let writer = writer_name(lists, writer);
    let reader = reader_name(lists, reader);
    format!(in alloc; "  topic: {writer} writes {written}, {reader} reads {read}\n")
}

/// The partitions of a writer, none where there is no such writer.
fn writer_partitions(lists: &Deployment, writer: WriterNo) -> &[String]
    ensures { map string_bytes result.now ≡ writer_partitions lists.now writer }
{
    if writer.number() < lists.writers() {
        lists.writer(writer).partitions.as_slice()
    } else {
        &[]
    }
}

/// The partitions of a reader, none where there is no such reader.
fn reader_partitions(lists: &Deployment, reader: ReaderNo) -> &[String]
    ensures { map string_bytes result.now ≡ reader_partitions lists.now reader }
{
    if reader.number() < lists.readers() {
        lists.reader(reader).partitions.as_slice()
    } else {
        &[]
    }
}

/// The partitions of a writer and of a reader, each list as a file has it.
pub(crate) fn partitions_line(
    alloc: Global,
    lists: &Deployment,
    writer: WriterNo,
    reader: ReaderNo,
) -> TextResult
    ensures { IfOk result (λ text. string_bytes text ≡ partitions_line lists.now writer reader) }
{
    let from = text_items(alloc, writer_partitions(lists, writer))?;
    let to = text_items(alloc, reader_partitions(lists, reader))?;
    let writer = writer_name(lists, writer);
    let reader = reader_name(lists, reader);
    format!(in alloc; "  partitions: {writer} has [{from}], {reader} has [{to}]\n")
}
