//! A deployment as it was read, in JSON: every section with its entries in file order, every field of an entry with its
//! value.
ghost use Rattle.std.specs.Prelude.{◌≡◌, ◌++◌, ◌<◌, ℕ, List, IfOk, length, string_bytes};
ghost use Rattle.dds_text.specs.Texts.{each_below};
ghost use Rattle.dds_show.specs.Pieces.{line_start};
ghost use Rattle.dds_show.specs.Json.{application_item, applications_section, behaviour_sections, connections_section};
ghost use Rattle.dds_show.specs.Json.{deployment_json, endpoint_sections, pair_at, pairs, pairs_of_writer};
ghost use Rattle.dds_show.specs.Json.{participant_item, participants_section, reader_item, readers_section};
ghost use Rattle.dds_show.specs.Json.{rules_section, section, topic_item, topics_section, writer_item, writers_section};

use crate::entries::{
    application_entry, connection_entry, participant_entry, reader_entry, rule_entry, topic_entry,
    writer_entry,
};
use crate::pieces::lines_below;
use dds_base::{AppNo, NoMemory, ParticipantNo, ReaderNo, RuleNo, TopicNo, WriterNo};
use dds_lists::Deployment;
use dds_text::names::name_at;
use dds_text::texts::TextResult;
use std::alloc::Global;

/// A section with these entries.
fn section_text(alloc: Global, name: &str, items: &str) -> TextResult
    ensures { IfOk result (λ text. string_bytes text ≡ section name.now items.now) }
{
    format!(in alloc; "  \"{name}\": [{items}\n  ]")
}

/// A section with the entries below `n`, each in a line of its own.
fn section<F: Fn(usize) -> TextResult>(alloc: Global, name: &str, n: usize, entry: F) -> TextResult
    requires { (i : ℕ) → i < n → F.pre entry i }
    ensures { (item_of : ℕ → List ℕ)
        → ((i : ℕ) (r : _) → i < n → F.post entry i r → IfOk r (λ text. line_start i ++ string_bytes text ≡ item_of i))
        → IfOk result (λ text. string_bytes text ≡ section name.now (each_below n item_of)) }
{
    let items = lines_below(alloc, n, entry)?;
    section_text(alloc, name, items.as_str())
}

fn participants_section(alloc: Global, lists: &Deployment) -> TextResult
    ensures { IfOk result (λ text. string_bytes text ≡ participants_section lists.now) }
{
    section(
        alloc,
        "participants",
        lists.participants(),
        |i|
            requires { i < length lists.now.participants.entries }
            ensures { IfOk result (λ text. line_start i ++ string_bytes text ≡ participant_item lists.entry.now i) }
        {
            let name = name_at(lists.participant_names(), i);
            participant_entry(alloc, name, lists.participant(ParticipantNo::new(i)))
        },
    )
}

fn topics_section(alloc: Global, lists: &Deployment) -> TextResult
    ensures { IfOk result (λ text. string_bytes text ≡ topics_section lists.now) }
{
    section(
        alloc,
        "topics",
        lists.topics(),
        |i|
            requires { i < length lists.now.topics.entries }
            ensures { IfOk result (λ text. line_start i ++ string_bytes text ≡ topic_item lists.entry.now i) }
        {
            let name = name_at(lists.topic_names(), i);
            topic_entry(alloc, name, lists.topic(TopicNo::new(i)))
        },
    )
}

fn writers_section(alloc: Global, lists: &Deployment) -> TextResult
    ensures { IfOk result (λ text. string_bytes text ≡ writers_section lists.now) }
{
    section(
        alloc,
        "writers",
        lists.writers(),
        |i|
            requires { i < length lists.now.writers.entries }
            ensures { IfOk result (λ text. line_start i ++ string_bytes text ≡ writer_item lists.entry.now i) }
        {
            let name = name_at(lists.writer_names(), i);
            writer_entry(alloc, lists, name, lists.writer(WriterNo::new(i)))
        },
    )
}

fn readers_section(alloc: Global, lists: &Deployment) -> TextResult
    ensures { IfOk result (λ text. string_bytes text ≡ readers_section lists.now) }
{
    section(
        alloc,
        "readers",
        lists.readers(),
        |i|
            requires { i < length lists.now.readers.entries }
            ensures { IfOk result (λ text. line_start i ++ string_bytes text ≡ reader_item lists.entry.now i) }
        {
            // The topic is there.
            lists.assert_well_formed();
            let name = name_at(lists.reader_names(), i);
            reader_entry(alloc, lists, name, lists.reader(ReaderNo::new(i)))
        },
    )
}

fn applications_section(alloc: Global, lists: &Deployment) -> TextResult
    ensures { IfOk result (λ text. string_bytes text ≡ applications_section lists.now) }
{
    section(
        alloc,
        "applications",
        lists.applications(),
        |i|
            requires { i < length lists.now.applications.entries }
            ensures { IfOk result (λ text. line_start i ++ string_bytes text ≡ application_item lists.entry.now i) }
        {
            let name = name_at(lists.application_names(), i);
            application_entry(alloc, lists, name, lists.application(AppNo::new(i)))
        },
    )
}

fn rules_section(alloc: Global, lists: &Deployment) -> TextResult
    ensures { IfOk result (λ text. string_bytes text ≡ rules_section lists.now) }
{
    section(alloc, "rules", lists.rules(), |i| {
        let number = RuleNo::new(i);
        rule_entry(alloc, lists, lists.rule_origin(number), lists.rule(number))
    })
}

/// Adds a pair, if a connection names it.
fn push_pair(
    found: &mut Vec<(usize, usize)>,
    lists: &Deployment,
    w: usize,
    r: usize,
) -> Result<(), NoMemory>
    ensures { IfOk result (λ _. found.new.items ≡ found.old.items ++ pair_at lists.now w r) }
{
    if lists.is_connected(WriterNo::new(w), ReaderNo::new(r)) {
        found.push((w, r))?;
    }
    Ok(())
}

/// Adds the pairs of a writer.
fn push_pairs_of_writer(
    found: &mut Vec<(usize, usize)>,
    lists: &Deployment,
    w: usize,
) -> Result<(), NoMemory>
    ensures { IfOk result (λ _. found.new.items ≡ found.old.items ++ pairs_of_writer lists.now w) }
{
    for r in 0..lists.readers() {
        push_pair(found, lists, w, r)?;
    }
    Ok(())
}

/// The pairs of the connections, by writer and then by reader.
fn pairs(alloc: Global, lists: &Deployment) -> Result<Vec<(usize, usize)>, NoMemory>
    ensures { IfOk result (λ found. found.items ≡ pairs lists.now) }
{
    let mut found = Vec::new(alloc);
    for w in 0..lists.writers() {
        push_pairs_of_writer(&mut found, lists, w)?;
    }
    Ok(found)
}

fn connections_section(alloc: Global, lists: &Deployment) -> TextResult
    ensures { IfOk result (λ text. string_bytes text ≡ connections_section lists.now) }
{
    let found = pairs(alloc, lists)?;
    let items = lines_below(alloc, found.len(), |i| {
        connection_entry(alloc, lists, found[i])
    })?;
    section_text(alloc, "connections", items.as_str())
}

/// The sections of what there is: participants, topics, writers and readers.
fn endpoint_sections(alloc: Global, lists: &Deployment) -> TextResult
    ensures { IfOk result (λ text. string_bytes text ≡ endpoint_sections lists.now) }
{
    let participants = participants_section(alloc, lists)?;
    let topics = topics_section(alloc, lists)?;
    let writers = writers_section(alloc, lists)?;
    let readers = readers_section(alloc, lists)?;
    format!(in alloc; "{participants},\n{topics},\n{writers},\n{readers}")
}

/// The sections of what is done with it: applications, rules and connections.
fn behaviour_sections(alloc: Global, lists: &Deployment) -> TextResult
    ensures { IfOk result (λ text. string_bytes text ≡ behaviour_sections lists.now) }
{
    let applications = applications_section(alloc, lists)?;
    let rules = rules_section(alloc, lists)?;
    let connections = connections_section(alloc, lists)?;
    format!(in alloc; "{applications},\n{rules},\n{connections}")
}

/// A deployment in JSON: `participants`, `topics`, `writers`, `readers`, `applications`, `rules` and `connections`,
/// each a list with its entries in file order, connections by writer and then by reader. An entry has every field of
/// the file's format, with the default where the file has none; a rule that stands for one key of an entry with `each`
/// has that `key` besides. `NoMemory` is the only error.
pub fn deployment_json(alloc: Global, lists: &Deployment) -> TextResult
    ensures { IfOk result (λ text. string_bytes text ≡ deployment_json lists.now) }
{
    let endpoints = endpoint_sections(alloc, lists)?;
    let behaviour = behaviour_sections(alloc, lists)?;
    format!(in alloc; "{{\n{endpoints},\n{behaviour}\n}}\n")
}
