//! The names that stand for the numbers of endpoints, keys and rules. A number that names nothing has the empty name.
ghost use Rattle.std.specs.Prelude.{◌≡◌, ◌<◌, IfOk, length, string_bytes};
ghost use Rattle.dds_text.specs.Names.{name_at, reader_key, reader_keys, reader_name, rule_text, writer_key};
ghost use Rattle.dds_text.specs.Names.{writer_keys, writer_name};

use dds_base::{KeyNo, Names, NoMemory, ReaderNo, RuleNo, WriterNo};
use dds_lists::Deployment;
use std::alloc::Global;

/// The keys of the topic of a reader.
pub fn keys_of_reader(lists: &Deployment, reader: ReaderNo) -> &Names
    requires { reader < length lists.now.readers.entries }
    ensures { result.now ≡ reader_keys lists.now reader }
{
    // The topic is there.
    lists.assert_well_formed();
    lists.keys(lists.reader(reader).topic)
}

/// The keys of the topic of a writer.
pub fn keys_of_writer(lists: &Deployment, writer: WriterNo) -> &Names
    requires { writer < length lists.now.writers.entries }
    ensures { result.now ≡ writer_keys lists.now writer }
{
    // The topic is there.
    lists.assert_well_formed();
    lists.keys(lists.writer(writer).topic)
}

/// The name with this number.
pub fn name_at(names: &Names, number: usize) -> &str
    ensures { result.now ≡ name_at names.now number }
{
    match names.get(number) {
        Some(name) => name,
        None => "",
    }
}

/// The name of a writer.
pub fn writer_name(lists: &Deployment, writer: WriterNo) -> &str
    ensures { result.now ≡ writer_name lists.now writer }
{
    name_at(lists.writer_names(), writer.number())
}

/// The name of a reader.
pub fn reader_name(lists: &Deployment, reader: ReaderNo) -> &str
    ensures { result.now ≡ reader_name lists.now reader }
{
    name_at(lists.reader_names(), reader.number())
}

/// The name of a key of a writer's topic.
pub fn writer_key(lists: &Deployment, writer: WriterNo, key: KeyNo) -> &str
    ensures { result.now ≡ writer_key lists.now writer key }
{
    if writer.number() >= lists.writers() {
        return "";
    }
    name_at(keys_of_writer(lists, writer), key.number())
}

/// The name of a key of a reader's topic.
pub fn reader_key(lists: &Deployment, reader: ReaderNo, key: KeyNo) -> &str
    ensures { result.now ≡ reader_key lists.now reader key }
{
    if reader.number() >= lists.readers() {
        return "";
    }
    name_at(keys_of_reader(lists, reader), key.number())
}

/// The name of a rule's entry, and after a blank the key where the rule stands for one of an entry with `each`.
/// `NoMemory` is the only error.
pub fn rule_text(alloc: Global, lists: &Deployment, rule: RuleNo) -> Result<String, NoMemory>
    ensures { IfOk result (λ text. string_bytes text ≡ rule_text lists.now rule) }
{
    match lists.rule_origin(rule) {
        Some(origin) => {
            let name = name_at(lists.rule_names(), origin.name);
            match origin.key {
                Some((topic, key)) => {
                    let key = lists.key_name(topic, key);
                    format!(in alloc; "{name} {key}")
                }
                None => String::from_str(alloc, name),
            }
        }
        None => Ok(String::new(alloc)),
    }
}
