//! The names that a program looks up.
ghost use Rattle.std.specs.Prelude.{◌≡◌, IfOk};
ghost use Rattle.dds_guard.specs.Guard.{all_keys_of, names_of};

use crate::texts::Texts;
use dds_base::{NoMemory, TopicNo};
use dds_lists::Deployment;
use std::alloc::Global;
use std::marker::Model;

/// The names of writers, readers, rules and topics, and of the keys of each topic.
#[derive(Drop)]
pub(crate) struct NameTable {
    pub(crate) writers: Texts,
    pub(crate) readers: Texts,
    pub(crate) rules: Texts,
    pub(crate) topics: Texts,
    pub(crate) keys: Vec<Texts>,
}

impl Model for NameTable {
    ghost use Rattle.dds_guard.specs.Guard.{NameLists};

    ghost Value = { NameLists };

    ghost view = { λ t. record {
      writers = t.writers;
      readers = t.readers;
      rules = t.rules;
      topics = t.topics;
      keys = t.keys.items;
    } };
}

/// The keys of each topic.
fn keys_of(alloc: Global, lists: &Deployment) -> Result<Vec<Texts>, NoMemory>
    ensures { IfOk result (λ v. v.items ≡ all_keys_of lists.now) }
{
    let mut keys = Vec::with_capacity(alloc, lists.topics())?;
    for t in 0..lists.topics() {
        keys.push(Texts::of(alloc, lists.keys(TopicNo::new(t)))?)?;
    }
    Ok(keys)
}

impl NameTable {
    /// The names of a deployment.
    pub(crate) fn of(alloc: Global, lists: &Deployment) -> Result<NameTable, NoMemory>
        ensures { IfOk result (λ t. t ≡ names_of lists.now) }
    {
        let writers = Texts::of(alloc, lists.writer_names())?;
        let readers = Texts::of(alloc, lists.reader_names())?;
        let rules = Texts::of(alloc, lists.rule_names())?;
        let topics = Texts::of(alloc, lists.topic_names())?;
        let keys = keys_of(alloc, lists)?;
        Ok(NameTable {
            writers,
            readers,
            rules,
            topics,
            keys,
        })
    }
}
