//! The names that a file may use.

use crate::fields::{Named, Side};
use dds_base::{KeyNo, Names, NoMemory, ReaderNo, TopicNo, WriterNo};
use dds_lists::Deployment;
use std::alloc::Global;
use toml::{Table, Value};

/// Names with the place where each stands first.
#[derive(Drop)]
pub(crate) struct PlacedNames {
    names: Names,
    places: Vec<usize>,
}

impl PlacedNames {
    /// No names yet.
    pub(crate) fn new(alloc: Global) -> PlacedNames {
        PlacedNames {
            names: Names::new(alloc),
            places: Vec::new(alloc),
        }
    }

    /// Adds a name that stands at a place, where it isn't there already.
    pub(crate) fn add(&mut self, alloc: Global, name: &str, place: usize) -> Result<(), NoMemory> {
        if self.names.number(name).is_none() {
            self.names.push(String::from_str(alloc, name)?)?;
            self.places.push(place)?;
        }
        Ok(())
    }

    /// Where a name stands first.
    pub(crate) fn place(&self, name: &str) -> Option<usize> {
        self.places.get(self.names.number(name)?).copied()
    }

    /// Its number among the names.
    pub(crate) fn number(&self, name: &str) -> Option<usize> {
        self.names.number(name)
    }

    /// How many names there are.
    pub(crate) fn len(&self) -> usize {
        self.names.len()
    }

    /// The name with this number.
    pub(crate) fn name(&self, number: usize) -> Option<&str> {
        if number < self.names.len() {
            Some(self.names.name(number))
        } else {
            None
        }
    }

    /// At most so many of them, the first ones.
    pub(crate) fn first(&self, alloc: Global, limit: usize) -> Result<Vec<&str>, NoMemory> {
        let mut first = Vec::new(alloc);
        for number in 0..self.names.len().min(limit) {
            first.push(self.names.name(number))?;
        }
        Ok(first)
    }
}

/// What decides which keys an endpoint has: its topic, and the filter of a reader that has one.
#[derive(Drop)]
struct EndpointKeys {
    // none where it isn't clear
    topic: Option<usize>,
    filter: Option<PlacedNames>,
}

/// The endpoints of a kind: which keys each has, by its place, and who owns it.
#[derive(Drop)]
struct EndpointNames {
    keys: Vec<EndpointKeys>,
    // the place of the first application that lists an endpoint
    owners: PlacedNames,
}

/// The names that a file may use. An entry with another fault has its name here all the same, so that no fault follows
/// from another.
#[derive(Drop)]
pub(crate) struct KnownNames {
    // by the place of the section among all of them
    sections: Vec<PlacedNames>,
    topic_keys: Vec<PlacedNames>,
    writers: EndpointNames,
    readers: EndpointNames,
    none: PlacedNames,
}

// The sections whose names are known.
static SECTIONS: [Named; 7] = [
    Named::Participants,
    Named::Topics,
    Named::Writers,
    Named::Readers,
    Named::Applications,
    Named::Rules,
    Named::Rows,
];

fn place_of(section: Named) -> usize {
    match section {
        Named::Participants => 0,
        Named::Topics => 1,
        Named::Writers => 2,
        Named::Readers => 3,
        Named::Applications => 4,
        Named::Rules => 5,
        Named::Rows => 6,
    }
}

impl KnownNames {
    /// The names of a section.
    pub(crate) fn names(&self, section: Named) -> &PlacedNames {
        match self.sections.get(place_of(section)) {
            Some(names) => names,
            None => &self.none,
        }
    }

    fn endpoints(&self, side: Side) -> &EndpointNames {
        match side {
            Side::Writers => &self.writers,
            Side::Readers => &self.readers,
        }
    }

    /// The endpoints that applications list, with the place of the first application that does.
    pub(crate) fn owners(&self, side: Side) -> &PlacedNames {
        &self.endpoints(side).owners
    }

    /// The keys of a topic, where it is there.
    pub(crate) fn keys_of(&self, topic: &str) -> Option<&PlacedNames> {
        self.topic_keys.get(self.names(Named::Topics).place(topic)?)
    }

    /// The keys of an endpoint, where it is clear which they are.
    pub(crate) fn keys_at(&self, side: Side, name: &str) -> Option<&PlacedNames> {
        let place = self.names(side.section()).place(name)?;
        let keys = self.endpoints(side).keys.get(place)?;
        match &keys.filter {
            Some(filter) => Some(filter),
            None => self.topic_keys.get(keys.topic?),
        }
    }
}

/// The entries of a section, none where it has none or is none.
pub(crate) fn entries_of<'a>(document: &'a Table, section: &str) -> &'a [Value] {
    match document.get(section) {
        Some(value) => elements_of(value),
        None => &[],
    }
}

/// The elements of a list, none where the value is no list.
pub(crate) fn elements_of(value: &Value) -> &[Value] {
    match value.as_array() {
        Some(array) => array.as_slice(),
        None => &[],
    }
}

/// The text at a key of an entry, where there is one.
pub(crate) fn text_at<'a>(entry: &'a Value, key: &str) -> Option<&'a str> {
    entry.as_table()?.get(key)?.as_str()
}

fn names_in(alloc: Global, document: &Table, section: Named) -> Result<PlacedNames, NoMemory> {
    let mut names = PlacedNames::new(alloc);
    for (place, entry) in entries_of(document, section.key()).iter().enumerate() {
        if let Some(name) = text_at(entry, "name") {
            names.add(alloc, name, place)?;
        }
    }
    Ok(names)
}

fn all_names_in(alloc: Global, document: &Table) -> Result<Vec<PlacedNames>, NoMemory> {
    let mut all = Vec::new(alloc);
    for section in &SECTIONS {
        let names = names_in(alloc, document, *section)?;
        all.push(names)?;
    }
    Ok(all)
}

/// The texts of a list, each with its first place.
pub(crate) fn texts_of(alloc: Global, value: &Value) -> Result<PlacedNames, NoMemory> {
    let mut texts = PlacedNames::new(alloc);
    for (place, element) in elements_of(value).iter().enumerate() {
        if let Some(text) = element.as_str() {
            texts.add(alloc, text, place)?;
        }
    }
    Ok(texts)
}

fn keys_of_topic(alloc: Global, topic: &Value) -> Result<PlacedNames, NoMemory> {
    match topic.as_table() {
        Some(table) => match table.get("keys") {
            Some(keys) => texts_of(alloc, keys),
            None => Ok(PlacedNames::new(alloc)),
        },
        None => Ok(PlacedNames::new(alloc)),
    }
}

fn topic_keys_in(alloc: Global, document: &Table) -> Result<Vec<PlacedNames>, NoMemory> {
    let mut all = Vec::new(alloc);
    for topic in entries_of(document, "topics") {
        let keys = keys_of_topic(alloc, topic)?;
        all.push(keys)?;
    }
    Ok(all)
}

fn filter_in(alloc: Global, endpoint: &Value) -> Result<Option<PlacedNames>, NoMemory> {
    match endpoint.as_table() {
        Some(table) => match table.get("filter") {
            Some(filter) => Ok(Some(texts_of(alloc, filter)?)),
            None => Ok(None),
        },
        None => Ok(None),
    }
}

fn keys_of_endpoint(
    alloc: Global,
    topics: &PlacedNames,
    endpoint: &Value,
) -> Result<EndpointKeys, NoMemory> {
    let filter = filter_in(alloc, endpoint)?;
    let topic = match text_at(endpoint, "topic") {
        Some(topic) => topics.place(topic),
        None => None,
    };
    Ok(EndpointKeys { topic, filter })
}

fn endpoint_keys_in(
    alloc: Global,
    topics: &PlacedNames,
    document: &Table,
    side: Side,
) -> Result<Vec<EndpointKeys>, NoMemory> {
    let mut all = Vec::new(alloc);
    for endpoint in entries_of(document, side.section().key()) {
        let keys = keys_of_endpoint(alloc, topics, endpoint)?;
        all.push(keys)?;
    }
    Ok(all)
}

fn add_texts(
    alloc: Global,
    all: &mut PlacedNames,
    values: &[Value],
    place: usize,
) -> Result<(), NoMemory> {
    for value in values {
        if let Some(text) = value.as_str() {
            all.add(alloc, text, place)?;
        }
    }
    Ok(())
}

fn list_at<'a>(entry: &'a Value, key: &str) -> &'a [Value] {
    match entry.as_table() {
        Some(table) => entries_of(table, key),
        None => &[],
    }
}

fn owners_in(alloc: Global, document: &Table, side: Side) -> Result<PlacedNames, NoMemory> {
    let mut owners = PlacedNames::new(alloc);
    for (place, application) in entries_of(document, "applications").iter().enumerate() {
        let listed = list_at(application, side.section().key());
        add_texts(alloc, &mut owners, listed, place)?;
    }
    Ok(owners)
}

fn endpoints_in(
    alloc: Global,
    topics: &PlacedNames,
    document: &Table,
    side: Side,
) -> Result<EndpointNames, NoMemory> {
    let keys = endpoint_keys_in(alloc, topics, document, side)?;
    let owners = owners_in(alloc, document, side)?;
    Ok(EndpointNames { keys, owners })
}

/// The names that a deployment has.
pub(crate) fn names_of_deployment(alloc: Global, document: &Table) -> Result<KnownNames, NoMemory> {
    let topics = names_in(alloc, document, Named::Topics)?;
    let sections = all_names_in(alloc, document)?;
    let topic_keys = topic_keys_in(alloc, document)?;
    let writers = endpoints_in(alloc, &topics, document, Side::Writers)?;
    let readers = endpoints_in(alloc, &topics, document, Side::Readers)?;
    Ok(KnownNames {
        sections,
        topic_keys,
        writers,
        readers,
        none: PlacedNames::new(alloc),
    })
}

fn listed_names(alloc: Global, names: &Names) -> Result<PlacedNames, NoMemory> {
    let mut all = PlacedNames::new(alloc);
    for number in 0..names.len() {
        all.add(alloc, names.name(number), number)?;
    }
    Ok(all)
}

fn names_for(
    alloc: Global,
    lists: &Deployment,
    document: &Table,
    section: Named,
) -> Result<PlacedNames, NoMemory> {
    match section {
        Named::Topics => listed_names(alloc, lists.topic_names()),
        Named::Writers => listed_names(alloc, lists.writer_names()),
        Named::Readers => listed_names(alloc, lists.reader_names()),
        _ => names_in(alloc, document, section),
    }
}

fn all_names_for(
    alloc: Global,
    lists: &Deployment,
    document: &Table,
) -> Result<Vec<PlacedNames>, NoMemory> {
    let mut all = Vec::new(alloc);
    for section in &SECTIONS {
        let names = names_for(alloc, lists, document, *section)?;
        all.push(names)?;
    }
    Ok(all)
}

fn topic_keys_for(alloc: Global, lists: &Deployment) -> Result<Vec<PlacedNames>, NoMemory> {
    let mut all = Vec::new(alloc);
    for topic in 0..lists.topics() {
        let keys = listed_names(alloc, lists.keys(TopicNo::new(topic)))?;
        all.push(keys)?;
    }
    Ok(all)
}

fn writers_for(alloc: Global, lists: &Deployment) -> Result<EndpointNames, NoMemory> {
    let mut keys = Vec::new(alloc);
    for writer in 0..lists.writers() {
        let topic = lists.writer(WriterNo::new(writer)).topic.number();
        keys.push(EndpointKeys {
            topic: Some(topic),
            filter: None,
        })?;
    }
    Ok(EndpointNames {
        keys,
        owners: PlacedNames::new(alloc),
    })
}

fn filter_for(
    alloc: Global,
    lists: &Deployment,
    topic: TopicNo,
    filter: &[KeyNo],
) -> Result<PlacedNames, NoMemory> {
    let mut keys = PlacedNames::new(alloc);
    for (place, key) in filter.iter().enumerate() {
        keys.add(alloc, lists.key_name(topic, *key), place)?;
    }
    Ok(keys)
}

fn readers_for(alloc: Global, lists: &Deployment) -> Result<EndpointNames, NoMemory> {
    let mut keys = Vec::new(alloc);
    for number in 0..lists.readers() {
        let reader = lists.reader(ReaderNo::new(number));
        let filter = filter_for(alloc, lists, reader.topic, &reader.filter)?;
        keys.push(EndpointKeys {
            topic: Some(reader.topic.number()),
            filter: Some(filter),
        })?;
    }
    Ok(EndpointNames {
        keys,
        owners: PlacedNames::new(alloc),
    })
}

/// The names that a certificate may use: its own rows, and the endpoints of its deployment with their keys.
pub(crate) fn names_of_certificate(
    alloc: Global,
    lists: &Deployment,
    document: &Table,
) -> Result<KnownNames, NoMemory> {
    let sections = all_names_for(alloc, lists, document)?;
    let topic_keys = topic_keys_for(alloc, lists)?;
    let writers = writers_for(alloc, lists)?;
    let readers = readers_for(alloc, lists)?;
    Ok(KnownNames {
        sections,
        topic_keys,
        writers,
        readers,
        none: PlacedNames::new(alloc),
    })
}
