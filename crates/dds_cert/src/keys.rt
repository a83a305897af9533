//! The fields that name an endpoint and its keys.
ghost use Rattle.std.specs.Prelude.{◌≡◌, ◌<◌, List, ℕ, length, codes, true, IfOk};
ghost use Rattle.toml.specs.Data.{Members};
ghost use Rattle.toml.specs.View.{view, table_view};
ghost use Rattle.dds_lists.specs.Lists.{all_keys};
ghost use Rattle.dds_lists.specs.WellFormed.{filter_at};
ghost use Rattle.dds_match.specs.Plan.{hears};
ghost use Rattle.dds_weights.specs.Fits.{keys_differ};
ghost use Rattle.dds_fields.specs.Reading.{Read as Reading, field, a_known_name};
ghost use Rattle.dds_fields.specs.Gives.{Gives};
ghost use Rattle.dds_fields.specs.Places.{place_text};
ghost use Rattle.dds_cert.specs.Keys.{heard_key, a_heard_key, one_key, keys_of_entry, reader_and_keys};
ghost use Rattle.dds_cert.specs.Keys.{writer_and_keys};

use dds_base::{Endpoint, KeyNo, Names, NoMemory, ReaderNo, WriterNo};
use dds_fields::fault::{FaultKind, ReadFault, refuse};
use dds_fields::field::{known_name_field, known_name_of, name_of, require, value_at};
use dds_fields::place::Place;
use dds_lists::Deployment;
use dds_text::names::{keys_of_reader, keys_of_writer};
use std::alloc::Global;
use toml::{Table, Value};

fn is_in_filter(lists: &Deployment, reader: ReaderNo, key: KeyNo) -> bool
    requires { reader < length lists.now.readers.entries }
    ensures { result ≡ hears lists.now reader key }
{
    lists.reader(reader).filter.iter().any(|k| *k == key)
}

fn heard_key(lists: &Deployment, reader: ReaderNo, name: &str) -> Option<KeyNo>
    requires { reader < length lists.now.readers.entries }
    ensures { result ≡ heard_key lists.now reader name.now }
{
    let key = KeyNo::new(keys_of_reader(lists, reader).number(name)?);
    if is_in_filter(lists, reader, key) {
        Some(key)
    } else {
        None
    }
}

#[tactic(auto, unfolding(crate::specs::Keys::a_heard_key))]
fn heard_key_of(
    alloc: Global,
    lists: &Deployment,
    reader: ReaderNo,
    path: &Place,
    value: &Value,
) -> Result<KeyNo, ReadFault>
    requires { reader < length lists.now.readers.entries }
    ensures { Gives (λ k. k) result (a_heard_key lists.now reader (place_text path.now) (view value.now)) }
{
    let name = name_of(alloc, path, value)?;
    match heard_key(lists, reader, name) {
        Some(key) => Ok(key),
        None => Err(refuse(alloc, FaultKind::UnknownName, path)),
    }
}

#[tactic(auto, unfolding(crate::specs::Keys::one_key))]
fn one_heard_key(
    alloc: Global,
    lists: &Deployment,
    reader: ReaderNo,
    path: &Place,
    value: &Value,
) -> Result<Vec<KeyNo>, ReadFault>
    requires { reader < length lists.now.readers.entries }
    ensures { Gives (λ v. v.items) result
        (one_key (a_heard_key lists.now reader) (place_text path.now) (view value.now)) }
{
    let key = heard_key_of(alloc, lists, reader, path, value)?;
    Ok(Vec::from_slice(alloc, &[key])?)
}

fn filter_of(alloc: Global, lists: &Deployment, reader: ReaderNo) -> Result<Vec<KeyNo>, NoMemory>
    requires { reader < length lists.now.readers.entries }
    ensures { IfOk result (λ v. v.items ≡ filter_at lists.now.readers reader) }
{
    Vec::from_slice(alloc, &lists.reader(reader).filter)
}

// The keys of the reader's filter that an entry stands for.
#[tactic(auto, unfolding(crate::specs::Keys::keys_of_entry, crate::specs::Keys::field, crate::specs::Keys::optional))]
fn heard_keys(
    alloc: Global,
    version: u32,
    lists: &Deployment,
    reader: ReaderNo,
    path: &Place,
    table: &Table,
) -> Result<Vec<KeyNo>, ReadFault>
    requires { reader < length lists.now.readers.entries }
    ensures { Gives (λ v. v.items) result
        (keys_of_entry version (filter_at lists.now.readers reader) (a_heard_key lists.now reader) (place_text path.now)
        (table_view table.now)) }
{
    let at = Place::Key {
        parent: path,
        key: "key",
    };
    if version == 1 {
        let value = require(alloc, &at, table, "key")?;
        return one_heard_key(alloc, lists, reader, &at, value);
    }
    match value_at(table, "key") {
        Some(value) => one_heard_key(alloc, lists, reader, &at, value),
        None => Ok(filter_of(alloc, lists, reader)?),
    }
}

#[tactic(auto, unfolding(crate::specs::Keys::one_key))]
fn one_known_key(
    alloc: Global,
    names: &Names,
    path: &Place,
    value: &Value,
) -> Result<Vec<KeyNo>, ReadFault>
    ensures { Gives (λ v. v.items) result (one_key (a_known_name names.now) (place_text path.now) (view value.now)) }
{
    let key = KeyNo::new(known_name_of(alloc, names, path, value)?);
    Ok(Vec::from_slice(alloc, &[key])?)
}

#[tactic(auto, using(dds_base::proofs::Ranges::range_push))]
fn every_key(alloc: Global, names: &Names) -> Result<Vec<KeyNo>, NoMemory>
    ensures { IfOk result (λ v. v.items ≡ all_keys names.now) }
{
    let mut keys = Vec::new(alloc);
    for n in 0..names.len() {
        keys.push(KeyNo::new(n))?;
    }
    Ok(keys)
}

// The keys with these names that an entry stands for.
#[tactic(auto, unfolding(crate::specs::Keys::keys_of_entry, crate::specs::Keys::field, crate::specs::Keys::optional))]
fn known_keys(
    alloc: Global,
    version: u32,
    names: &Names,
    path: &Place,
    table: &Table,
) -> Result<Vec<KeyNo>, ReadFault>
    ensures { Gives (λ v. v.items) result
        (keys_of_entry version (all_keys names.now) (a_known_name names.now) (place_text path.now)
        (table_view table.now)) }
{
    let at = Place::Key {
        parent: path,
        key: "key",
    };
    if version == 1 {
        let value = require(alloc, &at, table, "key")?;
        return one_known_key(alloc, names, &at, value);
    }
    match value_at(table, "key") {
        Some(value) => one_known_key(alloc, names, &at, value),
        None => Ok(every_key(alloc, names)?),
    }
}

/// The reader that an entry names.
pub(crate) fn reader_field(
    alloc: Global,
    lists: &Deployment,
    path: &Place,
    table: &Table,
) -> Result<ReaderNo, ReadFault>
    ensures gives { Gives (λ r. r) result
        (field (codes "reader") (a_known_name lists.now.readers.names) (place_text path.now) (table_view table.now)) }
    ensures within { IfOk result (λ r. r < length lists.now.readers.entries) }
{
    // Each name has a reader.
    lists.assert_well_formed();
    let number = known_name_field(alloc, lists.reader_names(), path, table, "reader")?;
    Ok(ReaderNo::new(number))
}

fn writer_field(
    alloc: Global,
    lists: &Deployment,
    path: &Place,
    table: &Table,
) -> Result<WriterNo, ReadFault>
    ensures gives { Gives (λ w. w) result
        (field (codes "writer") (a_known_name lists.now.writers.names) (place_text path.now) (table_view table.now)) }
    ensures within { IfOk result (λ w. w < length lists.now.writers.entries) }
{
    // Each name has a writer.
    lists.assert_well_formed();
    let number = known_name_field(alloc, lists.writer_names(), path, table, "writer")?;
    Ok(WriterNo::new(number))
}

/// What reads the fields that name an endpoint of one kind and keys of its own.
pub(crate) trait EndpointFields {
    /// The number of such an endpoint.
    type Number: Endpoint;

    // how a file calls one of them
    ghost word: { List ℕ };

    ghost endpoint_and_keys: { Self → List ℕ → Members → Reading (Self.Number × List ℕ) };

    /// How a file calls one of them.
    fn word() -> &'static str
        ensures { result.now ≡ word };

    /// The endpoint that an entry names, and those of its keys that the entry stands for: the one that it names, and
    /// from version 2 on, where it names none, all of them in their order.
    fn endpoint_and_keys(
        &self,
        alloc: Global,
        path: &Place,
        table: &Table,
    ) -> Result<(Self::Number, Vec<KeyNo>), ReadFault>
        ensures gives { Gives
            (λ e. (e.0, e.1.items)) result (endpoint_and_keys self.now (place_text path.now) (table_view table.now)) }
        ensures distinct { IfOk result (λ e. keys_differ e.1.items ≡ true) };
}

/// What reads the fields for a reader and keys of its filter, in a file of this version.
#[derive(Clone, Copy)]
pub(crate) struct ReaderFields<'a> {
    pub(crate) version: u32,
    pub(crate) lists: &'a Deployment,
}

impl EndpointFields for ReaderFields<'_> {
    type Number = ReaderNo;

    ghost word = { codes "reader" };

    ghost endpoint_and_keys = { λ it. reader_and_keys it.version it.lists.now };

    fn word() -> &'static str
        ensures { result.now ≡ codes "reader" }
    {
        "reader"
    }

    #[tactic(auto, unfolding(crate::specs::Keys::reader_and_keys))]
    fn endpoint_and_keys(
        &self,
        alloc: Global,
        path: &Place,
        table: &Table,
    ) -> Result<(ReaderNo, Vec<KeyNo>), ReadFault> {
        // No filter names a key twice.
        self.lists.assert_well_formed();
        let reader = reader_field(alloc, self.lists, path, table)?;
        let keys = heard_keys(alloc, self.version, self.lists, reader, path, table)?;
        Ok((reader, keys))
    }
}

/// What reads the fields for a writer and keys of its topic, in a file of this version.
#[derive(Clone, Copy)]
pub(crate) struct WriterFields<'a> {
    pub(crate) version: u32,
    pub(crate) lists: &'a Deployment,
}

impl EndpointFields for WriterFields<'_> {
    type Number = WriterNo;

    ghost word = { codes "writer" };

    ghost endpoint_and_keys = { λ it. writer_and_keys it.version it.lists.now };

    fn word() -> &'static str
        ensures { result.now ≡ codes "writer" }
    {
        "writer"
    }

    #[tactic(auto, unfolding(crate::specs::Keys::writer_and_keys))]
    fn endpoint_and_keys(
        &self,
        alloc: Global,
        path: &Place,
        table: &Table,
    ) -> Result<(WriterNo, Vec<KeyNo>), ReadFault> {
        let writer = writer_field(alloc, self.lists, path, table)?;
        let names = keys_of_writer(self.lists, writer);
        let keys = known_keys(alloc, self.version, names, path, table)?;
        Ok((writer, keys))
    }
}
