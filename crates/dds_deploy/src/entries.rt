//! Sections of entries under names.
ghost use Rattle.std.specs.Prelude.{◌≡◌, List, ℕ, map};
ghost use Rattle.toml.specs.Data.{Members};
ghost use Rattle.toml.specs.View.{table_view};
ghost use Rattle.dds_base.specs.Section.{Listed, listed, nothing};
ghost use Rattle.dds_fields.specs.Gives.{Gives};
ghost use Rattle.dds_fields.specs.Places.{place_text};
ghost use Rattle.dds_fields.specs.Reading.{Read as Reading, a_section};
ghost use Rattle.dds_deploy.specs.Entries.{one_more};

use dds_base::Section;
use dds_fields::fault::ReadFault;
use dds_fields::field::{entry, new_name_field};
use dds_fields::items::{Items, section_of};
use dds_fields::place::Place;
use std::alloc::Global;
use toml::{Table, Value};

/// What reads the entries of one section.
pub(crate) trait Entries {
    /// What an entry is but for its name.
    type Entry: Drop;

    // what that stands for
    ghost View: { Type 0 };

    ghost view: { Self.Entry → View };

    // the keys that an entry may have
    ghost keys: { Self → List (List ℕ) };

    // what the fields but the name give, after the entries before
    ghost fields: { Self → Listed View → List ℕ → Members → Reading View };

    /// The keys that an entry may have.
    fn keys(&self) -> &'static [&'static str]
        ensures { map (λ key. key.now) result.now ≡ keys self.now };

    /// The fields of an entry but its name, after the entries before it.
    fn fields(
        &self,
        alloc: Global,
        before: &Section<Self::Entry>,
        path: &Place,
        table: &Table,
    ) -> Result<Self::Entry, ReadFault>
        ensures { Gives view result
            (fields self.now (listed view before.now) (place_text path.now) (table_view table.now)) };
}

// What reads the entries as the items of a list.
#[derive(Clone, Copy)]
struct EntryItems<'a, E> {
    entries: &'a E,
}

impl<E: Entries> Items for EntryItems<'_, E> {
    type Read = Section<E::Entry>;

    ghost State = { Listed E.View };

    ghost state = { λ all. listed E.view all };

    ghost step = { λ it. one_more (E.keys it.entries.now) (E.fields it.entries.now) };

    #[tactic(auto, unfolding(crate::specs::Entries::one_more))]
    fn add(
        &self,
        alloc: Global,
        all: &mut Section<E::Entry>,
        path: &Place,
        value: &Value,
    ) -> Result<(), ReadFault> {
        let table = entry(alloc, self.entries.keys(), path, value)?;
        let name = new_name_field(alloc, &all.names, path, table, "name")?;
        let entry = self.entries.fields(alloc, all, path, table)?;
        all.push(alloc, name, entry)?;
        Ok(())
    }
}

/// The section at a key of the document, of at most `limit` entries, or its first fault. An absent section has none.
pub(crate) fn section<E: Entries>(
    alloc: Global,
    limit: usize,
    entries: &E,
    table: &Table,
    key: &str,
) -> Result<Section<E::Entry>, ReadFault>
    ensures { Gives (listed E.view) result
        (a_section key.now limit (one_more (E.keys entries.now) (E.fields entries.now)) nothing
        (table_view table.now)) }
{
    let items = EntryItems { entries };
    section_of(alloc, limit, &items, Section::new(alloc), table, key)
}
