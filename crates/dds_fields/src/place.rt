//! Where a value stands in a document.
#![tactic(auto)]

ghost use Rattle.std.specs.Prelude.{◌≡◌, IfOk, string_bytes};
ghost use Rattle.dds_fields.specs.Places.{place_text};

use crate::path::{index_path, key_path};
use dds_base::NoMemory;
use std::alloc::Global;

/// A place, as the steps from the document to it.
#[derive(Clone, Copy)]
pub enum Place<'a> {
    Root,
    Key { parent: &'a Place<'a>, key: &'a str },
    Index { parent: &'a Place<'a>, index: usize },
}

/// The text of a place.
pub fn place_string(alloc: Global, place: &Place) -> Result<String, NoMemory>
    ensures { IfOk result (λ s. string_bytes s ≡ place_text place.now) }
{
    match place {
        Place::Root => Ok(String::new(alloc)),
        Place::Key { parent, key } => {
            let before = place_string(alloc, parent)?;
            key_path(alloc, before.as_str(), key)
        }
        Place::Index { parent, index } => {
            let before = place_string(alloc, parent)?;
            index_path(alloc, before.as_str(), *index)
        }
    }
}
