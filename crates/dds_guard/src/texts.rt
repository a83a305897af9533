//! Names that are found by their bytes.
ghost use Rattle.std.specs.Prelude.{◌≡◌, ◌<◌, IfOk, IfSome, length, position, string_bytes};
ghost use Rattle.std.specs.Str.{bytes_eq};
ghost use Rattle.dds_base.specs.Names.{number_of};

use dds_base::{Names, NoMemory};
use std::alloc::Global;
use std::marker::Model;

/// Names in the order of their numbers. A name is looked for from the first on.
#[derive(Drop)]
pub(crate) struct Texts {
    texts: Vec<String>,
}

impl Model for Texts {
    ghost use Rattle.std.specs.Prelude.{ℕ, List, map, string_bytes};

    ghost Value = { List (List ℕ) };

    ghost view = { λ t. map string_bytes t.texts.items };
}

impl Texts {
    /// A copy of these names.
    pub(crate) fn of(alloc: Global, names: &Names) -> Result<Texts, NoMemory>
        ensures { IfOk result (λ t. t ≡ names.now) }
    {
        let mut texts = Vec::with_capacity(alloc, names.len())?;
        for n in 0..names.len() {
            texts.push(String::from_str(alloc, names.name(n))?)?;
        }
        Ok(Texts { texts })
    }

    /// The number of a name, `None` where there is no such name.
    pub(crate) fn number(&self, name: &[u8]) -> Option<usize>
        ensures value { result ≡ number_of self.now name.now }
        ensures within { IfSome result (λ n. n < length self.now) }
    {
        place_of(&self.texts, name)
    }
}

/// The place of the first text with these bytes.
fn place_of(texts: &[String], name: &[u8]) -> Option<usize>
    ensures value { result ≡ position (λ t. bytes_eq name.now (string_bytes t)) texts.now }
    ensures within { IfSome result (λ n. n < length texts.now) }
{
    texts.iter().position(|text| name == text.as_bytes())
}
