//! The places of a TOML text, by the paths that lead to them.
ghost use Rattle.std.specs.Prelude.{◌≡◌, ◌≤◌, ℕ, IfOk, length};
ghost use Rattle.dds_locate.specs.Found.{IsFoundIn};

use crate::span::Span;
use crate::walk::Walk;
use dds_base::NoMemory;
use indexmap::IndexMap;
use std::alloc::Global;
use std::marker::Model;

/// What stands where a path leads.
#[derive(Clone, Copy, Debug, PartialEq, Eq)]
pub struct Found {
    /// The name before a value, the header of a table, or the element of an array.
    pub name: Span,
    /// The value after the name: a word or a text whole, of an array or a table the bracket that opens it. Of a header
    /// it's the header, and of a name on the way to another it's the name.
    pub value: Span,
    /// Whether the path leads here, and not just past here.
    pub is_exact: bool,
}

/// What stands at a path.
#[derive(Clone, Copy)]
pub(crate) struct Place {
    pub(crate) name: Span,
    pub(crate) value: Span,
}

/// The places of one text. A contract sees how many bytes the text has.
#[derive(Drop)]
pub struct Places {
    length: usize,
    places: IndexMap<Vec<u8>, Place>,
}

impl Model for Places {
    ghost Value = { ℕ };

    ghost view = { λ p. p.length };
}

/// The length of the path to the table or the array in which a path's last name or element stands.
fn outer(path: &[u8]) -> usize
    ensures { result ≤ length path.now }
{
    path.iter()
        .rposition(|byte| *byte == b'.' || *byte == b'[')
        .unwrap_or(0)
}

impl Places {
    /// What stands at exactly this path.
    fn place(&self, path: &[u8]) -> Option<Place> {
        self.places.get(path).copied()
    }

    /// Where a path leads, as the faults of files carry it: names with dots between them, and `[n]` for an element of
    /// an array, from 0. Where nothing stands there, it's the nearest place on the way, at last the text's beginning.
    pub fn find(&self, path: &str) -> Found
        ensures { IsFoundIn self.now result }
    {
        let bytes = path.as_bytes();
        let mut left = bytes.len();
        for _ in 0..bytes.len() {
            if let Some(place) = self.place(&bytes[..left]) {
                return self.found(place, left == bytes.len());
            }
            left = outer(&bytes[..left]);
            if left == 0 {
                break;
            }
        }
        let start = Span { start: 0, end: 0 };
        let beginning = Place {
            name: start,
            value: start,
        };
        self.found(beginning, bytes.is_empty())
    }

    fn found(&self, place: Place, is_exact: bool) -> Found
        ensures { IsFoundIn self.now result }
    {
        let Place { name, value } = place;
        Found {
            name: Span::within(self.length, name.start, name.end),
            value: Span::within(self.length, value.start, value.end),
            is_exact,
        }
    }
}

/// Goes through a TOML text once, and keeps what stands where. Of a path that stands twice the first counts, and one of
/// more than 1024 bytes isn't kept. In a text that is no TOML a place may be any. `NoMemory` is the only error.
pub fn read_places(alloc: Global, bytes: &[u8]) -> Result<Places, NoMemory>
    ensures { IfOk result (λ places. places ≡ length bytes.now) }
{
    let mut walk = Walk::new(alloc, bytes);
    match walk.walk() {
        Ok(()) => Ok(Places {
            length: bytes.len(),
            places: walk.finish(),
        }),
        Err(NoMemory) => {
            drop(walk);
            Err(NoMemory)
        }
    }
}
