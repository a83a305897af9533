//! Lists that name each key of an endpoint once at most.
ghost use Rattle.std.specs.Prelude.{◌≡◌, ◌+◌, ◌++◌, ◌∷◌, [], ℕ, length, map, nat_le, false, IfOk};
ghost use Rattle.dds_base.specs.Grid.{most_places};
ghost use Rattle.dds_base.specs.Pairs.{stands};
ghost use Rattle.dds_fields.specs.Gives.{Gives};
ghost use Rattle.dds_fields.specs.Places.{place_text};
ghost use Rattle.dds_cert.specs.Adding.{any_stands, may_add};

use dds_base::grid::PLACES;
use dds_base::{KeyNo, NoMemory, Pairs};
use dds_fields::fault::{FaultKind, ReadFault, refuse};
use dds_fields::place::Place;
use std::alloc::Global;

fn any_stands(named: &Pairs, endpoint: usize, keys: &[KeyNo]) -> bool
    ensures { result ≡ any_stands named.now endpoint keys.now }
{
    keys.iter()
        .any(|key| named.contains(endpoint, key.number()))
}

// Whether so many may stand together.
fn has_room(before: usize, more: usize) -> bool
    ensures { result ≡ nat_le (before + more) most_places }
{
    before <= PLACES && more <= PLACES - before
}

/// What is of one key of an endpoint.
pub(crate) trait Placed: Copy {
    // the endpoint and the key
    ghost place: { Self → ℕ × ℕ };

    /// The endpoint's number, and the key's.
    fn place(self) -> (usize, usize)
        ensures { result ≡ place self };
}

/// A list that has each key of an endpoint once at most, in the order in which its items were added.
#[derive(Drop)]
pub(crate) struct NamedOnce<T: Placed> {
    named: Pairs,
    pub(crate) items: Vec<T>,
    ghost places: { named ≡ map T.place items.items },
}

impl<T: Placed> NamedOnce<T> {
    pub(crate) fn new(alloc: Global) -> NamedOnce<T>
        ensures { result.items.items ≡ [] }
    {
        NamedOnce {
            named: Pairs::new(alloc),
            items: Vec::new(alloc),
        }
    }

    /// Whether the endpoint may be named with these keys too: Duplicate at the entry where one of the pairs stands
    /// already, then TooMany at the list.
    #[tactic(auto, unfolding(crate::specs::Adding::may_add))]
    pub(crate) fn may_add(
        &self,
        alloc: Global,
        list: &Place,
        path: &Place,
        endpoint: usize,
        keys: &[KeyNo],
    ) -> Result<(), ReadFault>
        ensures gives { Gives
            (λ u. u) result (may_add (place_text list.now) (place_text path.now)
            (any_stands (map T.place self.now.items.items) endpoint keys.now)
            (length self.now.items.items + length keys.now)) }
        ensures new { IfOk result (λ _. any_stands (map T.place self.now.items.items) endpoint keys.now ≡ false) }
    {
        if any_stands(&self.named, endpoint, keys) {
            return Err(refuse(alloc, FaultKind::Duplicate, path));
        }
        if has_room(self.items.len(), keys.len()) {
            Ok(())
        } else {
            Err(refuse(alloc, FaultKind::TooMany, list))
        }
    }

    /// Adds an item whose key of its endpoint is not named yet. Fails only where no memory is left.
    pub(crate) fn push(&mut self, item: T) -> Result<(), NoMemory>
        requires { stands (map T.place self.old.items.items) (T.place item).0 (T.place item).1 ≡ false }
        ensures { IfOk result (λ _. self.new.items.items ≡ self.old.items.items ++ item ∷ []) }
    {
        let (endpoint, key) = item.place();
        self.items.reserve(1)?;
        self.named.push(endpoint, key)?;
        self.items.push_reserved(item);
        Ok(())
    }
}
