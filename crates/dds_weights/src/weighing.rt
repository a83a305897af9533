//! The weights of a list by endpoint and key.
ghost use Rattle.std.specs.Prelude.{◌≡◌};
ghost use Rattle.dds_weights.specs.Weighing.{weight_by};

use crate::certificate::Weight;
use dds_base::grid::{ENDPOINTS, KEYS};
use dds_base::{Endpoint, KeyNo, are_rising, place_of};
use std::marker::Model;

/// The weight of a key of an endpoint in a list of weights, 0 where none is named: the first counts. Each call goes
/// over the list.
pub fn find_weight<E: Endpoint>(weights: &[Weight<E>], endpoint: E, key: KeyNo) -> u32
    ensures { result ≡ weight_by E.number_of weights.now (E.number_of endpoint) key }
{
    for x in weights {
        if x.endpoint.place() == endpoint.place() && x.key == key {
            return x.weight;
        }
    }
    0
}

/// A list of weights, and whether it has the order of endpoints and then of keys, as the lists of a certificate file
/// have once they're read. Contracts see it as the list.
#[derive(Drop)]
pub struct Table<'a, E: Endpoint> {
    entries: &'a [Weight<E>],
    rising: bool,
}

impl<'a, E: Endpoint> Model for Table<'a, E> {
    ghost use Rattle.std.specs.Prelude.{List, IsTrue};
    ghost use Rattle.dds_base.specs.Numbered.{AreRising};
    ghost use Rattle.dds_weights.specs.declared.certificate.Weight.{Weight};
    ghost use Rattle.dds_weights.specs.Places.{weight_number};

    ghost Value = { List (Weight E) };

    ghost view = { λ t. t.entries.now };

    ghost invariant = { λ t. IsTrue t.rising → AreRising (weight_number E.number_of) t.entries.now };
}

impl<'a, E: Endpoint> Table<'a, E> {
    /// The table of a list of weights. Of entries for one endpoint and key the first counts.
    pub fn new(entries: &'a [Weight<E>]) -> Table<'a, E>
        ensures { result ≡ entries.now }
    {
        Table {
            entries,
            rising: are_rising(entries),
        }
    }

    /// The weight of a key of an endpoint, 0 where none is named. In an ordered list it is found by halving, in another
    /// by a walk.
    pub fn at(&self, endpoint: E, key: KeyNo) -> u32
        ensures { result ≡ weight_by E.number_of self.now (E.number_of endpoint) key }
    {
        let e = endpoint.place();
        let k = key.number();
        if e < ENDPOINTS && k < KEYS {
            match place_of(self.entries, self.rising, e * KEYS + k) {
                Some(at) => self.entries[at].weight,
                None => 0,
            }
        } else {
            find_weight(self.entries, endpoint, key)
        }
    }
}
