//! The places of weights and bounds, whose numbers rise in a list that has the order of endpoints and then of keys.
ghost use Rattle.std.specs.Prelude.{◌≡◌};
ghost use Rattle.dds_weights.specs.Places.{place_number, weight_number, bound_number};

use crate::certificate::{Bound, Weight};
use dds_base::grid::{ENDPOINTS, KEYS, PLACES};
use dds_base::{Endpoint, KeyNo, Numbered};

/// The number of the place of a key of an endpoint: 0 to 16,383, and 16,384 where it has none.
pub fn place_number(endpoint: usize, key: KeyNo) -> usize
    ensures { result ≡ place_number endpoint key }
{
    if endpoint < ENDPOINTS && key.number() < KEYS {
        endpoint * KEYS + key.number()
    } else {
        PLACES
    }
}

impl<E: Endpoint> Numbered for Weight<E> {
    ghost number_of = { weight_number E.number_of };

    fn number(&self) -> usize {
        place_number(self.endpoint.place(), self.key)
    }
}

impl Numbered for Bound {
    ghost number_of = { bound_number };

    fn number(&self) -> usize {
        place_number(self.reader.number(), self.key)
    }
}
