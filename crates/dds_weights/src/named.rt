//! What a list names: whether an endpoint and key stand twice in it, found in one pass by a table on the stack, and
//! whether totals name a reader.
ghost use Rattle.std.specs.Prelude.{◌≡◌, ◌==◌, ◌&&◌, All};
ghost use Rattle.dds_weights.specs.Fits.{is_distinct, same_bound_place};
ghost use Rattle.dds_weights.specs.Named.{IsWithin, bound_place, has_total};

use crate::certificate::{Bound, Total, Weight};
use dds_base::grid::{KEYS, PLACES};
use dds_base::{Endpoint, ReaderNo};

/// Whether no two of the weights are of one endpoint and key.
pub(crate) fn weights_name_nothing_twice<E: Endpoint>(weights: &[Weight<E>]) -> bool
    requires { All (λ x. IsWithin (E.number_of x.endpoint, x.key)) weights.now }
    ensures { result ≡ is_distinct
        (λ x y. (E.number_of y.endpoint == E.number_of x.endpoint) && (y.key == x.key)) weights.now }
{
    let mut seen = [false; PLACES];
    for weight in weights {
        let place = weight.endpoint.place() * KEYS + weight.key.number();
        if seen[place] {
            return false;
        }
        seen[place] = true;
    }
    true
}

/// Whether no two of the bounds are of one reader and key.
pub(crate) fn bounds_name_nothing_twice(bounds: &[Bound]) -> bool
    requires { All (λ b. IsWithin (bound_place b)) bounds.now }
    ensures { result ≡ is_distinct same_bound_place bounds.now }
{
    let mut seen = [false; PLACES];
    for bound in bounds {
        let place = bound.reader.number() * KEYS + bound.key.number();
        if seen[place] {
            return false;
        }
        seen[place] = true;
    }
    true
}

/// Whether one of the totals is of the reader.
pub fn has_total(totals: &[Total], reader: ReaderNo) -> bool
    ensures { result ≡ has_total totals.now reader }
{
    totals.iter().any(|t| reader == t.reader)
}
