//! The order of places.
ghost use Rattle.std.specs.Prelude.{◌≡◌, IfOk};
ghost use Rattle.dds_weights.specs.Order.{in_order};

use crate::certificate::Weight;
use dds_base::{Endpoint, NoMemory, Numbered};

/// The weights in the order of endpoints and then of keys, in which each is found by halving. Weights of one endpoint
/// and key stay in the order that they have. `NoMemory` comes where there's none for the sort of more than 20.
pub fn in_order<E: Endpoint>(weights: Vec<Weight<E>>) -> Result<Vec<Weight<E>>, NoMemory>
    ensures { IfOk result (λ v. v.items ≡ in_order E.number_of weights.items) }
{
    let mut weights = weights;
    weights.sort_by_key(|x| x.number())?;
    Ok(weights)
}
