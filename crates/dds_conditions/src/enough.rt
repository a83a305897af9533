//! Whether a row shows a bound.
ghost use Rattle.std.specs.Prelude.{◌≡◌, ◌&&◌, ◌*◌, suc, nat_lt};

/// Whether a row shows a bound: one sample more than the bound, each of this weight, would weigh more than the budget
/// of the row. A weight of 0 shows none.
pub fn is_enough(weight: u32, budget: u128, bound: u32) -> bool
    ensures { result ≡ (nat_lt 0 weight && nat_lt budget (suc bound * weight)) }
{
    let weight = u128::from(weight);
    0 < weight && budget < (u128::from(bound) + 1) * weight
}
