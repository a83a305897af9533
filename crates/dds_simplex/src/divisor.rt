//! Greatest common divisors.
ghost use Rattle.std.specs.Int.{IsGcd};

/// The greatest common divisor, the other number where one is 0.
pub fn common_divisor(first: u128, second: u128) -> u128
    ensures { IsGcd first second result }
{
    let mut greater = first;
    let mut rest = second;
    while rest > 0 {
        let next = greater % rest;
        greater = rest;
        rest = next;
    }
    greater
}
