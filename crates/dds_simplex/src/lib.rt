//! The greatest value of a sum of variables that are not below 0, under linear conditions, by the simplex method. It
//! computes in fractions of whole numbers of 128 bits, each operation checked: where one would overflow it gives up, so
//! that what it answers was never rounded.
//!
//! Nothing of a yes rests on its answers: who uses them checks what they are to show. It is proved to be safe and to
//! end, that what is added to a line is added exactly, that values which the lines allow are allowed after each pivot
//! too and give the sum the same value, and that no values of which none is below 0 give it a greater one than where a
//! climb ends.
#![tactic(auto)]

mod dictionary;
mod divisor;
mod keeping;
mod line;

pub use dictionary::{Dictionary, End, Stop, Variable};
pub use divisor::common_divisor;
pub use line::Line;
