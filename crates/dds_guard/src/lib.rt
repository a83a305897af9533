//! A guard keeps the rules of a deployment for one of its applications. It counts what the application takes, and lets
//! it write what its rules allow: a write uses a permit, and where none is left the first rule that can give one is
//! fired. The last write that used a permit can be taken back, if DDS refuses it.
//!
//! A guard stands beside the application's own calls of DDS: it touches no DDS and keeps no sample. What other
//! applications do is no part of it, since rules name endpoints of their own application alone. After `open` no call
//! takes memory.
#![tactic(auto)]

mod account;
mod filters;
pub mod guard;
pub mod laws;
mod names;
pub mod opening;
pub mod refused;
mod rules;
mod texts;
mod writing;

pub use guard::Guard;
pub use opening::open;
pub use refused::{FiringRefused, OpenFault, TakeRefused, UndoRefused, WriteRefused};
