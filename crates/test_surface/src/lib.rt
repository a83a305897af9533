//! The public calls and types, each under the crate whose subject it is. A name that moves to another crate, or goes,
//! is an error here before a user meets it.
#![tactic(auto)]

pub mod apps;
pub mod checker;
pub mod endpoints;
pub mod files;
