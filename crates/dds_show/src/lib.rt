//! A deployment as it was read, for other programs, and the words for its policies and for why endpoints don't match.
#![tactic(auto)]

pub mod connections;
mod entries;
mod json;
pub mod pieces;
mod policies;
pub mod reasons;
pub mod times;

pub use json::deployment_json;
