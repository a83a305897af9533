//! Texts that several layers write: the names of a deployment, the words of its policies, and texts joined from others.
#![tactic(auto)]

pub mod names;
pub mod texts;
pub mod words;
