//! The world of runs: what the events of a deployment do, what an accepted certificate is, and why it is safe in each
//! of them. Nothing of it runs: code that does keeps to these definitions by its contracts.
#![tactic(auto)]

pub mod laws;
