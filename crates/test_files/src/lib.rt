//! The files that several crates of tests read: deployments with their certificates, what is proposed for them, and
//! deployments that are drawn; and the plans and checked deployments of such files.
#![tactic(auto)]

pub mod dice;
pub mod drawn;
pub mod plans;
pub mod proposed;
pub mod texts;
