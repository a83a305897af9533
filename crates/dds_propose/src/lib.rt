//! The proposer: it looks for a certificate of a plan. What it gives fits the plan and is accepted, so that the
//! deployment is safe, since the checker is asked at the end; nothing else is trusted. It is also the certificate of
//! the definition, in `specs`: its rows are where the rounds come to rest. That it finds a certificate where one exists
//! isn't promised, nor that its bounds are the least.
//!
//! For each limit of a reader it makes one row: the samples that count against the limit weigh 5040, and the other
//! weights rise, round by round, until no write, no firing of a rule and no take can raise the weighted sum. Where caps
//! bound what is in flight to a reader, they carry it: takes of it get no weight, and permits none for it.
#![tactic(auto)]

mod bounds;
mod listing;
mod needs;
mod proposer;
mod rounds;
pub mod targets;
mod weights;

pub use proposer::propose;
