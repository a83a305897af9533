//! The rule ledger: what the rules of a plan let its applications write. It counts for each writer and key the permits
//! to write, and for each reader and key the takes that no rule has spent.
//!
//! The layer above sees two tables of counts. `open` gives the permits of the rules' starts and no takes; a take adds
//! one unspent take, the firing of a rule spends what the rule takes and gives permits for what it writes, and a write
//! uses one permit. A refusal stands exactly where its condition holds and changes nothing. After `open` no call takes
//! memory, and each takes constant time, or time in the length of the rule.
#![tactic(auto)]

mod counts;
mod exchange;
pub mod ledger;
pub mod refused;

pub use ledger::Ledger;
pub use refused::{CountLimit, FireRefused, NoPermit};
