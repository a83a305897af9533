//! What checks and proposes certificates, and keeps the counts of rules.

pub use dds_check::accepts::accepts;
pub use dds_check::{Checked, No, check};
pub use dds_propose::propose;
pub use dds_rules::{CountLimit, FireRefused, Ledger, NoPermit};
