//! Parts of the answer to a certificate, for a search that doesn't need the whole of it: whether the rows show their
//! bounds, and the first condition that no certificate can change.
#![tactic(auto)]

mod claims;

pub use claims::{shows, structure_no};
