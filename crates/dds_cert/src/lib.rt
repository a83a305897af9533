//! The certificate file. `read_certificate` gives the certificate that the bytes are, in either version, or the first
//! fault of the file with its path; what it gives fits the plan that it was read for.
#![tactic(auto)]

mod adding;
mod bounds;
pub mod document;
pub mod fault;
mod keys;
mod rows;
mod totals;
mod weights;

pub use dds_weights::{Bound, Certificate, Row, Total, Weight, certificate_text};
pub use document::read_certificate;
pub use fault::{CertFault, CertFlaw, CertKind};
