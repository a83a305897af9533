//! Certificates: weights for the samples, takes and permits of a plan, and the bounds that they show.
//! `Certificate::fits` says whether one fits a plan, and `certificate_text` gives its text.
#![tactic(auto)]

pub mod certificate;
mod fit;
pub mod named;
pub mod naming;
pub mod order;
pub mod places;
pub mod text;
pub mod weighing;

pub use certificate::{Bound, Certificate, Row, Total, Weight};
pub use text::certificate_text;
