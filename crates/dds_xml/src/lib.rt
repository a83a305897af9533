//! A deployment as it was read, in DDS-XML, for other DDS tools.
#![tactic(auto)]

mod applications;
mod document;
mod participants;
mod pieces;
mod profiles;
mod topics;
mod types;

pub use document::deployment_xml;
