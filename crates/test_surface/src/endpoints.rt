//! The endpoints, and the domain that they make up.

pub use dds_cache::Cache;
pub use dds_domain::{Domain, Simulator};
pub use dds_reader::Reader;
pub use dds_writer::{Proxy, WriteRefused, Writer};
