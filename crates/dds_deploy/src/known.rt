//! What the entries of a file can name.

use dds_base::Section;
use dds_lists::{Application, Reader, Topic, Writer};

/// What a rule can name.
#[derive(Clone, Copy)]
pub(crate) struct Known<'a> {
    /// The version of the file.
    pub(crate) version: u32,
    pub(crate) topics: &'a Section<Topic>,
    pub(crate) writers: &'a Section<Writer>,
    pub(crate) readers: &'a Section<Reader>,
    pub(crate) applications: &'a Section<Application>,
}
