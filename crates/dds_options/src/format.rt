//! The forms in which a deployment is shown.

/// How a deployment is shown.
#[derive(Clone, Copy, Debug, PartialEq, Eq)]
pub enum Format {
    /// JSON, with every field of the file's format.
    Json,
    /// DDS-XML (OMG DDS-XML 1.0), without rules and connections, which have no place there.
    DdsXml,
}
