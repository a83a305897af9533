//! What a rule takes or writes at one endpoint.

use crate::numbers::KeyNo;

/// So many samples of one key at one endpoint: an arc of the Petri net that the rules make.
#[derive(Clone, Copy, Debug, PartialEq, Eq)]
pub struct Portion<E> {
    /// The writer or the reader.
    pub endpoint: E,
    /// A key of its topic.
    pub key: KeyNo,
    /// How many samples, 1 to 65,535 in what a file says.
    pub count: u16,
}
