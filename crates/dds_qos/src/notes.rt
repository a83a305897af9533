//! What a writer would send to a reader next.

/// What a writer would send to a reader next.
#[derive(Clone, Copy, Debug, PartialEq, Eq)]
pub enum Due {
    /// The DATA of this number.
    Data(u64),
    /// A GAP from this number on.
    Gap(u64),
}
