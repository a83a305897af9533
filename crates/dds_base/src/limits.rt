//! How much a file may have, beside what the grid of endpoints and keys limits.

/// No deployment has more participants.
pub const PARTICIPANTS: usize = 64;

/// No deployment has more topics.
pub const TOPICS: usize = 256;

/// No deployment has more applications.
pub const APPLICATIONS: usize = 64;

/// No deployment has more rules.
pub const RULES: usize = 256;

/// No certificate has more rows.
pub const ROWS: usize = 64;

/// No name has more bytes, nor has a partition's.
pub const NAME_BYTES: usize = 64;

/// No name of a type has more bytes.
pub const TYPE_BYTES: usize = 256;
