//! The grid of endpoints and keys: what a table has that gives each key of each endpoint of one kind a place. Key k of
//! endpoint e has the place `e * KEYS + k`.

/// No deployment has more writers, and none has more readers.
pub const ENDPOINTS: usize = 256;

/// No topic has more keys.
pub const KEYS: usize = 64;

/// How many places the grid has: one for each key of each endpoint.
pub const PLACES: usize = 16_384;
