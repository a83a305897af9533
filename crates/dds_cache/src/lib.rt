//! The bounded cache of one reader: which samples it stores within the limits of HISTORY and RESOURCE_LIMITS, and which
//! of them it gives.
//!
//! The layer above sees four things (`specs/Cache.antt`): the limits, the list of stored samples in order of admission,
//! the set of known keys, and for each writer the number up to which its samples are available, which never falls. A
//! call changes what its contract names and nothing else; a call that answers `Err` found no memory, and changed
//! nothing.
//!
//! The samples stand in one map, by key, writer and number, each with the ticket of its admission; under KEEP_LAST a
//! second one has the tickets of each key. A small one has for each key ever stored how many samples it has. So no call
//! walks over the stored samples: one that is stored goes into one map, under KEEP_LAST into two, and one that is taken
//! or replaced leaves as many. `take` looks once for each writer, and `new` walks over the writers alone. `release`
//! finds its writer by halving where the writers stand in order of their numbers, and walks over them where they don't.
#![tactic(auto)]

pub mod cache;
mod contents;
mod order;
pub mod released;

pub use cache::Cache;
pub use released::Released;
