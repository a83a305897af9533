//! Where in the bytes of a TOML file a path leads, as the faults of files carry it: `writers[2].history`. One walk
//! through the text notes what stands at each path, so that thousands of paths can be found.
#![tactic(auto)]

mod path;
pub mod places;
mod scanner;
pub mod span;
mod walk;

pub use places::{Found, Places, read_places};
pub use span::{Span, column_at, line_at, line_span};
