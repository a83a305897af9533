//! The events of a run and their replies as lines of text, and events read from such lines. Names are as in the
//! deployment file. The text of an event and of a reply is stated byte for byte; of what is read it is proved that the
//! text says it, and of what is not, that it is the text of no event of the deployment.
#![tactic(auto)]

pub mod events;
pub mod fault;
mod kinds;
pub mod lines;
pub mod reading;
pub mod replies;
mod words;

pub use events::event_text;
pub use fault::{EventsFault, EventsFaultKind};
pub use lines::{line_text, lines_text};
pub use reading::{read_event, read_events};
pub use replies::{rejection_name, reply_text};
