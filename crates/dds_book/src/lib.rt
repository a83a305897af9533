//! A locked book of what the applications and participants of a running deployment did, and counts beside it that need
//! no lock.
//!
//! A book keeps a domain and the journal of all that was done to it, under one lock. Whoever has a seat makes events;
//! each is entered with what came of it, or not at all. The layer above sees that a seat's front, which is what the
//! seat knows of the journal, is always a journal of the plan: a run whose events are each their seat's own. It grows
//! by each call of the seat, and once the book is closed it begins the whole journal, in which no later call of the
//! seat stands.
//!
//! How a seat can know that, with the journal under a lock: seat and book share a pair of halves, of which neither can
//! change its front without the other.
//!
//! A gauge is a row of counts: each is raised by its owner alone, and everyone with a seat reads them without waiting,
//! never less than it has read before.
#![tactic(auto)]

mod book;
mod entry;
mod fault;
mod gauge;
mod halves;
mod journal;
mod kit;
mod owning;
mod round;
mod seat;
mod state;

pub use book::Book;
pub use entry::Entry;
pub use fault::BookFault;
pub use gauge::{Gauge, GaugeFull, GaugeSeat};
pub use journal::Journal;
pub use kit::{Kit, Name};
pub use round::{Pace, Round, RoundEnd};
pub use seat::Seat;
pub use state::BookState;
