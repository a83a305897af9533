//! Kits of two applications that answer each other's samples.

use dds_base::{Event, Fate, KeyNo, ReaderNo, Refusal};
use dds_book::{BookFault, Kit};
use std::alloc::Global;
use std::process::Abort;
use test_files::plans::{planned, proposed};
use test_files::texts::PING;
use test_model::worked::{Move, Told};

/// A call: the seat, what it makes, and the answer. The seats belong to the two applications and then to
/// their participants.
pub(crate) type Call = (usize, Move, Result<Told, BookFault>);

/// A sample goes from one application to the other; then two calls that aren't the seat's own, of which the second is
/// every seat's.
pub(crate) const CALLS: [Call; 7] = [
    (0, Move::Write(0, 0, 11), Ok(Told::Written(1))),
    (2, Move::SendData(0, 0, 1), Ok(Told::Sent(0))),
    (3, Move::Deliver(0, false), Ok(Told::New)),
    (1, Move::Take(0, 0), Ok(Told::Took(1, 11))),
    (1, Move::Fire(1), Ok(Told::Fired)),
    (0, Move::Write(1, 0, 12), Err(BookFault::NotYours)),
    (
        0,
        Move::Write(99, 0, 12),
        Ok(Told::Refused(Refusal::Foreign)),
    ),
];

/// How many of the calls are entered.
pub(crate) const ENTERED: usize = 6;

/// The fate of each packet in these turns.
pub(crate) const FATE: Fate = Fate::Pass;

/// An application's take, which finds nothing.
pub(crate) fn empty_take() -> Event {
    Event::Take {
        reader: ReaderNo::new(1),
        key: KeyNo::new(0),
    }
}

/// The kit. `None` where memory is refused.
fn kit_once(alloc: Global) -> Option<Kit> {
    let checked = proposed(alloc, planned(alloc, PING)?)?;
    match Kit::new(alloc, checked) {
        Ok(kit) => Some(kit),
        Err((_, checked)) => {
            drop(checked);
            None
        }
    }
}

/// The kit; where memory is refused, it is made again.
pub(crate) fn kit(rt: &impl Abort, alloc: Global) -> Kit {
    if let Some(kit) = kit_once(alloc) {
        return kit;
    }
    match kit_once(alloc) {
        Some(kit) => kit,
        None => panic!(rt; "no kit, twice"),
    }
}
