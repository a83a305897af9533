//! Diaries.
ghost use Rattle.std.specs.Prelude.{◌≡◌, Some, None, IsSome, [], ◌∷◌, ◌++◌, OnOk, OnErr};
ghost use Rattle.dds_apps.specs.Diary.{empty_diary};

use dds_base::{Arrival, Event, NoMemory, Reply};
use std::alloc::Global;
use std::marker::Model;

/// What an application has done: events with their replies, and at most one event whose reply isn't there yet.
#[derive(Drop)]
pub struct Diary {
    entries: Vec<(Event, Reply)>,
    pending: Option<Event>,
}

impl Model for Diary {
    ghost use Rattle.std.specs.Prelude.{◌<◌, IsSome};
    ghost use Rattle.std.specs.Vec.{vec_len, vec_capacity};
    ghost use Rattle.dds_apps.specs.Diary.{DiaryState};

    ghost Value = { DiaryState };

    ghost view = { λ d. record { entries = d.entries.items; pending = d.pending } };

    ghost invariant = { λ d. IsSome d.pending → vec_len d.entries < vec_capacity d.entries };
}

impl Diary {
    /// An empty diary, in which nothing waits. It takes no memory yet.
    pub fn new(alloc: Global) -> Diary
        ensures { result ≡ empty_diary }
    {
        Diary {
            entries: Vec::new(alloc),
            pending: None,
        }
    }

    /// Notes the event that comes next, and makes room for its entry. Another one that waits is forgotten. An `Err`
    /// means that memory ran out; then nothing is changed.
    pub fn plan(&mut self, event: Event) -> Result<(), NoMemory>
        ensures ok { OnOk result (self.new ≡ record { entries = self.old.entries; pending = Some event }) }
        ensures err { OnErr result (self.new ≡ self.old) }
    {
        if self.entries.reserve(1).is_err() {
            return Err(NoMemory);
        }
        self.pending = Some(event);
        Ok(())
    }

    /// Enters the event that waits, with its reply. The room is there, so this takes no memory.
    pub fn enter(&mut self, reply: &Reply)
        requires { IsSome self.old.pending }
        ensures entries { (e : _) → self.old.pending ≡ Some e
            → self.new.entries ≡ self.old.entries ++ (e, reply.now) ∷ [] }
        ensures pending { self.new.pending ≡ None }
    {
        // The checker has to have seen the type of a part of a reply.
        let _arrival: Option<Arrival> = None;
        let Some(event) = self.pending else {
            unreachable!()
        };
        self.pending = None;
        self.entries.push_reserved((event, *reply));
    }

    /// The entries, in order.
    pub fn entries(&self) -> &[(Event, Reply)]
        ensures { result.now ≡ self.now.entries }
    {
        self.entries.as_slice()
    }
}
