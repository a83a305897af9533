//! What an application takes.
ghost use Rattle.std.specs.Prelude.{◌≡◌};
ghost use Rattle.dds_base.specs.declared.events.Event.TheVariants.{Take};
ghost use Rattle.dds_domain.specs.Standing.{HasWorld, OnRefused, StepsNotes, StepsWorld};

use crate::parts::Parts;
use crate::waiting::note_take;
use dds_base::{KeyNo, ReaderNo, Refusal, Reply};

impl Parts {
    /// A reader takes an available sample of a key.
    pub(crate) fn take(&mut self, reader: ReaderNo, key: KeyNo) -> Reply
        requires { HasWorld self.old }
        ensures steps { StepsWorld self.old (Take reader key) result self.new }
        ensures notes { StepsNotes self.old (Take reader key) result self.new }
        ensures refused { OnRefused result (self.new ≡ self.old) }
        ensures plan { self.new.plan ≡ self.old.plan }
    {
        if !self.plan.hears(reader, key) {
            return Reply::Refused(Refusal::Foreign);
        }
        if self.ledger.spare(reader, key) == u64::MAX {
            return Reply::Refused(Refusal::CountLimit);
        }
        match self.readers[reader.number()].take(key) {
            None => Reply::Refused(Refusal::Empty),
            Some(sample) => {
                self.ledger.note_take(reader, key).unwrap();
                note_take(&mut self.flights, sample.writer, reader, key);
                Reply::Took(sample)
            }
        }
    }
}
