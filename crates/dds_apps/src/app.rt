//! What an application is.
ghost use Rattle.std.specs.Prelude.{◌≡◌, Some, IsSome, IfOk, [], ◌∷◌, ◌++◌};
ghost use Rattle.dds_apps.specs.declared.app.Act.TheVariants.{Do};

use crate::diary::Diary;
use dds_base::{AppNo, Event, NoMemory, Reply};

/// What an application asks for next.
#[derive(Clone, Copy, Debug, PartialEq, Eq)]
pub enum Act {
    /// Make this event, and let the application hear what came of it.
    Do(Event),
    /// Wait for a change.
    Rest,
    /// End.
    Stop,
}

/// An application, which acts and hears what came of it. It keeps a diary: `act` adds nothing to it, and notes the
/// event that it asks for; `hear` adds that event with its reply.
pub trait App: Drop {
    ghost use Rattle.std.specs.Prelude.{ℕ};
    ghost use Rattle.dds_apps.specs.Diary.{DiaryState};

    /// What a contract sees of an application: its diary.
    ghost notes: { Self → DiaryState };

    /// Which application it is, by a number of its own that no call changes: whoever gave applications away knows by it
    /// which one came back.
    ghost identity: { Self → ℕ };

    /// What is to be done next. An `Err` means that memory ran out, and ends the application.
    fn act(&mut self) -> Result<Act, NoMemory>
        ensures identity { identity self.new ≡ identity self.old }
        ensures entries { (notes self.new).entries ≡ (notes self.old).entries }
        ensures pending { IfOk result (λ a. (e : _) → a ≡ Do e → (notes self.new).pending ≡ Some e) };

    /// Takes in what came of the event that waits.
    fn hear(&mut self, reply: &Reply)
        requires { IsSome (notes self.old).pending }
        ensures identity { identity self.new ≡ identity self.old }
        ensures entries { (e : _) → (notes self.old).pending ≡ Some e
            → (notes self.new).entries ≡ (notes self.old).entries ++ (e, reply.now) ∷ [] };

    /// The diary.
    fn diary(&self) -> &Diary
        ensures { result.now ≡ notes self.now };
}

/// What each call of an application passes before it is made: a caller may hold it there.
pub trait Gate: Sync {
    /// Lets the next call of an application through when it returns.
    fn pass(&self, app: AppNo);
}
