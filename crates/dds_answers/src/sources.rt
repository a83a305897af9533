//! Where files come from.
ghost use Rattle.std.specs.Prelude.{◌≡◌, ◌++◌, [], ◌∷◌, ◌||◌, ℕ, Bool, List, Option, Some, None, IfSome, is_none};
ghost use Rattle.dds_answers.specs.Reading.{is_worn};

use crate::counted::Counted;
use std::io::Read;

/// Files by their paths. An implementation says whether a file has failed, and may say what its files hold; where it
/// does, contracts speak of these bytes.
pub trait Sources {
    /// The reader of a file. It gives the bytes of the file from the first on.
    type R: Read + Drop;

    /// The bytes of the file at a path, where they are known.
    ghost holds: { Self → List ℕ → Option (List ℕ) } = { λ _ _. None };

    /// The paths that were asked for, in order, where they are known.
    ghost opened: { Self → Option (List (List ℕ)) } = { λ _. None };

    /// Whether a file did not open, or was given back after a read that failed or more than 1,000 that were
    /// interrupted.
    ghost has_failed: { Self → Bool };

    /// A reader of the file at a path, or `None` where it does not open. What the files hold stays the same.
    fn open(&mut self, path: &str) -> Option<Self::R>
        ensures bytes { IfSome result (λ r. IfSome (holds self.old path.now) (λ xs. Self.R.remaining r ≡ Some xs)) }
        ensures others { holds self.new ≡ holds self.old }
        ensures opened { IfSome (opened self.old) (λ paths. opened self.new ≡ Some (paths ++ path.now ∷ [])) }
        ensures failed { has_failed self.new ≡ (is_none result || has_failed self.old) };

    /// Gives back a reader that was opened here and is read no more. What the files hold stays the same.
    fn close(&mut self, reader: Counted<Self::R>)
        ensures others { holds self.new ≡ holds self.old }
        ensures opened { opened self.new ≡ opened self.old }
        ensures failed { has_failed self.new ≡ (is_worn reader.failed reader.interrupted || has_failed self.old) };
}
