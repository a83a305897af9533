//! With which findings an answer is no.
ghost use Rattle.std.specs.Prelude.{◌≡◌};
ghost use Rattle.dds_options.specs.Deny.{is_denied_note, is_passed_note};

use crate::allowed::Allowed;
use crate::kinds::NoteKind;

/// With which findings the answer is no.
#[derive(Drop)]
pub enum Deny<'a> {
    /// With errors alone.
    Errors,
    /// With errors and with notes, but for those that are let pass and for MayLose, by which the deployment itself says
    /// that a reader may lose samples.
    Notes(Allowed<'a>),
    /// With errors and with notes, but for those that are let pass.
    All(Allowed<'a>),
}

impl<'a> Deny<'a> {
    /// Whether a note of a kind, about what has this name, makes the answer no.
    pub fn denies(&self, kind: NoteKind, subject: &str) -> bool
        ensures { result ≡ is_denied_note self.now kind subject.now }
    {
        match self {
            Deny::Errors => false,
            Deny::Notes(allowed) => !(kind.is_declared() || allowed.has(kind, subject)),
            Deny::All(allowed) => !allowed.has(kind, subject),
        }
    }

    /// Whether a note of a kind, about what has this name, is let pass by its name.
    pub fn passes(&self, kind: NoteKind, subject: &str) -> bool
        ensures { result ≡ is_passed_note self.now kind subject.now }
    {
        match self {
            Deny::Errors => false,
            Deny::Notes(allowed) | Deny::All(allowed) => allowed.has(kind, subject),
        }
    }
}
