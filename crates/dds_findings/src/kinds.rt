//! Of which kind a note is.
ghost use Rattle.std.specs.Prelude.{◌≡◌};
ghost use Rattle.dds_findings.specs.Kinds.{kind_of};

use dds_lint::Note;
use dds_options::NoteKind;

/// The kind of a note.
pub(crate) fn kind_of(note: Note) -> NoteKind
    ensures { result ≡ kind_of note }
{
    match note {
        Note::Watcher(_) => NoteKind::Watcher,
        Note::MayLose(_) => NoteKind::MayLose,
        Note::Unlimited(_) => NoteKind::Unlimited,
        Note::IdleLimit(_) => NoteKind::IdleLimit,
        Note::IdleReader(_) => NoteKind::IdleReader,
        Note::Stalls(_) => NoteKind::Stalls,
        Note::SpanUnused { .. } | Note::WatcherSpan(_) | Note::PaceUnused(_) => {
            NoteKind::PaceUnused
        }
        Note::UnwrittenKey { .. } => NoteKind::UnwrittenKey,
        Note::IdleWriter(_) => NoteKind::IdleWriter,
        Note::UnheardWriter(_) => NoteKind::UnheardWriter,
        Note::NoRules => NoteKind::NoRules,
        Note::NoStart => NoteKind::NoStart,
        Note::NoStrictReader => NoteKind::NoStrictReader,
        Note::StuckRule(_) => NoteKind::StuckRule,
        Note::Stops { .. } => NoteKind::Stops,
        Note::Finite(_) => NoteKind::Finite,
        Note::LossyTake(_) => NoteKind::LossyTake,
        Note::UnusedRow(_) => NoteKind::UnusedRow,
        Note::NeedlessBound(_) => NoteKind::NeedlessBound,
        Note::NeedlessTotal(_) => NoteKind::NeedlessTotal,
        Note::Incompatible { .. } => NoteKind::Incompatible,
        Note::HeldUp { .. } => NoteKind::HeldUp,
        Note::LateReader { .. } => NoteKind::LateReader,
    }
}
