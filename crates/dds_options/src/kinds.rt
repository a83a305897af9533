//! The kinds of notes, by name.
ghost use Rattle.std.specs.Prelude.{◌≡◌, ◌≢◌, IfNone, IfSome};
ghost use Rattle.dds_options.specs.Kinds.{is_declared, kind_place, kind_word};

/// How many kinds of notes there are.
pub const KINDS: usize = 23;

/// The kinds of notes.
#[derive(Clone, Copy, Debug, PartialEq, Eq)]
pub enum NoteKind {
    Watcher,
    MayLose,
    Unlimited,
    IdleLimit,
    IdleReader,
    Stalls,
    PaceUnused,
    UnwrittenKey,
    IdleWriter,
    UnheardWriter,
    NoRules,
    NoStart,
    NoStrictReader,
    StuckRule,
    Stops,
    Finite,
    LossyTake,
    UnusedRow,
    NeedlessBound,
    NeedlessTotal,
    Incompatible,
    HeldUp,
    LateReader,
}

impl NoteKind {
    /// Its name, which findings have and `--allow` takes.
    pub fn name(self) -> &'static str
        ensures { result.now ≡ kind_word self }
    {
        match self {
            NoteKind::Watcher => "Watcher",
            NoteKind::MayLose => "MayLose",
            NoteKind::Unlimited => "Unlimited",
            NoteKind::IdleLimit => "IdleLimit",
            NoteKind::IdleReader => "IdleReader",
            NoteKind::Stalls => "Stalls",
            NoteKind::PaceUnused => "PaceUnused",
            NoteKind::UnwrittenKey => "UnwrittenKey",
            NoteKind::IdleWriter => "IdleWriter",
            NoteKind::UnheardWriter => "UnheardWriter",
            NoteKind::NoRules => "NoRules",
            NoteKind::NoStart => "NoStart",
            NoteKind::NoStrictReader => "NoStrictReader",
            NoteKind::StuckRule => "StuckRule",
            NoteKind::Stops => "Stops",
            NoteKind::Finite => "Finite",
            NoteKind::LossyTake => "LossyTake",
            NoteKind::UnusedRow => "UnusedRow",
            NoteKind::NeedlessBound => "NeedlessBound",
            NoteKind::NeedlessTotal => "NeedlessTotal",
            NoteKind::Incompatible => "Incompatible",
            NoteKind::HeldUp => "HeldUp",
            NoteKind::LateReader => "LateReader",
        }
    }

    /// The kind with this name, or `None` where there is none.
    pub fn named(name: &str) -> Option<NoteKind>
        ensures some { IfSome result (λ kind. name.now ≡ kind_word kind) }
        ensures none { IfNone result ((kind : NoteKind) → name.now ≢ kind_word kind) }
    {
        match name {
            "Watcher" => Some(NoteKind::Watcher),
            "MayLose" => Some(NoteKind::MayLose),
            "Unlimited" => Some(NoteKind::Unlimited),
            "IdleLimit" => Some(NoteKind::IdleLimit),
            "IdleReader" => Some(NoteKind::IdleReader),
            "Stalls" => Some(NoteKind::Stalls),
            "PaceUnused" => Some(NoteKind::PaceUnused),
            "UnwrittenKey" => Some(NoteKind::UnwrittenKey),
            "IdleWriter" => Some(NoteKind::IdleWriter),
            "UnheardWriter" => Some(NoteKind::UnheardWriter),
            "NoRules" => Some(NoteKind::NoRules),
            "NoStart" => Some(NoteKind::NoStart),
            "NoStrictReader" => Some(NoteKind::NoStrictReader),
            "StuckRule" => Some(NoteKind::StuckRule),
            "Stops" => Some(NoteKind::Stops),
            "Finite" => Some(NoteKind::Finite),
            "LossyTake" => Some(NoteKind::LossyTake),
            "UnusedRow" => Some(NoteKind::UnusedRow),
            "NeedlessBound" => Some(NoteKind::NeedlessBound),
            "NeedlessTotal" => Some(NoteKind::NeedlessTotal),
            "Incompatible" => Some(NoteKind::Incompatible),
            "HeldUp" => Some(NoteKind::HeldUp),
            "LateReader" => Some(NoteKind::LateReader),
            _ => None,
        }
    }

    /// Its place among the kinds, from 0: below `KINDS`.
    pub fn place(self) -> usize
        ensures { result ≡ kind_place self }
    {
        match self {
            NoteKind::Watcher => 0,
            NoteKind::MayLose => 1,
            NoteKind::Unlimited => 2,
            NoteKind::IdleLimit => 3,
            NoteKind::IdleReader => 4,
            NoteKind::Stalls => 5,
            NoteKind::PaceUnused => 6,
            NoteKind::UnwrittenKey => 7,
            NoteKind::IdleWriter => 8,
            NoteKind::UnheardWriter => 9,
            NoteKind::NoRules => 10,
            NoteKind::NoStart => 11,
            NoteKind::NoStrictReader => 12,
            NoteKind::StuckRule => 13,
            NoteKind::Stops => 14,
            NoteKind::Finite => 15,
            NoteKind::LossyTake => 16,
            NoteKind::UnusedRow => 17,
            NoteKind::NeedlessBound => 18,
            NoteKind::NeedlessTotal => 19,
            NoteKind::Incompatible => 20,
            NoteKind::HeldUp => 21,
            NoteKind::LateReader => 22,
        }
    }

    /// Whether a note of this kind says of a reader what its deployment says itself.
    pub fn is_declared(self) -> bool
        ensures { result ≡ is_declared self }
    {
        matches!(self, NoteKind::MayLose)
    }
}
