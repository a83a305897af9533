//! Which notes are let pass, by words with commas between them.
ghost use Rattle.std.specs.Prelude.{◌≡◌, ◌++◌, [], codes, false, true, IfNone, IfOk, IfSome, string_bytes};
ghost use Rattle.std.specs.Str.{bytes_eq};
ghost use Rattle.dds_options.specs.Allowed.{AreNoteWords, IsNoteWord, is_allowed, lets_pass, note_word};
ghost use Rattle.dds_options.specs.Kinds.{kind_word};

use crate::kinds::NoteKind;
use dds_base::NoMemory;
use std::alloc::Global;
use std::marker::Model;

/// The word for a note: the name of its kind, and behind a colon the name of what it is about, where that has one.
pub fn note_word(alloc: Global, kind: NoteKind, subject: &str) -> Result<String, NoMemory>
    ensures { IfOk result (λ text. string_bytes text ≡ note_word kind subject.now) }
{
    let name = kind.name();
    if subject.is_empty() {
        String::from_str(alloc, name)
    } else {
        format!(in alloc; "{name}:{subject}")
    }
}

/// Whether a word is that of some note.
fn is_note_word(word: &str) -> bool
    ensures yes { result ≡ true → IsNoteWord word.now }
    ensures no { result ≡ false → ¬ IsNoteWord word.now }
{
    match word.split_once(':') {
        Some((kind, subject)) => !subject.is_empty() && NoteKind::named(kind).is_some(),
        None => NoteKind::named(word).is_some(),
    }
}

/// Whether each word of a text is that of some note.
fn are_note_words(text: &str) -> bool
    ensures yes { result ≡ true → AreNoteWords text.now }
    ensures no { result ≡ false → ¬ AreNoteWords text.now }
{
    for word in text.split(',') {
        if !is_note_word(word) {
            return false;
        }
    }
    true
}

/// Whether a word is the name of a kind, a colon and the name of what a note is about.
fn is_about(word: &str, kind: NoteKind, subject: &str) -> bool
    ensures { result ≡ bytes_eq word.now (kind_word kind ++ (codes ":" ++ subject.now)) }
{
    match word.split_once(':') {
        Some((name, about)) => name == kind.name() && about == subject,
        None => false,
    }
}

/// Whether a word lets a note of this kind about this pass.
fn lets_pass(word: &str, kind: NoteKind, subject: &str) -> bool
    ensures { result ≡ lets_pass kind subject.now word.now }
{
    word == kind.name() || is_about(word, kind, subject)
}

/// Notes that are let pass where notes are denied. A contract sees the text of the words by which they are.
#[derive(Drop)]
pub struct Allowed<'a> {
    text: &'a str,
}

impl<'a> Model for Allowed<'a> {
    ghost use Rattle.std.specs.Prelude.{ℕ, List};

    ghost Value = { List ℕ };

    ghost view = { λ allowed. allowed.text.now };
}

impl<'a> Allowed<'a> {
    /// None of them.
    pub fn none() -> Allowed<'a>
        ensures { result ≡ [] }
    {
        Allowed { text: "" }
    }

    /// Those for which the words of a text stand. They are names of kinds, alone or with a colon and the name of what a
    /// note is about, and have commas between them; `None` where one of them isn't.
    pub fn new(text: &'a str) -> Option<Allowed<'a>>
        ensures some { IfSome result (λ allowed. AreNoteWords text.now × (allowed ≡ text.now)) }
        ensures none { IfNone result (¬ AreNoteWords text.now) }
    {
        if are_note_words(text) {
            Some(Allowed { text })
        } else {
            None
        }
    }

    /// Whether a note of this kind, about what has this name, is one of them.
    pub fn has(&self, kind: NoteKind, subject: &str) -> bool
        ensures { result ≡ is_allowed self.now kind subject.now }
    {
        let mut any = false;
        for word in self.text.split(',') {
            let here = lets_pass(word, kind, subject);
            any = here || any;
        }
        any
    }
}
