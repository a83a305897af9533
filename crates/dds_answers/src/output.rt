//! Where texts go.
ghost use Rattle.std.specs.Prelude.{◌≡◌, ℕ, Bool, List, Option, None, false, OnOk, is_err, ◌||◌};
ghost use Rattle.std.specs.Io.KnownBytes.{Appends};

use std::io::{self, Write};

/// A device that takes texts. An implementation says whether it has failed, and may say which bytes it holds.
pub trait Output {
    /// The bytes that it holds, where they are known.
    ghost contents: { Self → Option (List ℕ) } = { λ _. None };

    /// Whether it has failed.
    ghost has_failed: { Self → Bool };

    /// Writes a text whole and nothing else. An `Err` is the device's own; then a part of the text may be written.
    fn put(&mut self, text: &str) -> io::Result<()>
        ensures written { OnOk result (Appends (contents self.old) (contents self.new) text.now) }
        ensures failed { has_failed self.new ≡ (is_err result || has_failed self.old) };
}

/// A writer, and whether a write to it has failed.
#[derive(Drop)]
pub struct Stream<W> {
    pub writer: W,
    pub has_failed: bool,
}

impl<W> Stream<W> {
    /// The writer, of which no write has failed.
    pub fn new(writer: W) -> Stream<W>
        ensures writer { result.writer ≡ writer }
        ensures unfailed { result.has_failed ≡ false }
    {
        Stream {
            writer,
            has_failed: false,
        }
    }
}

impl<W: Write> Stream<W> {
    // Writes the text whole, and lets nothing of it wait.
    fn write_text(&mut self, text: &str) -> io::Result<()>
        ensures written { OnOk result (Appends (W.contents self.old.writer) (W.contents self.new.writer) text.now) }
        ensures same { self.new.has_failed ≡ self.old.has_failed }
    {
        self.writer.write_all(text.as_bytes())?;
        self.writer.flush()
    }
}

impl<W: Write> Output for Stream<W> {
    ghost contents = { λ s. W.contents s.writer };

    ghost has_failed = { λ s. s.has_failed };

    /// The writer's own answer. An error is noted, and nothing else is.
    fn put(&mut self, text: &str) -> io::Result<()> {
        let answer = self.write_text(text);
        if answer.is_err() {
            self.has_failed = true;
        }
        answer
    }
}
