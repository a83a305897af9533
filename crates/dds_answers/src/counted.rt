//! A reader that counts the reads that fail.
ghost use Rattle.std.specs.Prelude.{◌≡◌};
ghost use Rattle.std.specs.Io.{ReadsAtMost};
ghost use Rattle.std.specs.Io.KnownBytes.{ReadConsumes};
ghost use Rattle.dds_answers.specs.Reading.{CountsRead, is_worn};

use std::io::{self, ErrorKind, Read};

/// The most interrupted reads of a file that are borne.
pub(crate) const MAX_INTERRUPTED: u64 = 1_000;

/// A reader, with the number of its reads that failed and of those that were interrupted. Each
/// count begins at 0 and stays at 2^64 - 1.
#[derive(Drop)]
pub struct Counted<R> {
    pub reader: R,
    pub failed: u64,
    pub interrupted: u64,
}

impl<R> Counted<R> {
    /// The reader, of which no read has been counted.
    pub fn new(reader: R) -> Counted<R>
        ensures reader { result.reader ≡ reader }
        ensures failed { result.failed ≡ 0 }
        ensures interrupted { result.interrupted ≡ 0 }
    {
        Counted {
            reader,
            failed: 0,
            interrupted: 0,
        }
    }

    /// Whether a read has failed, or more than 1,000 were interrupted.
    pub fn is_worn(&self) -> bool
        ensures { result ≡ is_worn self.now.failed self.now.interrupted }
    {
        self.failed > 0 || self.interrupted > MAX_INTERRUPTED
    }
}

impl<R: Read> Read for Counted<R> {
    ghost remaining = { λ c. R.remaining c.reader };

    /// The reader's own answer. An error is counted, and nothing else is.
    fn read(&mut self, buf: &mut [u8]) -> io::Result<usize>
        ensures bound { ReadsAtMost result buf.new }
        ensures bytes { ReadConsumes (R.remaining self.old.reader) (R.remaining self.new.reader) result buf.new }
        ensures counts { CountsRead result (self.old.failed, self.old.interrupted) (
          self.new.failed,
          self.new.interrupted,
        ) }
    {
        let answer = self.reader.read(buf);
        if let Err(error) = &answer {
            if error.kind() == ErrorKind::Interrupted {
                self.interrupted = self.interrupted.saturating_add(1);
            } else {
                self.failed = self.failed.saturating_add(1);
            }
        }
        answer
    }
}
