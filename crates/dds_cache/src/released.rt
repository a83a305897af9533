//! Up to which number the samples of each writer are available.

ghost use Rattle.std.specs.Prelude.{◌≡◌, IsTrue};
ghost use Rattle.dds_base.specs.Numbered.{AreRising};
ghost use Rattle.dds_cache.specs.Released.{lifted, raised};

use dds_base::{Numbered, WriterNo, place_of};

/// A writer whose samples the cache takes, and up to which number they are available.
#[derive(Clone, Copy, PartialEq, Eq, Debug)]
pub struct Released {
    pub writer: WriterNo,
    /// Its samples with this number and below are available: 0 to 2^64 - 1, 0 where none is yet.
    pub upto: u64,
}

impl Numbered for Released {
    ghost number_of = { λ r. r.writer };

    fn number(&self) -> usize {
        self.writer.number()
    }
}

// Makes one writer's samples up to a number available. A number below what is released already changes nothing. Where
// the writers stand in order of their numbers, which `rising` says, the one is found by halving.
pub(crate) fn raise(writers: &mut [Released], rising: bool, writer: WriterNo, upto: u64)
    requires { IsTrue rising → AreRising (λ r. r.writer) writers.old }
    ensures { writers.new ≡ raised writer upto writers.old }
{
    if !rising {
        raise_each(writers, writer, upto);
    } else if let Some(at) = place_of(writers, rising, writer.number()) {
        writers[at] = lift(writers[at], writer, upto);
    }
}

// The same by a walk, in whatever order the writers stand.
fn raise_each(writers: &mut [Released], writer: WriterNo, upto: u64)
    ensures { writers.new ≡ raised writer upto writers.old }
{
    for listed in writers.iter_mut() {
        *listed = lift(*listed, writer, upto);
    }
}

fn lift(listed: Released, writer: WriterNo, upto: u64) -> Released
    ensures { result ≡ lifted writer upto listed }
{
    if listed.writer == writer && listed.upto < upto {
        Released { writer, upto }
    } else {
        listed
    }
}
