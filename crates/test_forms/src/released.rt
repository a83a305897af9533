//! Up to which number the samples of each writer of a plain cache are available.

ghost use Rattle.std.specs.Prelude.{◌≡◌, ◌==◌, position};
ghost use Rattle.dds_cache.specs.Released.{lifted, raised, released_of};

use dds_base::WriterNo;
use dds_cache::Released;

fn place_of(writers: &[Released], writer: WriterNo) -> Option<usize>
    ensures { result ≡ position (λ r. r.writer == writer) writers.now }
{
    writers.iter().position(|r| r.writer == writer)
}

// Up to which number a writer's samples are available.
pub(crate) fn released_upto(writers: &[Released], writer: WriterNo) -> u64
    ensures { result ≡ released_of writer writers.now }
{
    match place_of(writers, writer) {
        Some(at) => writers[at].upto,
        None => 0,
    }
}

// Makes one writer's samples up to a number available. A number below what is released already changes nothing.
pub(crate) fn raise(writers: &mut [Released], writer: WriterNo, upto: u64)
    ensures { writers.new ≡ raised writer upto writers.old }
{
    for listed in writers.iter_mut() {
        *listed = lift(*listed, writer, upto);
    }
}

fn lift(listed: Released, writer: WriterNo, upto: u64) -> Released
    ensures { result ≡ lifted writer upto listed }
{
    if listed.writer == writer && listed.upto < upto {
        Released { writer, upto }
    } else {
        listed
    }
}
