//! A sink over a writer, such as standard output.

ghost use Rattle.std.specs.Prelude.{◌≡◌, OnErr};
ghost use Rattle.pic_io.specs.Told.{untold, raised, HasCause};
ghost use Rattle.pic_io.specs.Sink.{Puts};
ghost use Rattle.pic_io.specs.Standard.{writer_of, sink_told, WritesOn};

use crate::failed::Failed;
use crate::sink::Sink;
use std::io::Write;

/// A sink over a writer, such as standard output.
///
/// Its count of faults rises at each put that fails, and stands still at 2^64 - 1. It tells no
/// bytes: what a terminal, a pipe or a file received is not claimed, nor that a flush reached it.
/// Over a writer that tells its bytes, as one in memory does, a put appends just its piece.
#[derive(Drop)]
pub struct StdSink<W> {
    inner: W,
    faults: u64,
}

impl<W: Write> StdSink<W> {
    /// A sink over this writer, with no faults so far.
    pub fn new(inner: W) -> StdSink<W>
        ensures told { ⟦<StdSink<W> as Sink>⟧.told result ≡ untold 0 }
        ensures writer { writer_of result ≡ inner }
    {
        StdSink { inner, faults: 0 }
    }
}

impl<W: Write> Sink for StdSink<W> {
    ghost told = { sink_told };

    /// Writes the whole piece and flushes. A write of 0 bytes is a failure.
    fn put(&mut self, piece: &[u8]) -> Result<(), Failed>
        ensures bytes { Puts (sink_told self.old) (sink_told self.new) piece.now result }
        ensures cause { HasCause (sink_told self.old) (sink_told self.new) result }

        ensures counted { OnErr result
            ((sink_told self.new).faults ≡ raised (sink_told self.old).faults) }
        ensures written { WritesOn (W.contents (writer_of self.old))
            (W.contents (writer_of self.new)) piece.now result }
    {
        let result = write_whole(&mut self.inner, piece);
        if result.is_err() {
            self.faults = self.faults.saturating_add(1);
        }
        result
    }
}

// Writes the whole piece and flushes.
fn write_whole<W: Write>(inner: &mut W, piece: &[u8]) -> Result<(), Failed>
    ensures { WritesOn (W.contents inner.old) (W.contents inner.new) piece.now result }
{
    let mut rest = piece;
    while !rest.is_empty() {
        match inner.write(rest) {
            Ok(0) => return Err(Failed),
            Ok(count) => rest = &rest[count..],
            Err(_) => return Err(Failed),
        }
    }
    match inner.flush() {
        Ok(()) => Ok(()),
        Err(_) => Err(Failed),
    }
}
