//! A source over a reader, such as standard input.

ghost use Rattle.std.specs.Prelude.{◌≡◌, ◌≤◌, length, IfOk, OnErr};
ghost use Rattle.std.specs.Io.KnownBytes.{ReadConsumes};
ghost use Rattle.pic_io.specs.Told.{untold, raised, HasCause};
ghost use Rattle.pic_io.specs.Source.{Takes};
ghost use Rattle.pic_io.specs.Standard.{reader_of, source_told};

use crate::failed::Failed;
use crate::source::Source;
use std::io::Read;

/// A source over a reader, such as standard input.
///
/// Its count of faults rises at each error of the reader, and stands still at 2^64 - 1. It tells
/// no bytes: what a terminal, a pipe or a file gave is not claimed. Over a reader that tells its
/// bytes, as one in memory does, a take gives just what the reader gave.
#[derive(Drop)]
pub struct StdSource<R> {
    inner: R,
    faults: u64,
}

impl<R: Read> StdSource<R> {
    /// A source over this reader, with no faults so far.
    pub fn new(inner: R) -> StdSource<R>
        ensures told { ⟦<StdSource<R> as Source>⟧.told result ≡ untold 0 }
        ensures reader { reader_of result ≡ inner }
    {
        StdSource { inner, faults: 0 }
    }
}

impl<R: Read> Source for StdSource<R> {
    ghost told = { source_told };

    fn take(&mut self, room: &mut [u8]) -> Result<usize, Failed>
        ensures bound { IfOk result (λ n. n ≤ length room.new) }
        ensures bytes { Takes (source_told self.old) (source_told self.new) room.new result }
        ensures cause { HasCause (source_told self.old) (source_told self.new) result }

        ensures counted { OnErr result
            ((source_told self.new).faults ≡ raised (source_told self.old).faults) }
        ensures given { ReadConsumes (R.remaining (reader_of self.old))
            (R.remaining (reader_of self.new)) result room.new }
    {
        match self.inner.read(room) {
            Ok(count) => Ok(count),
            Err(_) => {
                self.faults = self.faults.saturating_add(1);
                Err(Failed)
            }
        }
    }
}
