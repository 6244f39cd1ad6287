//! A sink that never fails and holds nothing.

ghost use Rattle.std.specs.Prelude.{◌≡◌, IsOk};
ghost use Rattle.pic_io.specs.Told.{untold};

use crate::failed::Failed;
use crate::sink::Sink;

/// A sink that drops what is put and never fails: it tells no bytes, and its count of faults is 0
/// for good.
#[derive(Clone, Copy, Debug, PartialEq, Eq)]
pub struct NeverSink;

impl NeverSink {
    pub fn new() -> NeverSink
        ensures { ⟦<NeverSink as Sink>⟧.told result ≡ untold 0 }
    {
        NeverSink
    }
}

impl Default for NeverSink {
    fn default() -> NeverSink {
        NeverSink::new()
    }
}

impl Sink for NeverSink {
    ghost told = { λ _. untold 0 };

    fn put(&mut self, _piece: &[u8]) -> Result<(), Failed>
        ensures ok { IsOk result }
    {
        Ok(())
    }
}
