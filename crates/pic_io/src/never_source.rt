//! A source in memory that never fails.

ghost use Rattle.std.specs.Prelude.{◌≡◌, ◌≤◌, length, drop, IsOk, IfOk};
ghost use Rattle.pic_io.specs.Told.{HasCause};
ghost use Rattle.pic_io.specs.Source.{Takes};
ghost use Rattle.pic_io.specs.Memory.{flow_told, moved_count};

use crate::failed::Failed;
use crate::pieces::copy_front;
use crate::source::Source;
use std::marker::Model;

/// A source over bytes in memory that never fails: its count of faults is 0 for good.
#[derive(Debug, Drop)]
pub struct NeverSource {
    bytes: Vec<u8>,
    start: usize,
    piece: usize,
}

impl Model for NeverSource {
    ghost use Rattle.std.specs.Prelude.{◌≤◌, drop, vec_len};
    ghost use Rattle.pic_io.specs.Memory.{Flow};

    ghost Value = { Flow };

    ghost view = { λ s. record { left = drop s.start s.bytes.items; piece = s.piece } };

    ghost invariant = { λ s. (1 ≤ s.piece) × (s.start ≤ vec_len s.bytes) };
}

impl NeverSource {
    /// A source of these bytes, which gives at most `piece` bytes a call.
    pub fn new(bytes: Vec<u8>, piece: usize) -> NeverSource
        requires { 1 ≤ piece }
        ensures { result ≡ record { left = bytes.items; piece = piece } }
    {
        NeverSource {
            bytes,
            start: 0,
            piece,
        }
    }
}

impl Source for NeverSource {
    ghost told = { flow_told };

    fn take(&mut self, room: &mut [u8]) -> Result<usize, Failed>
        ensures bound { IfOk result (λ n. n ≤ length room.new) }
        ensures bytes { Takes (flow_told self.old) (flow_told self.new) room.new result }
        ensures cause { HasCause (flow_told self.old) (flow_told self.new) result }

        ensures ok { IsOk result }
        ensures count { IfOk result (λ n.
            n ≡ moved_count self.old.left self.old.piece (length room.old)) }
        ensures after { IfOk result (λ n.
            self.new ≡ record self.old { left = drop n self.old.left }) }

        // The room behind the bytes that were moved stays.
        ensures rest { IfOk result (λ n. drop n room.new ≡ drop n room.old) }
    {
        let count = copy_front(&self.bytes[self.start..], self.piece, room);
        self.start += count;
        Ok(count)
    }
}
