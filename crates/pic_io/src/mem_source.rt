//! A source over bytes in memory, which fails where a test wants it.

ghost use Rattle.std.specs.Prelude.{◌≡◌, ◌≤◌, ◌↔◌, length, drop, IsErr, IfOk, MatchResult, Contains};
ghost use Rattle.pic_io.specs.Told.{HasCause};
ghost use Rattle.pic_io.specs.Source.{Takes};
ghost use Rattle.pic_io.specs.Memory.{supply_told, moved_count, after_take};

use crate::failed::Failed;
use crate::pieces::copy_front;
use crate::source::Source;
use std::marker::Model;

/// A source over bytes in memory, which fails at listed calls and at no others.
///
/// Calls of `take` are numbered from 0, and a call that fails has a number too. Numbers and the
/// count of faults stand still at 2^64 - 1.
#[derive(Debug, Drop)]
pub struct MemSource {
    bytes: Vec<u8>,
    start: usize,
    piece: usize,
    fails: Vec<u64>,
    calls: u64,
    faults: u64,
}

impl Model for MemSource {
    ghost use Rattle.std.specs.Prelude.{◌≤◌, drop, vec_len};
    ghost use Rattle.pic_io.specs.Memory.{Supply};

    ghost Value = { Supply };

    ghost view = { λ s. record {
      left = drop s.start s.bytes.items;
      piece = s.piece;
      fails = s.fails.items;
      calls = s.calls;
      faults = s.faults;
    } };

    ghost invariant = { λ s. (1 ≤ s.piece) × (s.start ≤ vec_len s.bytes) };
}

impl MemSource {
    /// A source of these bytes, which gives at most `piece` bytes a call.
    pub fn new(bytes: Vec<u8>, piece: usize, fails: Vec<u64>) -> MemSource
        requires { 1 ≤ piece }
        ensures { result ≡ record {
          left = bytes.items;
          piece = piece;
          fails = fails.items;
          calls = 0;
          faults = 0;
        } }
    {
        MemSource {
            bytes,
            start: 0,
            piece,
            fails,
            calls: 0,
            faults: 0,
        }
    }
}

impl Source for MemSource {
    ghost told = { supply_told };

    fn take(&mut self, room: &mut [u8]) -> Result<usize, Failed>
        ensures bound { IfOk result (λ n. n ≤ length room.new) }
        ensures bytes { Takes (supply_told self.old) (supply_told self.new) room.new result }
        ensures cause { HasCause (supply_told self.old) (supply_told self.new) result }

        ensures fails { IsErr result ↔ Contains self.old.fails self.old.calls }
        ensures count { IfOk result (λ n.
            n ≡ moved_count self.old.left self.old.piece (length room.old)) }
        ensures after { self.new ≡ after_take self.old result }

        // The room behind the bytes that were moved stays.
        ensures rest { MatchResult result
            (λ n. drop n room.new ≡ drop n room.old) (λ _. room.new ≡ room.old) }
    {
        let call = self.calls;
        self.calls = call.saturating_add(1);
        if self.fails.contains(&call) {
            self.faults = self.faults.saturating_add(1);
            return Err(Failed);
        }
        let count = copy_front(&self.bytes[self.start..], self.piece, room);
        self.start += count;
        Ok(count)
    }
}
