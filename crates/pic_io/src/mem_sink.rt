//! A sink that holds its bytes in memory, which fails where a test wants it.

ghost use Rattle.std.specs.Prelude.{◌≡◌, ◌↔◌, [], IsOk, IsErr, IfOk};
ghost use Rattle.pic_io.specs.Told.{HasCause};
ghost use Rattle.pic_io.specs.Sink.{Puts};
ghost use Rattle.pic_io.specs.Memory.{stock_told, listed_count, Accepts, Refuses, after_put};

use crate::failed::Failed;
use crate::pieces::append;
use crate::sink::Sink;
use pic_num::NoMemory;
use std::alloc::Global;
use std::marker::Model;

/// A sink that holds its bytes in memory, and fails at listed puts and for want of room.
///
/// Its room is taken when it is made, so a put takes no memory. Puts are numbered from 0, and a
/// put that fails has a number too. Numbers and the count of faults stand still at 2^64 - 1.
#[derive(Debug, Drop)]
pub struct MemSink {
    held: Vec<u8>,
    room: usize,
    fails: Vec<(u64, usize)>,
    calls: u64,
    faults: u64,
}

impl Model for MemSink {
    ghost use Rattle.std.specs.Prelude.{◌≤◌, vec_len, vec_capacity};
    ghost use Rattle.pic_io.specs.Memory.{Stock};

    ghost Value = { Stock };

    ghost view = { λ s. record {
      held = s.held.items;
      room = s.room;
      fails = s.fails.items;
      calls = s.calls;
      faults = s.faults;
    } };

    ghost invariant = { λ s. (vec_len s.held ≤ s.room) × (s.room ≤ vec_capacity s.held) };
}

impl MemSink {
    /// A sink with room for `room` bytes, or `NoMemory` where that room can't be had.
    ///
    /// `fails` lists puts that fail, each with the number of bytes that it still takes, as far as
    /// its piece and the room left go. Where a put is listed twice, its first entry counts.
    pub fn new(alloc: Global, room: usize, fails: Vec<(u64, usize)>) -> Result<MemSink, NoMemory>
        ensures { IfOk result (λ sink. sink ≡ record {
          held = [];
          room = room;
          fails = fails.items;
          calls = 0;
          faults = 0;
        }) }
    {
        Ok(MemSink {
            held: Vec::with_capacity(alloc, room)?,
            room,
            fails,
            calls: 0,
            faults: 0,
        })
    }

    /// The bytes put so far.
    pub fn bytes(&self) -> &[u8]
        ensures { result.now ≡ self.now.held }
    {
        self.held.as_slice()
    }
}

// How many bytes the put of this number still takes, where it is listed.
fn find_listed(fails: &[(u64, usize)], call: u64) -> Option<usize>
    ensures { result ≡ listed_count fails.now call }
{
    fails.iter().find(|f| f.0 == call).map(|f| f.1)
}

impl Sink for MemSink {
    ghost told = { stock_told };

    /// A piece that is longer than the room left is a failure, and then what fits is taken.
    fn put(&mut self, piece: &[u8]) -> Result<(), Failed>
        ensures bytes { Puts (stock_told self.old) (stock_told self.new) piece.now result }
        ensures cause { HasCause (stock_told self.old) (stock_told self.new) result }

        ensures ok { IsOk result ↔ Accepts self.old piece.now }
        ensures fails { IsErr result ↔ Refuses self.old piece.now }
        ensures after { self.new ≡ after_put self.old piece.now result }
    {
        let listed = find_listed(self.fails.as_slice(), self.calls);
        let left = self.room - self.held.len();
        self.calls = self.calls.saturating_add(1);
        if listed.is_none() && piece.len() <= left {
            append(&mut self.held, piece);
            return Ok(());
        }
        let most = piece.len().min(left);
        let count = listed.unwrap_or(most).min(most);
        append(&mut self.held, &piece[..count]);
        self.faults = self.faults.saturating_add(1);
        Err(Failed)
    }
}
