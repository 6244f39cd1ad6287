//! A piece of the input that was taken ahead, as a source.

ghost use Rattle.std.specs.Prelude.{◌≡◌, ◌≤◌, length, min, IfOk};
ghost use Rattle.pic_io.specs.Told.{HasCause};
ghost use Rattle.pic_io.specs.Source.{Takes};
ghost use Rattle.pic_fields.specs.Pieces.{piece_told};

use pic_io::{Failed, Source};
use std::marker::Model;

/// A source over bytes that lie in memory, such as a piece that was taken ahead. It never fails.
#[derive(Debug, Drop)]
pub struct Ahead<'a> {
    bytes: &'a [u8],
}

impl<'a> Model for Ahead<'a> {
    ghost use Rattle.std.specs.Prelude.{ℕ, List};

    ghost Value = { List ℕ };

    ghost view = { λ p. p.bytes.now };
}

impl<'a> Ahead<'a> {
    /// A source of these bytes.
    pub fn new(bytes: &'a [u8]) -> Ahead<'a>
        ensures { result ≡ bytes.now }
    {
        Ahead { bytes }
    }
}

impl<'a> Source for Ahead<'a> {
    ghost told = { piece_told };

    #[inline(always)]
    fn take(&mut self, room: &mut [u8]) -> Result<usize, Failed>
        ensures bound { IfOk result (λ n. n ≤ length room.new) }
        ensures bytes { Takes (piece_told self.old) (piece_told self.new) room.new result }
        ensures cause { HasCause (piece_told self.old) (piece_told self.new) result }

        ensures count { IfOk result (λ n. n ≡ min (length room.old) (length self.old)) }
    {
        let wanted = room.len();
        if wanted <= self.bytes.len() {
            room.copy_from_slice(&self.bytes[..wanted]);
            self.bytes = &self.bytes[wanted..];
            return Ok(wanted);
        }
        let count = self.bytes.len();
        room[..count].copy_from_slice(&self.bytes[..count]);
        self.bytes = &self.bytes[count..];
        Ok(count)
    }
}
