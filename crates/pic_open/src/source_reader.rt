//! A source, read to its end or to a limit.

ghost use Rattle.std.specs.Prelude.{◌≡◌, ◌≤◌, ◌<◌, length, IfOk};
ghost use Rattle.pic_io.specs.Told.{HasCause};
ghost use Rattle.pic_io.specs.Source.{Takes};
ghost use Rattle.pic_open.specs.DeckReading.{deck_limit, ReadsAll, TakesAtMost};
ghost use Rattle.pic_open.specs.declared.source_reader.SourceStop.TheVariants.{NoMemory};

use pic_io::{Failed, Source};
use std::alloc::{AllocError, Global};

/// What ends a reading early.
#[derive(Clone, Copy, Debug, PartialEq, Eq)]
pub enum SourceStop {
    Fault,
    NoMemory,
}

impl From<AllocError> for SourceStop {
    ghost from_gives = { λ _ stop. stop ≡ NoMemory };

    fn from(_refused: AllocError) -> SourceStop {
        SourceStop::NoMemory
    }
}

const ROOM_BYTES: usize = 4096;

/// The greatest number of bytes that are taken for a deck: one more than a deck may have.
#[tactic(auto, unfolding(crate::specs::DeckReading::deck_limit))]
pub fn greatest_deck() -> usize
    ensures { result ≡ deck_limit }
{
    (1 << 20) + 1
}

/// Reads the source to its end, or until so many bytes were taken.
pub fn read_all<S: Source>(
    alloc: Global,
    source: &mut S,
    limit: usize,
) -> Result<Vec<u8>, SourceStop>
    ensures reads { ReadsAll (S.told source.old) (S.told source.new) limit result }
    ensures taken { TakesAtMost limit (S.told source.old) (S.told source.new) }
{
    let mut bytes = Vec::new(alloc);
    let mut room = [0; ROOM_BYTES];
    'pieces: while bytes.len() < limit {
        let most = ROOM_BYTES.min(limit - bytes.len());
        match take_some(source, &mut room, most) {
            Ok(0) => return Ok(bytes),
            Ok(count) => bytes.extend_from_slice(&room[..count])?,
            Err(Failed) => return Err(SourceStop::Fault),
        }
    }
    Ok(bytes)
}

// Takes at most so many bytes into the front of the room.
fn take_some<S: Source>(source: &mut S, room: &mut [u8], most: usize) -> Result<usize, Failed>
    requires above { 0 < most }
    requires within { most ≤ length room.old }
    ensures most { IfOk result (λ n. n ≤ most) }
    ensures bytes { Takes (S.told source.old) (S.told source.new) room.new result }
    ensures cause { HasCause (S.told source.old) (S.told source.new) result }
{
    source.take(&mut room[..most])
}
