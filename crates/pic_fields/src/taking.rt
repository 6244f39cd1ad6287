//! Fields of bytes, and the end of the input.

ghost use Rattle.std.specs.Prelude.{◌≡◌, ◌+◌, ◌<◌, ◌^◌, length};
ghost use Rattle.pic_fields.specs.Parser.{field, finished};
ghost use Rattle.pic_fields.specs.Reads.{Reads, ReadsEnd, always, as_it_is};
ghost use Rattle.pic_fields.specs.Fills.{Fills};

use crate::cause::Cause;
use crate::read_stop::ReadStop;
use pic_io::{Failed, Source};

/// Fills the room from its front, and returns how many bytes came: fewer only at the end of the
/// input. No more are taken.
#[inline(always)]
pub fn fill<S: Source>(source: &mut S, room: &mut [u8]) -> Result<usize, ReadStop>
    ensures length { length room.new ≡ length room.old }
    ensures fills { Fills (S.told source.old) (S.told source.new) room.new result }
{
    if room.is_empty() {
        return Ok(0);
    }
    // The first take stands apart: a field of a known length that lies in memory is then one move.
    let mut count = match source.take(room) {
        Ok(0) => return Ok(0),
        Ok(first) => first,
        Err(Failed) => return Err(ReadStop::ReadFault),
    };
    while count < room.len() {
        match source.take(&mut room[count..]) {
            Ok(0) => return Ok(count),
            Ok(more) => count += more,
            Err(Failed) => return Err(ReadStop::ReadFault),
        }
    }
    Ok(count)
}

/// Fills the room with the bytes of a field that begins at `place`.
///
/// A field that the end of the input cuts is cause 9 at that end.
#[inline(always)]
pub fn take_field<S: Source>(source: &mut S, place: u64, room: &mut [u8]) -> Result<(), ReadStop>
    requires { place + length room.old < 2 ^ 63 }
    ensures length { length room.new ≡ length room.old }
    ensures reads { Reads (always room.new) (field (length room.old)) place
        (place + length room.old)
        (S.told source.old) (S.told source.new) result }
{
    let count = fill(source, room)?;
    if count < room.len() {
        return Err(Cause::CutShort.at(place + count as u64));
    }
    Ok(())
}

/// Finds the end of the input at `place`; a byte there is cause 10.
pub fn read_end<S: Source>(source: &mut S, place: u64) -> Result<(), ReadStop>
    ensures reads { ReadsEnd as_it_is (finished tt) place (place + 1) (S.told source.old)
        (S.told source.new) result }
{
    let mut room = [0u8; 1];
    if fill(source, &mut room)? == 0 {
        return Ok(());
    }
    Err(Cause::TooMany.at(place))
}
