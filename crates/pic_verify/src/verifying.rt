//! A dump, verified frame by frame.

ghost use Rattle.std.specs.Prelude.{◌≡◌, length, sum, None, Err, IfOk};
ghost use Rattle.pic_grid.specs.Parts.{one_part};
ghost use Rattle.pic_record.specs.FrameFields.{IsHeld};
ghost use Rattle.pic_record.specs.Layout.{IsLayout};
ghost use Rattle.pic_dump.specs.Allowed.{TakesAllowed, TakesHeader};
ghost use Rattle.pic_verify.specs.Reached.{Reaches, TakesToRecord};
ghost use Rattle.pic_verify.specs.Verified.{break_of, IsRoomFor};
ghost use Rattle.pic_verify.specs.Verifies.{Verifies, IsExact, Walks};
ghost use Rattle.pic_verify.specs.declared.verify_stop.VerifyStop.TheVariants.{NoMemory};

use crate::verify_stop::VerifyStop;
use pic_charge::{Break, ChargeRoom};
use pic_dump::{DumpReader, Next};
use pic_grid::Snapshot;
use pic_io::Source;
use std::alloc::Global;

/// Reads a dump to its end, and answers how many frames it has.
///
/// Each frame is read whole, its energies included, and then held against Gauss's law, before the next
/// record is read: the first fault or the first break is answered. All memory is taken before the first
/// frame: where it is wanted, no byte behind the header was taken. At most one byte is taken past the
/// length that the header allows, and none behind the most that the first record which isn't good can
/// have: a frame's bytes, where one is due. Of a source that begins with no header, no more is taken than
/// a name's 32 bytes beyond its first fault.
///
/// # Errors
/// `VerifyStop` with the first fault of the bytes (its place, counted from 0, and its cause), or the
/// first break of Gauss's law (its frame, counted from 0, and its least node); a failed read; or want of
/// memory.
pub fn verify<S: Source>(alloc: Global, source: &mut S) -> Result<u32, VerifyStop>
    ensures verifies { Verifies (S.told source.old) (S.told source.new) result }
    ensures taken { TakesAllowed (S.told source.old) (S.told source.new) }
    ensures reached { TakesToRecord (S.told source.old) (S.told source.new) }
    ensures exactly { IsExact (S.told source.old) (S.told source.new) result }
    ensures no_memory { result ≡ Err NoMemory
        → TakesHeader (S.told source.old) (S.told source.new) }
{
    let (reader, _header) = DumpReader::head(alloc, source)?;
    let (mut state, mut room) = rooms_for(alloc, &reader)?;
    walk(source, reader, &mut state, &mut room)
}

/// Room for a frame of a dump, and for the charge of its particles.
pub fn rooms_for(
    alloc: Global,
    reader: &DumpReader,
) -> Result<(Snapshot, ChargeRoom), pic_num::NoMemory>
    ensures e { IfOk result (λ r. (r.0.e.cells ≡ reader.now.layout.cells)
        × (r.0.e.side ≡ reader.now.layout.side)) }
    ensures b { IfOk result (λ r. (r.0.b.cells ≡ reader.now.layout.cells)
        × (r.0.b.side ≡ reader.now.layout.side)) }
    ensures parts { IfOk result (λ r. (r.0.e.parts ≡ one_part) × (r.0.b.parts ≡ one_part)) }
    ensures particles { IfOk result
        (λ r. length r.0.particles.items ≡ sum reader.now.layout.counts) }
    ensures room { IfOk result (λ r. IsRoomFor reader.now.layout r.1) }
    ensures limits { IsLayout reader.now.layout }
{
    let cells = reader.cells();
    let state = reader.room(alloc)?;
    let room = ChargeRoom::new(alloc, cells, reader.filter())?;
    Ok((state, room))
}

// Verifies the records behind the header.
fn walk<S: Source>(
    source: &mut S,
    reader: DumpReader,
    state: &mut Snapshot,
    room: &mut ChargeRoom,
) -> Result<u32, VerifyStop>
    requires e { state.old.e.cells ≡ reader.layout.cells }
    requires b { state.old.b.cells ≡ reader.layout.cells }
    requires particles { length state.old.particles.items ≡ sum reader.layout.counts }
    requires room { IsRoomFor reader.layout room.old }
    requires limits { IsLayout reader.layout }
    requires start { reader.last ≡ None }
    ensures walks { Walks reader (S.told source.old) (S.told source.new) result }
    ensures reaches { Reaches reader (S.told source.old) (S.told source.new) }
{
    let mut reader = reader;
    let mut frame = 0u32;
    'records: loop {
        match reader.next(source, state)? {
            Next::Frame(behind, _step, _energies) => {
                if let Some(at) = first_break(&behind, state, room) {
                    return Err(VerifyStop::Broken { frame, at });
                }
                reader = behind;
                frame += 1;
            }
            Next::End(_mark) => return Ok(frame),
        }
    }
}

/// The least node of a frame where the divergence of E and the charge of the particles differ, where
/// there is one.
pub fn first_break(reader: &DumpReader, state: &Snapshot, room: &mut ChargeRoom) -> Option<Break>
    requires e { state.now.e.cells ≡ reader.now.layout.cells }
    requires room { IsRoomFor reader.now.layout room.old }
    requires limits { IsLayout reader.now.layout }
    requires held { IsHeld reader.now.layout state.now.e state.now.b state.now.particles.items }
    requires particles { length state.now.particles.items ≡ sum reader.now.layout.counts }
    ensures value { result ≡ break_of reader.now.layout state.now.e.values
        state.now.particles.items }
    ensures room { room.new ≡ room.old }
{
    room.find_break(reader.kinds(), &state.particles, &state.e)
}
