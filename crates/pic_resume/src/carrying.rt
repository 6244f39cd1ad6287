//! A dump, carried on to more steps.

ghost use Rattle.std.specs.Prelude.{◌≡◌, ◌≤◌, ◌∷◌, [], length, map, sum, None, OnOk};
ghost use Rattle.std.specs.List.{range_with_len};
ghost use Rattle.pic_num.specs.Limits.{most_steps};
ghost use Rattle.pic_num.specs.Space.{triple};
ghost use Rattle.pic_io.specs.Sinks.{sinks, Writes};
ghost use Rattle.pic_grid.specs.Tiles.{AreTiles};
ghost use Rattle.pic_deck.specs.Refusal.{ReadsAs};
ghost use Rattle.pic_record.specs.FrameFields.{frame_of, field_with};
ghost use Rattle.pic_record.specs.Layout.{LayoutView, IsLayout};
ghost use Rattle.pic_dump.specs.Allowed.{TakesAllowed, TakesHeader};
ghost use Rattle.pic_verify.specs.Reached.{TakesToRecord};
ghost use Rattle.pic_verify.specs.Verified.{IsRoomFor};
ghost use Rattle.pic_resume.specs.Carry.{asked, kept_piece, kept_pieces};
ghost use Rattle.pic_resume.specs.Carries.{Carries, IsExact, IsEarly};
ghost use Rattle.pic_resume.specs.Behind.{CarriesBehind};

use crate::carried::Carried;
use crate::carry_stop::CarryStop;
use pic_charge::ChargeRoom;
use pic_deck::{DeckFault, check_steps, check_tiles};
use pic_dump::{DumpReader, Next, is_due, put_frame, put_header};
use pic_energy::{Energies, frame_line};
use pic_grid::Snapshot;
use pic_header::Header;
use pic_io::{Failed, Side, Sink, Source};
use pic_verify::{first_break, rooms_for};
use std::alloc::Global;

/// Reads a dump to its end, and puts it as far as a run of so many steps in all has its frames: the
/// header with these steps, and each frame that is due in such a run, with its line on `report`.
/// Answers where that run goes on: the header, and the last frame that was read.
///
/// The steps are no fewer than the header's, and the tiles are such as its cells can be cut into. Each
/// frame is put once it was read whole, its energies included, and found to meet Gauss's law; the end
/// record is read to the end of the input and not used. All memory is taken before the first put, and
/// where it is wanted, or steps or tiles are refused, nothing was put and no byte behind the header was
/// taken. At most one byte is taken past the length that the header allows, and none behind the most that
/// the first record which isn't good can have: a frame's bytes, where one is due.
///
/// # Errors
/// `CarryStop` with the first fault of the bytes (its place, counted from 0, and its cause), or the
/// first break of Gauss's law (its frame, counted from 0, and its least node), before which the kept
/// frames were put, but nothing where the header has the fault; with the limit that the steps or the
/// tiles pass; a failed read, with the header and the kept ones of the frames put that were taken whole
/// before it; a failed write; or want of memory.
pub fn carry<S: Source, O: Sink, R: Sink>(
    alloc: Global,
    source: &mut S,
    out: &mut O,
    report: &mut R,
    steps: u32,
    tiles: [u32; 3],
) -> Result<Carried, CarryStop>
    ensures carries { Carries steps tiles (S.told source.old) (S.told source.new)
        (sinks (O.told out.old) (R.told report.old))
        (sinks (O.told out.new) (R.told report.new)) result }
    ensures taken { TakesAllowed (S.told source.old) (S.told source.new) }
    ensures reached { TakesToRecord (S.told source.old) (S.told source.new) }
    ensures exactly { IsExact steps tiles (S.told source.old) (S.told source.new)
        (sinks (O.told out.old) (R.told report.old))
        (sinks (O.told out.new) (R.told report.new)) result }
    ensures early { IsEarly result → TakesHeader (S.told source.old) (S.told source.new) }
{
    let (reader, header) = DumpReader::head(alloc, source)?;
    check_asked(alloc, &header, steps, tiles)?;
    let (mut last, mut charge) = rooms_for(alloc, &reader)?;
    let header = header.with_steps(steps);
    if let Err(Failed) = put_header(out, &header) {
        return Err(CarryStop::WriteFault(Side::Out));
    }
    let plan = Plan {
        steps,
        every: header.every(),
    };
    let step = put_kept(plan, source, out, report, reader, &mut last, &mut charge)?;
    Ok(Carried { header, step, last })
}

// Refuses steps and tiles that a run under this header can't go on with: the steps first.
fn check_asked(alloc: Global, header: &Header, steps: u32, tiles: [u32; 3]) -> Result<(), DeckFault>
    ensures walks { ReadsAs (asked steps tiles header.now) result }
    ensures least { OnOk result (header.now.steps ≤ steps) }
    ensures most { OnOk result (steps ≤ most_steps) }
    ensures tiled { OnOk result (AreTiles header.now.cells (triple tiles)) }
{
    check_steps(alloc, header.steps(), steps)?;
    check_tiles(alloc, header.cells(), tiles)
}

/// After which steps a frame is due: after every so many, and after the last.
#[derive(Clone, Copy)]
struct Plan {
    steps: u32,
    every: u32,
}

// Puts the kept frames behind the header, and answers the step of the last frame, which is kept or not.
fn put_kept<S: Source, O: Sink, R: Sink>(
    plan: Plan,
    source: &mut S,
    out: &mut O,
    report: &mut R,
    reader: DumpReader,
    state: &mut Snapshot,
    charge: &mut ChargeRoom,
) -> Result<u32, CarryStop>
    requires e { state.old.e ≡ field_with reader.layout state.old.e.values }
    requires b { state.old.b ≡ field_with reader.layout state.old.b.values }
    requires particles { length state.old.particles.items ≡ sum reader.layout.counts }
    requires charge { IsRoomFor reader.layout charge.old }
    requires every { plan.every ≡ reader.layout.every }
    requires limits { IsLayout reader.layout }
    requires start { reader.last ≡ None }
    ensures { CarriesBehind plan.steps reader (S.told source.old) (S.told source.new)
        (sinks (O.told out.old) (R.told report.old))
        (sinks (O.told out.new) (R.told report.new)) state.new result }
{
    let mut reader = reader;
    let mut frame = 0u32;
    let mut last = 0u32;
    'records: loop {
        match reader.next(source, state)? {
            Next::Frame(behind, step, energies) => {
                if let Some(at) = first_break(&behind, state, charge) {
                    return Err(CarryStop::Broken { frame, at });
                }
                put_due(plan, out, report, step, state, energies)?;
                reader = behind;
                frame += 1;
                last = step;
            }
            Next::End(_mark) => return Ok(last),
        }
    }
}

// Puts a frame and its line, where it is due.
fn put_due<O: Sink, R: Sink>(
    plan: Plan,
    out: &mut O,
    report: &mut R,
    step: u32,
    state: &Snapshot,
    energies: Energies,
) -> Result<(), Side>
    requires every { 1 ≤ plan.every }
    requires identities { map (λ particle. particle.id) state.now.particles.items
        ≡ range_with_len 0 (length state.now.particles.items) }
    ensures { (l : LayoutView) → l.every ≡ plan.every
        → Writes (sinks (O.told out.old) (R.told report.old))
        (sinks (O.told out.new) (R.told report.new))
        (kept_pieces plan.steps l (frame_of step state.now.e.values state.now.b.values
        state.now.particles.items energies ∷ [])) result }
{
    if is_due(plan.steps, plan.every, step) {
        put_with_line(out, report, step, state, energies)
    } else {
        Ok(())
    }
}

fn put_with_line<O: Sink, R: Sink>(
    out: &mut O,
    report: &mut R,
    step: u32,
    state: &Snapshot,
    energies: Energies,
) -> Result<(), Side>
    requires { map (λ particle. particle.id) state.now.particles.items
        ≡ range_with_len 0 (length state.now.particles.items) }
    ensures { (l : LayoutView) → Writes (sinks (O.told out.old) (R.told report.old))
        (sinks (O.told out.new) (R.told report.new))
        (kept_piece l (frame_of step state.now.e.values state.now.b.values
        state.now.particles.items energies) ∷ []) result }
{
    if let Err(Failed) = put_frame(out, step, state, energies) {
        return Err(Side::Out);
    }
    let line = frame_line(step, energies);
    match report.put(line.bytes()) {
        Ok(()) => Ok(()),
        Err(Failed) => Err(Side::Report),
    }
}
