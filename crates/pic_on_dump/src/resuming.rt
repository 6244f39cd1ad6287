//! The command `resume`: a dump is put again with more steps, and its run goes on from its last frame.

ghost use Rattle.std.specs.Prelude.{◌≡◌, ◌<◌, ◌≤◌, [], map, IfOk};
ghost use Rattle.pic_num.specs.Space.{triple};
ghost use Rattle.pic_grid.specs.Tiles.{AreTiles};
ghost use Rattle.pic_crew.specs.Teams.{most_workers};
ghost use Rattle.pic_io.specs.Sinks.{sinks};
ghost use Rattle.pic_step.specs.Sound.{IsSound};
ghost use Rattle.pic_tile.specs.Frame.{AreKinds};
ghost use Rattle.pic_on_dump.specs.Stops.{early_of_carry};
ghost use Rattle.pic_report.specs.Ended.{ended_of};
ghost use Rattle.pic_report.specs.Manner.{Performs};
ghost use Rattle.pic_states.specs.Rooms.{HasShape};
ghost use Rattle.pic_report.specs.Leaves.{LeavesKept};
ghost use Rattle.pic_report.specs.Finishes.{Finishes};
ghost use Rattle.pic_on_dump.specs.Resume.{behind_outcome, carried_state, resuming};

use pic_dump::Head;
use pic_gate::Gate;
use pic_grid::copy_loops;
use pic_io::{Sink, Source};
use pic_num::NoMemory;
use pic_open::{StageStop, end_early};
use pic_report::{Cut, Early, Ended};
use pic_resume::{Carried, CarryStop, carry};
use pic_states::{Output, Plan, Stage, Threading, write_further};
use pic_step::State;
use pic_tile::{Kinds, Setup, TileMap};
use std::alloc::Global;
use std::thread::Threads;

/// How a run goes on: to so many steps in all, on so many workers, and on so many tiles along each axis.
#[derive(Clone, Copy)]
pub struct Further {
    pub steps: u32,
    pub workers: u32,
    pub tiles: [u32; 3],
}

/// Puts the dump that the source gives again, with so many steps and the frames that are due in such a
/// run, and goes on from its last frame: header, due frames and end record on `out`, the lines of frames
/// and end on `report`.
pub fn resume<H: Threads + Sync, S: Source, O: Sink, R: Sink, G: Gate + Sync>(
    threading: Threading<'_, H, G>,
    alloc: Global,
    source: &mut S,
    out: &mut O,
    report: &mut R,
    further: Further,
) -> Result<Ended, Cut>
    requires some { 0 < further.workers }
    requires most { further.workers ≤ most_workers }
    ensures { Performs (resuming further.steps further.tiles)
        (S.told source.old) (S.told source.new) (sinks (O.told out.old) (R.told report.old))
        (sinks (O.told out.new) (R.told report.new)) (ended_of result) }
{
    match carry(alloc, source, out, report, further.steps, further.tiles) {
        Ok(carried) => {
            let _limits = carried.header.version();
            go_on(threading, alloc, out, report, carried, further)
        }
        Err(stop) => match early_of(stop) {
            Ok(early) => end_early(report, StageStop::Answer(early)),
            Err(cut) => Err(cut),
        },
    }
}

// Why a dump isn't carried on: an early end, or what cuts the call off.
fn early_of(stop: CarryStop) -> Result<Early, Cut>
    ensures { result ≡ early_of_carry stop }
{
    match stop {
        CarryStop::ReadFault => Ok(Early::ReadFault),
        CarryStop::BadDump { place, cause } => Ok(Early::BadDump { place, cause }),
        CarryStop::Refused(refusal) => Ok(Early::Refused(refusal)),
        CarryStop::Broken { frame, at } => Ok(Early::Broken { frame, at }),
        CarryStop::WriteFault(side) => Err(Cut::Write(side)),
        CarryStop::NoMemory => Err(Cut::NoMemory),
    }
}

// The run behind the frames that were put.
fn go_on<H: Threads + Sync, O: Sink, R: Sink, G: Gate + Sync>(
    threading: Threading<'_, H, G>,
    alloc: Global,
    out: &mut O,
    report: &mut R,
    carried: Carried,
    further: Further,
) -> Result<Ended, Cut>
    requires some { 0 < further.workers }
    requires most { further.workers ≤ most_workers }
    requires tiled { AreTiles carried.header.cells (triple further.tiles) }
    requires sound { IsSound (carried_state carried) }
    requires room { HasShape carried.last (carried_state carried) }
    requires behind { carried.step ≤ carried.header.steps }
    ensures { Finishes LeavesKept (behind_outcome [] [] carried.header (carried_state carried))
        (sinks (O.told out.old) (R.told report.old))
        (sinks (O.told out.new) (R.told report.new)) result }
{
    let plan = Plan {
        output: Output::Dump,
        steps: carried.header.steps(),
        every: carried.header.every(),
        workers: further.workers,
    };
    let stage = stage_from(alloc, carried, further.tiles)?;
    write_further(threading, alloc, &plan, out, report, stage)
}

// The state that was carried, on so many tiles, with the room that it came in.
fn stage_from(alloc: Global, carried: Carried, tiles: [u32; 3]) -> Result<Stage, NoMemory>
    requires tiled { AreTiles carried.header.cells (triple tiles) }
    requires sound { IsSound (carried_state carried) }
    requires room { HasShape carried.last (carried_state carried) }
    ensures state { IfOk result (λ stage. stage.state.world ≡ carried_state carried) }
    ensures tiles { IfOk result (λ stage. stage.state.map.tiles ≡ triple tiles) }
    ensures followed { IfOk result (λ stage. stage.state.followed ≡ []) }
    ensures room { IfOk result (λ stage. HasShape stage.room stage.state.world) }
{
    let Carried { header, step, last } = carried;
    let setup = Setup {
        map: TileMap::new(header.cells(), tiles),
        filter: header.filter(),
        loops: copy_loops(alloc, header.loops().as_slice())?,
        scales: header.scales(),
        kinds: kinds_of(alloc, header.species().as_slice())?,
    };
    let state = State::from_frame(alloc, &setup, step, &last)?;
    Ok(Stage { state, room: last })
}

// What the particles of each species of a dump have in common.
fn kinds_of(alloc: Global, heads: &[Head]) -> Result<Kinds, NoMemory>
    requires { AreKinds (map (λ s. s.kind) heads.now) }
    ensures { IfOk result (λ kinds. kinds ≡ map (λ s. s.kind) heads.now) }
{
    let mut kinds = Vec::new(alloc);
    for head in heads {
        kinds.push(head.kind)?;
    }
    Ok(Kinds::from_vec(kinds))
}
