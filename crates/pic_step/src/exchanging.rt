//! The push of all particles of a state, tile by tile, and the exchange of what leaves their tiles.

ghost use Rattle.std.specs.Prelude.{IfOk};
ghost use Rattle.pic_tile.specs.CoreState.{IsOpening};
ghost use Rattle.pic_core.specs.AtStart.{IsScratch};
ghost use Rattle.pic_step.specs.Exchange.{HasExchanged, Exchanges};

use crate::plasma::Plasma;
use pic_core::Core;
use pic_crew::on_board;
use pic_gate::Gate;
use pic_num::NoMemory;
use pic_team::Team;
use std::alloc::Global;
use std::thread::Threads;

/// Pushes the particles of all tiles, and moves each to the tile that it leads to. One worker lets
/// the events of a core come, one after another, and takes no memory; more work at a board, each in
/// a thread of its own where one can be made. Each worker passes the gate.
///
/// # Errors
/// `NoMemory` where it is refused to the board of two or more workers; nothing is handed back then.
pub(crate) fn push_and_exchange<H: Threads + Sync, G: Gate + Sync>(
    team: &Team<H, G>,
    alloc: Global,
    plasma: Plasma,
) -> Result<Plasma, NoMemory>
    requires opening { IsOpening plasma.frame plasma.tiles.items }
    requires room { IsScratch plasma.frame.map plasma.room }
    ensures { Exchanges plasma team.now.workers result }
{
    if team.workers.count() == 1 {
        Ok(in_turn(plasma, team.gate))
    } else {
        at_board(team, alloc, plasma)
    }
}

/// The events of a core, as one worker lets them come.
fn in_turn<G: Gate>(plasma: Plasma, gate: &G) -> Plasma
    requires opening { IsOpening plasma.frame plasma.tiles.items }
    requires room { IsScratch plasma.frame.map plasma.room }
    ensures { HasExchanged plasma result }
{
    let Plasma {
        frame,
        tiles,
        spare,
        room,
        smooth,
        tracers,
        shelves,
        count,
    } = plasma;
    let mut core = Core::begin(frame, tiles, room);
    core.run_in_turn(gate);
    let (frame, tiles, room) = core.close_with_scratch();
    Plasma {
        frame,
        tiles,
        spare,
        room,
        smooth,
        tracers,
        shelves,
        count,
    }
}

/// The work of two or more workers at a board.
fn at_board<H: Threads + Sync, G: Gate + Sync>(
    team: &Team<H, G>,
    alloc: Global,
    plasma: Plasma,
) -> Result<Plasma, NoMemory>
    requires opening { IsOpening plasma.frame plasma.tiles.items }
    requires room { IsScratch plasma.frame.map plasma.room }
    ensures { IfOk result (HasExchanged plasma) }
{
    let Plasma {
        frame,
        tiles,
        spare,
        room,
        smooth,
        tracers,
        shelves,
        count,
    } = plasma;
    let done = on_board(team, alloc, frame, tiles)?;
    let (frame, tiles) = done;
    Ok(Plasma {
        frame,
        tiles,
        spare,
        room,
        smooth,
        tracers,
        shelves,
        count,
    })
}
