//! The push phase of a state: force values, and the push of all particles tile by tile.

ghost use Rattle.std.specs.Prelude.{◌≡◌, ◌<◌, IfOk, IsErr};
ghost use Rattle.pic_grid.specs.Gather.{force_of};
ghost use Rattle.pic_grid.specs.Lattice.{Field, value_at, field_of};
ghost use Rattle.pic_grid.specs.Parts.{layered};
ghost use Rattle.pic_grid.specs.PushPhase.{moved_all};
ghost use Rattle.pic_tile.specs.CoreState.{all_particles, IsOpening};
ghost use Rattle.pic_tile.specs.Frame.{felt_in};
ghost use Rattle.pic_tile.specs.Tiling.{cells_of, grid_of_tiling};
ghost use Rattle.pic_step.specs.Kept.{IsCut};
ghost use Rattle.pic_step.specs.Plasma.{IsPlasma};
ghost use Rattle.pic_step.specs.PushOn.{around_fields, CanPush, HasForces, HasPushed};
ghost use Rattle.pic_step.specs.Sound.{IsSafe};

use crate::exchanging::push_and_exchange;
use crate::plasma::Plasma;
use crate::tracers::push_tracers;
use pic_advance::force_values;
use pic_gate::Gate;
use pic_grid::{Lattice, Stop};
use pic_num::{NoMemory, Scales};
use pic_push::least_stop;
use pic_team::Team;
use pic_tile::Frame;
use std::alloc::Global;
use std::thread::Threads;

/// Pushes all particles by E and by the force values of B in their frame, on the workers of a team.
/// Their flux is left in their tiles. Those that are followed are pushed once more, alone. Where there
/// are none, nothing is done: no force value is needed and no parcel is sent.
pub fn push_phase<H: Threads + Sync, G: Gate + Sync>(
    team: &Team<H, G>,
    alloc: Global,
    scales: &Scales,
    e: &Lattice,
    plasma: Plasma,
) -> Result<(Plasma, Option<Stop>), NoMemory>
    requires can { CanPush scales.now e.now plasma }
    ensures pushed { IfOk result (λ r. (b : Field) → HasForces scales.now b plasma.frame
        → HasPushed (around_fields scales.now plasma.frame.kinds e.now b) plasma r.0 r.1) }
    ensures tracers { IfOk result (λ r. (b : Field) → HasForces scales.now b plasma.frame
        → r.0.tracers.items ≡ moved_all
        (around_fields scales.now plasma.frame.kinds e.now b) plasma.tracers.items) }
    ensures alone { IsErr result → 1 < team.now.workers }
{
    if plasma.count == 0 {
        let map = plasma.frame.map();
        let _tiles = map.tiles();
        return Ok((plasma, None));
    }
    let Plasma {
        frame,
        tiles,
        spare,
        room,
        smooth,
        mut tracers,
        shelves,
        count,
    } = plasma;
    let frame = with_forces(team, scales, e, frame);
    push_tracers(&frame, &mut tracers);
    let plasma = Plasma {
        frame,
        tiles,
        spare,
        room,
        smooth,
        tracers,
        shelves,
        count,
    };
    let pushed = push_tiles(team, alloc, plasma)?;
    Ok(pushed)
}

/// Pushes the particles of all tiles by the force values, and finds what stops them.
fn push_tiles<H: Threads + Sync, G: Gate + Sync>(
    team: &Team<H, G>,
    alloc: Global,
    plasma: Plasma,
) -> Result<(Plasma, Option<Stop>), NoMemory>
    requires side { 0 < plasma.frame.map.side }
    requires opening { IsOpening plasma.frame plasma.tiles.items }
    requires ready { IsPlasma (all_particles plasma.tiles.items) plasma }
    ensures pushed { IfOk result (λ r. HasPushed (felt_in plasma.frame) plasma r.0 r.1) }
    ensures tracers { IfOk result (λ r. r.0.tracers ≡ plasma.tracers) }
    ensures alone { IsErr result → 1 < team.now.workers }
{
    let plasma = push_and_exchange(team, alloc, plasma)?;
    let map = plasma.frame.map();
    let _tiles = map.tiles();
    let stop = least_stop(&plasma.tiles);
    Ok((plasma, stop))
}

/// The frame with the force values of E. Those of B stay.
fn with_forces<H: Threads + Sync, G>(
    team: &Team<H, G>,
    scales: &Scales,
    e: &Lattice,
    frame: Frame,
) -> Frame
    requires cut { IsCut frame.map e.now }
    requires safe { IsSafe scales.now.e_force e.now }
    requires parts { frame.force_e.parts ≡ layered (cells_of frame.map) }
    ensures { let m = frame.map in result ≡ record {
      cells = grid_of_tiling m;
      map = m;
      kinds = frame.kinds;
      force_e = field_of m.side (cells_of m) (layered (cells_of m))
          (force_of scales.now.e_force (value_at e.now));
      force_b = frame.force_b;
    } }
{
    let map = *frame.map();
    let (kinds, force_e, force_b) = frame.into_parts();
    let force_e = force_values(team, scales.e_force, e, force_e);
    Frame::new(map, kinds, force_e, force_b)
}
