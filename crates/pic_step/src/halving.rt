//! Both half steps of B of a step, with the force values between them in the frame of the particles.

ghost use Rattle.std.specs.Prelude.{◌≡◌};
ghost use Rattle.pic_num.specs.Limits.{most_value};
ghost use Rattle.pic_grid.specs.Lattice.{EachAtMost};
ghost use Rattle.pic_grid.specs.Parts.{layered};
ghost use Rattle.pic_tile.specs.Tiling.{cells_of};
ghost use Rattle.pic_step.specs.Halved.{HasHalved};
ghost use Rattle.pic_step.specs.Kept.{AreCut};

use crate::plasma::Plasma;
use pic_advance::{Halves, advance_b};
use pic_grid::{Lattice, Stop};
use pic_num::Scales;
use pic_team::Team;
use pic_tile::Frame;
use std::thread::Threads;

/// What both half steps of B leave: B after them, the particles with the force values of B between
/// them in their frame, and what stops the second one, if anything does. B is of no matter then.
#[derive(Drop)]
pub(crate) struct Halved {
    pub(crate) b: Lattice,
    pub(crate) plasma: Plasma,
    pub(crate) stop: Option<Stop>,
}

/// Both half steps of B of a step, on the workers of a team. Nothing of the particles changes but the
/// force values of B in their frame.
///
/// # Errors
/// The stop of the first half step.
pub(crate) fn halve_b<H: Threads + Sync, G>(
    team: &Team<H, G>,
    scales: &Scales,
    e: &Lattice,
    b: Lattice,
    plasma: Plasma,
) -> Result<Halved, Stop>
    requires cut { AreCut plasma.frame.map e.now b }
    requires parts { plasma.frame.force_e.parts ≡ layered (cells_of plasma.frame.map) }
    requires e_small { EachAtMost most_value e.now }
    requires b_small { EachAtMost most_value b }
    ensures { HasHalved scales.now e.now b plasma result }
{
    let Plasma {
        frame,
        tiles,
        spare,
        room,
        smooth,
        tracers,
        shelves,
        count,
    } = plasma;
    let map = *frame.map();
    let (kinds, force_e, force_b) = frame.into_parts();
    let Halves { b, force, stop } = advance_b(team, scales, e, b, force_b, count > 0)?;
    let plasma = Plasma {
        frame: Frame::new(map, kinds, force_e, force),
        tiles,
        spare,
        room,
        smooth,
        tracers,
        shelves,
        count,
    };
    Ok(Halved { b, plasma, stop })
}
