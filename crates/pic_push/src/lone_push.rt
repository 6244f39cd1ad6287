//! The push of one particle by any numbers, which asks for each whether the force values around it
//! are weak and the numbers of its push small, and the push of one alone, without its flux.

ghost use Rattle.std.specs.Prelude.{◌≡◌, IfOk};
ghost use Rattle.pic_grid.specs.Felt.{felt};
ghost use Rattle.pic_grid.specs.PushPhase.{CanShare, push_of};
ghost use Rattle.pic_gather.specs.Forces.{AreForces};
ghost use Rattle.pic_boris.specs.Pushes.{IsInLimits, Pushes};
ghost use Rattle.pic_tile.specs.Frame.{felt_in};
ghost use Rattle.pic_tile.specs.Leaving.{after_its_push};
ghost use Rattle.pic_tile.specs.Tiling.{cells_of};

use crate::moves::moved;
use pic_boris::{Halt, Moved, push};
use pic_gather::{Gathered, gather};
use pic_grid::Lattice;
use pic_num::{Kind, Particle, Sub};
use pic_tile::Frame;

/// A particle after its push in a frame: moved, or as it was where it halts.
pub fn push_alone(frame: &Frame, particle: &Particle) -> Particle
    requires { let m = frame.now.map in
        CanShare m.side (cells_of m) frame.now.kinds particle.now }
    ensures { result ≡ after_its_push (felt_in frame.now) particle.now }
{
    match feel_alone(frame, particle) {
        Ok(by) => moved(frame.cells().sub(), frame.cells(), particle, &by),
        Err(_) => *particle,
    }
}

/// A particle's new velocity and its move in a frame, or what halts it.
pub(crate) fn feel_alone(frame: &Frame, particle: &Particle) -> Result<Moved, Halt>
    requires { let m = frame.now.map in
        CanShare m.side (cells_of m) frame.now.kinds particle.now }
    ensures pushed { Pushes (push_of (felt_in frame.now) particle.now) result }
    ensures limits { IfOk result (IsInLimits frame.now.map.side) }
{
    let sub = frame.cells().sub();
    feel_any(
        sub,
        frame.kinds(),
        frame.force_e(),
        frame.force_b(),
        particle,
    )
}

// A particle's new velocity and its move, by the force values at its position, or what halts it.
fn feel_any(
    sub: Sub,
    kinds: &[Kind],
    force_e: &Lattice,
    force_b: &Lattice,
    particle: &Particle,
) -> Result<Moved, Halt>
    requires side { sub ≡ force_e.now.side }
    requires can { CanShare force_e.now.side force_e.now.cells kinds.now particle.now }
    requires cells { force_b.now.cells ≡ force_e.now.cells }
    requires sides { force_b.now.side ≡ force_e.now.side }
    requires parts { force_b.now.parts ≡ force_e.now.parts }
    requires e { AreForces force_e.now }
    requires b { AreForces force_b.now }
    ensures pushed { Pushes (push_of (felt kinds.now force_e.now force_b.now) particle.now) result }
    ensures limits { IfOk result (IsInLimits sub) }
{
    let kind = kinds[particle.species as usize];
    let Gathered { e, b } = gather(force_e, force_b, particle.x);
    push(sub, particle.v, e, b, kind.kick, kind.turn)
}
