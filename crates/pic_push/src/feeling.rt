//! What moves a particle: the force values at its position, and its charge.

ghost use Rattle.std.specs.Prelude.{◌≡◌, ◌<◌, Ok, IfSome, IsTrue, length, All};
ghost use Rattle.pic_num.specs.Limits.{most_charge};
ghost use Rattle.pic_num.specs.Sizes.{IsAtMost};
ghost use Rattle.pic_grid.specs.Felt.{felt};
ghost use Rattle.pic_grid.specs.PushPhase.{push_of, kind_of};
ghost use Rattle.pic_grid.specs.Species.{IsKind};
ghost use Rattle.pic_boris.specs.Pushes.{shift_of, IsInLimits};
ghost use Rattle.pic_grid.specs.PushPhase.{CanShare};
ghost use Rattle.pic_gather.specs.Forces.{AreForces};
ghost use Rattle.pic_gather.specs.Weak.{IsWeak};

use pic_boris::{MAX_SMALL_FIELD, Moved, push_narrow};
use pic_gather::{Gathered, gather_weak, is_weak};
use pic_grid::Lattice;
use pic_num::{Kind, Particle, Sub};
use pic_tile::Frame;

/// Whether the force values of a frame are known to be weak, both of E and of B.
pub(crate) fn has_weak_forces(frame: &Frame) -> bool
    ensures e { IsTrue result → IsWeak frame.now.force_e }
    ensures b { IsTrue result → IsWeak frame.now.force_b }
{
    is_weak(frame.force_e()) & is_weak(frame.force_b())
}

/// A particle's new velocity and its move, by the force values at its position, all of which are
/// weak, where the numbers of its push are small; else `None`, which says nothing. Most are.
#[inline(always)]
pub(crate) fn feel(
    sub: Sub,
    kinds: &[Kind],
    force_e: &Lattice,
    force_b: &Lattice,
    particle: &Particle,
) -> Option<Moved>
    requires side { sub ≡ force_e.now.side }
    requires can { CanShare force_e.now.side force_e.now.cells kinds.now particle.now }
    requires cells { force_b.now.cells ≡ force_e.now.cells }
    requires sides { force_b.now.side ≡ force_e.now.side }
    requires e { AreForces force_e.now }
    requires b { AreForces force_b.now }
    requires weak_e { IsWeak force_e.now }
    requires weak_b { IsWeak force_b.now }
    ensures pushed { let w = felt kinds.now force_e.now force_b.now in
        IfSome result (λ m. push_of w particle.now ≡ Ok (shift_of m)) }
    ensures limits { IfSome result (IsInLimits sub) }
{
    let kind = kinds[particle.species as usize];
    let Gathered { e, b } = gather_weak(force_e, force_b, particle.x, MAX_SMALL_FIELD)?;
    push_narrow(sub, particle.v, e, b, kind.kick, kind.turn)
}

/// The charge of a particle.
pub(crate) fn charge_of(kinds: &[Kind], particle: &Particle) -> i32
    requires species { particle.now.species < length kinds.now }
    requires kinds { All IsKind kinds.now }
    ensures value { result ≡ (kind_of kinds.now particle.now).charge }
    ensures size { IsAtMost result most_charge }
{
    kinds[particle.species as usize].charge
}
