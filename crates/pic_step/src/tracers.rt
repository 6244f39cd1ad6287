//! The particles that a run follows, beside those in its tiles.

ghost use Rattle.std.specs.Prelude.{◌≡◌, ◌<◌, IfOk, length};
ghost use Rattle.std.specs.List.{All};
ghost use Rattle.pic_grid.specs.PushPhase.{CanShare, moved_all};
ghost use Rattle.pic_tile.specs.Frame.{felt_in};
ghost use Rattle.pic_tile.specs.InOrder.{AreOrdered};
ghost use Rattle.pic_tile.specs.Tiling.{cells_of};
ghost use Rattle.pic_step.specs.Tracers.{IsOf, identities};

use pic_num::{NoMemory, Particle};
use pic_push::push_alone;
use pic_tile::Frame;
use std::alloc::Global;

/// The particles with these identities, of a list in the order of identities.
pub(crate) fn tracers_of(
    alloc: Global,
    ids: &[u32],
    particles: &[Particle],
) -> Result<Vec<Particle>, NoMemory>
    requires ids { All (λ id. id < length particles.now) ids.now }
    requires ordered { AreOrdered particles.now }
    ensures tracers { IfOk result (λ tracers. All (IsOf particles.now) tracers.items) }
    ensures followed { IfOk result (λ tracers. identities tracers.items ≡ ids.now) }
{
    let mut tracers = Vec::with_capacity(alloc, ids.len())?;
    for id in ids {
        tracers.push(particles[*id as usize])?;
    }
    Ok(tracers)
}

/// Pushes each of the particles that are followed by the force values of a frame. What halts one of
/// them halts it in its tile too.
pub(crate) fn push_tracers(frame: &Frame, tracers: &mut [Particle])
    requires { let m = frame.now.map in
        All (CanShare m.side (cells_of m) frame.now.kinds) tracers.old }
    ensures { tracers.new ≡ moved_all (felt_in frame.now) tracers.old }
{
    for i in 0..tracers.len() {
        tracers[i] = push_alone(frame, &tracers[i]);
    }
}
