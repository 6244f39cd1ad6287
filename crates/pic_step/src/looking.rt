//! What the probes of a run see of its state, laid into a snapshot.

ghost use Rattle.std.specs.Prelude.{◌≡◌, ◌<◌, length};
ghost use Rattle.std.specs.List.{All};
ghost use Rattle.pic_devices.specs.Probes.{IsPlace};
ghost use Rattle.pic_tile.specs.InOrder.{written};
ghost use Rattle.pic_step.specs.Shown.{HaveSameAt};

use pic_devices::Place;
use pic_grid::Lattice;
use pic_num::Particle;

/// Writes the values of some places into a lattice of as many cells.
pub(crate) fn copy_places(from: &Lattice, places: &[Place], to: &mut Lattice)
    requires places { All (IsPlace from.now.cells) places.now }
    requires cells { to.old.cells ≡ from.now.cells }
    ensures same { All (HaveSameAt to.new from.now) places.now }
    ensures shape { to.new ≡ record to.old { values = to.new.values } }
{
    for place in places {
        let value = from.at(place.axis, place.cell);
        to.set(place.axis, place.cell, value);
    }
}

/// Writes each of these particles at the place of its identity.
pub(crate) fn write_each(particles: &[Particle], to: &mut [Particle])
    requires { All (λ p. p.id < length to.old) particles.now }
    ensures { to.new ≡ written particles.now to.old }
{
    for particle in particles {
        to[particle.id as usize] = *particle;
    }
}
