//! The charge of the particles at the nodes.

ghost use Rattle.std.specs.Prelude.{◌≡◌, pos, ◌^◌, ◌≤◌, All, length};
ghost use Rattle.pic_num.specs.Limits.{most_particles};
ghost use Rattle.pic_num.specs.Sizes.{IsAtMost};
ghost use Rattle.pic_num.specs.Space.{Triple};
ghost use Rattle.pic_block.specs.Cells.{IsWithin};
ghost use Rattle.pic_grid.specs.Lattice.{node_at};
ghost use Rattle.pic_grid.specs.PushPhase.{CanShare};
ghost use Rattle.pic_charge.specs.Charge.{share, charge_of, most_node_charge, IsCharged};
ghost use Rattle.pic_charge.specs.Spread.{NodesAtMost, Adds};

use crate::cloud::cloud_of;
use crate::spread::add_box;
use pic_block::Place;
use pic_grid::{Cells, Nodes};
use pic_num::{Kind, Particle};

/// Makes the nodes the charge of the particles, in twelfths of a charge times a cubic sub-cell, whatever
/// the nodes held. Weights are linear: Birdsall and Langdon, "Plasma
/// Physics via Computer Simulation". The nodes have these cells, each particle has one of the kinds as
/// its species and a position in the box, and charges and particles are within their limits.
pub fn charge(cells: Cells, kinds: &[Kind], particles: &[Particle], to: &mut Nodes)
    requires same_cells { to.old.cells ≡ cells.n }
    requires limits { All IsCharged kinds.now }
    requires placed { All (CanShare cells.side cells.n kinds.now) particles.now }
    requires few { length particles.now ≤ most_particles }
    ensures same_cells { to.new.cells ≡ cells.n }
    ensures values { (p : Triple) → IsWithin p cells.n
        → node_at to.new p ≡ charge_of cells.side cells.n kinds.now particles.now p }
    ensures size { (p : Triple) → IsWithin p cells.n
        → IsAtMost (node_at to.new p) most_node_charge }
{
    let sub = cells.sub();
    let _side = sub.side();
    clear(cells, to);
    for particle in particles {
        add_particle(cells, kinds, particle, to);
    }
}

/// Makes every node 0.
fn clear(cells: Cells, to: &mut Nodes)
    requires { to.old.cells ≡ cells.n }
    ensures same_cells { to.new.cells ≡ cells.n }
    ensures values { (p : Triple) → IsWithin p cells.n → node_at to.new p ≡ pos 0 }
{
    let size = cells.numbers();
    let mut place = Place::first();
    for _ in 0..cells.count() {
        to.set(place.inner, 0);
        place = place.following(size);
    }
}

/// Adds a particle's share to every node.
fn add_particle(cells: Cells, kinds: &[Kind], particle: &Particle, to: &mut Nodes)
    requires same_cells { to.old.cells ≡ cells.n }
    requires limits { All IsCharged kinds.now }
    requires placed { CanShare cells.side cells.n kinds.now particle.now }
    requires room { NodesAtMost to.old (2 ^ 87) }
    ensures { Adds to.old to.new (share cells.side cells.n kinds.now particle.now) }
{
    let given = cloud_of(cells, kinds, particle);
    add_box(to, given.x, given.y, given.z, given.amount);
}
