//! Whether the values of lattices are known to be weak: all of them, or those around a point.

ghost use Rattle.std.specs.Prelude.{◌≡◌, IsTrue};
ghost use Rattle.pic_grid.specs.Pair.{IsPair};
ghost use Rattle.pic_grid.specs.Parts.{layered, IsWeakLayer};
ghost use Rattle.pic_gather.specs.Weak.{AreWeakLayers, IsWeak};

use crate::sides::Places;
use pic_grid::{Lattice, Pair};

/// The greatest side of a cell under whose weights a sum of weak values fits 64 bits.
const MAX_WEAK_SIDE: u32 = 1 << 12;

/// Whether a lattice is known to be weak: each layer of z is a part of its own and known to be so,
/// and the cells have few enough sub-cells. It may be false where that is the case, as
/// `Lattice::is_weak` may.
#[inline(never)]
pub fn is_weak(force: &Lattice) -> bool
    ensures { IsTrue result → IsWeak force.now }
{
    let cells = force.cells();
    let few = cells.sub().side() <= MAX_WEAK_SIDE;
    if !few || !force.is_layered() {
        return false;
    }
    let [_, _, nz] = cells.numbers();
    for z in 0..nz {
        if !force.is_weak(z) {
            return false;
        }
    }
    true
}

/// Whether all layers of z that a point's places lie in are known to be weak, in cells of few
/// enough sub-cells.
#[inline(always)]
pub(crate) fn are_weak(force: &Lattice, at: Places) -> bool
    requires parts { force.now.parts ≡ layered force.now.cells }
    requires nodes { IsPair force.now.side force.now.cells.z at.nodes.z }
    requires middles { IsPair force.now.side force.now.cells.z at.middles.z }
    ensures nodes { IsTrue result → AreWeakLayers force.now at.nodes.z }
    ensures middles { IsTrue result → AreWeakLayers force.now at.middles.z }
{
    let few = force.cells().sub().side() <= MAX_WEAK_SIDE;
    few & are_weak_at(force, at.nodes.z) & are_weak_at(force, at.middles.z)
}

/// Whether the two layers of a pair are known to be weak.
#[inline(always)]
fn are_weak_at(force: &Lattice, z: Pair) -> bool
    requires parts { force.now.parts ≡ layered force.now.cells }
    requires on { IsPair force.now.side force.now.cells.z z }
    ensures low { IsTrue result → IsWeakLayer force.now z.low }
    ensures high { IsTrue result → IsWeakLayer force.now z.high }
{
    force.is_weak(z.low) & force.is_weak(z.high)
}
