//! The charge of the particles, summed in 64 bits where no sum can pass them.

ghost use Rattle.std.specs.Prelude.{◌≡◌, ◌^◌, ◌≤◌, All, IsTrue, length};
ghost use Rattle.pic_num.specs.Limits.{most_particles};
ghost use Rattle.pic_num.specs.Sizes.{IsAtMost};
ghost use Rattle.pic_num.specs.Space.{Triple};
ghost use Rattle.pic_num.specs.declared.motion.Kind.{Kind as KindName};
ghost use Rattle.pic_block.specs.Cells.{IsWithin, count_of};
ghost use Rattle.pic_grid.specs.Lattice.{node_at};
ghost use Rattle.pic_grid.specs.PushPhase.{CanShare};
ghost use Rattle.pic_charge.specs.Charge.{share, charge_of, most_node_charge, IsCharged};
ghost use Rattle.pic_charge.specs.Spread.{Adds};
ghost use Rattle.pic_charge.specs.Sums.{nodes_in, SumsAtMost, StaySmall};

use crate::charges::charge;
use crate::cloud::cloud_of;
use crate::sum_spread::add_box;
use pic_block::Place;
use pic_grid::{Cells, Nodes};
use pic_num::{Kind, Particle};

/// The greatest size of a charge whose shares are summed in 64 bits.
const MOST_LOW_CHARGE: u32 = 1 << 13;

/// The greatest size of a node's charge that is summed in 64 bits.
const MOST_SUM: u128 = 1 << 62;

/// Makes the nodes the charge of the particles, as `charge` does: by way of `sums`, one for each node,
/// where the charge of every node is known to be small. What `sums` holds doesn't matter.
pub(crate) fn charge_by(
    cells: Cells,
    kinds: &[Kind],
    particles: &[Particle],
    sums: &mut [i64],
    to: &mut Nodes,
)
    requires long { length sums.old ≡ count_of cells.n }
    requires same_cells { to.old.cells ≡ cells.n }
    requires limits { All IsCharged kinds.now }
    requires placed { All (CanShare cells.side cells.n kinds.now) particles.now }
    requires few { length particles.now ≤ most_particles }
    ensures long { length sums.new ≡ length sums.old }
    ensures same_cells { to.new.cells ≡ cells.n }
    ensures values { (p : Triple) → IsWithin p cells.n
        → node_at to.new p ≡ charge_of cells.side cells.n kinds.now particles.now p }
    ensures size { (p : Triple) → IsWithin p cells.n
        → IsAtMost (node_at to.new p) most_node_charge }
{
    let sub = cells.sub();
    let _side = sub.side();
    if stay_small(cells, kinds, particles.len()) {
        sum_up(cells, kinds, particles, sums);
        write(cells, sums, to);
    } else {
        charge(cells, kinds, particles, to);
    }
}

/// Whether the charge of so many particles is known to be small at every node, by the greatest that one
/// can give, times their number.
fn stay_small(cells: Cells, kinds: &[Kind], count: usize) -> bool
    requires limits { All IsCharged kinds.now }
    requires few { count ≤ most_particles }
    ensures { IsTrue result → StaySmall cells.side kinds.now count }
{
    let sub = cells.sub();
    let side = u64::from(sub.side());
    let greatest = greatest_charge(kinds);
    if greatest > MOST_LOW_CHARGE {
        return false;
    }
    let most = 12 * u64::from(greatest) * (side * side * side);
    count as u128 * u128::from(most) <= MOST_SUM
}

/// The greatest size of a species' charge, or 0 where there is none.
fn greatest_charge(kinds: &[Kind]) -> u32
    requires { All IsCharged kinds.now }
    ensures each { All (λ (k : KindName). IsAtMost k.charge result) kinds.now }
{
    let mut greatest = 0;
    for kind in kinds {
        greatest = greatest.max(kind.charge.unsigned_abs());
    }
    greatest
}

/// Makes the sums the charge of the particles, whatever they were.
fn sum_up(cells: Cells, kinds: &[Kind], particles: &[Particle], sums: &mut [i64])
    requires long { length sums.old ≡ count_of cells.n }
    requires limits { All IsCharged kinds.now }
    requires placed { All (CanShare cells.side cells.n kinds.now) particles.now }
    requires small { StaySmall cells.side kinds.now (length particles.now) }
    ensures long { length sums.new ≡ length sums.old }
    ensures values { (p : Triple) → IsWithin p cells.n → node_at (nodes_in cells.n sums.new) p
        ≡ charge_of cells.side cells.n kinds.now particles.now p }
    ensures small { SumsAtMost cells.n sums.new (2 ^ 62) }
{
    sums.fill(0);
    for particle in particles {
        add_particle(cells, kinds, particle, sums);
    }
}

/// Adds a particle's share to every sum.
#[inline(always)]
fn add_particle(cells: Cells, kinds: &[Kind], particle: &Particle, sums: &mut [i64])
    requires long { length sums.old ≡ count_of cells.n }
    requires limits { All IsCharged kinds.now }
    requires low { All (λ (k : KindName). IsAtMost k.charge (2 ^ 13)) kinds.now }
    requires placed { CanShare cells.side cells.n kinds.now particle.now }
    requires room { SumsAtMost cells.n sums.old (2 ^ 62) }
    ensures long { length sums.new ≡ length sums.old }
    ensures sums { Adds (nodes_in cells.n sums.old) (nodes_in cells.n sums.new)
        (share cells.side cells.n kinds.now particle.now) }
{
    let given = cloud_of(cells, kinds, particle);
    add_box(
        cells.numbers(),
        sums,
        given.x,
        given.y,
        given.z,
        given.amount,
    );
}

/// Writes the sums to the nodes.
fn write(cells: Cells, sums: &[i64], to: &mut Nodes)
    requires small { SumsAtMost cells.n sums.now (2 ^ 62) }
    requires long { length sums.now ≡ count_of cells.n }
    requires same_cells { to.old.cells ≡ cells.n }
    ensures same_cells { to.new.cells ≡ cells.n }
    ensures values { (p : Triple) → IsWithin p cells.n
        → node_at to.new p ≡ node_at (nodes_in cells.n sums.now) p }
{
    let size = cells.numbers();
    let mut place = Place::first();
    for i in 0..cells.count() {
        to.set(place.inner, i128::from(sums[i as usize]));
        place = place.following(size);
    }
}
