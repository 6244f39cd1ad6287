//! The deposition of a segment's flux along one axis, and which edges of its cell a block has.

ghost use Rattle.std.specs.Prelude.{◌≡◌, pos, ◌^◌, ◌+ℤ◌, ◌≤ℤ◌, ◌<ℤ◌, ◌↔◌, IsTrue};
ghost use Rattle.pic_num.specs.Sizes.{IsAtMost};
ghost use Rattle.pic_num.specs.Space.{spot};
ghost use Rattle.pic_block.specs.Block.{IsShaped, AllAtMost};
ghost use Rattle.pic_block.specs.Fours.{IsBase, base_cell, AreFound, AreSmall};
ghost use Rattle.pic_flux.specs.Adds.{Adds};
ghost use Rattle.pic_flux.specs.CellFlux.{at_four, all_four, AreLayers, AreTrue};
ghost use Rattle.pic_flux.specs.Corners.{HasEdges};
ghost use Rattle.pic_flux.specs.Spans.{IsShort, four_by};

use crate::four::four_of;
use crate::spans::Spans;
use pic_block::{Base, Block, Found, Four, Zone, is_among};
use pic_num::Axis;

/// Which layers of a cell a block has: on each axis the cell's own, and the next one up.
#[derive(Clone, Copy)]
pub struct Layers {
    pub x: bool,
    pub y: bool,
    pub z: bool,
    pub up_x: bool,
    pub up_y: bool,
    pub up_z: bool,
}

/// Which of the layers of a cell and of the next ones up a block has: all edges of the cell share
/// these six tests.
#[inline(always)]
pub(crate) fn layers_in(to: &Block, cell: [i32; 3]) -> Layers
    ensures { AreLayers to.now.low to.now.size (spot cell) result }
{
    let Zone { low, size } = to.zone();
    let [low_x, low_y, low_z] = low;
    let [nx, ny, nz] = size;
    let [x, y, z] = cell;
    let (x, y, z) = (i64::from(x), i64::from(y), i64::from(z));
    Layers {
        x: is_among(low_x, nx, x),
        y: is_among(low_y, ny, y),
        z: is_among(low_z, nz, z),
        up_x: is_among(low_x, nx, x + 1),
        up_y: is_among(low_y, ny, y + 1),
        up_z: is_among(low_z, nz, z + 1),
    }
}

/// Whether three tests all hold.
#[inline(always)]
fn are_all(a: bool, b: bool, c: bool) -> bool
    ensures { IsTrue result ↔ AreTrue a b c }
{
    a & b & c
}

/// Which of the four edges along `axis` round a cell a block has, by its layers.
#[inline(always)]
pub(crate) fn edges_in(to: &Block, axis: Axis, cell: [i32; 3], layers: &Layers) -> Found
    requires { AreLayers to.now.low to.now.size (spot cell) layers.now }
    ensures { AreFound to.now.low to.now.size axis (spot cell) result }
{
    let Layers {
        x,
        y,
        z,
        up_x,
        up_y,
        up_z,
    } = *layers;
    let here = are_all(x, y, z);
    let (over_x, over_y, over_z) = (
        are_all(up_x, y, z),
        are_all(x, up_y, z),
        are_all(x, y, up_z),
    );
    match axis {
        Axis::X => Found {
            low_low: here,
            high_low: over_y,
            low_high: over_z,
            high_high: are_all(x, up_y, up_z),
        },
        Axis::Y => Found {
            low_low: here,
            high_low: over_z,
            low_high: over_x,
            high_high: are_all(up_x, y, up_z),
        },
        Axis::Z => Found {
            low_low: here,
            high_low: over_x,
            low_high: over_y,
            high_high: are_all(up_x, up_y, z),
        },
    }
}

/// Adds to the four edges along `axis` round a cell, of which the zone has those that are found,
/// what is carried times the weight of each.
#[inline(always)]
pub(crate) fn add_corners(to: &mut Block, axis: Axis, at: &Base, found: &Found, flux: &Four)
    requires base { IsBase to.old.low to.old.size at.now }
    requires found { AreFound to.old.low to.old.size axis (base_cell at.now) found.now }
    requires small { AreSmall flux.now }
    requires room { AllAtMost (2 ^ 110) to.old }
    ensures shape { IsShaped to.old to.new }
    ensures values { Adds to.old to.new (at_four axis (base_cell at.now) flux.now) }
{
    to.add_four(axis, at, found, flux);
}

/// All four edges along an axis round a cell.
#[inline(always)]
fn all_four() -> Found
    ensures { result ≡ all_four }
{
    Found {
        low_low: true,
        high_low: true,
        low_high: true,
        high_high: true,
    }
}

/// Whether `c` and the next layer up are among `size` layers from `low` on.
#[inline(always)]
fn are_among(low: i32, size: u32, c: i32) -> bool
    ensures low { IsTrue result → low ≤ℤ c }
    ensures high { IsTrue result → (c +ℤ pos 1) <ℤ (low +ℤ pos size) }
{
    let above = i64::from(c) - i64::from(low);
    above >= 0 && above + 1 < i64::from(size)
}

/// Whether a block has all edges of a cell.
#[inline(always)]
pub(crate) fn has_edges(to: &Block, cell: [i32; 3]) -> bool
    ensures { IsTrue result → HasEdges to.now.low to.now.size (spot cell) }
{
    let Zone { low, size } = to.zone();
    let [low_x, low_y, low_z] = low;
    let [nx, ny, nz] = size;
    let [x, y, z] = cell;
    if !are_among(low_x, nx, x) {
        return false;
    }
    if !are_among(low_y, ny, y) {
        return false;
    }
    are_among(low_z, nz, z)
}

/// Adds the flux of the charge `q` on a segment of these spans to the four edges of its cell along
/// `axis`, all of which the zone has.
#[inline(always)]
pub(crate) fn deposit_axis(spans: &Spans, q: i64, axis: Axis, at: &Base, to: &mut Block)
    requires short { IsShort spans.now }
    requires charge { IsAtMost q (2 ^ 31) }
    requires base { IsBase to.old.low to.old.size at.now }
    requires edges { HasEdges to.old.low to.old.size (base_cell at.now) }
    requires room { AllAtMost (2 ^ 110) to.old }
    ensures shape { IsShaped to.old to.new }
    ensures values { Adds to.old to.new
        (at_four axis (base_cell at.now) (four_by spans.now q axis)) }
{
    if spans.on(axis).way == 0 {
        return;
    }
    let flux = four_of(spans, q, axis);
    add_corners(to, axis, at, &all_four(), &flux);
}
