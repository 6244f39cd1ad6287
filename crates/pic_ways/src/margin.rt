//! A block over the box of cells with a margin, and what of it wraps to the edges of the grid.

ghost use Rattle.std.specs.Prelude.{◌≡◌, ℕ, ℤ, pos, ◌*◌, ◌^◌, ◌<◌, ◌≤◌, ◌-ℤ◌, length, IfOk};
ghost use Rattle.pic_num.specs.declared.axis.Axis.{Axis as AxisName};
ghost use Rattle.pic_num.specs.Limits.{most_cells_of_axis};
ghost use Rattle.pic_num.specs.Sizes.{IsAtMost};
ghost use Rattle.pic_num.specs.Space.{Triple, Spot, triple, spot};
ghost use Rattle.pic_block.specs.Block.{AllAtMost};
ghost use Rattle.pic_block.specs.Cells.{IsWithin, count_of};
ghost use Rattle.pic_grid.specs.Current.{sum_images, wrapped};
ghost use Rattle.pic_grid.specs.Lattice.{EachAtMost, value_at};
ghost use Rattle.pic_filter.specs.Smoothing.{most_smoothed};
ghost use Rattle.pic_ways.specs.Margin.{margin_low, margin_size, edge_or_zero};

use pic_block::{Block, Zone};
use pic_grid::{Cells, Lattice};
use pic_num::Axis;

/// The zone of the box of cells and its margin.
pub(crate) fn margin_of(cells: Cells) -> Zone
    ensures low { spot result.low ≡ margin_low }
    ensures size { triple result.size ≡ margin_size cells.n }
{
    let [x, y, z] = cells.numbers();
    Zone {
        low: [-1; 3],
        size: [x + 3, y + 3, z + 3],
    }
}

/// The component on `axis` at an edge, or 0 where the block doesn't have it.
fn at_or_zero(from: &Block, axis: Axis, cell: [i32; 3]) -> i128
    requires { AllAtMost most_smoothed from.now }
    ensures value { result ≡ edge_or_zero from.now axis (spot cell) }
    ensures size { IsAtMost result most_smoothed }
{
    if !from.has(cell) {
        return 0;
    }
    from.at(axis, cell)
}

/// The sum over the edges that wrap to an index on x: itself, and one box down and up.
fn sum_on_x(from: &Block, cells: Cells, axis: Axis, x: u32, y: i32, z: i32) -> i128
    requires x { x ≤ most_cells_of_axis }
    requires small { AllAtMost most_smoothed from.now }
    ensures value { result ≡ sum_images cells.n.x
        (λ i. edge_or_zero from.now axis (record { x = i; y = y; z = z })) x }
    ensures size { IsAtMost result (3 * most_smoothed) }
{
    let [n, _, _] = cells.numbers();
    let (i, n) = (x as i32, n as i32);
    let down = at_or_zero(from, axis, [i - n, y, z]);
    let own = at_or_zero(from, axis, [i, y, z]);
    let up = at_or_zero(from, axis, [i + n, y, z]);
    down + own + up
}

/// The same on y and x.
fn sum_on_y(from: &Block, cells: Cells, axis: Axis, x: u32, y: u32, z: i32) -> i128
    requires x { x ≤ most_cells_of_axis }
    requires y { y ≤ most_cells_of_axis }
    requires small { AllAtMost most_smoothed from.now }
    ensures value { result ≡ sum_images cells.n.y (λ j. sum_images cells.n.x
        (λ i. edge_or_zero from.now axis (record { x = i; y = j; z = z })) x) y }
    ensures size { IsAtMost result (9 * most_smoothed) }
{
    let [_, n, _] = cells.numbers();
    let (j, n) = (y as i32, n as i32);
    let down = sum_on_x(from, cells, axis, x, j - n, z);
    let own = sum_on_x(from, cells, axis, x, j, z);
    let up = sum_on_x(from, cells, axis, x, j + n, z);
    down + own + up
}

/// What of a block wraps to the edge on `axis` of a cell.
fn sum_at(from: &Block, cells: Cells, axis: Axis, cell: [u32; 3]) -> i128
    requires within { IsWithin (triple cell) cells.n }
    requires small { AllAtMost most_smoothed from.now }
    ensures value { result ≡ wrapped cells.n (edge_or_zero from.now axis) (triple cell) }
    ensures size { IsAtMost result (27 * most_smoothed) }
{
    let [_, _, n] = cells.numbers();
    let [x, y, z] = cell;
    let (k, n) = (z as i32, n as i32);
    let down = sum_on_y(from, cells, axis, x, y, k - n);
    let own = sum_on_y(from, cells, axis, x, y, k);
    let up = sum_on_y(from, cells, axis, x, y, k + n);
    down + own + up
}

/// Makes a lattice, whatever it held, what of a block wraps to its edges.
pub(crate) fn fold(from: &Block, to: &mut Lattice)
    requires small { AllAtMost most_smoothed from.now }
    ensures cells { to.new.cells ≡ to.old.cells }
    ensures side { to.new.side ≡ to.old.side }
    ensures parts { to.new.parts ≡ to.old.parts }
    ensures values { (a : AxisName) (p : Triple) → IsWithin p to.old.cells
        → value_at to.new a p ≡ wrapped to.old.cells (edge_or_zero from.now a) p }
{
    let cells = to.cells();
    for place in 0..3 * cells.count() as usize {
        let (axis, cell) = cells.place_at(place);
        to.set(axis, cell, sum_at(from, cells, axis, cell));
    }
}

/// Takes off a lattice what of a block wraps to its edges.
pub(crate) fn take_off(from: &Block, to: &mut Lattice)
    requires small { AllAtMost most_smoothed from.now }
    requires room { EachAtMost (2 ^ 84) to.old }
    ensures cells { to.new.cells ≡ to.old.cells }
    ensures side { to.new.side ≡ to.old.side }
    ensures parts { to.new.parts ≡ to.old.parts }
    ensures shape { length to.new.values ≡ 3 * count_of to.new.cells }
    ensures values { (a : AxisName) (p : Triple) → IsWithin p to.old.cells → value_at to.new a p
        ≡ value_at to.old a p -ℤ wrapped to.old.cells (edge_or_zero from.now a) p }
{
    let cells = to.cells();
    for place in 0..3 * cells.count() as usize {
        let (axis, cell) = cells.place_at(place);
        let less = to.at(axis, cell) - sum_at(from, cells, axis, cell);
        to.set(axis, cell, less);
    }
}
