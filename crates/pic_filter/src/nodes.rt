//! The filter of the numbers at nodes.

ghost use Rattle.std.specs.Prelude.{◌≡◌};
ghost use Rattle.pic_num.specs.declared.axis.Axis.TheVariants.{X, Y};
ghost use Rattle.pic_num.specs.Sizes.{IsAtMost};
ghost use Rattle.pic_num.specs.Space.{Triple, triple};
ghost use Rattle.pic_block.specs.Cells.{IsWithin};
ghost use Rattle.pic_grid.specs.Lattice.{node_at};
ghost use Rattle.pic_filter.specs.Runs.{most_across};
ghost use Rattle.pic_filter.specs.Smoothing.{smoothed_along, smoothed, most_to_smooth, most_smoothed};

use crate::weights::weigh;
use pic_grid::{Cells, Nodes};
use pic_num::Axis;

/// Makes the nodes those of `from` filtered, whatever they held, by the same filter as `smooth`.
/// Both have these cells, and all values of `from` are at most 2^83 in size.
pub fn smooth_nodes(cells: Cells, from: &Nodes, to: &mut Nodes)
    requires from_cells { from.now.cells ≡ cells.n }
    requires to_cells { to.old.cells ≡ cells.n }
    requires small { (p : Triple) → IsWithin p cells.n
        → IsAtMost (node_at from.now p) most_to_smooth }
    ensures same_cells { to.new.cells ≡ cells.n }
    ensures values { (p : Triple) → IsWithin p cells.n
        → node_at to.new p ≡ smoothed cells.n (node_at from.now) p }
    ensures small { (p : Triple) → IsWithin p cells.n
        → IsAtMost (node_at to.new p) most_smoothed }
{
    for index in 0..cells.count() {
        let node = cells.cell_at(index as usize);
        to.set(node, smoothed_at(cells, from, node));
    }
}

/// What the filter makes of the number at `node`.
fn smoothed_at(cells: Cells, from: &Nodes, node: [u32; 3]) -> i128
    requires same_cells { from.now.cells ≡ cells.n }
    requires small { (p : Triple) → IsWithin p cells.n
        → IsAtMost (node_at from.now p) most_to_smooth }
    requires within { IsWithin (triple node) cells.n }
    ensures value { result ≡ smoothed cells.n (node_at from.now) (triple node) }
    ensures size { IsAtMost result most_smoothed }
{
    weigh(
        smoothed_in_plane(cells, from, cells.down(Axis::Z, node)),
        smoothed_in_plane(cells, from, node),
        smoothed_in_plane(cells, from, cells.up(Axis::Z, node)),
    )
}

/// What the filter along x and y makes of the number at `node`.
fn smoothed_in_plane(cells: Cells, from: &Nodes, node: [u32; 3]) -> i128
    requires same_cells { from.now.cells ≡ cells.n }
    requires small { (p : Triple) → IsWithin p cells.n
        → IsAtMost (node_at from.now p) most_to_smooth }
    requires within { IsWithin (triple node) cells.n }
    ensures value { result
        ≡ smoothed_along Y cells.n (smoothed_along X cells.n (node_at from.now)) (triple node) }
    ensures size { IsAtMost result most_across }
{
    weigh(
        smoothed_in_line(cells, from, cells.down(Axis::Y, node)),
        smoothed_in_line(cells, from, node),
        smoothed_in_line(cells, from, cells.up(Axis::Y, node)),
    )
}

/// What the filter along x makes of the number at `node`.
fn smoothed_in_line(cells: Cells, from: &Nodes, node: [u32; 3]) -> i128
    requires same_cells { from.now.cells ≡ cells.n }
    requires small { (p : Triple) → IsWithin p cells.n
        → IsAtMost (node_at from.now p) most_to_smooth }
    requires within { IsWithin (triple node) cells.n }
    ensures value { result ≡ smoothed_along X cells.n (node_at from.now) (triple node) }
    ensures size { IsAtMost result most_across }
{
    weigh(
        from.at(cells.down(Axis::X, node)),
        from.at(node),
        from.at(cells.up(Axis::X, node)),
    )
}
