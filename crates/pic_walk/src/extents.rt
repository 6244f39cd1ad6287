//! How far the box of a grid reaches.

ghost use Rattle.std.specs.Prelude.{◌≡◌, ◌*◌, ◌≤◌};
ghost use Rattle.pic_num.specs.Limits.{most_cells_of_axis};
ghost use Rattle.pic_num.specs.Space.{triple};
ghost use Rattle.pic_walk.specs.Extent.{extent_of, most_extent, IsExtent};

use pic_grid::Cells;
use pic_num::Sub;

/// How many sub-cells lie along so many cells.
#[inline(always)]
pub fn along(cells: u32, sub: Sub) -> u32
    requires some { 1 ≤ cells }
    requires few { cells ≤ most_cells_of_axis }
    ensures value { result ≡ cells * sub }
    ensures some { 1 ≤ result }
    ensures most { result ≤ most_extent }
{
    cells * sub.side()
}

/// How many sub-cells lie along the box on each axis.
#[inline(always)]
pub fn extent(cells: Cells) -> [u32; 3]
    ensures value { triple result ≡ extent_of cells }
    ensures size { IsExtent (triple result) }
{
    let sub = cells.sub();
    let [nx, ny, nz] = cells.numbers();
    [along(nx, sub), along(ny, sub), along(nz, sub)]
}
