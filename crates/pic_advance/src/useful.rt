//! How many workers a lattice has enough for.

ghost use Rattle.std.specs.Prelude.{◌≡◌, ◌<◌, ◌≤◌, max};
ghost use Rattle.pic_block.specs.Cells.{IsCells};

use pic_grid::Cells;
use pic_num::Workers;

/// The cells of a group: the fewest that a worker is given.
const CELLS_OF_A_WORKER: u32 = 1 << 12;

/// How many groups there are at least where no more than two workers share them.
const GROUPS_FOR_TWO: u32 = 4;

/// How many of the workers have enough to do: a block each at least, and a group of cells. Where two
/// would do the work of one, a thread costs more than it saves, unless they have two groups each.
pub(crate) fn useful(workers: Workers, cells: Cells, blocks: usize) -> usize
    ensures some { 0 < result }
    ensures workers { result ≤ max workers 1 }
    ensures blocks { result ≤ max blocks 1 }
    ensures cells { IsCells cells.n }
{
    let [nx, ny, nz] = cells.n;
    let groups = nx * ny * nz / CELLS_OF_A_WORKER;
    let count = workers.count().min(groups);
    if count == 2 && groups < GROUPS_FOR_TWO {
        return 1;
    }
    (count as usize).min(blocks).max(1)
}
