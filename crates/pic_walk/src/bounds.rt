//! The limits of a deck beside those of the scheme, by the version and the side of a cell.

ghost use Rattle.std.specs.Prelude.{◌≡◌, ◌≤◌};
ghost use Rattle.pic_num.specs.Limits.{most_side};
ghost use Rattle.pic_walk.specs.Bounds.{fastest, fastest_drift, widest_gap, widest_spread};
ghost use Rattle.pic_walk.specs.Extent.{most_extent};

use crate::extents::along;
use crate::terms::Terms;
use pic_grid::Cells;
use pic_num::{VELOCITY_UNIT, allowance_of};

/// The most bytes of a deck.
pub const MAX_BYTES: usize = 1 << 20;

/// The most rows of a field.
pub const MAX_ROWS: i64 = 1 << 20;

/// The greatest size of a velocity on an axis: a cell a step.
pub fn fastest(cells: Cells) -> u32
    ensures value { result ≡ fastest cells.side }
    ensures most { fastest cells.side ≤ fastest most_side }
{
    VELOCITY_UNIT * cells.sub().side()
}

/// The greatest size of a mean velocity on an axis: half a cell a step.
pub fn fastest_drift(cells: Cells) -> u32
    ensures value { result ≡ fastest_drift cells.side }
    ensures most { fastest_drift cells.side ≤ fastest_drift most_side }
{
    VELOCITY_UNIT / 2 * cells.sub().side()
}

/// The greatest spread of velocities on an axis: a sixteenth of a cell a step.
pub fn widest_spread(cells: Cells) -> u32
    ensures value { result ≡ widest_spread cells.side }
    ensures most { widest_spread cells.side ≤ widest_spread most_side }
{
    VELOCITY_UNIT / 16 * cells.sub().side()
}

/// The longest way from a site of a lattice to the next one: the longest box of the version.
pub fn widest_gap(terms: Terms) -> u32
    ensures value { result ≡ widest_gap terms.version terms.grid.side }
    ensures most { result ≤ most_extent }
{
    along(allowance_of(terms.version()).cells, terms.cells().sub())
}
