//! The displacement of a species from another one.

ghost use Rattle.std.specs.Prelude.{◌≡◌, ◌≤◌, IfOk};
ghost use Rattle.toml.specs.View.{table_view};
ghost use Rattle.pic_num.specs.Limits.{most_side};
ghost use Rattle.pic_walk.specs.declared.displacement.Displacement.{Displacement as DisplacementView};
ghost use Rattle.pic_walk.specs.Displacement.{IsDisplacement, way_limits, displacement};
ghost use Rattle.pic_walk.specs.Walk.{WalksAs};

use crate::fault::WalkStop;
use crate::limits::Limits;
use crate::sites::velocity_limits;
use crate::tables::need_signed_three;
use pic_grid::Cells;
use std::alloc::Global;
use toml::Table;

/// How far the particles of a species stand from those of another one on each axis, in sub-cells, and
/// the velocity of all, in 1/4096 sub-cell per step.
#[derive(Clone, Copy, Debug, PartialEq, Eq)]
pub struct Displacement {
    pub by: [i32; 3],
    pub v: [i32; 3],
}

fn way_limits(cells: Cells) -> [Limits; 3]
    ensures value { result ≡ way_limits cells.side }
    ensures most { cells.side ≤ most_side }
{
    [Limits::either_way(cells.sub().side()); 3]
}

/// The keys of a displacement in the table at a path.
pub fn read_displacement(
    alloc: Global,
    path: &str,
    table: &Table,
    cells: Cells,
) -> Result<Displacement, WalkStop>
    ensures walks { WalksAs (λ (d : DisplacementView). d)
        (displacement cells.side path.now (table_view table.now)) result }
    ensures limits { IfOk result (λ d. IsDisplacement cells.side d) }
{
    let by = need_signed_three(alloc, path, "by", table, way_limits(cells))?;
    let v = need_signed_three(alloc, path, "v", table, velocity_limits(cells))?;
    Ok(Displacement { by, v })
}
