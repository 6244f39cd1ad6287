//! A way that a charge has gone before a run begins, and the deposition of its flux.

ghost use Rattle.std.specs.Prelude.{◌≡◌, ◌-◌, Some};
ghost use Rattle.pic_num.specs.Limits.{most_flux_of, most_particles};
ghost use Rattle.pic_block.specs.Block.{IsShaped, AllAtMost};
ghost use Rattle.pic_flux.specs.Adds.{Adds, GrowsBy};
ghost use Rattle.pic_ways.specs.Way.{IsWay, way_flux};

use pic_block::Block;
use pic_flux::deposit_track;
use pic_grid::Cells;
use pic_split::split;

/// A way: a charge in whole units, the position in the box where it begins, and the move, at most the
/// side of a cell on each axis; in sub-cells.
#[derive(Clone, Copy)]
pub struct Way {
    pub charge: i32,
    pub from: [u32; 3],
    pub by: [i32; 3],
}

/// Adds the flux of a way's path to the edges of a block that it passes, unwrapped. There is room for
/// that of one particle more.
pub fn add_way(cells: Cells, way: &Way, to: &mut Block)
    requires way { IsWay cells.side cells.n way.now }
    requires room { AllAtMost (most_flux_of (most_particles - 1)) to.old }
    ensures shape { IsShaped to.old to.new }
    ensures values { Adds to.old to.new (way_flux cells.side (Some way.now)) }
    ensures grows { GrowsBy (most_flux_of 1) to.old to.new }
{
    let [_, _, _] = cells.numbers();
    let sub = cells.sub();
    let _side = sub.side();
    let track = split(sub, way.from, way.by);
    deposit_track(sub, &track, way.charge, to);
}
