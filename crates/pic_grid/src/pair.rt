//! The two places of an axis that a point lies between.

ghost use Rattle.std.specs.Prelude.{◌≡◌, ℕ, ◌+◌, ◌*◌, ◌/◌, ◌<◌, ◌≤◌};
ghost use Rattle.pic_num.specs.Limits.{most_cells_of_axis};
ghost use Rattle.pic_grid.specs.Hat.{periodic_hat};
ghost use Rattle.pic_grid.specs.Pair.{IsPairOf};

use crate::neighbours::after;
use pic_num::Sub;

/// The two cells of an axis between whose places a point lies, and the point's weight for each: the
/// two weights add up to a cell's side.
#[derive(Clone, Copy, Debug, PartialEq, Eq)]
pub struct Pair {
    pub low: u32,
    pub high: u32,
    pub low_weight: u32,
    pub high_weight: u32,
}

impl Pair {
    /// The pair of a point, in sub-cells, on an axis of `cells` cells whose places are the nodes.
    #[inline(always)]
    pub fn of_nodes(sub: Sub, cells: u32, point: u32) -> Pair
        requires two { 2 ≤ cells }
        requires inside { point < cells * sub }
        ensures { IsPairOf sub cells 0 point result }
    {
        let side = sub.side();
        let low = point >> sub.bits();
        let high_weight = point & (side - 1);
        Pair {
            low,
            high: after(cells, low),
            low_weight: side - high_weight,
            high_weight,
        }
    }

    /// The pair of a point, in sub-cells, on an axis of `cells` cells whose places stand in the middle
    /// between the nodes.
    #[inline(always)]
    pub fn of_middles(sub: Sub, cells: u32, point: u32) -> Pair
        requires two { 2 ≤ cells }
        requires few { cells ≤ most_cells_of_axis }
        requires inside { point < cells * sub }
        ensures { IsPairOf sub cells (sub / 2) point result }
    {
        Pair::of_nodes(sub, cells, shifted_back(sub, cells, point))
    }
}

/// The point that lies half a cell back, round the axis.
#[inline(always)]
fn shifted_back(sub: Sub, cells: u32, point: u32) -> u32
    requires two { 2 ≤ cells }
    requires few { cells ≤ most_cells_of_axis }
    requires inside { point < cells * sub }
    ensures inside { result < cells * sub }
    ensures weights { (j : ℕ) → j < cells → periodic_hat sub (cells * sub) point (j * sub + sub / 2)
        ≡ periodic_hat sub (cells * sub) result (j * sub + 0) }
{
    let side = sub.side();
    let half = side / 2;
    if point < half {
        point + (cells * side - half)
    } else {
        point - half
    }
}
