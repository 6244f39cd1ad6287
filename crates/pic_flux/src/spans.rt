//! What a segment's flux through the edges of its cell is made of, computed once for all axes.

ghost use Rattle.std.specs.Prelude.{◌≡◌, pos, ◌*◌, ◌^◌, ◌+ℤ◌, ◌*ℤ◌};
ghost use Rattle.pic_num.specs.Sizes.{IsAtMost};
ghost use Rattle.pic_num.specs.Space.{along, AreAtMost};
ghost use Rattle.pic_grid.specs.Segment.{IsInCell};
ghost use Rattle.pic_flux.specs.Spans.{AreSpanEnds, AreShort, AreSpans, IsShort, ends_on};

use crate::weights::{way, weight_from, weight_to};
use pic_grid::Segment;
use pic_num::{Axis, Sub};

/// Of one axis, in sub-cells: the sum of the weights of a segment's ends for the high face of its
/// cell, how far the segment goes, and six sides of a cell times that sum.
#[derive(Clone, Copy)]
pub(crate) struct Ends {
    pub sum: i64,
    pub way: i64,
    pub part: i64,
}

/// Of all axes, and the weight of the four edges along an axis together, 12 times, in square
/// sub-cells.
#[derive(Clone, Copy)]
pub(crate) struct Spans {
    pub x: Ends,
    pub y: Ends,
    pub z: Ends,
    pub whole: i64,
}

impl Spans {
    /// Those of a segment.
    #[inline(always)]
    pub fn of(sub: Sub, seg: &Segment) -> Spans
        requires { IsInCell sub seg.now }
        ensures spans { AreSpans sub seg.now result }
        ensures short { IsShort result }
        ensures cell { AreAtMost seg.now.cell (2 ^ 24) }
    {
        Spans {
            x: ends_of(sub, seg, Axis::X),
            y: ends_of(sub, seg, Axis::Y),
            z: ends_of(sub, seg, Axis::Z),
            whole: whole_of(i64::from(sub.side())),
        }
    }

    /// Those of an axis.
    #[inline(always)]
    pub fn on(&self, axis: Axis) -> Ends
        ensures value { result ≡ ends_on self.now axis }
        ensures short { IsShort self.now → AreShort result }
    {
        match axis {
            Axis::X => self.x,
            Axis::Y => self.y,
            Axis::Z => self.z,
        }
    }
}

/// Of one axis.
#[inline(always)]
fn ends_of(sub: Sub, seg: &Segment, axis: Axis) -> Ends
    requires { IsInCell sub seg.now }
    ensures ends { AreSpanEnds sub seg.now axis result }
    ensures short { AreShort result }
    ensures cell { IsAtMost (along axis seg.now.cell) (2 ^ 24) }
{
    let sum = plus(weight_from(sub, seg, axis), weight_to(sub, seg, axis));
    Ends {
        sum,
        way: way(sub, seg, axis),
        part: part_of(i64::from(sub.side()), sum),
    }
}

/// The sum of two weights.
#[inline(always)]
fn plus(a0: i64, a1: i64) -> i64
    requires a0 { IsAtMost a0 (2 ^ 14) }
    requires a1 { IsAtMost a1 (2 ^ 14) }
    ensures value { result ≡ a0 +ℤ a1 }
    ensures size { IsAtMost result (2 ^ 15) }
{
    a0 + a1
}

/// Six sides of a cell times a sum of two weights.
#[inline(always)]
fn part_of(side: i64, sum: i64) -> i64
    requires side { IsAtMost side (2 ^ 14) }
    requires sum { IsAtMost sum (2 ^ 15) }
    ensures value { result ≡ pos 6 *ℤ side *ℤ sum }
    ensures size { IsAtMost result (3 * 2 ^ 30) }
{
    6 * side * sum
}

/// Twelve squares of a cell's side.
#[inline(always)]
fn whole_of(side: i64) -> i64
    requires { IsAtMost side (2 ^ 14) }
    ensures value { result ≡ pos 12 *ℤ side *ℤ side }
    ensures size { IsAtMost result (3 * 2 ^ 30) }
{
    12 * side * side
}
