//! The weights of a segment's ends for the high faces of its cell.

ghost use Rattle.std.specs.Prelude.{◌≡◌, ◌^◌, ◌-ℤ◌, ◌*ℤ◌, true};
ghost use Rattle.pic_num.specs.Sizes.{IsAtMost};
ghost use Rattle.pic_num.specs.Space.{spot, along};
ghost use Rattle.pic_grid.specs.Segment.{IsInside, IsInCell};
ghost use Rattle.pic_flux.specs.Corners.{face_weight, weight_of};

use pic_grid::Segment;
use pic_num::{Axis, Sub};

/// The coordinate on `axis`.
#[inline(always)]
pub fn along(axis: Axis, p: [i32; 3]) -> i32
    ensures { result ≡ along axis (spot p) }
{
    let [x, y, z] = p;
    match axis {
        Axis::X => x,
        Axis::Y => y,
        Axis::Z => z,
    }
}

/// How far a coordinate `p` lies above the low face of its closed cell.
#[inline(always)]
fn above(c: i32, p: i32, side: i64) -> i64
    requires side { IsAtMost side (2 ^ 14) }
    ensures { result ≡ p -ℤ c *ℤ side }
{
    i64::from(p) - i64::from(c) * side
}

/// The weight of the coordinate `p` of the closed cell `c` for the cell's high face.
#[inline(always)]
fn high_weight(sub: Sub, c: i32, p: i32) -> i64
    requires { IsInside sub c p }
    ensures value { result ≡ face_weight sub true c p }
    ensures size { IsAtMost result (2 ^ 14) }
    ensures cell { IsAtMost c (2 ^ 24) }
{
    above(c, p, i64::from(sub.side()))
}

/// The weight of a segment's start on `axis`, for the high face of its cell.
#[inline(always)]
pub fn weight_from(sub: Sub, seg: &Segment, axis: Axis) -> i64
    requires { IsInCell sub seg.now }
    ensures value { result ≡ weight_of sub seg.now.cell true axis seg.now.from }
    ensures size { IsAtMost result (2 ^ 14) }
    ensures cell { IsAtMost (along axis seg.now.cell) (2 ^ 24) }
{
    high_weight(sub, along(axis, seg.cell), along(axis, seg.from))
}

/// The weight of a segment's end on `axis`, for the high face of its cell.
#[inline(always)]
pub fn weight_to(sub: Sub, seg: &Segment, axis: Axis) -> i64
    requires { IsInCell sub seg.now }
    ensures value { result ≡ weight_of sub seg.now.cell true axis seg.now.to }
    ensures size { IsAtMost result (2 ^ 14) }
{
    high_weight(sub, along(axis, seg.cell), along(axis, seg.to))
}

/// How far a segment goes along `axis`.
#[inline(always)]
pub fn way(sub: Sub, seg: &Segment, axis: Axis) -> i64
    requires { IsInCell sub seg.now }
    ensures value { result ≡ along axis seg.now.to -ℤ along axis seg.now.from }
    ensures size { IsAtMost result (2 ^ 14) }
{
    let _side = sub.side();
    i64::from(along(axis, seg.to)) - i64::from(along(axis, seg.from))
}
