//! The faces between cells that a path passes.

ghost use Rattle.std.specs.Prelude.{◌≡◌, ℤ, pos, ℕ, ◌^◌, ◌<◌, ◌≤◌, ◌+◌, ◌-◌, ◌+ℤ◌, ◌-ℤ◌, ◌*ℤ◌, unsigned_abs, option_map, Option, Some, None};
ghost use Rattle.pic_num.specs.Limits.{most_side};
ghost use Rattle.pic_num.specs.Sizes.{IsAtMost};
ghost use Rattle.pic_num.specs.Rounding.{truncated};
ghost use Rattle.pic_num.specs.Space.{spot, AreAtMost};
ghost use Rattle.pic_grid.specs.Path.{Crossing, floor_of, floor_cell, crossing, break_on, break_at, step_on, cell_after};
ghost use Rattle.pic_split.specs.Face.{IsSmall};

use pic_num::{Axis, Sub};
use std::marker::Model;

/// Where a path passes a face between two cells: the axis, the signed way to the face along it, and
/// the path's whole move along it, in sub-cells.
#[derive(Clone, Copy)]
pub(crate) struct Face {
    pub axis: Axis,
    pub way: i32,
    pub whole: i32,
}

impl Model for Face {
    ghost Value = { Crossing };

    ghost view = { λ k. record { axis = k.axis; way = k.way; whole = k.whole } };

    ghost inverse = { λ k. record { axis = k.axis; way = k.way; whole = k.whole } };
}

/// The cell of a coordinate.
#[inline(always)]
pub(crate) fn cell_of(sub: Sub, p: i32) -> i32
    requires { IsAtMost p (2 ^ 30 + 2 ^ 14) }
    ensures value { result ≡ floor_of sub p }
    ensures size { IsAtMost result (2 ^ 30 + 2 ^ 15) }
{
    let _side = sub.side();
    p >> sub.bits()
}

/// A coordinate of the end of the path from `p` by `d`.
#[inline(always)]
pub(crate) fn end_on(p: i32, d: i32) -> i32
    requires start { IsAtMost p (2 ^ 30 - 1) }
    requires small { IsAtMost d most_side }
    ensures value { result ≡ p +ℤ d }
    ensures size { IsAtMost result (2 ^ 30 + 2 ^ 14) }
{
    p + d
}

/// The signed way from `p` to the lower face of a cell.
fn way_to(side: u32, cell: i32, p: i32) -> i32
    requires near { IsAtMost (cell *ℤ pos side -ℤ p) most_side }
    requires side { side ≤ most_side }
    ensures { result ≡ cell *ℤ pos side -ℤ p }
{
    (i64::from(cell) * i64::from(side) - i64::from(p)) as i32
}

/// Where the path along `axis` from `p` by `d` passes a face, if it does: at the face between the
/// cells of its start and end.
pub(crate) fn face_on(sub: Sub, axis: Axis, p: i32, d: i32) -> Option<Face>
    requires start { IsAtMost p (2 ^ 30 - 1) }
    requires small { IsAtMost d sub }
    ensures { result ≡ crossing sub axis p d }
{
    let side = sub.side();
    let before = cell_of(sub, p);
    let after = cell_of(sub, end_on(p, d));
    if before == after {
        return None;
    }
    let way = way_to(side, before.max(after), p);
    Some(Face {
        axis,
        way,
        whole: d,
    })
}

/// `n / d` with its fraction dropped towards 0.
#[tactic(auto, unfolding(pic_num::specs::Rounding::truncated))]
fn quotient(n: i32, d: i32) -> i32
    requires n_in_range { IsAtMost n (2 ^ 28) }
    requires d_not_zero { 0 < unsigned_abs d }
    ensures value { result ≡ truncated n d }
    ensures size { IsAtMost result (2 ^ 28) }
{
    n / d
}

/// A coordinate of the path from `p` by `d` at a face, rounded towards the start.
#[tactic(auto, unfolding(pic_grid::specs::Path::break_on))]
fn break_on(face: Face, p: i32, d: i32) -> i32
    requires face { IsSmall most_side face }
    requires start { IsAtMost p (2 ^ 30) }
    requires small { IsAtMost d most_side }
    ensures { result ≡ break_on face p d }
{
    let n = face.way * d;
    p + quotient(n, face.whole)
}

/// The point at which the path from `p` by `d` passes a face.
pub(crate) fn break_at(face: Face, p: [i32; 3], d: [i32; 3]) -> [i32; 3]
    requires face { IsSmall most_side face }
    requires start { AreAtMost (spot p) (2 ^ 30) }
    requires small { AreAtMost (spot d) most_side }
    ensures { spot result ≡ break_at (spot p) (spot d) face }
{
    let [x, y, z] = p;
    let [dx, dy, dz] = d;
    [
        break_on(face, x, dx),
        break_on(face, y, dy),
        break_on(face, z, dz),
    ]
}

/// A cell's index on `axis` after a face.
#[tactic(auto, unfolding(pic_grid::specs::Path::step_on))]
fn step_on(axis: Axis, face: Face, index: i32) -> i32
    requires { IsAtMost index (2 ^ 30 + 2 ^ 16) }
    ensures value { result ≡ step_on axis face index }
    ensures size { (n : ℕ) → IsAtMost index n → IsAtMost result (n + 1) }
{
    if axis.number() != face.axis.number() {
        return index;
    }
    if face.whole < 0 { index - 1 } else { index + 1 }
}

/// The cell after a face.
pub(crate) fn cell_after(face: Face, cell: [i32; 3]) -> [i32; 3]
    requires { AreAtMost (spot cell) (2 ^ 30 + 2 ^ 16) }
    ensures value { spot result ≡ cell_after face (spot cell) }
    ensures size { (n : ℕ) → AreAtMost (spot cell) n → AreAtMost (spot result) (n + 1) }
{
    let [x, y, z] = cell;
    [
        step_on(Axis::X, face, x),
        step_on(Axis::Y, face, y),
        step_on(Axis::Z, face, z),
    ]
}
