//! The path of a particle, cut at the faces that it passes.

ghost use Rattle.std.specs.Prelude.{
  ◌≡◌,
  ℕ,
  pos,
  ◌+◌,
  ◌-◌,
  ◌^◌,
  ◌<◌,
  length,
  slice_index,
  EachIndex,
  IsTrue,
  IfSome,
  IsSome,
  ◌↔◌,
};
ghost use Rattle.std.specs.List.{All};
ghost use Rattle.pic_num.specs.Limits.{most_side};
ghost use Rattle.pic_num.specs.Push.{plus};
ghost use Rattle.pic_num.specs.Space.{triple, spot, AreAtMost, unwrapped};
ghost use Rattle.pic_grid.specs.Path.{floor_cell, walk, path};
ghost use Rattle.pic_grid.specs.Segment.{IsInCell};
ghost use Rattle.pic_split.specs.Faces.{crossings_in};
ghost use Rattle.pic_split.specs.Face.{IsSmall};
ghost use Rattle.pic_split.specs.Move.{LeadBy, lone_piece};

use crate::face::{break_at, cell_after, cell_of, end_on};
use crate::faces::{Faces, crossings};
use pic_grid::{Segment, Track};
use pic_num::{Sub, unwrapped};

/// The path of a particle from `p0` by the move `d`, cut where it passes from one cell into
/// another; in sub-cells, of which a cell's side has `sub`. Nothing is wrapped.
#[inline(always)]
pub fn split(sub: Sub, p0: [u32; 3], d: [i32; 3]) -> Track
    requires start { EachIndex p0 (λ k. slice_index p0 k < 2 ^ 30) }
    requires small { AreAtMost (spot d) sub }
    ensures value { result ≡ path sub (unwrapped (triple p0)) (spot d) }
    ensures leads { LeadBy sub (unwrapped (triple p0)) (spot d) result }
{
    let p = unwrapped(p0);
    let _side = sub.side();
    cut(p, d, end_of(p, d), cell(sub, p), crossings(sub, p, d))
}

/// The path of a particle from `p0` by the move `d` where it stays in one cell, and `None` where it
/// is cut.
#[inline(always)]
pub fn lone(sub: Sub, p0: [u32; 3], d: [i32; 3]) -> Option<Segment>
    requires start { EachIndex p0 (λ k. slice_index p0 k < 2 ^ 30) }
    requires small { AreAtMost (spot d) sub }
    ensures piece { result ≡ lone_piece (path sub (unwrapped (triple p0)) (spot d)) }
    ensures inside { IfSome result (IsInCell sub) }
    ensures stays { IsSome result
        → floor_cell sub (plus (unwrapped (triple p0)) (spot d))
        ≡ floor_cell sub (unwrapped (triple p0)) }
{
    let p = unwrapped(p0);
    let _side = sub.side();
    let end = end_of(p, d);
    let start_cell = cell(sub, p);
    if !is_same(start_cell, cell(sub, end)) {
        return None;
    }
    Some(segment(p, end, start_cell))
}

/// Whether two cells are one.
#[inline(always)]
fn is_same(a: [i32; 3], b: [i32; 3]) -> bool
    ensures { IsTrue result ↔ (spot a ≡ spot b) }
{
    let [x, y, z] = a;
    let [u, v, w] = b;
    if x != u {
        return false;
    }
    if y != v {
        return false;
    }
    if z != w {
        return false;
    }
    true
}

/// The end of the path from `p` by `d`.
#[inline(always)]
pub fn end_of(p: [i32; 3], d: [i32; 3]) -> [i32; 3]
    requires start { AreAtMost (spot p) (2 ^ 30 - 1) }
    requires small { AreAtMost (spot d) most_side }
    ensures value { spot result ≡ plus (spot p) (spot d) }
    ensures size { AreAtMost (spot result) (2 ^ 30 + 2 ^ 14) }
{
    let [x, y, z] = p;
    let [dx, dy, dz] = d;
    [end_on(x, dx), end_on(y, dy), end_on(z, dz)]
}

/// The cell of a point.
#[inline(always)]
pub fn cell(sub: Sub, p: [i32; 3]) -> [i32; 3]
    requires { AreAtMost (spot p) (2 ^ 30 + 2 ^ 14) }
    ensures value { spot result ≡ floor_cell sub (spot p) }
    ensures size { AreAtMost (spot result) (2 ^ 30 + 2 ^ 15) }
{
    let [x, y, z] = p;
    [cell_of(sub, x), cell_of(sub, y), cell_of(sub, z)]
}

/// A piece of the path.
fn segment(from: [i32; 3], to: [i32; 3], cell: [i32; 3]) -> Segment
    ensures { result ≡ record { from = spot from; to = spot to; cell = spot cell } }
{
    Segment { from, to, cell }
}

/// The path from `p` by `d` to `end`, from `cell` on, cut at the faces that it passes.
#[tactic(auto, unfolding(pic_grid::specs::Path::walk))]
fn cut(p: [i32; 3], d: [i32; 3], end: [i32; 3], cell: [i32; 3], faces: Faces) -> Track
    requires start { AreAtMost (spot p) (2 ^ 30 - 1) }
    requires small { AreAtMost (spot d) most_side }
    requires end { spot end ≡ plus (spot p) (spot d) }
    requires cell { AreAtMost (spot cell) (2 ^ 30 + 2 ^ 15) }
    requires faces { All (IsSmall most_side) (crossings_in faces) }
    ensures { result ≡ walk (spot p) (spot d) (spot p) (spot cell) (crossings_in faces) }
{
    match faces {
        Faces::Zero => {
            let a = segment(p, end, cell);
            Track::new([a, a, a, a], 1)
        }
        Faces::One(k) => {
            let at_k = break_at(k, p, d);
            let a = segment(p, at_k, cell);
            let b = segment(at_k, end, cell_after(k, cell));
            Track::new([a, b, b, b], 2)
        }
        Faces::Two(k, l) => {
            let at_k = break_at(k, p, d);
            let at_l = break_at(l, p, d);
            let next = cell_after(k, cell);
            let a = segment(p, at_k, cell);
            let b = segment(at_k, at_l, next);
            let c = segment(at_l, end, cell_after(l, next));
            Track::new([a, b, c, c], 3)
        }
        Faces::Three(k, l, m) => {
            let at_k = break_at(k, p, d);
            let at_l = break_at(l, p, d);
            let at_m = break_at(m, p, d);
            let next = cell_after(k, cell);
            let third = cell_after(l, next);
            let a = segment(p, at_k, cell);
            let b = segment(at_k, at_l, next);
            let c = segment(at_l, at_m, third);
            let e = segment(at_m, end, cell_after(m, third));
            Track::new([a, b, c, e], 4)
        }
    }
}
