//! The push in 64 bits, of numbers that are small.

ghost use Rattle.std.specs.Prelude.{◌≡◌, pos, ◌^◌, ◌-◌, ◌≤◌, ◌↔◌, Ok, IfSome, IsSome, IsOk, IsTrue};
ghost use Rattle.pic_num.specs.Limits.{velocity_unit};
ghost use Rattle.pic_num.specs.Push.{pushed, each};
ghost use Rattle.pic_num.specs.Rounding.{rounded};
ghost use Rattle.pic_num.specs.Space.{spot, AreAtMost};
ghost use Rattle.pic_boris.specs.Narrow.{narrow_spot};
ghost use Rattle.pic_boris.specs.Pushes.{IsInLimits, shift_of, arrived};
ghost use Rattle.pic_boris.specs.SmallPush.{most_small_field, IsSmallPush};

use crate::moved::Moved;
use crate::narrow::{Narrow, narrow_of, narrow_shift, narrow_sum, scaled_narrow};
use crate::narrow_turning::narrow_turned;
use pic_num::{Mult, Sub, is_at_most};

/// The most that a gathered value may be in size where a push is narrow.
pub const MAX_SMALL_FIELD: u64 = 1 << 28;

/// The most that a velocity may be in size here, after half of the kick.
const MAX_SMALL_SPEED: u64 = 1 << 26;

/// The most that a turn may be in size here.
const MAX_SMALL_TURN: u64 = 1 << 19;

/// A velocity is in 1 / 2^12 sub-cell per step.
pub const SPEED_BITS: u32 = 12;

/// Whether each component of a vector is at most `most` in size.
#[inline(always)]
fn is_small(p: Narrow, most: u64) -> bool
    requires { most ≤ 2 ^ 62 }
    ensures { IsTrue result ↔ AreAtMost (narrow_spot p) most }
{
    is_at_most(p.x, most) && is_at_most(p.y, most) && is_at_most(p.z, most)
}

/// Whether a gathered field is small.
#[inline(always)]
fn is_small_field(field: [i64; 3]) -> bool
    ensures { IsTrue result ↔ AreAtMost (spot field) most_small_field }
{
    let [x, y, z] = field;
    is_small(Narrow { x, y, z }, MAX_SMALL_FIELD)
}

/// The move of a velocity, in sub-cells.
#[inline(always)]
fn narrow_move(v: Narrow) -> Narrow
    requires { AreAtMost (narrow_spot v) (2 ^ 61) }
    ensures { narrow_spot result ≡ each (λ c. rounded c (pos velocity_unit)) (narrow_spot v) }
{
    Narrow {
        x: narrow_shift(v.x, SPEED_BITS),
        y: narrow_shift(v.y, SPEED_BITS),
        z: narrow_shift(v.z, SPEED_BITS),
    }
}

/// The vector as numbers of the type that particles keep.
#[inline(always)]
fn kept(p: Narrow) -> [i32; 3]
    requires { AreAtMost (narrow_spot p) (2 ^ 31 - 1) }
    ensures { spot result ≡ narrow_spot p }
{
    [p.x as i32, p.y as i32, p.z as i32]
}

/// Where a new velocity leads, if that isn't too far.
#[inline(always)]
fn arrive_narrow(sub: Sub, v: Narrow) -> Option<Moved>
    requires { AreAtMost (narrow_spot v) (2 ^ 61) }
    ensures some { IsSome result ↔ IsOk (arrived sub (narrow_spot v)) }
    ensures pushed { IfSome result (λ m. arrived sub (narrow_spot v) ≡ Ok (shift_of m)) }
    ensures bounds { IfSome result (IsInLimits sub) }
{
    let d = narrow_move(v);
    let side = sub.side();
    if !is_small(d, u64::from(side)) {
        return None;
    }
    Some(Moved {
        v: kept(v),
        d: kept(d),
    })
}

/// What `push` gives, where its numbers are small and the move isn't too far; else `None`.
#[inline(always)]
pub fn push_narrow(
    sub: Sub,
    v: [i32; 3],
    e: [i64; 3],
    b: [i64; 3],
    kick: Mult,
    turn: Mult,
) -> Option<Moved>
    ensures some { IsSome result ↔ (IsSmallPush (spot v) (spot e) (spot b) kick turn
        × IsOk (pushed sub (spot v) (spot e) (spot b) kick turn)) }
    ensures pushed { IfSome result
        (λ m. pushed sub (spot v) (spot e) (spot b) kick turn ≡ Ok (shift_of m)) }
    ensures bounds { IfSome result (IsInLimits sub) }
{
    if !is_small_field(e) || !is_small_field(b) {
        return None;
    }
    let half_kick = scaled_narrow(e, kick);
    let kicked = narrow_sum(narrow_of(v), half_kick);
    let turn_by = scaled_narrow(b, turn);
    if !is_small(kicked, MAX_SMALL_SPEED) || !is_small(turn_by, MAX_SMALL_TURN) {
        return None;
    }
    arrive_narrow(sub, narrow_sum(narrow_turned(kicked, turn_by), half_kick))
}
