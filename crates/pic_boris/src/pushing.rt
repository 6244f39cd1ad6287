//! The push: half of the kick, the turn, the other half, and where the new velocity leads.

ghost use Rattle.std.specs.Prelude.{◌≡◌, pos, ◌^◌, ◌-◌, Ok, IfOk, IfSome};
ghost use Rattle.pic_num.specs.Limits.{velocity_unit};
ghost use Rattle.pic_num.specs.Push.{pushed, each};
ghost use Rattle.pic_num.specs.Rounding.{rounded};
ghost use Rattle.pic_num.specs.Space.{spot, AreAtMost};
ghost use Rattle.pic_boris.specs.Pushes.{Pushes, IsInLimits, shift_of, arrived};
ghost use Rattle.pic_boris.specs.Vector.{spot_of};

use crate::halt::{Halt, halt_above};
use crate::moved::Moved;
use crate::narrow_pushing::{SPEED_BITS, push_narrow};
use crate::turning::turned_by;
use crate::vector::{Vector, rounded_shift, scaled_by, sum_of, widened};
use pic_num::{MAX_SPEED, MAX_TURN, Mult, Sub, What};

/// Pushes a particle of the velocity `v` by the gathered `e` and `b` with its species' multipliers:
/// half of the electric kick, the turn by the magnetic field, the other half (Boris 1970).
/// Velocities are in 1/4096 sub-cell per step, moves in sub-cells, turns in units of 1 / 2^20.
///
/// # Errors
/// `Speed` where a component of the velocity after half of the kick is above 2^40 in size, else
/// `Turn` where one of the turn is above 2^24, else `Far` where one of the move is above the side of
/// a cell; each on the first axis of x, y, z that fails.
pub fn push(
    sub: Sub,
    v: [i32; 3],
    e: [i64; 3],
    b: [i64; 3],
    kick: Mult,
    turn: Mult,
) -> Result<Moved, Halt>
    ensures pushed { Pushes (pushed sub (spot v) (spot e) (spot b) kick turn) result }
    ensures bounds { IfOk result (IsInLimits sub) }
{
    match push_narrow(sub, v, e, b, kick, turn) {
        Some(moved) => Ok(moved),
        None => push_wide(sub, v, e, b, kick, turn),
    }
}

/// The same, in 128 bits alone.
///
/// # Errors
/// As `push` has them.
#[tactic(auto, unfolding(pic_num::specs::Push::pushed))]
pub fn push_wide(
    sub: Sub,
    v: [i32; 3],
    e: [i64; 3],
    b: [i64; 3],
    kick: Mult,
    turn: Mult,
) -> Result<Moved, Halt>
    ensures pushed { Pushes (pushed sub (spot v) (spot e) (spot b) kick turn) result }
    ensures bounds { IfOk result (IsInLimits sub) }
{
    let half_kick = scaled_by(e, kick);
    let kicked = sum_of(widened(v), half_kick);
    halt_above(What::Speed, MAX_SPEED, kicked)?;
    let turn_by = scaled_by(b, turn);
    halt_above(What::Turn, MAX_TURN, turn_by)?;
    let turned = turned_by(kicked, turn_by);
    arrived(sub, sum_of(turned, half_kick))
}

/// Where a new velocity leads: the velocity and its move, unless that is too far.
fn arrived(sub: Sub, v: Vector) -> Result<Moved, Halt>
    requires { AreAtMost (spot_of v) (2 ^ 122) }
    ensures pushed { Pushes (arrived sub (spot_of v)) result }
    ensures bounds { IfOk result (IsInLimits sub) }
{
    let d = move_of(v);
    let side = sub.side();
    halt_above(What::Far, u128::from(side), d)?;
    Ok(Moved {
        v: narrowed(v),
        d: narrowed(d),
    })
}

/// The move of a velocity, in sub-cells.
fn move_of(v: Vector) -> Vector
    requires { AreAtMost (spot_of v) (2 ^ 122) }
    ensures { spot_of result ≡ each (λ c. rounded c (pos velocity_unit)) (spot_of v) }
{
    Vector {
        x: rounded_shift(v.x, SPEED_BITS),
        y: rounded_shift(v.y, SPEED_BITS),
        z: rounded_shift(v.z, SPEED_BITS),
    }
}

/// The vector as numbers of the type that particles keep.
fn narrowed(p: Vector) -> [i32; 3]
    requires { AreAtMost (spot_of p) (2 ^ 31 - 1) }
    ensures { spot result ≡ spot_of p }
{
    [p.x as i32, p.y as i32, p.z as i32]
}
