//! What stops a push, and the test that does.

ghost use Rattle.std.specs.Prelude.{◌≡◌, ◌<◌, ◌≤◌, Some, None, OnOk, IfErr, unsigned_abs};
ghost use Rattle.pic_num.specs.Push.{first_above};
ghost use Rattle.pic_num.specs.Sizes.{IsAtMost};
ghost use Rattle.pic_boris.specs.Pushes.{halting_of};
ghost use Rattle.pic_boris.specs.Vector.{spot_of};
ghost use Rattle.pic_num.specs.Space.{AreAtMost};

use crate::vector::Vector;
use pic_num::{Axis, What};

/// What stops a push: the first test that fails, the first axis on which it does, and the number
/// there.
#[derive(Clone, Copy, Debug, PartialEq, Eq)]
pub struct Halt {
    pub what: What,
    pub axis: Axis,
    pub value: i128,
}

/// Stops with the component on `axis` where it is above `most` in size.
fn halt_above_on(what: What, axis: Axis, most: u128, value: i128) -> Result<(), Halt>
    ensures ok { OnOk result (unsigned_abs value ≤ most) }
    ensures above { IfErr result (λ _. most < unsigned_abs value) }
    ensures what { IfErr result (λ h. h ≡ record { what = what; axis = axis; value = value }) }
{
    if value.unsigned_abs() > most {
        return Err(Halt { what, axis, value });
    }
    Ok(())
}

/// Stops with the first component of `p` that is above `most` in size.
#[tactic(auto, unfolding(pic_num::specs::Push::first_above, pic_num::specs::First::first_of))]
pub(crate) fn halt_above(what: What, most: u128, p: Vector) -> Result<(), Halt>
    ensures ok { OnOk result (first_above what most (spot_of p) ≡ None) }
    ensures size { OnOk result (AreAtMost (spot_of p) most) }
    ensures err { IfErr result (λ h. first_above what most (spot_of p) ≡ Some (halting_of h)) }
{
    halt_above_on(what, Axis::X, most, p.x)?;
    halt_above_on(what, Axis::Y, most, p.y)?;
    halt_above_on(what, Axis::Z, most, p.z)
}
