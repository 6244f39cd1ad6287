//! What the types of multipliers keep, as facts. None of these functions changes anything.

ghost use Rattle.pic_num.specs.Multiplier.{IsMultiplier};
ghost use Rattle.pic_header.specs.Header.{HasMultipliers, AreMultipliers};

use pic_num::{Kind, Mult, Scales};

fn keep_mult(by: Mult)
    ensures { IsMultiplier by }
{
    let _numbers = (by.n(), by.k());
}

/// The multipliers of the fields are as their type keeps them.
pub fn keep_scales(scales: &Scales)
    ensures { AreMultipliers scales.now }
{
    keep_mult(scales.e_to_b);
    keep_mult(scales.b_to_e);
    keep_mult(scales.e_force);
    keep_mult(scales.b_force);
}

/// The multipliers of a species are as their type keeps them.
pub fn keep_kind(kind: Kind)
    ensures { HasMultipliers kind }
{
    keep_mult(kind.kick);
    keep_mult(kind.turn);
}
