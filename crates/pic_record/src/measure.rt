//! What tells the moderate values of a field.

ghost use Rattle.std.specs.Prelude.{◌≡◌};
ghost use Rattle.pic_record.specs.FrameFields.{is_moderate, AreModerateUpTo};

use pic_num::{MAX_FORCE, MAX_VALUE, Mult, scale};
use std::marker::Model;

/// The multiplier of a field's force values, which contracts see, and a size up to which each value
/// is moderate.
#[derive(Drop)]
pub(crate) struct Measure {
    by: Mult,
    clear: u128,
}

impl Model for Measure {
    ghost use Rattle.pic_num.specs.Multiplier.{Multiplier};
    ghost use Rattle.pic_record.specs.FrameFields.{AreModerateUpTo};

    ghost Value = { Multiplier };

    ghost view = { λ m. m.by };

    ghost invariant = { λ m. AreModerateUpTo m.clear m.by };
}

impl Measure {
    /// That of a field with this multiplier.
    pub(crate) fn new(by: Mult) -> Measure
        ensures { result ≡ by }
    {
        Measure {
            by,
            clear: clear_size(by),
        }
    }

    /// Whether a value is moderate. Nearly every value is of a clear size.
    #[inline(always)]
    pub(crate) fn has_moderate(&self, value: i128) -> bool
        ensures { result ≡ is_moderate self.now value }
    {
        value.unsigned_abs() <= self.clear || is_moderate(self.by, value)
    }
}

/// A size up to which each value is moderate.
fn clear_size(by: Mult) -> u128
    ensures { AreModerateUpTo result by }
{
    let size = u128::from(by.n().unsigned_abs());
    ((MAX_FORCE << by.k()) / size.max(1)).min(MAX_VALUE)
}

/// The whole test of a value.
fn is_moderate(by: Mult, value: i128) -> bool
    ensures { result ≡ is_moderate by value }
{
    value.unsigned_abs() <= MAX_VALUE && scale(value, by).unsigned_abs() <= MAX_FORCE
}
