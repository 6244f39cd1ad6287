//! The size of a number.

ghost use Rattle.std.specs.Prelude.{◌^◌, ◌≤◌, ◌↔◌, IsTrue};
ghost use Rattle.pic_num.specs.Sizes.{IsAtMost};

/// Whether a number is at most `most` in size, `most` being at most 2^62: two comparisons, which the
/// compiler makes one of.
#[inline(always)]
pub fn is_at_most(n: i64, most: u64) -> bool
    requires { most ≤ 2 ^ 62 }
    ensures { IsTrue result ↔ IsAtMost n most }
{
    let most = most as i64;
    if n < -most {
        return false;
    }
    n <= most
}
