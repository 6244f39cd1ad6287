//! The test whether a layer is one of some.

ghost use Rattle.std.specs.Prelude.{◌^◌, ◌↔◌, IsTrue};
ghost use Rattle.pic_num.specs.Sizes.{IsAtMost};
ghost use Rattle.pic_block.specs.Among.{IsOneOf};

/// Whether the layer `c` is one of `size` layers from `low` on.
#[inline(always)]
pub fn is_among(low: i32, size: u32, c: i64) -> bool
    requires { IsAtMost c (2 ^ 40) }
    ensures { IsTrue result ↔ IsOneOf low size c }
{
    let above = c - i64::from(low);
    if above < 0 {
        return false;
    }
    if above >= i64::from(size) {
        return false;
    }
    true
}
