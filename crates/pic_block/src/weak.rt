//! Blocks of weak values, as force values are where nothing is violent: readers that know it sum them in
//! 64 bits.

ghost use Rattle.std.specs.Prelude.{◌≡◌, ◌*◌, length, IsTrue};
ghost use Rattle.pic_block.specs.Cells.{count_of};
ghost use Rattle.pic_block.specs.Weak.{AreWeak};

use crate::block::Block;

/// The greatest size of a weak value.
const GREATEST_WEAK: i128 = 1 << 26;

impl Block {
    /// Finds whether its components are weak, as `is_weak` tells until one is changed. No component is
    /// changed.
    pub fn measure(&mut self)
        ensures { self.new ≡ self.old }
    {
        self.weak = are_weak(self.values.as_slice());
    }

    /// Whether its components are known to be weak. It may be false where they are: as long as nobody
    /// measured them, and where one is as great as a weak value can be.
    #[inline(always)]
    pub fn is_weak(&self) -> bool
        ensures weak { IsTrue result → AreWeak self.now.values }
        ensures shape { length self.now.values ≡ 3 * count_of self.now.size }
    {
        let _values = &self.values;
        self.weak
    }
}

/// Whether all values are weak. It may be false where they are and one is as great as a weak value can
/// be.
// Any other sets a bit from the 27th on, once a weak value's greatest size is added to it.
fn are_weak(values: &[i128]) -> bool
    ensures { IsTrue result → AreWeak values.now }
{
    let mut bits = 0i128;
    for i in 0..values.len() {
        bits |= values[i].wrapping_add(GREATEST_WEAK);
    }
    0 <= bits && bits < 2 * GREATEST_WEAK
}
