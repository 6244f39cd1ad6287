//! Four components of a block at once: those on one axis round a cell, of which it has some.

ghost use Rattle.std.specs.Prelude.{◌≡◌, pos, ◌*◌, ◌^◌, ◌<◌, ◌*ℤ◌, ◌≤ℤ◌, length, unsigned_abs, IsTrue};
ghost use Rattle.pic_num.specs.Sizes.{IsAtMost};
ghost use Rattle.pic_block.specs.Block.{AllAtMost};
ghost use Rattle.pic_block.specs.BlockLayers.{NumbersAtMost, most_of_layer};
ghost use Rattle.pic_block.specs.Cells.{count_of};
ghost use Rattle.pic_block.specs.Fours.{IsBase, base_cell, AreSmall, AreFound, added_in, four_added, most_carried, most_of_weight, most_before_four, most_of_four};

use crate::base::{Base, sum};
use crate::block::Block;
use pic_num::Axis;

/// What is carried along an axis, and the weights of the four components on it round a cell: of
/// those low and high on the next axis, and on the third. What goes to a component is what is
/// carried times its weight.
#[derive(Clone, Copy)]
pub struct Four {
    pub by: i64,
    pub low_low: i64,
    pub high_low: i64,
    pub low_high: i64,
    pub high_high: i64,
}

/// Which of the four components on one axis round a cell a block has.
#[derive(Clone, Copy)]
pub struct Found {
    pub low_low: bool,
    pub high_low: bool,
    pub low_high: bool,
    pub high_high: bool,
}

impl Block {
    /// Adds to the components on `axis` round a cell, of those that are found, what is carried
    /// times the weight of each, and changes nothing else. What is carried is at most 2^45 in size,
    /// a weight at most 2^35, and the block's numbers at most 2^110.
    #[inline(always)]
    pub fn add_four(&mut self, axis: Axis, at: &Base, found: &Found, four: &Four)
        requires base { IsBase self.old.low self.old.size at.now }
        requires found { AreFound self.old.low self.old.size axis (base_cell at.now) found.now }
        requires small { AreSmall four.now }
        requires room { AllAtMost most_before_four self.old }
        ensures shape { length self.old.values ≡ 3 * count_of self.old.size }
        ensures values { self.new ≡ four_added self.old axis (base_cell at.now) found.now four.now }
    {
        let second = axis.next();
        let third = second.next();
        let here = at.first(axis);
        let up = sum(here, at.step(second));
        let high = sum(here, at.step(third));
        let far = sum(high, at.step(second));
        self.blank = false;
        self.weak = false;
        let values = self.values.as_mut_slice();
        add_at(values, here, found.low_low, four.by, four.low_low);
        add_at(values, up, found.high_low, four.by, four.high_low);
        add_at(values, high, found.low_high, four.by, four.low_high);
        add_at(values, far, found.high_high, four.by, four.high_high);
    }
}

/// Adds what is carried times a weight to the number at a place, where it is found: the product of
/// 128 bits is made only there.
#[inline(always)]
fn add_at(values: &mut [i128], place: i64, found: bool, by: i64, weight: i64)
    requires least { IsTrue found → pos 0 ≤ℤ place }
    requires below { IsTrue found → unsigned_abs place < length values.old }
    requires by { IsAtMost by most_carried }
    requires weight { IsAtMost weight most_of_weight }
    requires room { NumbersAtMost most_of_layer values.old }
    ensures { values.new ≡ added_in found values.old (unsigned_abs place) (by *ℤ weight) }
{
    if found {
        values[place as usize] += product(by, weight);
    }
}

/// The product of what is carried and a weight, in 128 bits: it is at most 2^80 in size.
#[inline(always)]
fn product(by: i64, weight: i64) -> i128
    requires by { IsAtMost by most_carried }
    requires weight { IsAtMost weight most_of_weight }
    ensures value { result ≡ by *ℤ weight }
    ensures size { IsAtMost result most_of_four }
{
    i128::from(by) * i128::from(weight)
}
