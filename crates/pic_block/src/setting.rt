//! Components of a block set in the order of places.

ghost use Rattle.std.specs.Prelude.{◌≡◌, ◌+◌, ◌*◌, ◌≤◌, length};
ghost use Rattle.pic_block.specs.Block.{overwritten};
ghost use Rattle.pic_block.specs.Cells.{count_of};

use crate::block::Block;

impl Block {
    /// Changes the components from the one of the number `first` on to `values`, and nothing else.
    pub fn set_values(&mut self, first: usize, values: &[i128])
        requires { first + length values.now ≤ 3 * count_of self.old.size }
        ensures after { self.new
            ≡ record self.old { values = overwritten first values.now self.old.values } }
        ensures shape { length self.old.values ≡ 3 * count_of self.old.size }
    {
        self.blank = false;
        self.weak = false;
        let end = first + values.len();
        self.values.as_mut_slice()[first..end].copy_from_slice(values);
    }
}
