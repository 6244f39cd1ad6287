//! Components of a lattice set in the order of places.

ghost use Rattle.std.specs.Prelude.{◌≡◌, ◌+◌, ◌*◌, ◌<◌, ◌≤◌, length};
ghost use Rattle.pic_block.specs.Cells.{count_of};
ghost use Rattle.pic_grid.specs.Lattice.{with_places};

use crate::lattice::Lattice;
use pic_block::Place;

impl Lattice {
    /// Changes the components from the one of the number `first` on, in the order of places, to
    /// `values`, and nothing else.
    pub fn set_places(&mut self, first: usize, values: &[i128])
        requires some { 0 < length values.now }
        requires room { first + length values.now ≤ 3 * count_of self.old.cells }
        ensures { self.new ≡ with_places self.old first values.now }
    {
        if self.has_parts_on_z(1) {
            self.blocks[0].set_values(first, values);
            return;
        }
        set_each(self, first, values);
    }
}

/// Changes the components of a lattice from the one of the number `first` on, place by place.
fn set_each(lattice: &mut Lattice, first: usize, values: &[i128])
    requires some { 0 < length values.now }
    requires room { first + length values.now ≤ 3 * count_of lattice.old.cells }
    ensures { lattice.new ≡ with_places lattice.old first values.now }
{
    let cells = lattice.cells();
    let size = cells.numbers();
    let (axis, inner) = cells.place_at(first);
    let mut at = Place { axis, inner };
    for i in 0..values.len() {
        lattice.set(at.axis, at.inner, values[i]);
        at = at.following(size);
    }
}
