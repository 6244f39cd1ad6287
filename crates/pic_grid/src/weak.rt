//! Layers of weak values, where each is a part: readers that know it sum them in 64 bits.

ghost use Rattle.std.specs.Prelude.{◌≡◌, ◌<◌, IsTrue};
ghost use Rattle.pic_grid.specs.Parts.{layered, IsWeakLayer};

use crate::lattice::Lattice;

impl Lattice {
    /// Whether the components in the layer `z`, which is a part of its own, are known to be weak. It may
    /// be false where they are: as long as nobody measured them, and where one is as great as a weak
    /// value can be.
    #[inline(always)]
    pub fn is_weak(&self, z: u32) -> bool
        requires parts { self.now.parts ≡ layered self.now.cells }
        requires below { z < self.now.cells.z }
        ensures { IsTrue result → IsWeakLayer self.now z }
    {
        let block = &self.blocks[z as usize];
        block.is_weak()
    }
}
