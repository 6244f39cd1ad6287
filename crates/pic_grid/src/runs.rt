//! Runs of a lattice: the places of one component side by side in x, up to the end of their part; and
//! its layers, where each is a part.

ghost use Rattle.std.specs.Prelude.{◌≡◌, ◌↔◌, ℕ, pos, ◌+◌, ◌<◌, ◌≤◌, length, slice_index_or, IsTrue};
ghost use Rattle.pic_num.specs.Space.{triple};
ghost use Rattle.pic_block.specs.Cells.{IsWithin};
ghost use Rattle.pic_block.specs.Rows.{part_end};
ghost use Rattle.pic_grid.specs.Lattice.{value_at};
ghost use Rattle.pic_grid.specs.Parts.{part_size, layered, IsLayer};
ghost use Rattle.pic_grid.specs.Slot.{IsSlotX, IsSlotY, IsSlotZ};

use crate::lattice::Lattice;
use crate::slot::Slot;
use pic_num::Axis;

impl Lattice {
    /// The components on `axis` from `cell`, one of the cells, along its row to the end of its part.
    pub fn run(&self, axis: Axis, cell: [u32; 3]) -> &[i128]
        requires { IsWithin (triple cell) self.now.cells }
        ensures end { (triple cell).x + length result.now
            ≡ part_end (part_size self.now.cells self.now.parts).x (triple cell).x }
        ensures some { 0 < length result.now }
        ensures inside { (triple cell).x + length result.now ≤ self.now.cells.x }
        ensures values { (i : ℕ) → i < length result.now → slice_index_or result.now i (pos 0)
            ≡ value_at self.now axis (record (triple cell) { x = (triple cell).x + i }) }
    {
        let [x, y, z] = cell;
        self.run_at(axis, self.slot_x(x), self.slot_y(y), self.slot_z(z))
    }

    /// The components on `axis` from the cell of three slots along its row to the end of its part:
    /// for readers that find the slots of y and z once for a whole row.
    #[inline(always)]
    pub fn run_at(&self, axis: Axis, x: Slot, y: Slot, z: Slot) -> &[i128]
        requires x { IsSlotX self.now.cells self.now.parts x }
        requires y { IsSlotY self.now.cells self.now.parts y }
        requires z { IsSlotZ self.now.cells self.now.parts z }
        ensures end { x.index + length result.now
            ≡ part_end (part_size self.now.cells self.now.parts).x x.index }
        ensures some { 0 < length result.now }
        ensures inside { x.index + length result.now ≤ self.now.cells.x }
        ensures values { (i : ℕ) → i < length result.now → slice_index_or result.now i (pos 0)
            ≡ value_at self.now axis (record { x = x.index + i; y = y.index; z = z.index }) }
    {
        let [layers_x, layers_y, layers_z] = self.layers;
        let count = layers_x as usize * layers_y as usize * layers_z as usize;
        let part = x.part as usize + y.part as usize + z.part as usize;
        let place = x.place as usize + y.place as usize + z.place as usize;
        let block = &self.blocks[part];
        let values = block.values();
        let start = axis.number() as usize * count + place;
        &values[start..start + (layers_x - x.place) as usize]
    }

    /// Whether each layer of z is a part of its own.
    #[inline(always)]
    pub fn is_layered(&self) -> bool
        ensures { IsTrue result ↔ (self.now.parts ≡ layered self.now.cells) }
    {
        let [_, _, nz] = self.cells().numbers();
        self.has_parts_on_z(nz)
    }

    /// Whether it has so many parts, all of them on z.
    #[inline(always)]
    pub(crate) fn has_parts_on_z(&self, count: u32) -> bool
        ensures { IsTrue result ↔ (self.now.parts ≡ record { x = 1; y = 1; z = count }) }
    {
        let [px, py, pz] = self.parts;
        px == 1 && py == 1 && pz == count
    }

    /// The components in a layer of z, where each is a part of its own: x fastest, then y and the
    /// axis.
    #[inline(always)]
    pub fn layer(&self, z: u32) -> &[i128]
        requires parts { self.now.parts ≡ layered self.now.cells }
        requires below { z < self.now.cells.z }
        ensures { IsLayer self.now z result.now }
    {
        let block = &self.blocks[z as usize];
        block.values()
    }
}
