//! Places of a lattice found axis by axis, for readers of many places round one point.

ghost use Rattle.std.specs.Prelude.{◌≡◌, ◌+◌, ◌*◌, ◌/◌, ◌%◌, ◌<◌, ◌≤◌};
ghost use Rattle.pic_num.specs.Limits.{most_cells_of_axis};
ghost use Rattle.pic_grid.specs.Lattice.{value_at};
ghost use Rattle.pic_grid.specs.Parts.{IsFactor};
ghost use Rattle.pic_grid.specs.Slot.{IsSlotX, IsSlotY, IsSlotZ};

use crate::lattice::Lattice;
use pic_num::Axis;

/// A cell's index on one axis, and where it lies in a lattice: what it adds to the number of the
/// cell's part, and to the cell's number among those of the part.
#[derive(Clone, Copy)]
pub struct Slot {
    pub index: u32,
    pub part: u32,
    pub place: u32,
}

impl Lattice {
    /// Where an index of the x axis lies.
    #[inline(always)]
    pub fn slot_x(&self, index: u32) -> Slot
        requires { index < self.now.cells.x }
        ensures index { result.index ≡ index }
        ensures slot { IsSlotX self.now.cells self.now.parts result }
    {
        let [layers, _, _] = self.layers;
        let [factor, _, _] = self.factors;
        slot_on(layers, factor, 1, 1, index)
    }

    /// Where an index of the y axis lies.
    #[inline(always)]
    pub fn slot_y(&self, index: u32) -> Slot
        requires { index < self.now.cells.y }
        ensures index { result.index ≡ index }
        ensures slot { IsSlotY self.now.cells self.now.parts result }
    {
        let [parts_x, _, _] = self.parts;
        let [layers_x, layers, _] = self.layers;
        let [_, factor, _] = self.factors;
        slot_on(layers, factor, parts_x, layers_x, index)
    }

    /// Where an index of the z axis lies.
    #[inline(always)]
    pub fn slot_z(&self, index: u32) -> Slot
        requires { index < self.now.cells.z }
        ensures index { result.index ≡ index }
        ensures slot { IsSlotZ self.now.cells self.now.parts result }
    {
        let [parts_x, parts_y, _] = self.parts;
        let [layers_x, layers_y, layers] = self.layers;
        let [_, _, factor] = self.factors;
        slot_on(
            layers,
            factor,
            parts_x * parts_y,
            layers_x * layers_y,
            index,
        )
    }

    /// The component on `axis` at the cell of three slots.
    #[inline(always)]
    pub fn at_slots(&self, axis: Axis, x: Slot, y: Slot, z: Slot) -> i128
        requires x { IsSlotX self.now.cells self.now.parts x }
        requires y { IsSlotY self.now.cells self.now.parts y }
        requires z { IsSlotZ self.now.cells self.now.parts z }
        ensures { result
            ≡ value_at self.now axis (record { x = x.index; y = y.index; z = z.index }) }
    {
        let [layers_x, layers_y, layers_z] = self.layers;
        let count = layers_x as usize * layers_y as usize * layers_z as usize;
        let part = x.part as usize + y.part as usize + z.part as usize;
        let place = x.place as usize + y.place as usize + z.place as usize;
        let block = &self.blocks[part];
        let values = block.values();
        values[axis.number() as usize * count + place]
    }
}

/// Where an index lies on an axis, one part and one place of which are so many further.
#[inline(always)]
fn slot_on(layers: u32, factor: u16, part_step: u32, place_step: u32, index: u32) -> Slot
    requires some { 1 ≤ layers }
    requires most { layers ≤ most_cells_of_axis }
    requires factor { IsFactor layers factor }
    requires few { index < most_cells_of_axis }
    requires part_step { part_step ≤ most_cells_of_axis * most_cells_of_axis }
    requires place_step { place_step ≤ most_cells_of_axis * most_cells_of_axis }
    ensures index { result.index ≡ index }
    ensures part { result.part ≡ index / layers * part_step }
    ensures place { result.place ≡ index % layers * place_step }
{
    let part = part_of(layers, factor, index);
    let inner = index - part * layers;
    Slot {
        index,
        part: part * part_step,
        place: inner * place_step,
    }
}

/// The part of an index, by the factor of a part's layers.
#[inline(always)]
pub(crate) fn part_of(layers: u32, factor: u16, index: u32) -> u32
    requires some { 1 ≤ layers }
    requires most { layers ≤ most_cells_of_axis }
    requires factor { IsFactor layers factor }
    requires few { index < most_cells_of_axis }
    ensures value { result ≡ index / layers }
    ensures low { result * layers ≤ index }
    ensures high { index < result * layers + layers }
{
    let _layers = layers;
    (index * u32::from(factor)) >> 15
}
