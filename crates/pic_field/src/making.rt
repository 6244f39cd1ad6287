//! A block made line by line from a field.

ghost use Rattle.std.specs.Prelude.{◌≡◌, ◌<◌};
ghost use Rattle.pic_num.specs.declared.axis.Axis.{Axis as AxisName};
ghost use Rattle.pic_num.specs.Limits.{most_value};
ghost use Rattle.pic_num.specs.Space.{Triple};
ghost use Rattle.pic_block.specs.Cells.{IsWithin};
ghost use Rattle.pic_block.specs.Block.{IsAmongCells, IsShaped, inner_at};
ghost use Rattle.pic_grid.specs.Lattice.{EachAtMost};
ghost use Rattle.pic_field.specs.Lines.{HasCells, OnRow, OnLine, OnLayer, OnStrip, Changed, line_start};
ghost use Rattle.pic_field.specs.Makings.{CanMake, made_by};
ghost use Rattle.pic_field.specs.Rows.{start_cell, IsStart};

use crate::row::{Scaled, Start, lessen_row, scaled_row, start_at};
use crate::zone::{cell_in, is_empty, line_length};
use pic_block::Block;
use pic_grid::Lattice;
use pic_num::{Axis, Mult};

/// What is made of a block's value from a field's at its place: the field's value scaled, or the
/// block's less the field's.
#[derive(Clone, Copy)]
pub(crate) enum Making {
    Scaled(Mult),
    Less,
}

/// Makes every value of a block from a field. The zone of the block lies among the field's cells.
pub(crate) fn make(how: &Making, from: &Lattice, to: &mut Block)
    requires among { IsAmongCells to.old.low to.old.size from.now.cells }
    requires small { EachAtMost most_value from.now }
    requires can { CanMake how.now (OnStrip 0 to.old.size.y) to.old }
    ensures shape { IsShaped to.new to.old }
    ensures values { (a : AxisName) → (p : Triple) → IsWithin p to.old.size
        → inner_at to.new a p ≡ made_by how.now from.now to.old.low a p (inner_at to.old a p) }
{
    let zone = to.zone();
    if is_empty(zone) {
        return;
    }
    for z in 0..zone.size[2] {
        make_layer(how, from, to, z);
    }
}

/// Makes a layer, line by line.
fn make_layer(how: &Making, from: &Lattice, to: &mut Block, z: u32)
    requires among { IsAmongCells to.old.low to.old.size from.now.cells }
    requires some { HasCells to.old.size }
    requires small { EachAtMost most_value from.now }
    requires can { CanMake how.now (OnLayer z) to.old }
    requires z { z < to.old.size.z }
    ensures { Changed (made_by how.now from.now to.old.low) (OnLayer z) to.old to.new }
{
    let zone = to.zone();
    for y in 0..zone.size[1] {
        make_line(how, from, to, y, z);
    }
}

/// Makes a line.
fn make_line(how: &Making, from: &Lattice, to: &mut Block, y: u32, z: u32)
    requires among { IsAmongCells to.old.low to.old.size from.now.cells }
    requires some { HasCells to.old.size }
    requires small { EachAtMost most_value from.now }
    requires can { CanMake how.now (OnLine y z) to.old }
    requires y { y < to.old.size.y }
    requires z { z < to.old.size.z }
    ensures { Changed (made_by how.now from.now to.old.low) (OnLine y z) to.old to.new }
{
    let cell = cell_in(from.cells(), to.zone(), [0, y, z]);
    let start = start_at(from, cell);
    make_row(how, from, start, to, Axis::X, y, z);
    make_row(how, from, start, to, Axis::Y, y, z);
    make_row(how, from, start, to, Axis::Z, y, z);
}

/// Makes the components on `axis` along the line that begins at `start`.
fn make_row(how: &Making, from: &Lattice, start: Start, to: &mut Block, axis: Axis, y: u32, z: u32)
    requires among { IsAmongCells to.old.low to.old.size from.now.cells }
    requires small { EachAtMost most_value from.now }
    requires can { CanMake how.now (OnRow axis y z) to.old }
    requires start { IsStart from.now start }
    requires cell { start_cell start ≡ line_start to.old.low y z }
    requires y { y < to.old.size.y }
    requires z { z < to.old.size.z }
    ensures { Changed (made_by how.now from.now to.old.low) (OnRow axis y z) to.old to.new }
{
    let count = line_length(from.cells(), to.zone());
    let at = to.row_start(axis, y, z);
    let values = to.values_mut();
    let row = &mut values[at..at + count];
    match *how {
        Making::Scaled(by) => scaled_row(&Scaled { field: from, by }, axis, start, count, row),
        Making::Less => lessen_row(from, axis, start, row),
    }
}
