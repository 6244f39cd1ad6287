//! What drives B and the current of a block, added to E and taken off it place by place.

ghost use Rattle.std.specs.Prelude.{◌≡◌, ◌+ℤ◌, ◌-ℤ◌};
ghost use Rattle.pic_num.specs.declared.axis.Axis.{Axis as AxisName};
ghost use Rattle.pic_num.specs.Limits.{most_value};
ghost use Rattle.pic_num.specs.Space.{Triple, triple};
ghost use Rattle.pic_block.specs.Block.{IsAmongCells, IsShaped, AllAtMost, inner_at, outer_of};
ghost use Rattle.pic_block.specs.Cells.{IsWithin};
ghost use Rattle.pic_grid.specs.Differences.{curl_b};
ghost use Rattle.pic_grid.specs.Lattice.{EachAtMost, value_at};
ghost use Rattle.pic_field.specs.FieldPhases.{most_drive_value, most_lessened};

use crate::zone::{cell_in, place_count};
use pic_block::{Block, Place};
use pic_grid::Lattice;
use pic_num::Axis;

/// Adds to every value of a block the curl of a lattice there, less what a block of its zone has
/// there. The zone lies among the cells of the lattice.
pub(crate) fn raise(m: &Lattice, j: &Block, e: &mut Block)
    requires among { IsAmongCells e.old.low e.old.size m.now.cells }
    requires j_shape { IsShaped j.now e.old }
    requires m_small { EachAtMost most_drive_value m.now }
    requires j_small { AllAtMost most_value j.now }
    requires e_small { AllAtMost most_value e.old }
    ensures shape { IsShaped e.new e.old }
    ensures values { (a : AxisName) → (p : Triple) → IsWithin p e.old.size
        → inner_at e.new a p ≡ inner_at e.old a p
        +ℤ (curl_b m.now.cells (value_at m.now) a (outer_of e.old.low p) -ℤ inner_at j.now a p) }
    ensures small { AllAtMost most_lessened e.new }
{
    let cells = m.cells();
    let zone = e.zone();
    let mut place = Place::first();
    for _number in 0..place_count(cells, zone) {
        let cell = cell_in(cells, zone, place.inner);
        let at = cells.unwrapped(cell);
        let more = curl_of(m, place.axis, cell) - j.at(place.axis, at);
        e.add(place.axis, at, more);
        place = place.following(zone.size);
    }
}

/// The curl of a lattice as that of B, on an axis at a cell.
fn curl_of(m: &Lattice, axis: Axis, cell: [u32; 3]) -> i128
    requires within { IsWithin (triple cell) m.now.cells }
    requires small { EachAtMost most_drive_value m.now }
    ensures { result ≡ curl_b m.now.cells (value_at m.now) axis (triple cell) }
{
    let cells = m.cells();
    let second = axis.next();
    let third = second.next();
    let near_third = m.at(third, cell);
    let far_third = m.at(third, cells.down(second, cell));
    let near_second = m.at(second, cell);
    let far_second = m.at(second, cells.down(third, cell));
    near_third - far_third - near_second + far_second
}
