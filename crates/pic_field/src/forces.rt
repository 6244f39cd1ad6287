//! The force values of a field in one block.

ghost use Rattle.std.specs.Prelude.{◌≡◌};
ghost use Rattle.pic_num.specs.declared.axis.Axis.{Axis as AxisName};
ghost use Rattle.pic_num.specs.Limits.{most_value};
ghost use Rattle.pic_num.specs.Rounding.{scaled};
ghost use Rattle.pic_num.specs.Space.{Triple};
ghost use Rattle.pic_block.specs.Cells.{IsWithin};
ghost use Rattle.pic_block.specs.Block.{IsAmongCells, IsShaped, inner_at, outer_of};
ghost use Rattle.pic_grid.specs.Lattice.{EachAtMost, value_at};

use crate::making::{Making, make};
use pic_block::Block;
use pic_grid::Lattice;
use pic_num::Mult;

/// Makes every value of a block the force value of a field there, whatever the block held: the
/// field's value times the multiplier, rounded once. The zone of the block lies among the cells of
/// `from`, whose values are at most 2^90 in size.
pub fn force(mult: Mult, from: &Lattice, to: &mut Block)
    requires among { IsAmongCells to.old.low to.old.size from.now.cells }
    requires small { EachAtMost most_value from.now }
    ensures shape { IsShaped to.new to.old }
    ensures values { (a : AxisName) → (p : Triple) → IsWithin p to.old.size
        → inner_at to.new a p ≡ scaled (value_at from.now a (outer_of to.old.low p)) mult }
{
    make(&Making::Scaled(mult), from, to);
}
