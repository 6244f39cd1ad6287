//! Both half steps of B of a step in one block, with the force values that lie between them.

ghost use Rattle.std.specs.Prelude.{◌≡◌, ℕ, ℤ, ◌<◌, ◌+ℤ◌, ◌-ℤ◌, OnOk, IsTrue, length};
ghost use Rattle.pic_num.specs.declared.axis.Axis.{Axis as AxisName};
ghost use Rattle.pic_num.specs.Limits.{most_value};
ghost use Rattle.pic_num.specs.Push.{unless};
ghost use Rattle.pic_num.specs.Rounding.{scaled};
ghost use Rattle.pic_num.specs.Space.{Triple};
ghost use Rattle.pic_block.specs.Cells.{IsWithin};
ghost use Rattle.pic_block.specs.Block.{IsAmongCells, IsShaped, AllAtMost, inner_at, outer_of};
ghost use Rattle.pic_grid.specs.declared.stop.Phase.TheVariants.{Half1, Half2};
ghost use Rattle.pic_grid.specs.Lattice.{EachAtMost};
ghost use Rattle.pic_field.specs.FieldPhases.{lowest, least_fault, stop_of_half, stop_of_second, IsTwiceHalved, IsForceBetween};
ghost use Rattle.pic_field.specs.Rows.{row_at, IsSmallRow};

use crate::faults::{safe_most, stop_in};
use crate::magnetic::half_b_in;
use crate::rooms::Rooms;
use crate::row::{scale_value, size_of};
use pic_block::Block;
use pic_grid::{Cells, Lattice, Phase, Stop};
use pic_num::{Mult, Scales};

/// Both half steps of B at every place of a block, between which E stays, and in a block of the same
/// zone, whatever it held, the force values of B between the two. Each half step takes off the same
/// curl, so that the second one needs no more than B before and after the first. The zone of the
/// blocks lies among the cells of `e`, and all values of E and B are at most 2^90 in size.
///
/// The answer is the stop of the second half step, if there is one; the blocks have their new values
/// then too.
///
/// # Errors
/// The stop of the first half step. What the blocks hold is of no matter then.
pub fn both_halves_in(
    scales: &Scales,
    e: &Lattice,
    b: &mut Block,
    force: &mut Block,
    rooms: &mut Rooms,
) -> Result<Option<Stop>, Stop>
    requires among { IsAmongCells b.old.low b.old.size e.now.cells }
    requires zone { IsShaped force.old b.old }
    requires e_small { EachAtMost most_value e.now }
    requires b_small { AllAtMost most_value b.old }
    ensures shape { IsShaped b.new b.old }
    ensures force_shape { IsShaped force.new b.old }
    ensures stop { result ≡ unless (stop_of_half Half1 scales.now e.now b.old)
        (stop_of_second scales.now e.now b.old) }
    ensures values { OnOk result (IsTwiceHalved scales.now e.now b.old b.new) }
    ensures force { OnOk result (IsForceBetween scales.now e.now b.old force.new) }
{
    force.values_mut().copy_from_slice(b.values_mut());
    match half_b_in(scales, e, b, Phase::Half1, rooms) {
        Ok(()) => Ok(go_on(scales.b_force, e.cells(), b, force)),
        Err(stop) => Err(stop),
    }
}

/// The second half step of B in a block, from B after the first half step and, in `force`, before it;
/// and the force values between the two in place of the latter. The answer is the second's stop.
fn go_on(by: Mult, cells: Cells, b: &mut Block, force: &mut Block) -> Option<Stop>
    requires among { IsAmongCells b.old.low b.old.size cells.n }
    requires zone { IsShaped force.old b.old }
    requires small { AllAtMost most_value b.old }
    requires before { AllAtMost most_value force.old }
    ensures shape { IsShaped b.new b.old }
    ensures force_shape { IsShaped force.new b.old }
    ensures values { (a : AxisName) → (p : Triple) → IsWithin p b.old.size → inner_at b.new a p
        ≡ inner_at b.old a p +ℤ inner_at b.old a p -ℤ inner_at force.old a p }
    ensures force { (a : AxisName) → (p : Triple) → IsWithin p b.old.size
        → inner_at force.new a p ≡ scaled (inner_at b.old a p) by }
    ensures stop { (f : AxisName → Triple → ℤ)
        → ((a : AxisName) (p : Triple) → IsWithin p b.old.size
        → inner_at b.new a p ≡ f a (outer_of b.old.low p))
        → result ≡ least_fault Half2 by (lowest b.old.low) b.old.size f }
{
    if second_half(by, safe_most(by), b.values_mut(), force.values_mut()) {
        return None;
    }
    stop_in(Phase::Half2, by, cells, b).err()
}

/// The values of B after both half steps, from those between them and, in `force`, those before; and
/// the force values between them in place of the latter. Where the answer is yes all new values are
/// at most `most` in size; where all are at most half of that it is yes.
fn second_half(by: Mult, most: u128, values: &mut [i128], force: &mut [i128]) -> bool
    requires length { length force.old ≡ length values.old }
    requires small { IsSmallRow most_value (length values.old) values.old }
    requires before { IsSmallRow most_value (length values.old) force.old }
    ensures values { (i : ℕ) → i < length values.old → row_at values.new i
        ≡ row_at values.old i +ℤ row_at values.old i -ℤ row_at force.old i }
    ensures force { (i : ℕ) → i < length values.old
        → row_at force.new i ≡ scaled (row_at values.old i) by }
    ensures calm { IsTrue result → IsSmallRow most (length values.old) values.new }
{
    let mut sizes = 0;
    for i in 0..values.len() {
        let between = values[i];
        let value = between + between - force[i];
        values[i] = value;
        force[i] = scale_value(between, by);
        sizes = sizes | size_of(value);
    }
    sizes < most
}
