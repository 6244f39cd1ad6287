//! Half a step of B in one block.

ghost use Rattle.std.specs.Prelude.{◌≡◌, OnOk};
ghost use Rattle.pic_num.specs.Limits.{most_value};
ghost use Rattle.pic_num.specs.Push.{unless};
ghost use Rattle.pic_block.specs.Block.{IsAmongCells, IsShaped, AllAtMost};
ghost use Rattle.pic_grid.specs.Lattice.{EachAtMost};
ghost use Rattle.pic_field.specs.FieldPhases.{stop_of_half, AllBounded, IsHalfStep};

use crate::faults::safe_most;
use crate::rooms::Rooms;
use crate::row::Scaled;
use crate::sweep::{Sweep, advance};
use pic_block::Block;
use pic_grid::{Lattice, Phase, Stop};
use pic_num::Scales;

/// Half a step of B at every place of a block: each value less the curl of the scaled E. The zone
/// of the block lies among the cells of `e`, and all values are at most 2^90 in size.
///
/// Every place has its new value, also where the answer is a stop: that of the least place (the
/// axis first, then z, y, x) whose new value is above 2^90 in size, or else its force value above
/// 2^44.
pub fn half_b(scales: &Scales, e: &Lattice, b: &mut Block, phase: Phase) -> Result<(), Stop>
    requires among { IsAmongCells b.old.low b.old.size e.now.cells }
    requires e_small { EachAtMost most_value e.now }
    requires b_small { AllAtMost most_value b.old }
    ensures shape { IsShaped b.new b.old }
    ensures values { IsHalfStep scales.now e.now b.old b.new }
    ensures stop { result ≡ unless (stop_of_half phase scales.now e.now b.old) tt }
    ensures bounded { OnOk result (AllBounded scales.now.b_force b.new) }
{
    half_b_in(scales, e, b, phase, &mut Rooms::new())
}

/// As `half_b`, in rooms that are lent.
pub fn half_b_in(
    scales: &Scales,
    e: &Lattice,
    b: &mut Block,
    phase: Phase,
    rooms: &mut Rooms,
) -> Result<(), Stop>
    requires among { IsAmongCells b.old.low b.old.size e.now.cells }
    requires e_small { EachAtMost most_value e.now }
    requires b_small { AllAtMost most_value b.old }
    ensures shape { IsShaped b.new b.old }
    ensures values { IsHalfStep scales.now e.now b.old b.new }
    ensures stop { result ≡ unless (stop_of_half phase scales.now e.now b.old) tt }
    ensures bounded { OnOk result (AllBounded scales.now.b_force b.new) }
{
    let from = Scaled {
        field: e,
        by: scales.e_to_b,
    };
    let step = Sweep {
        from,
        up: true,
        most: safe_most(scales.b_force),
    };
    advance(&step, phase, scales.b_force, b, rooms)
}
