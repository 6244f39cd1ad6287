//! A step of E in one block.

ghost use Rattle.std.specs.Prelude.{◌≡◌, OnOk};
ghost use Rattle.pic_num.specs.Limits.{most_value};
ghost use Rattle.pic_num.specs.Push.{unless};
ghost use Rattle.pic_block.specs.Block.{IsAmongCells, IsShaped, AllAtMost};
ghost use Rattle.pic_grid.specs.Lattice.{EachAtMost, value_at};
ghost use Rattle.pic_field.specs.FieldPhases.{stop_of_full, AllBounded, IsFullStep, no_current, no_drive, values_in, most_drive_value, most_lessened, most_raised};

use crate::faults::safe_most;
use crate::making::{Making, make};
use crate::raising::raise;
use crate::rooms::Rooms;
use crate::row::Scaled;
use crate::sweep::{Sweep, advance};
use pic_block::Block;
use pic_grid::{Lattice, Phase, Stop};
use pic_num::Scales;

/// A step of E at every place of a block: each value and the curl of the scaled B, which `m` drives,
/// less the current `j`. Each value of B is rounded before that of `m` is added. The zone of the
/// block lies among the cells of `b`, which are those of `m`, and is that of `j`. The values of `m`
/// are at most 2^64 in size, and all others at most 2^90.
///
/// Every place has its new value, also where the answer is a stop: that of the least place (the
/// axis first, then z, y, x) whose new value is above 2^90 in size, or else its force value above
/// 2^44. The phase of the stop is `Electric`.
pub fn full_e(
    scales: &Scales,
    b: &Lattice,
    m: &Lattice,
    j: &Block,
    e: &mut Block,
) -> Result<(), Stop>
    requires among { IsAmongCells e.old.low e.old.size b.now.cells }
    requires m_cells { m.now.cells ≡ b.now.cells }
    requires j_shape { IsShaped j.now e.old }
    requires b_small { EachAtMost most_value b.now }
    requires m_small { EachAtMost most_drive_value m.now }
    requires j_small { AllAtMost most_value j.now }
    requires e_small { AllAtMost most_value e.old }
    ensures bounded { OnOk result (AllBounded scales.now.e_force e.new) }
    ensures shape { IsShaped e.new e.old }
    ensures values { IsFullStep scales.now b.now (value_at m.now) (values_in j.now) e.old e.new }
    ensures stop { result
        ≡ unless (stop_of_full scales.now b.now (value_at m.now) (values_in j.now) e.old) tt }
{
    raise(m, j, e);
    free_e_in(scales, b, e, &mut Rooms::new())
}

/// As `full_e`, where nothing drives B and the current is a lattice of the same cells, cut as it may
/// be, in rooms that are lent. The values of E may be those that the curl of a drive was added to.
pub fn full_e_in(
    scales: &Scales,
    b: &Lattice,
    j: &Lattice,
    e: &mut Block,
    rooms: &mut Rooms,
) -> Result<(), Stop>
    requires among { IsAmongCells e.old.low e.old.size b.now.cells }
    requires j_cells { j.now.cells ≡ b.now.cells }
    requires b_small { EachAtMost most_value b.now }
    requires j_small { EachAtMost most_value j.now }
    requires e_small { AllAtMost most_raised e.old }
    ensures shape { IsShaped e.new e.old }
    ensures values { IsFullStep scales.now b.now no_drive (value_at j.now) e.old e.new }
    ensures stop { result
        ≡ unless (stop_of_full scales.now b.now no_drive (value_at j.now) e.old) tt }
    ensures bounded { OnOk result (AllBounded scales.now.e_force e.new) }
{
    make(&Making::Less, j, e);
    free_e_in(scales, b, e, rooms)
}

/// As `full_e_in`, where there is no current. The values of E may be those that one was taken off.
pub fn free_e_in(scales: &Scales, b: &Lattice, e: &mut Block, rooms: &mut Rooms) -> Result<(), Stop>
    requires among { IsAmongCells e.old.low e.old.size b.now.cells }
    requires b_small { EachAtMost most_value b.now }
    requires e_small { AllAtMost most_lessened e.old }
    ensures shape { IsShaped e.new e.old }
    ensures values { IsFullStep scales.now b.now no_drive no_current e.old e.new }
    ensures stop { result ≡ unless (stop_of_full scales.now b.now no_drive no_current e.old) tt }
    ensures bounded { OnOk result (AllBounded scales.now.e_force e.new) }
{
    let from = Scaled {
        field: b,
        by: scales.b_to_e,
    };
    let step = Sweep {
        from,
        up: false,
        most: safe_most(scales.e_force),
    };
    advance(&step, Phase::Electric, scales.e_force, e, rooms)
}
