//! Runs of three lines of cells in x, side by side in z, as the lattice has them.

ghost use Rattle.std.specs.Prelude.{◌≡◌, ◌+◌};
ghost use Rattle.pic_num.specs.Sizes.{IsAtMost};
ghost use Rattle.pic_num.specs.Space.{triple};
ghost use Rattle.pic_block.specs.Cells.{IsWithin};
ghost use Rattle.pic_grid.specs.Slot.{IsSlotX, IsSlotY};
ghost use Rattle.pic_filter.specs.Smoothing.{most_to_smooth};
ghost use Rattle.pic_filter.specs.Runs.{most_of_three, three_at, AreSlots, AreRound, AreThree, HoldThree};

use crate::weights::weigh;
use pic_grid::{Lattice, Slot};
use pic_num::Axis;

/// Where three layers of z lie that follow one another, round the grid.
#[derive(Clone, Copy)]
pub(crate) struct Slots {
    pub(crate) last: Slot,
    pub(crate) own: Slot,
    pub(crate) next: Slot,
}

/// The runs of three lines, side by side in z.
#[derive(Clone, Copy)]
pub(crate) struct Three<'a> {
    pub(crate) last: &'a [i128],
    pub(crate) own: &'a [i128],
    pub(crate) next: &'a [i128],
}

/// Where the layers of z round that of `cell` lie.
#[inline(always)]
pub(crate) fn slots_round(from: &Lattice, cell: [u32; 3]) -> Slots
    requires { IsWithin (triple cell) from.now.cells }
    ensures slots { AreSlots from.now result }
    ensures layers { AreRound from.now.cells (triple cell) result }
{
    let cells = from.cells();
    let [_, _, last] = cells.down(Axis::Z, cell);
    let [_, _, own] = cell;
    let [_, _, next] = cells.up(Axis::Z, cell);
    Slots {
        last: from.slot_z(last),
        own: from.slot_z(own),
        next: from.slot_z(next),
    }
}

/// The runs of three lines from the layer of `x` on, in the layer of `y`.
#[inline(always)]
pub(crate) fn three_runs<'a>(
    from: &'a Lattice,
    axis: Axis,
    x: Slot,
    y: Slot,
    z: &Slots,
) -> Three<'a>
    requires x { IsSlotX from.now.cells from.now.parts x }
    requires y { IsSlotY from.now.cells from.now.parts y }
    requires z { AreSlots from.now z.now }
    ensures { AreThree from.now axis x.index y.index z.now result }
{
    Three {
        last: from.run_at(axis, x, y, z.last),
        own: from.run_at(axis, x, y, z.own),
        next: from.run_at(axis, x, y, z.next),
    }
}

/// What the filter along z makes of three runs at an index.
#[inline(always)]
pub(crate) fn weigh_three(three: &Three, i: usize) -> i128
    requires { HoldThree most_to_smooth (i + 1) three.now }
    ensures value { result ≡ three_at three.now i }
    ensures size { IsAtMost result most_of_three }
{
    weigh(three.last[i], three.own[i], three.next[i])
}
