//! What is kept of lines of cells in x that are taken in one after another, up y.

ghost use Rattle.std.specs.Prelude.{◌≡◌, ℕ, ◌<◌, length};
ghost use Rattle.std.specs.Bool.{OnFalse};
ghost use Rattle.pic_num.specs.declared.axis.Axis.TheVariants.{Z};
ghost use Rattle.pic_num.specs.Sizes.{IsAtMost};
ghost use Rattle.pic_num.specs.Space.{triple};
ghost use Rattle.pic_block.specs.Cells.{IsWithin};
ghost use Rattle.pic_grid.specs.Lattice.{EachAtMost, value_at};
ghost use Rattle.pic_filter.specs.Smoothing.{smoothed_along, most_to_smooth};
ghost use Rattle.pic_filter.specs.Runs.{most_of_three, three_at, HoldThree};
ghost use Rattle.pic_filter.specs.Kept.{kept_at, taken, IsSmall, AreSmall, HoldLines, TakeIn};

use crate::runs::{Three, slots_round, three_runs, weigh_three};
use pic_grid::Lattice;
use pic_num::Axis;

/// What is kept of a layer of x: the number of the last line that was taken in, the sum of the last
/// two, and that of the last three by their weights.
#[derive(Clone, Copy)]
pub(crate) struct Kept {
    pub(crate) one: i128,
    pub(crate) two: i128,
    pub(crate) three: i128,
}

/// Nothing kept.
pub(crate) const NONE: Kept = Kept {
    one: 0,
    two: 0,
    three: 0,
};

impl Kept {
    /// What is kept once the number of the next line is taken in.
    #[inline(always)]
    fn with(self, next: i128) -> Kept
        requires small { IsSmall self }
        requires next { IsAtMost next most_of_three }
        ensures { result ≡ taken self next }
    {
        let two = self.one + next;
        Kept {
            one: next,
            two,
            three: self.two + two,
        }
    }
}

/// Makes ready what is kept for the row that begins at `cell`: of the lines below it and its own.
/// Where the row isn't the `first` of a layer that was left when the last one was filled.
pub(crate) fn make_ready(from: &Lattice, axis: Axis, cell: [u32; 3], first: bool, kept: &mut [Kept])
    requires within { IsWithin (triple cell) from.now.cells }
    requires small { EachAtMost most_to_smooth from.now }
    requires kept_small { AreSmall kept.old }
    requires held { OnFalse first (HoldLines from.now.cells
        (smoothed_along Z from.now.cells (value_at from.now axis)) (triple cell) kept.old) }
    ensures holds { HoldLines from.now.cells
        (smoothed_along Z from.now.cells (value_at from.now axis)) (triple cell) kept.new }
    ensures small { AreSmall kept.new }
{
    if !first {
        return;
    }
    take_in(from, axis, from.cells().down(Axis::Y, cell), kept);
    take_in(from, axis, cell, kept);
}

/// Takes in the line of `cell`, filtered along z: from the cell before it in x on, round the grid.
pub(crate) fn take_in(from: &Lattice, axis: Axis, cell: [u32; 3], kept: &mut [Kept])
    requires within { IsWithin (triple cell) from.now.cells }
    requires small { EachAtMost most_to_smooth from.now }
    requires kept_small { AreSmall kept.old }
    ensures takes { TakeIn from.now.cells
        (smoothed_along Z from.now.cells (value_at from.now axis)) (triple cell)
        kept.old kept.new }
    ensures small { AreSmall kept.new }
{
    let cells = from.cells();
    let [mut x, y, z] = cells.down(Axis::X, cell);
    let on_y = from.slot_y(y);
    let on_z = slots_round(from, cell);
    let count = kept.len();
    let mut done = 0;
    while done < count {
        let three = three_runs(from, axis, from.slot_x(x), on_y, &on_z);
        let more = three.own.len().min(count - done);
        take_run(&three, &mut kept[done..done + more]);
        let [behind, _, _] = cells.up(Axis::X, [x + (more - 1) as u32, y, z]);
        done = done + more;
        x = behind;
    }
}

/// Takes in what the filter along z makes of three runs.
#[inline(always)]
fn take_run(three: &Three, kept: &mut [Kept])
    requires hold { HoldThree most_to_smooth (length kept.old) three.now }
    requires small { AreSmall kept.old }
    ensures { (i : ℕ) → i < length kept.old
        → kept_at kept.new i ≡ taken (kept_at kept.old i) (three_at three.now i) }
{
    for i in 0..kept.len() {
        kept[i] = kept[i].with(weigh_three(three, i));
    }
}
