//! What loops add to the scaled B of the faces in a step, and to E.

ghost use Rattle.std.specs.Prelude.{◌≡◌, pos, ◌+◌, ◌*◌, ◌^◌, ◌≤◌, length};
ghost use Rattle.pic_num.specs.Limits.{most_value, most_loops, most_drive};
ghost use Rattle.pic_num.specs.Sizes.{IsAtMost};
ghost use Rattle.pic_num.specs.Space.{triple};
ghost use Rattle.pic_block.specs.Cells.{IsWithin};
ghost use Rattle.pic_grid.specs.Differences.{curl_b};
ghost use Rattle.pic_grid.specs.Lattice.{EachAtMost, field_of};
ghost use Rattle.pic_grid.specs.Loops.{IsLoop, AreLoops};
ghost use Rattle.pic_drive.specs.Drive.{wave_at, only_there, driven, most_driven, plus};

use pic_block::Place;
use pic_grid::{Lattice, Loop};
use pic_num::Axis;

/// Makes every value of a lattice what loops add to the scaled B of its face in the step after so
/// many others, whatever it held. The loops are within a run's limits for its cells. It takes no
/// memory.
pub fn drive(loops: &[Loop], step: u32, m: &mut Lattice)
    requires { AreLoops m.old.cells most_loops loops.now }
    ensures values { m.new ≡ field_of m.old.side m.old.cells m.old.parts (driven loops.now step) }
    ensures small { EachAtMost most_driven m.new }
{
    clear(m);
    for one in loops {
        add(m, one.axis, one.cell, number_in(one, step));
    }
}

/// Adds to E the current of loops in the step after so many others: the curl of what they add to the
/// scaled B, at the four edges of each loop's face alone. The loops are within a run's limits for the
/// cells of E, whose values are at most 2^90 in size. It takes no memory.
pub fn raise_e(loops: &[Loop], step: u32, e: &mut Lattice)
    requires loops { AreLoops e.old.cells most_loops loops.now }
    requires small { EachAtMost most_value e.old }
    ensures values { e.new ≡ plus e.old (curl_b e.old.cells (driven loops.now step)) }
    ensures small { EachAtMost (most_value + 4 * most_driven) e.new }
{
    let _shape = e.cells();
    for one in loops {
        raise_by(one, step, e);
    }
}

/// Adds to E the current of one loop.
fn raise_by(one: &Loop, step: u32, e: &mut Lattice)
    requires within { IsLoop e.old.cells one.now }
    requires small { EachAtMost (2 ^ 100) e.old }
    ensures { e.new ≡ plus e.old (curl_b e.old.cells (only_there one.now.axis
        (triple one.now.cell) (wave_at step one.now))) }
{
    let cells = e.cells();
    let value = number_in(one, step);
    let second = one.axis.next();
    let third = second.next();
    add(e, second, one.cell, value);
    add(e, second, cells.up(third, one.cell), -value);
    add(e, third, one.cell, -value);
    add(e, third, cells.up(second, one.cell), value);
}

/// The number of a loop's wave in the step after so many others.
fn number_in(one: &Loop, step: u32) -> i128
    requires { 1 ≤ length one.now.wave }
    ensures { result ≡ wave_at step one.now }
{
    let wave = one.wave.as_slice();
    i128::from(wave[step as usize % wave.len()])
}

/// Adds a number to the component of a lattice on `axis` at `cell`.
fn add(to: &mut Lattice, axis: Axis, cell: [u32; 3], value: i128)
    requires within { IsWithin (triple cell) to.old.cells }
    requires small { EachAtMost (2 ^ 101) to.old }
    requires value { IsAtMost value most_drive }
    ensures { to.new ≡ plus to.old (only_there axis (triple cell) value) }
{
    let _shape = to.cells();
    let sum = to.at(axis, cell) + value;
    to.set(axis, cell, sum);
}

/// Makes every value of a lattice 0.
fn clear(m: &mut Lattice)
    ensures { m.new ≡ field_of m.old.side m.old.cells m.old.parts (λ _ _. pos 0) }
{
    let cells = m.cells();
    let mut place = Place::first();
    for _number in 0..3 * cells.count() {
        m.set(place.axis, place.inner, 0);
        place = place.following(cells.numbers());
    }
}
