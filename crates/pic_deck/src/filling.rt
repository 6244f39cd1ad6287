//! Filling a lattice with a field that a deck begins with.

ghost use Rattle.std.specs.Prelude.{◌≡◌, ℤ, ◌^◌, ◌+ℤ◌, ◌*◌, length};
ghost use Rattle.pic_num.specs.declared.axis.Axis.{Axis as AxisView};
ghost use Rattle.pic_num.specs.Sizes.{IsAtMost};
ghost use Rattle.pic_num.specs.Space.{Triple, spot, along};
ghost use Rattle.pic_block.specs.Cells.{IsWithin, count_of};
ghost use Rattle.pic_grid.specs.Lattice.{value_at, field_of};
ghost use Rattle.pic_grid.specs.Sums.{sum_over};
ghost use Rattle.pic_walk.specs.Rows.{AreRows};
ghost use Rattle.pic_deck.specs.Initial.{IsUniform, part, set_up};

use pic_grid::Lattice;
use pic_num::Axis;
use pic_walk::Row;

// the number on an axis
fn number_along(axis: Axis, numbers: [i64; 3]) -> i64
    ensures value { result ≡ along axis (spot numbers) }
    ensures size { IsAtMost result (2 ^ 63) }
{
    match axis {
        Axis::X => numbers[0],
        Axis::Y => numbers[1],
        Axis::Z => numbers[2],
    }
}

// sets every component on an axis to the number of that axis
fn fill_uniform(numbers: [i64; 3], to: &mut Lattice)
    ensures cells { to.new.cells ≡ to.old.cells }
    ensures side { to.new.side ≡ to.old.side }
    ensures parts { to.new.parts ≡ to.old.parts }
    ensures shape { length to.new.values ≡ 3 * count_of to.new.cells }
    ensures values { (a : AxisView) (p : Triple) → IsWithin p to.new.cells
        → IsUniform (spot numbers) a (value_at to.new a p) }
{
    let cells = to.cells();
    for place in 0..3 * cells.count() as usize {
        let (axis, cell) = cells.place_at(place);
        let number = number_along(axis, numbers);
        to.set(axis, cell, i128::from(number));
    }
}

// adds each row's value at its place
fn add_rows(rows: &[Row], to: &mut Lattice)
    requires rows { AreRows to.old.cells rows.now }
    requires shape { length to.old.values ≡ 3 * count_of to.old.cells }
    requires size { (a : AxisView) (p : Triple) → IsWithin p to.old.cells
        → IsAtMost (value_at to.old a p) (2 ^ 63) }
    ensures cells { to.new.cells ≡ to.old.cells }
    ensures side { to.new.side ≡ to.old.side }
    ensures parts { to.new.parts ≡ to.old.parts }
    ensures shape { length to.new.values ≡ 3 * count_of to.new.cells }
    ensures values { (a : AxisView) (p : Triple) → IsWithin p to.old.cells → value_at to.new a p
        ≡ value_at to.old a p +ℤ sum_over (part a p) rows.now }
{
    for row in rows {
        let value = to.at(row.axis, row.cell) + i128::from(row.value);
        to.set(row.axis, row.cell, value);
    }
}

/// Makes a lattice, whatever it held, the uniform field of these numbers with the rows added.
pub(crate) fn fill(numbers: [i64; 3], rows: &[Row], to: &mut Lattice)
    requires { AreRows to.old.cells rows.now }
    ensures value { to.new
        ≡ field_of to.old.side to.old.cells to.old.parts (set_up (spot numbers) rows.now) }
    ensures size { (a : AxisView) (p : Triple) → IsWithin p to.old.cells
        → IsAtMost (set_up (spot numbers) rows.now a p) (2 ^ 84) }
{
    fill_uniform(numbers, to);
    add_rows(rows, to);
}
