//! What the tests share: the values of a lattice.

use pic_grid::Lattice;
use pic_num::Axis;
use std::process::Abort;

/// A cell, and its values on x, y and z.
#[derive(Drop)]
pub struct Value(pub [u32; 3], pub [i128; 3]);

// what some cells have at a place, and 0 where none of them is the place's
fn value_in(values: &[Value], axis: Axis, cell: [u32; 3]) -> i128 {
    let [x, y, z] = match values.iter().find(|value| value.0 == cell) {
        Some(value) => value.1,
        None => [0; 3],
    };
    match axis {
        Axis::X => x,
        Axis::Y => y,
        Axis::Z => z,
    }
}

fn check_value(rt: &impl Abort, axis: Axis, cell: [u32; 3], found: i128, wanted: i128) {
    assert_eq!(rt; found, wanted, "{axis:?} {cell:?}");
}

/// A lattice has these values, so many times a unit, and 0 at every other cell.
pub fn check_values(rt: &impl Abort, field: &Lattice, values: &[Value], unit: i128) {
    let cells = field.cells();
    for number in 0..3 * cells.count() as usize {
        let (axis, cell) = cells.place_at(number);
        let wanted = value_in(values, axis, cell).wrapping_mul(unit);
        check_value(rt, axis, cell, field.at(axis, cell), wanted);
    }
}
