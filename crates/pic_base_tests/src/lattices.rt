//! Lattices in one part and in several, nodes, and states.

use pic_grid::{Cells, Lattice, Nodes, Snapshot};
use pic_num::{Axis, NoMemory, Sub};
use std::process::Abort;

// gives the component on y at a cell the cell's number
fn put(field: &mut Lattice, index: usize) {
    let cells = field.cells();
    if index < cells.count() as usize {
        field.set(Axis::Y, cells.cell_at(index), index as i128);
    }
}

// that component, by its cell and axis by axis, and the length of the run that it begins
fn found(field: &Lattice, index: usize) -> Option<(i128, i128, usize)> {
    let cells = field.cells();
    if index >= cells.count() as usize {
        return None;
    }
    let cell = cells.cell_at(index);
    let [x, y, z] = cell;
    let value = field.at_slots(Axis::Y, field.slot_x(x), field.slot_y(y), field.slot_z(z));
    Some((
        field.at(Axis::Y, cell),
        value,
        field.run(Axis::Y, cell).len(),
    ))
}

// every cell's number is read back, in parts of so many layers on x
fn check(rt: &impl Abort, field: &mut Lattice, layers: usize) {
    for index in 0..48 {
        put(field, index);
    }
    for index in 0..48_usize {
        let number = index as i128;
        let run = layers.wrapping_sub(index & layers.wrapping_sub(1));
        assert_eq!(rt; found(field, index), Some((number, number, run)));
    }
}

// the component on y at the last of 48 cells, where each of their two layers of z is a part
fn last_in_layer(field: &Lattice) -> Option<i128> {
    let [_, _, nz] = field.cells().numbers();
    if nz < 2 || !field.is_layered() {
        return None;
    }
    field.layer(1).get(24 + 23).copied()
}

#[test]
fn a_value_is_read_back_in_every_part(rt: HostRuntime) -> Result<(), NoMemory> {
    let cells = Cells::new([4, 6, 2], Sub::of_bits(8));
    for (parts, layers) in [
        ([1, 1, 1], 4),
        ([2, 3, 1], 2),
        ([4, 2, 2], 1),
        ([1, 1, 2], 4),
    ] {
        let mut field = Lattice::new(rt.alloc(), cells, parts)?;
        check(&rt, &mut field, layers);
        assert_eq!(rt; (field.cells(), field.parts()), (cells, parts));
        assert_eq!(rt; last_in_layer(&field), (parts == [1, 1, 2]).then_some(47));
    }
    Ok(())
}

#[test]
fn blocks_keep_all_values(rt: HostRuntime) -> Result<(), NoMemory> {
    let cells = Cells::new([4, 2, 4], Sub::of_bits(8));
    let mut field = Lattice::new(rt.alloc(), cells, [2, 1, 2])?;
    field.set(Axis::Z, [3, 1, 1], 5);
    let blocks = field.into_blocks();
    assert_eq!(rt; blocks.len(), 4);
    assert_eq!(rt; blocks[1].zone().low, [2, 0, 0]);
    assert_eq!(rt; blocks[1].zone().size, [2, 2, 2]);
    let again = Lattice::of_blocks(cells, [2, 1, 2], blocks);
    assert_eq!(rt; again.at(Axis::Z, [3, 1, 1]), 5);
    Ok(())
}

// whether each of two layers of z is known to be weak, where each is a part
fn are_weak(field: &Lattice) -> Option<[bool; 2]> {
    let [_, _, nz] = field.cells().numbers();
    if nz < 2 || !field.is_layered() {
        return None;
    }
    Some([field.is_weak(0), field.is_weak(1)])
}

#[test]
fn measured_layers_are_weak_until_they_are_written(rt: HostRuntime) -> Result<(), NoMemory> {
    let cells = Cells::new([4, 6, 2], Sub::of_bits(8));
    let mut field = Lattice::new(rt.alloc(), cells, [1, 1, 2])?;
    field.set(Axis::X, [1, 2, 0], (1 << 26) - 1);
    field.set(Axis::Y, [1, 2, 0], -(1 << 26));
    field.set(Axis::Z, [3, 5, 1], -(1 << 26) - 1);
    let mut blocks = field.into_blocks();
    blocks[0].measure();
    blocks[1].measure();
    assert_eq!(rt; (blocks[0].is_weak(), blocks[1].is_weak()), (true, false));
    let mut field = Lattice::of_blocks(cells, [1, 1, 2], blocks);
    assert_eq!(rt; are_weak(&field), Some([true, false]));
    assert_eq!(rt; field.at(Axis::X, [1, 2, 0]), (1 << 26) - 1);
    field.set(Axis::X, [1, 2, 0], 0);
    assert_eq!(rt; are_weak(&field), Some([false, false]));
    Ok(())
}

#[test]
fn places_are_set_in_their_order(rt: HostRuntime) -> Result<(), NoMemory> {
    let cells = Cells::new([4, 6, 2], Sub::of_bits(8));
    for parts in [[1, 1, 1], [2, 3, 1]] {
        let mut field = Lattice::new(rt.alloc(), cells, parts)?;
        field.set_places(46, &[7, 8, 9]);
        let on_x = (field.at(Axis::X, [1, 5, 1]), field.at(Axis::X, [2, 5, 1]));
        assert_eq!(rt; on_x, (0, 7));
        let on_x_and_y = (field.at(Axis::X, [3, 5, 1]), field.at(Axis::Y, [0, 0, 0]));
        assert_eq!(rt; on_x_and_y, (8, 9));
        assert_eq!(rt; field.at(Axis::Y, [1, 0, 0]), 0);
    }
    Ok(())
}

#[test]
fn values_are_copied_into_other_parts(rt: HostRuntime) -> Result<(), NoMemory> {
    let cells = Cells::new([4, 6, 2], Sub::of_bits(8));
    let mut from = Lattice::new(rt.alloc(), cells, [2, 3, 1])?;
    from.set(Axis::Y, [3, 5, 1], 7);
    from.set(Axis::Y, [1, 0, 0], 8);
    let mut to = Lattice::new(rt.alloc(), cells, [1, 2, 2])?;
    to.set(Axis::X, [0, 0, 0], 9);
    to.copy_from(&from);
    assert_eq!(rt; (to.cells(), to.parts()), (cells, [1, 2, 2]));
    let found = (to.at(Axis::Y, [3, 5, 1]), to.at(Axis::Y, [1, 0, 0]));
    assert_eq!(rt; found, (7, 8));
    let found = (to.at(Axis::X, [0, 0, 0]), to.at(Axis::Z, [3, 5, 1]));
    assert_eq!(rt; found, (0, 0));
    Ok(())
}

#[test]
fn nodes_and_states_are_read_back(rt: HostRuntime) -> Result<(), NoMemory> {
    let cells = Cells::new([2, 3, 4], Sub::of_bits(8));
    let mut nodes = Nodes::new(rt.alloc(), cells)?;
    nodes.set([1, 2, 3], 9);
    let found = (nodes.cells(), nodes.at([1, 2, 3]), nodes.at([0, 2, 3]));
    assert_eq!(rt; found, ([2, 3, 4], 9, 0));
    let state = Snapshot::new(rt.alloc(), cells, 5)?;
    let found = (state.e.cells(), state.b.parts(), state.particles.len());
    assert_eq!(rt; found, (cells, [1, 1, 1], 5));
    Ok(())
}
