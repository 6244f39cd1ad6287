//! Blocks: single values, rows, and layers added.

ghost use Rattle.std.specs.Prelude.{◌≡◌, ◌^◌, IfOk};
ghost use Rattle.pic_num.specs.Space.{triple, spot};
ghost use Rattle.pic_block.specs.Block.{AllAtMost, IsShaped};

use pic_block::{Block, Zone};
use pic_num::{Axis, NoMemory};
use std::alloc::Global;
use std::process::Abort;

// a block of zeros
fn zeros(alloc: Global, low: [i32; 3], size: [u32; 3]) -> Result<Block, NoMemory>
    ensures low { IfOk result (λ b. b.low ≡ spot low) }
    ensures size { IfOk result (λ b. b.size ≡ triple size) }
    ensures small { IfOk result (AllAtMost (2 ^ 120)) }
{
    let block = Block::new(alloc, Zone { low, size })?;
    Ok(block)
}

// changes a value, where the zone has the cell, to a small one
fn put(block: &mut Block, axis: Axis, cell: [i32; 3], value: i128)
    requires { AllAtMost (2 ^ 120) block.old }
    ensures shape { IsShaped block.old block.new }
    ensures small { AllAtMost (2 ^ 120) block.new }
{
    if !block.has(cell) || value.unsigned_abs() > 1 << 120 {
        return;
    }
    block.set(axis, cell, value);
}

// what stands at these places: `None` outside the zone
fn check(rt: &impl Abort, block: &Block, places: &[(Axis, [i32; 3], Option<i128>)]) {
    for (axis, cell, wanted) in places {
        let found = if block.has(*cell) {
            Some(block.at(*axis, *cell))
        } else {
            None
        };
        assert_eq!(rt; found, *wanted, "{axis:?} {cell:?}");
    }
}

#[test]
fn a_block_is_changed_at_one_place(rt: HostRuntime) -> Result<(), NoMemory> {
    let zone = Zone {
        low: [-1, 0, 3],
        size: [2, 3, 1],
    };
    let mut block = Block::new(rt.alloc(), zone)?;
    assert_eq!(rt; block.zone(), zone);
    block.set(Axis::Y, [-1, 2, 3], 40);
    block.add(Axis::Y, [-1, 2, 3], 2);
    block.set(Axis::Z, [0, 0, 3], -5);
    check(
        &rt,
        &block,
        &[
            (Axis::Y, [-1, 2, 3], Some(42)),
            (Axis::X, [-1, 2, 3], Some(0)),
            (Axis::Y, [0, 2, 3], Some(0)),
            (Axis::Y, [-1, 1, 3], Some(0)),
            (Axis::Z, [0, 0, 3], Some(-5)),
            (Axis::Z, [-2, 0, 3], None),
            (Axis::Z, [1, 0, 3], None),
            (Axis::Z, [0, 3, 3], None),
            (Axis::Z, [0, 0, 4], None),
        ],
    );
    block.clear();
    check(&rt, &block, &[(Axis::Y, [-1, 2, 3], Some(0))]);
    Ok(())
}

// the components on y of the row at y and z
fn check_row(rt: &impl Abort, block: &Block, y: u32, z: u32, row: &[i128]) {
    let [_, ny, nz] = block.zone().size;
    assert!(rt; y < ny && z < nz);
    assert_eq!(rt; block.row(Axis::Y, y, z), row);
}

#[test]
fn a_row_that_is_written_is_read_back(rt: HostRuntime) -> Result<(), NoMemory> {
    let zone = Zone {
        low: [-1, 0, 3],
        size: [2, 3, 1],
    };
    let mut block = Block::new(rt.alloc(), zone)?;
    let start = block.row_start(Axis::Y, 2, 0);
    block.values_mut()[start..start + 2].copy_from_slice(&[5, 6]);
    check_row(&rt, &block, 2, 0, &[5, 6]);
    check(
        &rt,
        &block,
        &[
            (Axis::Y, [-1, 2, 3], Some(5)),
            (Axis::Y, [0, 2, 3], Some(6)),
            (Axis::Y, [0, 1, 3], Some(0)),
            (Axis::Z, [-1, 0, 3], Some(0)),
        ],
    );
    Ok(())
}

#[test]
fn layers_are_added_where_they_lie(rt: HostRuntime) -> Result<(), NoMemory> {
    let mut block = zeros(rt.alloc(), [-1, 0, 3], [3, 2, 2])?;
    put(&mut block, Axis::X, [1, 1, 4], 40);
    put(&mut block, Axis::Y, [-1, 0, 3], 6);
    let mut layers = zeros(rt.alloc(), [70, 8, 9], [2, 1, 1])?;
    put(&mut layers, Axis::X, [71, 8, 9], 2);
    put(&mut layers, Axis::X, [70, 8, 9], -9);
    put(&mut layers, Axis::Z, [70, 8, 9], 5);
    block.add_layers(&layers, [1, 1, 1]);
    check(
        &rt,
        &block,
        &[
            (Axis::X, [1, 1, 4], Some(42)),
            (Axis::X, [0, 1, 4], Some(-9)),
            (Axis::Z, [0, 1, 4], Some(5)),
            (Axis::Z, [1, 1, 4], Some(0)),
            (Axis::X, [-1, 1, 4], Some(0)),
            (Axis::X, [0, 0, 4], Some(0)),
            (Axis::X, [0, 1, 3], Some(0)),
            (Axis::Y, [-1, 0, 3], Some(6)),
        ],
    );
    block.clear_at([4, 5, 6]);
    check(
        &rt,
        &block,
        &[(Axis::X, [3, 6, 7], None), (Axis::X, [6, 6, 7], Some(0))],
    );
    Ok(())
}

#[test]
fn a_block_is_blank_until_it_is_written(rt: HostRuntime) -> Result<(), NoMemory> {
    let mut block = zeros(rt.alloc(), [-1, 0, 3], [3, 2, 2])?;
    assert!(rt; block.is_blank());
    put(&mut block, Axis::X, [1, 1, 4], 40);
    assert!(rt; !block.is_blank());
    let mut layers = zeros(rt.alloc(), [70, 8, 9], [2, 1, 1])?;
    block.add_layers(&layers, [1, 1, 1]);
    check(
        &rt,
        &block,
        &[
            (Axis::X, [1, 1, 4], Some(40)),
            (Axis::X, [0, 1, 4], Some(0)),
            (Axis::Y, [-1, 0, 3], Some(0)),
        ],
    );
    put(&mut layers, Axis::X, [71, 8, 9], 0);
    assert!(rt; !layers.is_blank());
    layers.clear();
    assert!(rt; layers.is_blank());
    block.clear_at([4, 5, 6]);
    assert!(rt; block.is_blank());
    check(
        &rt,
        &block,
        &[(Axis::X, [3, 6, 7], None), (Axis::X, [6, 6, 7], Some(0))],
    );
    block.add_layers(&layers, [0, 0, 0]);
    assert!(rt; block.is_blank());
    let _values = block.values_mut();
    assert!(rt; !block.is_blank());
    Ok(())
}
