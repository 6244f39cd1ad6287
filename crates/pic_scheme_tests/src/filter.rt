//! Tests of the filter on worked numbers: the charge of a lone particle, and a lattice in parts.

ghost use Rattle.std.specs.Prelude.{◌≡◌, IfOk};
ghost use Rattle.pic_num.specs.Space.{triple, spot};
ghost use Rattle.pic_block.specs.Block.{IsAmongCells};
ghost use Rattle.pic_block.specs.Cells.{IsWithin};
ghost use Rattle.pic_grid.specs.Lattice.{EachAtMost, IsParts};
ghost use Rattle.pic_filter.specs.Smoothing.{most_to_smooth};

use crate::charge::{charge_one, is_in_box};
use pic_block::{Block, Zone};
use pic_filter::{smooth, smooth_nodes};
use pic_grid::{Cells, Lattice, Nodes};
use pic_num::{Axis, NoMemory, Sub};
use std::alloc::Global;
use std::process::Abort;

// the filtered charge of a particle of charge 1 at the first node
fn smooth_one(alloc: Global, cells: Cells, to: &mut Nodes) -> Result<(), NoMemory>
    requires { to.old.cells ≡ cells.n }
    ensures { to.new.cells ≡ cells.n }
{
    let mut nodes = Nodes::new(alloc, cells)?;
    if is_in_box(cells, [0; 3]) {
        charge_one(cells, 0, [0; 3], &mut nodes);
        smooth_nodes(cells, &nodes, to);
    }
    Ok(())
}

// what a node has, or -1 outside
fn value_in(cells: Cells, nodes: &Nodes, node: [u32; 3]) -> i128
    requires { nodes.now.cells ≡ cells.n }
{
    let [nx, ny, nz] = cells.numbers();
    let [x, y, z] = node;
    if x >= nx || y >= ny || z >= nz {
        return -1;
    }
    nodes.at(node)
}

// the cells of an axis, a node, and what it has: a step along one, two and three axes, round the grid
// too, and two steps
const SHARES: [(u32, [u32; 3], i128); 12] = [
    (4, [0, 0, 0], 6597069766656),
    (4, [1, 0, 0], 3298534883328),
    (4, [0, 3, 0], 3298534883328),
    (4, [0, 0, 1], 3298534883328),
    (4, [1, 3, 0], 1649267441664),
    (4, [0, 1, 3], 1649267441664),
    (4, [3, 1, 3], 824633720832),
    (4, [2, 0, 0], 0),
    (4, [1, 2, 1], 0),
    (2, [0, 0, 0], 6597069766656),
    (2, [1, 0, 1], 6597069766656),
    (2, [1, 1, 1], 6597069766656),
];

#[test]
fn a_charge_is_filtered(rt: HostRuntime) {
    for (count, node, share) in &SHARES {
        let count = if *count == 2 { 2 } else { 4 };
        let cells = Cells::new([count; 3], Sub::of_bits(12));
        let mut nodes = Nodes::new(rt.alloc(), cells).expect(&rt, "memory");
        nodes.set([1, 0, 1], 99);
        smooth_one(rt.alloc(), cells, &mut nodes).expect(&rt, "memory");
        assert_eq!(rt; value_in(cells, &nodes, *node), *share, "{count} {node:?}");
    }
}

// a lattice of 4 by 4 by 2 cells in parts, 5 on y at one edge and 7 on x at another
fn lattice_of(alloc: Global, parts: [u32; 3]) -> Result<Lattice, NoMemory>
    requires { IsParts (record { x = 4; y = 4; z = 2 }) (triple parts) }
    ensures cells { IfOk result (λ f. f.cells ≡ record { x = 4; y = 4; z = 2 }) }
    ensures small { IfOk result (EachAtMost most_to_smooth) }
{
    let mut field = Lattice::new(alloc, Cells::new([4, 4, 2], Sub::of_bits(12)), parts)?;
    field.set(Axis::Y, [1, 3, 0], 5);
    field.set(Axis::X, [0, 0, 1], 7);
    Ok(field)
}

// its filtered values from the cell (2, 0, 0) on, in a block that held others
fn smooth_four(alloc: Global, parts: [u32; 3]) -> Result<Block, NoMemory>
    requires { IsParts (record { x = 4; y = 4; z = 2 }) (triple parts) }
{
    let zone = Zone {
        low: [2, 0, 0],
        size: [2, 2, 2],
    };
    let mut block = Block::new(alloc, zone)?;
    let field = lattice_of(alloc, parts)?;
    smooth(field.cells(), &field, &mut block);
    Ok(block)
}

// the value of a block at a cell of its zone
fn read(block: &Block, axis: Axis, cell: [i32; 3]) -> i128 {
    if block.has(cell) {
        block.at(axis, cell)
    } else {
        0
    }
}

// the weight is 2 in y and 2 in z at the first edge's own layer, and round the grid
fn round_two_edges(axis: Axis, cell: [i32; 3]) -> i128 {
    match (axis, cell) {
        (Axis::X, [3, 0, _]) => 28,
        (Axis::X, [3, 1, _]) => 14,
        (Axis::Y, [2, 0, _]) => 10,
        _ => 0,
    }
}

fn check_block(rt: &impl Abort, block: &Block, axis: Axis) {
    for place in 0..8 {
        let cell = [2 + (place & 1), place >> 1 & 1, place >> 2];
        let wanted = round_two_edges(axis, cell);
        assert_eq!(rt; read(block, axis, cell), wanted, "{axis:?} {cell:?}");
    }
}

#[test]
fn a_lattice_in_parts_is_filtered_by_blocks(rt: HostRuntime) {
    for parts in [[1, 1, 1], [2, 2, 1], [4, 1, 2]] {
        let block = smooth_four(rt.alloc(), parts).expect(&rt, "memory");
        for axis in [Axis::X, Axis::Y, Axis::Z] {
            check_block(&rt, &block, axis);
        }
    }
}
