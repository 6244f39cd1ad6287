//! Tests of the charge and of Gauss's law on worked numbers.

ghost use Rattle.std.specs.Prelude.{◌≡◌, ◌<◌, IsTrue, IfOk};
ghost use Rattle.pic_num.specs.declared.axis.Axis.{Axis as AxisName};
ghost use Rattle.pic_num.specs.Limits.{most_charge, most_value};
ghost use Rattle.pic_num.specs.Sizes.{IsAtMost};
ghost use Rattle.pic_num.specs.Space.{Triple, triple};
ghost use Rattle.pic_block.specs.Cells.{IsWithin};
ghost use Rattle.pic_grid.specs.Lattice.{value_at, node_at};
ghost use Rattle.pic_grid.specs.Hat.{IsInBox};
ghost use Rattle.pic_charge.specs.Charge.{IsCharged, most_node_charge};

use pic_charge::{Break, ChargeRoom, charge, gauss};
use pic_grid::{Cells, Lattice, Nodes};
use pic_num::{Axis, Kind, Mult, NoMemory, Particle, Sub};
use std::alloc::Global;
use std::process::Abort;

fn kind(charge: i32) -> Kind
    requires { IsAtMost charge most_charge }
    ensures { IsCharged result }
{
    let none = Mult::new(0, 0);
    Kind {
        charge,
        mass: 1,
        kick: none,
        turn: none,
    }
}

fn at(species: u8, x: [u32; 3]) -> Particle
    ensures species { result.species ≡ species }
    ensures place { triple result.x ≡ triple x }
{
    Particle {
        id: 0,
        species,
        x,
        v: [0; 3],
    }
}

// whether a position lies in the box
pub(crate) fn is_in_box(cells: Cells, point: [u32; 3]) -> bool
    ensures { IsTrue result → IsInBox cells.side cells.n (triple point) }
{
    let side = cells.sub().side();
    let [nx, ny, nz] = cells.numbers();
    let [x, y, z] = point;
    x < nx * side && y < ny * side && z < nz * side
}

// the charge of a particle of charge 1 (species 0) or -1 (species 1)
pub(crate) fn charge_one(cells: Cells, species: u8, x: [u32; 3], nodes: &mut Nodes)
    requires cells { nodes.old.cells ≡ cells.n }
    requires species { species < 2 }
    requires place { IsInBox cells.side cells.n (triple x) }
    ensures cells { nodes.new.cells ≡ cells.n }
    ensures size { (p : Triple) → IsWithin p cells.n
        → IsAtMost (node_at nodes.new p) most_node_charge }
{
    charge(cells, &[kind(1), kind(-1)], &[at(species, x)], nodes);
}

// the charge of a particle of charge 1 and one of charge -1
fn charge_two(cells: Cells, first: [u32; 3], second: [u32; 3], nodes: &mut Nodes)
    requires cells { nodes.old.cells ≡ cells.n }
    requires first { IsInBox cells.side cells.n (triple first) }
    requires second { IsInBox cells.side cells.n (triple second) }
    ensures { nodes.new.cells ≡ cells.n }
{
    charge(
        cells,
        &[kind(1), kind(-1)],
        &[at(0, first), at(1, second)],
        nodes,
    );
}

// the values of a grid of eight nodes
fn check_nodes(rt: &impl Abort, cells: Cells, nodes: &Nodes, values: [i128; 8])
    requires { nodes.now.cells ≡ cells.n }
{
    assert_eq!(rt; cells.count(), 8);
    for index in 0..8 {
        assert_eq!(rt;
            nodes.at(cells.cell_at(index)),
            values[index],
            "node {index}"
        );
    }
}

const WHOLE: i128 = 824633720832;

// the side of a cell as a power of 2, the species and the place, and what each node has of the charge
const SHARES: [(u32, u8, [u32; 3], [i128; 8]); 8] = [
    (12, 0, [0, 0, 0], [WHOLE, 0, 0, 0, 0, 0, 0, 0]),
    (12, 1, [0, 0, 0], [-WHOLE, 0, 0, 0, 0, 0, 0, 0]),
    (12, 0, [2048, 2048, 2048], [103079215104; 8]),
    (
        12,
        0,
        [8191, 0, 4096],
        [0, 0, 0, 0, 824432394240, 201326592, 0, 0],
    ),
    (8, 0, [0, 0, 0], [201326592, 0, 0, 0, 0, 0, 0, 0]),
    (8, 0, [0, 384, 0], [100663296, 0, 100663296, 0, 0, 0, 0, 0]),
    (14, 0, [0, 0, 0], [52776558133248, 0, 0, 0, 0, 0, 0, 0]),
    (
        14,
        1,
        [16385, 0, 0],
        [-3221225472, -52773336907776, 0, 0, 0, 0, 0, 0],
    ),
];

#[test]
fn a_charge_is_shared_by_eight_nodes(rt: HostRuntime) {
    for (bits, species, x, shares) in &SHARES {
        let sub = Sub::new(*bits).expect(&rt, "a side");
        let cells = Cells::new([2, 2, 2], sub);
        assert!(rt; *species < 2 && is_in_box(cells, *x));
        let mut nodes = Nodes::new(rt.alloc(), cells).expect(&rt, "memory");
        nodes.set([1, 1, 0], 99);
        charge_one(cells, *species, *x, &mut nodes);
        check_nodes(&rt, cells, &nodes, *shares);
    }
}

#[test]
fn two_charges_at_one_place_are_none(rt: HostRuntime) {
    let cells = Cells::new([2, 2, 2], Sub::of_bits(12));
    let mut nodes = Nodes::new(rt.alloc(), cells).expect(&rt, "memory");
    charge_two(cells, [5000, 100, 7], [5000, 100, 7], &mut nodes);
    check_nodes(&rt, cells, &nodes, [0; 8]);
}

// a field that is 0 but for one component
fn lone(
    alloc: Global,
    cells: Cells,
    axis: Axis,
    cell: [u32; 3],
    value: i128,
) -> Result<Lattice, NoMemory>
    requires within { IsWithin (triple cell) cells.n }
    requires size { IsAtMost value most_value }
    ensures same_cells { IfOk result (λ e. e.cells ≡ cells.n) }
    ensures most { IfOk result (λ e. (a : AxisName) (p : Triple) → IsWithin p cells.n
        → IsAtMost (value_at e a p) most_value) }
{
    let mut e = Lattice::new(alloc, cells, [1; 3])?;
    e.set(axis, cell, value);
    Ok(e)
}

#[test]
fn the_least_node_is_named(rt: HostRuntime) {
    let cells = Cells::new([2, 2, 2], Sub::of_bits(12));
    let rho = Nodes::new(rt.alloc(), cells).expect(&rt, "memory");
    let e = lone(rt.alloc(), cells, Axis::Z, [1, 1, 1], 5).expect(&rt, "memory");
    let found = Break {
        node: [1, 1, 0],
        div: -5,
        rho: 0,
    };
    assert_eq!(rt; gauss(cells, &e, &rho), Some(found));
}

#[test]
fn an_ion_alone_breaks_the_law(rt: HostRuntime) {
    let cells = Cells::new([4, 4, 4], Sub::of_bits(12));
    let mut rho = Nodes::new(rt.alloc(), cells).expect(&rt, "memory");
    let e = lone(rt.alloc(), cells, Axis::X, [0, 0, 0], 0).expect(&rt, "memory");
    charge_one(cells, 0, [1024, 0, 0], &mut rho);
    let found = Break {
        node: [0, 0, 0],
        div: 0,
        rho: 618475290624,
    };
    assert_eq!(rt; gauss(cells, &e, &rho), Some(found));
}

#[test]
fn two_charges_want_their_field(rt: HostRuntime) {
    let cells = Cells::new([4, 4, 4], Sub::of_bits(12));
    let mut rho = Nodes::new(rt.alloc(), cells).expect(&rt, "memory");
    charge_two(cells, [1024, 0, 0], [3072, 0, 0], &mut rho);
    let none = lone(rt.alloc(), cells, Axis::X, [0, 0, 0], 0).expect(&rt, "memory");
    let e = lone(rt.alloc(), cells, Axis::X, [0, 0, 0], 412316860416).expect(&rt, "memory");
    assert!(rt; gauss(cells, &none, &rho).is_some() && gauss(cells, &e, &rho).is_none());
}

#[test]
fn a_filtered_charge_wants_another_field(rt: HostRuntime) {
    let cells = Cells::new([4, 4, 4], Sub::of_bits(12));
    let mut room = ChargeRoom::new(rt.alloc(), cells, 1).expect(&rt, "memory");
    let e = lone(rt.alloc(), cells, Axis::X, [0, 0, 0], 412316860416).expect(&rt, "memory");
    let particles = [at(0, [1024, 0, 0]), at(1, [3072, 0, 0])];
    let found = Break {
        node: [0, 0, 0],
        div: 412316860416,
        rho: 1649267441664,
    };
    assert_eq!(rt;
        room.find_break(&[kind(1), kind(-1)], &particles, &e),
        Some(found)
    );
}
