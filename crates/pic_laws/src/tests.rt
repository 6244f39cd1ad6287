//! The fast programs held against those that compute the definitions place by place.

ghost use Rattle.std.specs.Prelude.{◌≡◌, IsTrue};
ghost use Rattle.pic_num.specs.Limits.{most_charge};
ghost use Rattle.pic_num.specs.Sizes.{IsAtMost};
ghost use Rattle.pic_num.specs.Space.{triple};
ghost use Rattle.pic_grid.specs.Hat.{IsInBox};
ghost use Rattle.pic_charge.specs.Charge.{IsCharged};

use crate::slow_weight;
use pic_charge::charge;
use pic_grid::{Cells, Nodes};
use pic_num::{Kind, Mult, NoMemory, Particle, Sub};

fn kind(charge: i32) -> Kind
    requires { IsAtMost charge most_charge }
    ensures { IsCharged result }
{
    let none = Mult::new(0, 0);
    Kind {
        charge,
        mass: 1,
        kick: none,
        turn: none,
    }
}

// whether a position lies in the box
fn is_in_box(cells: Cells, point: [u32; 3]) -> bool
    ensures { IsTrue result → IsInBox cells.side cells.n (triple point) }
{
    let side = cells.sub().side();
    let [nx, ny, nz] = cells.numbers();
    let [x, y, z] = point;
    x < nx * side && y < ny * side && z < nz * side
}

// the charge of a particle of charge 1
fn charge_one(cells: Cells, x: [u32; 3], nodes: &mut Nodes)
    requires cells { nodes.old.cells ≡ cells.n }
    requires place { IsInBox cells.side cells.n (triple x) }
    ensures { nodes.new.cells ≡ cells.n }
{
    let particle = Particle {
        id: 0,
        species: 0,
        x,
        v: [0; 3],
    };
    charge(cells, &[kind(1)], &[particle], nodes);
}

#[test]
fn a_share_is_twelve_times_the_weight_by_distance(rt: HostRuntime) -> Result<(), NoMemory> {
    let cells = Cells::new([2, 3, 4], Sub::of_bits(12));
    for x in [[0, 0, 0], [8191, 12287, 16383], [4096, 5000, 9999]] {
        assert!(rt; is_in_box(cells, x));
        let mut nodes = Nodes::new(rt.alloc(), cells)?;
        charge_one(cells, x, &mut nodes);
        for index in 0..24 {
            let node = cells.cell_at(index);
            let weight = slow_weight(4096, [2, 3, 4], x, node);
            assert_eq!(rt; nodes.at(node), 12 * i128::from(weight), "{x:?} {node:?}");
        }
    }
    Ok(())
}
