//! Gauss's law, node by node.

ghost use Rattle.std.specs.Prelude.{◌≡◌, ◌↔◌, ◌^◌, ◌<◌, ◌≤◌, ◌+◌, ◌-◌, ◌%◌, ◌-ℤ◌, None, IfSome};
ghost use Rattle.pic_num.specs.declared.axis.Axis.{Axis as AxisName};
ghost use Rattle.pic_num.specs.Limits.{most_value};
ghost use Rattle.pic_num.specs.Sizes.{IsAtMost};
ghost use Rattle.pic_num.specs.Space.{Triple, triple};
ghost use Rattle.pic_block.specs.Cells.{IsWithin};
ghost use Rattle.pic_grid.specs.Differences.{div_e, down};
ghost use Rattle.pic_grid.specs.Lattice.{value_at, node_at};
ghost use Rattle.pic_charge.specs.Gauss.{difference_at, first_break, Agree, IsLeastBreak};

use pic_block::Place;
use pic_grid::{Cells, Lattice, Nodes};
use pic_num::Axis;

/// A node where the divergence of E and the charge differ, and the two numbers, in twelfths of a charge
/// times a cubic sub-cell; the charge is the filtered one where the run has a filter.
#[derive(Clone, Copy, Debug, PartialEq, Eq)]
pub struct Break {
    pub node: [u32; 3],
    pub div: i128,
    pub rho: i128,
}

/// The least node, x fastest, where the divergence of `e` and the number in `rho` differ, or `None`
/// where they agree at every node: Gauss's law, where `rho` holds the charge.
pub fn gauss(cells: Cells, e: &Lattice, rho: &Nodes) -> Option<Break>
    requires e_cells { e.now.cells ≡ cells.n }
    requires rho_cells { rho.now.cells ≡ cells.n }
    requires e_most { (a : AxisName) (p : Triple) → IsWithin p cells.n
        → IsAtMost (value_at e.now a p) most_value }
    ensures value { result ≡ first_break cells.n (div_e cells.n (value_at e.now))
        (node_at rho.now) }
    ensures none { (result ≡ None) ↔ Agree cells.n (div_e cells.n (value_at e.now))
        (node_at rho.now) }
    ensures least { IfSome result (IsLeastBreak cells.n (div_e cells.n (value_at e.now))
        (node_at rho.now)) }
{
    let size = cells.numbers();
    let mut place = Place::first();
    for _ in 0..cells.count() {
        let found = difference(cells, e, rho, place.inner);
        if found.is_some() {
            return found;
        }
        place = place.following(size);
    }
    None
}

/// The break at `node`, if there is one.
#[inline(always)]
#[tactic(auto, unfolding(crate::specs::Gauss::difference_at))]
fn difference(cells: Cells, e: &Lattice, rho: &Nodes, node: [u32; 3]) -> Option<Break>
    requires e_cells { e.now.cells ≡ cells.n }
    requires rho_cells { rho.now.cells ≡ cells.n }
    requires e_most { (a : AxisName) (p : Triple) → IsWithin p cells.n
        → IsAtMost (value_at e.now a p) most_value }
    requires within { IsWithin (triple node) cells.n }
    ensures { result ≡ difference_at (div_e cells.n (value_at e.now)) (node_at rho.now)
        (triple node) }
{
    let div = divergence(cells, e, node);
    let rho = rho.at(node);
    if div == rho {
        return None;
    }
    let [x, y, z] = node;
    Some(Break {
        node: [x, y, z],
        div,
        rho,
    })
}

/// The divergence of E at `node`.
#[inline(always)]
fn divergence(cells: Cells, e: &Lattice, node: [u32; 3]) -> i128
    requires e_cells { e.now.cells ≡ cells.n }
    requires e_most { (a : AxisName) (p : Triple) → IsWithin p cells.n
        → IsAtMost (value_at e.now a p) most_value }
    requires within { IsWithin (triple node) cells.n }
    ensures { result ≡ div_e cells.n (value_at e.now) (triple node) }
{
    let along_x = outflow(cells, e, Axis::X, node);
    let along_y = outflow(cells, e, Axis::Y, node);
    let along_z = outflow(cells, e, Axis::Z, node);
    along_x + along_y + along_z
}

/// What leaves `node` along an axis, less what comes in.
#[inline(always)]
fn outflow(cells: Cells, e: &Lattice, axis: Axis, node: [u32; 3]) -> i128
    requires e_cells { e.now.cells ≡ cells.n }
    requires e_most { (a : AxisName) (p : Triple) → IsWithin p cells.n
        → IsAtMost (value_at e.now a p) most_value }
    requires within { IsWithin (triple node) cells.n }
    ensures value { result ≡ value_at e.now axis (triple node)
        -ℤ value_at e.now axis (down cells.n axis (triple node)) }
    ensures size { IsAtMost result (2 ^ 91) }
{
    component(e, axis, node) - component(e, axis, cells.down(axis, node))
}

/// The component of E on `axis` at `cell`, whose place is found axis by axis: neighbours share most of it.
#[inline(always)]
fn component(e: &Lattice, axis: Axis, cell: [u32; 3]) -> i128
    requires { IsWithin (triple cell) e.now.cells }
    ensures { result ≡ value_at e.now axis (triple cell) }
{
    let [x, y, z] = cell;
    e.at_slots(axis, e.slot_x(x), e.slot_y(y), e.slot_z(z))
}
