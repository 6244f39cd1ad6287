//! The gather of E and of B at a point, apart or together.

ghost use Rattle.std.specs.Prelude.{◌≡◌, ◌^◌, ◌≤◌, ◌↔◌, IfSome, IsSome, IsTrue};
ghost use Rattle.pic_num.specs.Sizes.{IsAtMost};
ghost use Rattle.pic_num.specs.Limits.{most_force, most_side};
ghost use Rattle.pic_num.specs.Space.{triple, spot, AreAtMost};
ghost use Rattle.pic_grid.specs.Lattice.{value_at};
ghost use Rattle.pic_grid.specs.Gather.{gathered_e, gathered_b};
ghost use Rattle.pic_grid.specs.Hat.{IsInBox};
ghost use Rattle.pic_grid.specs.Parts.{layered};
ghost use Rattle.pic_gather.specs.Cube.{IsCubeOf};
ghost use Rattle.pic_gather.specs.Forces.{AreForces};
ghost use Rattle.pic_gather.specs.Sides.{AreSidesOf, Gathers, IsWithinWhere};
ghost use Rattle.pic_gather.specs.Weak.{AreWeakLayers, IsWeak};

use crate::component::component;
use crate::cube::Cube;
use crate::layered::{Layers, layered_component};
use crate::sides::{Sides, places_of};
use crate::weak::are_weak;
use pic_grid::Lattice;
use pic_num::{Axis, is_at_most};

/// The force values of E and of B at a point.
#[derive(Clone, Copy, Debug, PartialEq, Eq)]
pub struct Gathered {
    pub e: [i64; 3],
    pub b: [i64; 3],
}

/// The force values of E at a point of the box, in sub-cells: each component is the mean over its
/// places, which stand half a cell along the component's own axis, rounded once.
pub fn gather_e(force: &Lattice, point: [u32; 3]) -> [i64; 3]
    requires in_box { IsInBox force.now.side force.now.cells (triple point) }
    requires small { AreForces force.now }
    ensures value { spot result
        ≡ gathered_e force.now.side force.now.cells (value_at force.now) (triple point) }
    ensures size { AreAtMost (spot result) most_force }
{
    let at = places_of(force.cells(), point);
    components(force, at.middles, at.nodes)
}

/// The force values of B at a point of the box, in sub-cells: each component is the mean over its
/// places, which stand half a cell along the two other axes, rounded once.
pub fn gather_b(force: &Lattice, point: [u32; 3]) -> [i64; 3]
    requires in_box { IsInBox force.now.side force.now.cells (triple point) }
    requires small { AreForces force.now }
    ensures value { spot result
        ≡ gathered_b force.now.side force.now.cells (value_at force.now) (triple point) }
    ensures size { AreAtMost (spot result) most_force }
{
    let at = places_of(force.cells(), point);
    components(force, at.nodes, at.middles)
}

/// Both at a point of the box, where the two lattices have the same cells, side and parts: their
/// places are found once. A run's lattices have a part for each layer of z.
#[inline(always)]
pub fn gather(force_e: &Lattice, force_b: &Lattice, point: [u32; 3]) -> Gathered
    requires in_box { IsInBox force_e.now.side force_e.now.cells (triple point) }
    requires cells { force_b.now.cells ≡ force_e.now.cells }
    requires side { force_b.now.side ≡ force_e.now.side }
    requires parts { force_b.now.parts ≡ force_e.now.parts }
    requires small_e { AreForces force_e.now }
    requires small_b { AreForces force_b.now }
    ensures e { spot result.e
        ≡ gathered_e force_e.now.side force_e.now.cells (value_at force_e.now) (triple point) }
    ensures b { spot result.b
        ≡ gathered_b force_b.now.side force_b.now.cells (value_at force_b.now) (triple point) }
    ensures size_e { AreAtMost (spot result.e) most_force }
    ensures size_b { AreAtMost (spot result.b) most_force }
{
    if !force_e.is_layered() {
        return Gathered {
            e: gather_e(force_e, point),
            b: gather_b(force_b, point),
        };
    }
    let cells = force_e.cells();
    let cube = Cube::of(cells.sub());
    let at = places_of(cells, point);
    let weak = are_weak(force_e, at) & are_weak(force_b, at);
    Gathered {
        e: layered_components(force_e, cube, at.middles, at.nodes, weak),
        b: layered_components(force_b, cube, at.nodes, at.middles, weak),
    }
}

/// The same where both lattices are known to be weak, as `is_weak` says, and no component is above
/// `most` in size; else `None`. It asks for no layer, and sums in 64 bits alone.
// Each component is tested where it is made: of all six at once a compiler keeps the values of all.
#[inline(always)]
pub fn gather_weak(
    force_e: &Lattice,
    force_b: &Lattice,
    point: [u32; 3],
    most: u64,
) -> Option<Gathered>
    requires in_box { IsInBox force_e.now.side force_e.now.cells (triple point) }
    requires cells { force_b.now.cells ≡ force_e.now.cells }
    requires side { force_b.now.side ≡ force_e.now.side }
    requires small_e { AreForces force_e.now }
    requires small_b { AreForces force_b.now }
    requires weak_e { IsWeak force_e.now }
    requires weak_b { IsWeak force_b.now }
    requires most { most ≤ 2 ^ 62 }
    ensures e { IfSome result (λ g. spot g.e
        ≡ gathered_e force_e.now.side force_e.now.cells (value_at force_e.now) (triple point)) }
    ensures b { IfSome result (λ g. spot g.b
        ≡ gathered_b force_b.now.side force_b.now.cells (value_at force_b.now) (triple point)) }
    ensures some { let f = force_e.now in let g = force_b.now in
        IsSome result
        ↔ (AreAtMost (gathered_e f.side f.cells (value_at f) (triple point)) most
        × AreAtMost (gathered_b g.side g.cells (value_at g) (triple point)) most) }
{
    let cells = force_e.cells();
    let cube = Cube::of(cells.sub());
    let at = places_of(cells, point);
    let e = weak_components(force_e, cube, at.middles, at.nodes, most)?;
    let b = weak_components(force_b, cube, at.nodes, at.middles, most)?;
    Some(Gathered { e, b })
}

/// The three components at a point, each by the sides `own` on its own axis, and by `others` on the
/// two others, in a lattice of any parts.
fn components(force: &Lattice, own: Sides, others: Sides) -> [i64; 3]
    requires most { force.now.side ≤ most_side }
    requires small { AreForces force.now }
    requires own { AreSidesOf force.now own }
    requires others { AreSidesOf force.now others }
    ensures value { Gathers force.now own others (spot result) }
    ensures size { AreAtMost (spot result) most_force }
{
    let cube = Cube::of(force.cells().sub());
    if force.is_layered() {
        return layered_components(force, cube, own, others, false);
    }
    let Sides { x, y, z } = others;
    [
        component(force, cube, Axis::X, Sides { x: own.x, y, z }),
        component(force, cube, Axis::Y, Sides { x, y: own.y, z }),
        component(force, cube, Axis::Z, Sides { x, y, z: own.z }),
    ]
}

/// The same in a lattice with a part for each layer of z: two layers have the places of the nodes
/// on z, and two those of the middles.
#[inline(always)]
fn layered_components(
    force: &Lattice,
    cube: Cube,
    own: Sides,
    others: Sides,
    weak: bool,
) -> [i64; 3]
    requires parts { force.now.parts ≡ layered force.now.cells }
    requires cube { IsCubeOf force.now.side cube }
    requires most { force.now.side ≤ most_side }
    requires small { AreForces force.now }
    requires own { AreSidesOf force.now own }
    requires others { AreSidesOf force.now others }
    requires weak { IsTrue weak → AreWeakLayers force.now others.z }
    requires own_weak { IsTrue weak → AreWeakLayers force.now own.z }
    ensures value { Gathers force.now own others (spot result) }
    ensures size { AreAtMost (spot result) most_force }
{
    let Sides { x, y, z } = others;
    let layers = Layers {
        low: force.layer(z.low),
        high: force.layer(z.high),
        weak,
    };
    let own_layers = Layers {
        low: force.layer(own.z.low),
        high: force.layer(own.z.high),
        weak,
    };
    let on_x = Sides { x: own.x, y, z };
    let on_y = Sides { x, y: own.y, z };
    let on_z = Sides { x, y, z: own.z };
    [
        layered_component(force, cube, Axis::X, on_x, layers),
        layered_component(force, cube, Axis::Y, on_y, layers),
        layered_component(force, cube, Axis::Z, on_z, own_layers),
    ]
}

/// A component, where it is at most `most` in size.
#[inline(always)]
fn within(value: i64, most: u64) -> Option<i64>
    requires { most ≤ 2 ^ 62 }
    ensures value { IfSome result (λ v. v ≡ value) }
    ensures some { IsSome result ↔ IsAtMost value most }
{
    if !is_at_most(value, most) {
        return None;
    }
    Some(value)
}

/// The three components at a point of a weak lattice, where none is above `most` in size.
#[inline(always)]
fn weak_components(
    force: &Lattice,
    cube: Cube,
    own: Sides,
    others: Sides,
    most: u64,
) -> Option<[i64; 3]>
    requires weak { IsWeak force.now }
    requires cube { IsCubeOf force.now.side cube }
    requires side { force.now.side ≤ most_side }
    requires small { AreForces force.now }
    requires own { AreSidesOf force.now own }
    requires others { AreSidesOf force.now others }
    requires most { most ≤ 2 ^ 62 }
    ensures value { IfSome result (λ g. Gathers force.now own others (spot g)) }
    ensures size { IfSome result (λ g. AreAtMost (spot g) most) }
    ensures some { IsWithinWhere force.now own others most (IsSome result) }
{
    let Sides { x, y, z } = others;
    let layers = Layers {
        low: force.layer(z.low),
        high: force.layer(z.high),
        weak: true,
    };
    let own_layers = Layers {
        low: force.layer(own.z.low),
        high: force.layer(own.z.high),
        weak: true,
    };
    let at_x = Sides { x: own.x, y, z };
    let at_y = Sides { x, y: own.y, z };
    let at_z = Sides { x, y, z: own.z };
    let in_x = within(layered_component(force, cube, Axis::X, at_x, layers), most)?;
    let in_y = within(layered_component(force, cube, Axis::Y, at_y, layers), most)?;
    let in_z = within(
        layered_component(force, cube, Axis::Z, at_z, own_layers),
        most,
    )?;
    Some([in_x, in_y, in_z])
}
