//! The places that a point is gathered from, found once: on each axis two cells.

ghost use Rattle.std.specs.Prelude.{◌≡◌, ◌*◌, ◌/◌, ◌<◌, ◌≤◌};
ghost use Rattle.pic_num.specs.Limits.{most_cells_of_axis};
ghost use Rattle.pic_num.specs.Space.{triple};
ghost use Rattle.pic_grid.specs.Hat.{IsInBox};
ghost use Rattle.pic_gather.specs.Sides.{AreSides, ArePlacesOf};

use pic_grid::{Cells, Pair};

/// The two cells of an axis between whose places a point lies, each by what it adds to the number
/// of a place in its layer, and the point's weights for them.
#[derive(Clone, Copy)]
pub(crate) struct Side {
    pub(crate) pair: Pair,
    pub(crate) low: usize,
    pub(crate) high: usize,
}

/// A point's sides on x and y, and the two layers of z between whose places it lies.
#[derive(Clone, Copy)]
pub(crate) struct Sides {
    pub(crate) x: Side,
    pub(crate) y: Side,
    pub(crate) z: Pair,
}

/// A point's sides where the places are the nodes, and where they stand in the middle between them.
#[derive(Clone, Copy)]
pub(crate) struct Places {
    pub(crate) nodes: Sides,
    pub(crate) middles: Sides,
}

/// A pair of an axis on which one cell further adds `step` to the number of a place.
#[inline(always)]
fn side_of(pair: Pair, step: u32) -> Side
    requires low { pair.low < most_cells_of_axis }
    requires high { pair.high < most_cells_of_axis }
    requires step { step ≤ most_cells_of_axis }
    ensures pair { result.pair ≡ pair }
    ensures low { result.low ≡ pair.low * step }
    ensures high { result.high ≡ pair.high * step }
{
    Side {
        pair,
        low: (pair.low * step) as usize,
        high: (pair.high * step) as usize,
    }
}

/// A point's sides where the places are the nodes.
#[inline(always)]
fn nodes(cells: Cells, point: [u32; 3]) -> Sides
    requires { IsInBox cells.side cells.n (triple point) }
    ensures { AreSides cells.side cells.n 0 (triple point) result }
{
    let sub = cells.sub();
    let [nx, ny, nz] = cells.numbers();
    let [x, y, z] = point;
    let on_x = Pair::of_nodes(sub, nx, x);
    let on_y = Pair::of_nodes(sub, ny, y);
    let on_z = Pair::of_nodes(sub, nz, z);
    Sides {
        x: side_of(on_x, 1),
        y: side_of(on_y, nx),
        z: on_z,
    }
}

/// A point's sides where the places stand in the middle between the nodes.
#[inline(always)]
fn middles(cells: Cells, point: [u32; 3]) -> Sides
    requires { IsInBox cells.side cells.n (triple point) }
    ensures { AreSides cells.side cells.n (cells.side / 2) (triple point) result }
{
    let sub = cells.sub();
    let [nx, ny, nz] = cells.numbers();
    let [x, y, z] = point;
    let on_x = Pair::of_middles(sub, nx, x);
    let on_y = Pair::of_middles(sub, ny, y);
    let on_z = Pair::of_middles(sub, nz, z);
    Sides {
        x: side_of(on_x, 1),
        y: side_of(on_y, nx),
        z: on_z,
    }
}

/// The places of a point, in sub-cells, in each lattice of these cells.
#[inline(always)]
pub(crate) fn places_of(cells: Cells, point: [u32; 3]) -> Places
    requires { IsInBox cells.side cells.n (triple point) }
    ensures { ArePlacesOf cells.side cells.n (triple point) result }
{
    let _side = cells.sub().side();
    Places {
        nodes: nodes(cells, point),
        middles: middles(cells, point),
    }
}
