//! Reader of the particles of a species, one by one.

ghost use Rattle.std.specs.Prelude.{◌≡◌, ℕ, pos, ◌<◌, List, None, IfOk, slice_index_or};
ghost use Rattle.toml.specs.View.{view};
ghost use Rattle.pic_walk.specs.Path.{path_of};
ghost use Rattle.pic_walk.specs.Limits.{MeetsLimits, limits_at};
ghost use Rattle.pic_walk.specs.Walk.{WalksAs};
ghost use Rattle.pic_walk.specs.declared.point6.Point6.{Point6 as PointView};
ghost use Rattle.pic_walk.specs.Points.{IsPoint, ArePoints, point_limits, point_of, point, point_list};

use crate::address::Address;
use crate::bounds::fastest;
use crate::extents::extent;
use crate::fault::WalkStop;
use crate::limits::Limits;
use crate::numbers::{read_elements, read_numbers};
use crate::point6::{Point6, Points};
use pic_grid::Cells;
use std::alloc::Global;
use toml::Value;

fn point_limits(cells: Cells) -> [Limits; 6]
    ensures { result ≡ point_limits cells }
{
    let [x, y, z] = extent(cells);
    let speed = Limits::either_way(fastest(cells));
    [
        Limits::below(x),
        Limits::below(y),
        Limits::below(z),
        speed,
        speed,
        speed,
    ]
}

#[tactic(auto, unfolding(crate::specs::Limits::limits_at))]
fn point_of(cells: Cells, numbers: [i64; 6]) -> Point6
    requires { (k : ℕ) → k < 6 → MeetsLimits (limits_at (point_limits cells) k)
        (slice_index_or numbers k (pos 0)) }
    ensures value { result ≡ point_of numbers }
    ensures limits { IsPoint cells result }
{
    let _ = extent(cells);
    let _ = cells.sub().side();
    Point6 {
        x: [numbers[0] as u32, numbers[1] as u32, numbers[2] as u32],
        v: [numbers[3] as i32, numbers[4] as i32, numbers[5] as i32],
    }
}

// the particle at an address
fn read_point(
    alloc: Global,
    address: Address<'_>,
    value: &Value,
    cells: Cells,
) -> Result<Point6, WalkStop>
    requires { address.column ≡ None }
    ensures walks { (done : List PointView)
        → WalksAs (λ (p : PointView). p) (point cells done (path_of address.entry) (view value.now))
        result }
    ensures limits { IfOk result (λ p. IsPoint cells p) }
{
    let numbers = read_numbers(alloc, address, value, point_limits(cells))?;
    Ok(point_of(cells, numbers))
}

/// The particles at an address: `[x, y, z, vx, vy, vz]`, each in the box.
pub fn read_points(
    alloc: Global,
    address: Address<'_>,
    value: &Value,
    cells: Cells,
) -> Result<Points, WalkStop>
    requires whole { address.row ≡ None }
    requires plain { address.column ≡ None }
    ensures walks { WalksAs (λ (ps : List PointView). ps)
        (point_list cells (path_of address.entry) (view value.now)) result }
    ensures limits { IfOk result (λ ps. ArePoints cells ps) }
{
    let items = read_elements(alloc, address, value)?;
    let mut points = Vec::new(alloc);
    for i in 0..items.len() {
        let point = read_point(alloc, address.element(i), &items[i], cells)?;
        points.push(point)?;
    }
    Ok(Points::from_vec(points))
}
