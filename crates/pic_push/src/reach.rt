//! Which layers of a tile a piece of a path can send flux through, and in which direction a path
//! leads.

ghost use Rattle.std.specs.Prelude.{◌≡◌, ℕ, pos, ◌+◌, ◌<◌, ◌≤◌, ◌≤ℤ◌, ◌<ℤ◌, ◌+ℤ◌, unsigned_abs};
ghost use Rattle.std.specs.Prelude.{false, IsTrue, IfSome};
ghost use Rattle.pic_num.specs.Space.{triple, spot};
ghost use Rattle.pic_block.specs.Block.{InZone};
ghost use Rattle.pic_tile.specs.Directions.{directions};
ghost use Rattle.pic_tile.specs.Leaving.{step_to};
ghost use Rattle.pic_push.specs.Reach.{reaches, IsReach, IsReachOf, AreStepsOf, direction_from};
ghost use Rattle.pic_push.specs.Reach.{direction_number, AreSteps, first_direction};

use pic_block::{Zone, is_among};
use pic_tile::Dir;

/// Some steps of an axis, one after another: 0 is a step down, 1 none, 2 a step up.
#[derive(Clone, Copy)]
pub(crate) struct Steps {
    pub first: u32,
    pub last: u32,
}

/// A direction by its steps on each axis: 0 is a step down, 1 none, 2 a step up.
#[derive(Clone, Copy)]
pub(crate) struct Direction {
    pub x: u32,
    pub y: u32,
    pub z: u32,
}

impl Direction {
    /// The number of the direction.
    #[inline(always)]
    pub fn number(&self) -> u32
        requires { AreSteps self.now }
        ensures value { result ≡ direction_number self.now }
        ensures below { result < directions }
    {
        self.x + 3 * self.y + 9 * self.z
    }
}

/// The directions whose steps on each axis are among these.
#[derive(Clone, Copy)]
pub(crate) struct Reach {
    pub x: Steps,
    pub y: Steps,
    pub z: Steps,
}

impl Reach {
    /// The directions whose layers a piece of a path in a cell can send flux through, from the tile
    /// of a zone.
    pub fn of(zone: Zone, cell: [i32; 3]) -> Reach
        ensures { IsReachOf (spot zone.low) (triple zone.size) (spot cell) result }
    {
        let [low_x, low_y, low_z] = zone.low;
        let [nx, ny, nz] = zone.size;
        let [x, y, z] = cell;
        Reach {
            x: steps_on(low_x, nx, x),
            y: steps_on(low_y, ny, y),
            z: steps_on(low_z, nz, z),
        }
    }

    /// Its first direction.
    #[inline(always)]
    pub fn first(&self) -> Direction
        ensures { result ≡ first_direction self.now }
    {
        Direction {
            x: self.x.first,
            y: self.y.first,
            z: self.z.first,
        }
    }

    /// The next direction after one of its own, past those between that aren't; none after its
    /// last.
    #[inline(always)]
    pub fn after(&self, at: &Direction) -> Option<Direction>
        requires reach { IsReach self.now }
        requires steps { AreSteps at.now }
        ensures steps { IfSome result AreSteps }
        ensures more { IfSome result (λ next. direction_number at.now < direction_number next) }
        ensures skipped { (d : ℕ) → direction_number at.now < d
            → IfSome result (λ next. d < direction_number next) → reaches self.now d ≡ false }
    {
        let Direction { x, y, z } = *at;
        if x < self.x.last {
            return Some(Direction { x: x + 1, y, z });
        }
        let x = self.x.first;
        if y < self.y.last {
            return Some(Direction { x, y: y + 1, z });
        }
        let y = self.y.first;
        if z < self.z.last {
            return Some(Direction { x, y, z: z + 1 });
        }
        None
    }
}

/// The steps that a piece in a cell can reach on an axis where a tile has `size` layers from `low`
/// on.
fn steps_on(low: i32, size: u32, cell: i32) -> Steps
    ensures { AreStepsOf low size cell result }
{
    Steps {
        first: first_step(low, cell),
        last: last_step(low, size, cell),
    }
}

/// A step down where a cell lies below `low`, else none.
fn first_step(low: i32, cell: i32) -> u32
    ensures most { result ≤ 1 }
    ensures under { result ≡ 1 → low ≤ℤ cell }
{
    if cell < low { 0 } else { 1 }
}

/// A step up where the layer over a cell is none of the tile's, else none.
fn last_step(low: i32, size: u32, cell: i32) -> u32
    ensures least { 1 ≤ result }
    ensures most { result ≤ 2 }
    ensures over { result ≡ 1 → (cell +ℤ pos 1) <ℤ (low +ℤ pos size) }
{
    let end = i64::from(low) + i64::from(size);
    if i64::from(cell) + 1 >= end { 2 } else { 1 }
}

/// The direction from the tile of a zone to a cell, which isn't wrapped.
#[inline(always)]
pub(crate) fn way_to(zone: Zone, cell: [i32; 3]) -> Dir
    requires x { pos 0 ≤ℤ (spot zone.low).x }
    requires y { pos 0 ≤ℤ (spot zone.low).y }
    requires z { pos 0 ≤ℤ (spot zone.low).z }
    ensures value { result ≡ direction_from (spot zone.low) (triple zone.size) (spot cell) }
    ensures below { result < directions }
{
    let [low_x, low_y, low_z] = zone.low;
    let [nx, ny, nz] = zone.size;
    let [x, y, z] = cell;
    let (step_x, step_y, step_z) = (
        step_on(low_x, nx, x),
        step_on(low_y, ny, y),
        step_on(low_z, nz, z),
    );
    Dir::of(step_x + 3 * step_y + 9 * step_z)
}

/// Whether a cell is one of a zone's, by one test, where `known` doesn't say so already.
#[inline(always)]
pub(crate) fn is_here(zone: Zone, cell: [i32; 3], known: bool) -> bool
    requires { IsTrue known → InZone (spot zone.low) (triple zone.size) (spot cell) }
    ensures { IsTrue result → InZone (spot zone.low) (triple zone.size) (spot cell) }
{
    let [low_x, low_y, low_z] = zone.low;
    let [nx, ny, nz] = zone.size;
    let [x, y, z] = cell;
    let (x, y, z) = (i64::from(x), i64::from(y), i64::from(z));
    if known {
        return true;
    }
    is_among(low_x, nx, x) & is_among(low_y, ny, y) & is_among(low_z, nz, z)
}

/// The step from a tile of `size` layers from `low` on to a cell.
#[tactic(auto, using(crate::proofs::ReachLaws::step_under, crate::proofs::ReachLaws::step_among, crate::proofs::ReachLaws::step_over))]
fn step_on(low: i32, size: u32, cell: i32) -> u32
    requires { pos 0 ≤ℤ low }
    ensures value { result ≡ step_to (unsigned_abs low) size cell }
    ensures below { result < 3 }
{
    if cell < low {
        return 0;
    }
    if i64::from(cell) < i64::from(low) + i64::from(size) {
        return 1;
    }
    2
}
