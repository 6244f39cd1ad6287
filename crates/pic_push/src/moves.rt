//! A particle's place in the box after its move.

ghost use Rattle.std.specs.Prelude.{◌≡◌, pos, ◌*◌, ◌^◌, ◌<◌, ◌≤◌, ◌+ℤ◌, ◌≤ℤ◌, ◌<ℤ◌};
ghost use Rattle.pic_num.specs.Limits.{most_cells_of_axis};
ghost use Rattle.pic_num.specs.Push.{plus};
ghost use Rattle.pic_num.specs.Rounding.{residue};
ghost use Rattle.pic_num.specs.Space.{triple, spot, unwrapped};
ghost use Rattle.pic_grid.specs.Hat.{IsInBox};
ghost use Rattle.pic_grid.specs.PushPhase.{moved};
ghost use Rattle.pic_boris.specs.Pushes.{shift_of};
ghost use Rattle.pic_push.specs.Paths.{StaysInBox};

use pic_block::is_among;
use pic_boris::Moved;
use pic_grid::Cells;
use pic_num::{Particle, Sub, wrap};

/// A coordinate that lies in the box.
fn as_it_is(to: i64, len: u32) -> u32
    requires low { pos 0 ≤ℤ to }
    requires high { to <ℤ pos len }
    ensures { result ≡ residue to len }
{
    to as u32
}

/// A coordinate after a move, wrapped into an axis of `n` cells. Most moves stay in the box, and
/// need no division.
fn wrapped_by(side: u32, n: u32, at: u32, d: i32) -> u32
    requires side_low { 0 < side }
    requires side_high { side ≤ 2 ^ 14 }
    requires most { n ≤ most_cells_of_axis }
    requires least { 0 < n }
    requires at { at < n * side }
    ensures { result ≡ residue (pos at +ℤ d) (n * side) }
{
    let to = i64::from(at) + i64::from(d);
    let len = n * side;
    if is_among(0, len, to) {
        return as_it_is(to, len);
    }
    wrap(to, len)
}

/// A particle after its move, wrapped into the box.
#[inline(always)]
#[tactic(auto, unfolding(pic_grid::specs::PushPhase::moved))]
pub(crate) fn moved(sub: Sub, cells: Cells, particle: &Particle, by: &Moved) -> Particle
    requires { IsInBox sub cells.n (triple particle.now.x) }
    ensures { result ≡ moved sub cells.n particle.now (shift_of by.now) }
{
    let side = sub.side();
    let [nx, ny, nz] = cells.n;
    let [at_x, at_y, at_z] = particle.x;
    let [dx, dy, dz] = by.d;
    let [vx, vy, vz] = by.v;
    Particle {
        id: particle.id,
        species: particle.species,
        x: [
            wrapped_by(side, nx, at_x, dx),
            wrapped_by(side, ny, at_y, dy),
            wrapped_by(side, nz, at_z, dz),
        ],
        v: [vx, vy, vz],
    }
}

/// A coordinate after a move that leads neither below 0 nor to 2^31.
#[inline(always)]
fn moved_by(at: u32, d: i32) -> u32
    requires at { at < 2 ^ 31 }
    requires low { pos 0 ≤ℤ (pos at +ℤ d) }
    requires high { (pos at +ℤ d) <ℤ pos (2 ^ 31) }
    ensures { pos result ≡ pos at +ℤ d }
{
    (at as i32 + d) as u32
}

/// A particle after a move that stays in the box, where nothing has to be wrapped.
#[inline(always)]
pub(crate) fn moved_within(sub: Sub, cells: Cells, particle: &Particle, by: &Moved) -> Particle
    requires from { IsInBox sub cells.n (triple particle.now.x) }
    requires to { let x = particle.now.x in
        StaysInBox sub cells.n (plus (unwrapped (triple x)) (spot by.now.d)) }
    ensures { result ≡ moved sub cells.n particle.now (shift_of by.now) }
{
    let _side = sub.side();
    let [_, _, _] = cells.numbers();
    let [at_x, at_y, at_z] = particle.x;
    let [dx, dy, dz] = by.d;
    let [vx, vy, vz] = by.v;
    Particle {
        id: particle.id,
        species: particle.species,
        x: [moved_by(at_x, dx), moved_by(at_y, dy), moved_by(at_z, dz)],
        v: [vx, vy, vz],
    }
}
