//! Eight tiles, and a particle for each direction, which leads it out of its tile.

ghost use Rattle.std.specs.Prelude.{◌≡◌, ◌∷◌, ◌<◌, ◌≤◌, [], IfOk, length};
ghost use Rattle.pic_grid.specs.PushPhase.{CanShare, no_kind};
ghost use Rattle.pic_tile.specs.Directions.{directions};
ghost use Rattle.pic_tile.specs.Frame.{IsForceField};
ghost use Rattle.pic_tile.specs.Tiling.{cells_of};
ghost use Rattle.pic_core.specs.AtStart.{HasNotBegun};
ghost use Rattle.pic_tiles_tests.specs.Particles.{AreFirst, four};

use pic_core::Core;
use pic_grid::{Cells, Lattice};
use pic_num::{Kind, Mult, NoMemory, Particle, Sub};
use pic_tile::{Dir, Frame, Kinds, TileMap, cut};
use std::alloc::Global;

// [4, 4, 4] cells of 4096 sub-cells, in eight tiles
pub(crate) fn eight_tiles() -> TileMap
    ensures side { result.side ≡ 4096 }
    ensures cells { cells_of result ≡ four }
{
    TileMap::new(Cells::new([4; 3], Sub::of_bits(12)), [2; 3])
}

// no force on these cells
#[tactic(auto, using(pic_grid::proofs::SmallLaws::each_zeros))]
fn no_force(alloc: Global, cells: Cells) -> Result<Lattice, NoMemory>
    ensures force { IfOk result (IsForceField cells) }
    ensures parts { IfOk result (λ f. f.parts ≡ record { x = 1; y = 1; z = 1 }) }
{
    let [_, _, _] = cells.numbers();
    Lattice::new(alloc, cells, [1; 3])
}

// electrons and ions that feel nothing
pub(crate) fn free(alloc: Global, map: TileMap) -> Result<Frame, NoMemory>
    ensures map { IfOk result (λ f. f.map ≡ map) }
    ensures kinds { IfOk result (λ f. 2 ≤ length f.kinds) }
{
    let still = Mult::new(0, 0);
    let mut kinds = Vec::new(alloc);
    kinds.push(Kind {
        charge: -1,
        mass: 1,
        kick: still,
        turn: still,
    })?;
    kinds.push(Kind {
        charge: 3,
        mass: 1836,
        kick: still,
        turn: still,
    })?;
    let force_e = no_force(alloc, map.cells())?;
    let force_b = no_force(alloc, map.cells())?;
    Ok(Frame::new(map, Kinds::from_vec(kinds), force_e, force_b))
}

// where a particle stands in a tile, and how fast it is, on an axis on which it makes a step
fn way(half: u32, step: u32) -> (u32, i32)
    requires { half < 2 }
    ensures { result.0 < 16384 }
{
    let low = 8192 * half;
    match step {
        0 => (low + 100, -819200),
        1 => (low + 4000, 819200),
        _ => (low + 8092, 819200),
    }
}

// the particle that goes in a direction
fn particle(id: u32) -> Particle
    requires { id < directions }
    ensures can { CanShare 4096 four (no_kind ∷ no_kind ∷ []) result }
    ensures id { result.id ≡ id }
{
    let [i, j, k] = Dir::of(id).steps();
    let (x, u) = way(id % 2, i);
    let (y, v) = way(id / 2 % 2, j);
    let (z, w) = way(id / 4 % 2, k);
    Particle {
        id,
        species: (id / 3 % 2) as u8,
        x: [x, y, z],
        v: [u, v, w],
    }
}

// a particle for each direction
#[tactic(auto, using(crate::proofs::FirstLaws::first_none))]
fn particles(alloc: Global) -> Result<Vec<Particle>, NoMemory>
    ensures { IfOk result (λ all. AreFirst directions all.items) }
{
    let mut all = Vec::new(alloc);
    for id in 0..Dir::COUNT {
        all.push(particle(id))?;
    }
    Ok(all)
}

/// The push of these particles' tiles, before its first event.
#[tactic(auto, using(crate::proofs::FirstLaws::first_inside, crate::proofs::FirstLaws::opening_first))]
pub(crate) fn begin(alloc: Global) -> Result<Core, NoMemory>
    ensures { IfOk result HasNotBegun }
{
    let map = eight_tiles();
    let frame = free(alloc, map)?;
    let all = particles(alloc)?;
    let tiles = cut(alloc, &map, all.as_slice())?;
    frame.sound();
    Core::new(alloc, frame, tiles)
}
