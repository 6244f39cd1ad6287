//! An ion that rests, and an electron that moves out of its cell, in a frame without forces.

ghost use Rattle.std.specs.Prelude.{◌≡◌, ◌≤◌, IfOk, length};
ghost use Rattle.pic_grid.specs.Hat.{HasTwo};
ghost use Rattle.pic_tile.specs.CoreState.{IsOpening};
ghost use Rattle.pic_tile.specs.Frame.{IsForceField};
ghost use Rattle.pic_tile.specs.Tiling.{cells_of};

use pic_grid::{Cells, Lattice};
use pic_num::{Kind, Mult, NoMemory, Particle, Sub};
use pic_tile::{Frame, Kinds, Tile, TileMap, cut};
use std::alloc::Global;

// no force on these cells
#[tactic(auto, using(pic_grid::proofs::SmallLaws::each_zeros))]
fn no_force(alloc: Global, cells: Cells) -> Result<Lattice, NoMemory>
    ensures force { IfOk result (IsForceField cells) }
    ensures parts { IfOk result (λ f. f.parts ≡ record { x = 1; y = 1; z = 1 }) }
{
    let [_, _, _] = cells.numbers();
    Lattice::new(alloc, cells, [1; 3])
}

// two species that feel nothing
fn frame_of(alloc: Global, map: TileMap) -> Result<Frame, NoMemory>
    ensures map { IfOk result (λ f. f.map ≡ map) }
    ensures kinds { IfOk result (λ f. 2 ≤ length f.kinds) }
{
    let still = Mult::new(0, 0);
    let mut kinds = Vec::new(alloc);
    kinds.push(Kind {
        charge: 1,
        mass: 1836,
        kick: still,
        turn: still,
    })?;
    kinds.push(Kind {
        charge: -1,
        mass: 1,
        kick: still,
        turn: still,
    })?;
    let force_e = no_force(alloc, map.cells())?;
    let force_b = no_force(alloc, map.cells())?;
    Ok(Frame::new(map, Kinds::from_vec(kinds), force_e, force_b))
}

/// [2, 2, 2] cells of 4096 sub-cells, in one tile.
pub(crate) fn one_tile() -> TileMap
    ensures side { result.side ≡ 4096 }
    ensures cells { HasTwo (cells_of result) }
{
    TileMap::new(Cells::new([2; 3], Sub::of_bits(12)), [1; 3])
}

/// [4, 4, 4] cells of 4096 sub-cells, in eight tiles.
pub(crate) fn eight_tiles() -> TileMap
    ensures side { result.side ≡ 4096 }
    ensures cells { HasTwo (cells_of result) }
{
    TileMap::new(Cells::new([4; 3], Sub::of_bits(12)), [2; 3])
}

/// The ion at (1024, 0, 0), and the electron at (100, 0, 0), which moves by (-200, 0, 0).
pub(crate) fn begin(alloc: Global, map: TileMap) -> Result<(Frame, Vec<Tile>), NoMemory>
    requires side { map.side ≡ 4096 }
    requires cells { HasTwo (cells_of map) }
    ensures { IfOk result (λ r. IsOpening r.0 r.1.items) }
{
    let ion = Particle {
        id: 0,
        species: 0,
        x: [1024, 0, 0],
        v: [0, 0, 0],
    };
    let electron = Particle {
        id: 1,
        species: 1,
        x: [100, 0, 0],
        v: [-819200, 0, 0],
    };
    let frame = frame_of(alloc, map)?;
    let tiles = cut(alloc, &map, &[ion, electron])?;
    frame.sound();
    Ok((frame, tiles))
}
