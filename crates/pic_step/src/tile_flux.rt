//! The flux of tiles, which changes places with other blocks: it moves out of them, and back.

ghost use Rattle.std.specs.Prelude.{◌≡◌, ℕ, ◌<◌, length, IfOk, IsSome};
ghost use Rattle.pic_tile.specs.Directions.{here};
ghost use Rattle.pic_tile.specs.Tile.{parcel_at, tile_in};
ghost use Rattle.pic_step.specs.TileFlux.{IsSwapped, AreSwapped};

use pic_block::{Block, Zone};
use pic_num::NoMemory;
use pic_tile::{Dir, Tile};
use std::alloc::Global;
use std::mem;

/// So many blocks of no cells. They stand in tiles while their flux is elsewhere.
pub(crate) fn spare_blocks(alloc: Global, count: usize) -> Result<Vec<Block>, NoMemory>
    ensures { IfOk result (λ v. length v.items ≡ count) }
{
    let mut blocks = Vec::with_capacity(alloc, count)?;
    for _ in 0..count {
        let none = Zone {
            low: [0; 3],
            size: [0; 3],
        };
        blocks.push(Block::new(alloc, none)?)?;
    }
    Ok(blocks)
}

/// The tile's flux, in its parcel of no step, and a block change places. The tile has no stop then.
fn swap_flux(tile: &mut Tile, block: &mut Block)
    requires { IsSome (parcel_at tile.old here) }
    ensures { IsSwapped tile.old tile.new block.old block.new }
{
    match tile.take_parcel(Dir::HERE) {
        Some(mut parcel) => {
            mem::swap(&mut parcel.flux, block);
            parcel.stop = None;
            tile.put_parcel(parcel);
        }
        None => unreachable!(),
    }
}

/// The flux of each tile, and the block of its place, change places.
pub(crate) fn swap_each_flux(tiles: &mut [Tile], blocks: &mut [Block])
    requires long { length blocks.old ≡ length tiles.old }
    requires there { (i : ℕ) → i < length tiles.old
        → IsSome (parcel_at (tile_in tiles.old i) here) }
    ensures { AreSwapped tiles.old tiles.new blocks.old blocks.new }
{
    for i in 0..tiles.len() {
        swap_flux(&mut tiles[i], &mut blocks[i]);
    }
}
