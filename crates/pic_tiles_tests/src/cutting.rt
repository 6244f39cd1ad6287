//! A particle's tile, and the layers of a tile that is cut.

ghost use Rattle.std.specs.Prelude.{◌≡◌};
ghost use Rattle.pic_num.specs.Space.{triple};
ghost use Rattle.pic_grid.specs.Hat.{IsInBox};
ghost use Rattle.pic_tile.specs.Tiling.{cells_of};

use pic_block::Zone;
use pic_grid::Cells;
use pic_num::{NoMemory, Particle, Sub};
use pic_tile::{Dir, Tile, TileMap, cut};
use std::alloc::Global;

// [4, 4, 4] cells of 256 sub-cells, in two tiles on x
fn two_tiles() -> TileMap
    ensures side { result.side ≡ 256 }
    ensures cells { cells_of result ≡ record { x = 4; y = 4; z = 4 } }
{
    TileMap::new(Cells::new([4, 4, 4], Sub::of_bits(8)), [2, 1, 1])
}

// the position of a tile's first particle
fn first_of(tile: &Tile) -> Option<[u32; 3]> {
    let parcel = tile.parcel(Dir::HERE)?;
    parcel.chain.iter().next().map(|particle| particle.x)
}

// the tiles of one particle
#[tactic(auto, using(pic_tile::proofs::OwnerLaws::one_in_box))]
fn cut_one(alloc: Global, x: [u32; 3]) -> Result<Vec<Tile>, NoMemory>
    requires { IsInBox 256 (record { x = 4; y = 4; z = 4 }) (triple x) }
{
    let particle = Particle {
        id: 7,
        species: 1,
        x,
        v: [0; 3],
    };
    cut(alloc, &two_tiles(), &[particle])
}

#[test]
fn a_particle_is_in_the_tile_of_its_cell(rt: HostRuntime) -> Result<(), NoMemory> {
    let below = cut_one(rt.alloc(), [511, 0, 0])?;
    assert_eq!(rt; below.get(0).and_then(first_of), Some([511, 0, 0]));
    assert_eq!(rt; below.get(1).and_then(first_of), None);
    let on_the_face = cut_one(rt.alloc(), [512, 1023, 0])?;
    assert_eq!(rt; on_the_face.get(0).and_then(first_of), None);
    assert_eq!(rt; on_the_face.get(1).and_then(first_of), Some([512, 1023, 0]));
    Ok(())
}

#[test]
fn a_cut_tile_has_all_its_layers(rt: HostRuntime) -> Result<(), NoMemory> {
    let tiles = cut_one(rt.alloc(), [600, 0, 0])?;
    assert_eq!(rt; tiles.len(), 2);
    let Some(tile) = tiles.get(1) else {
        return Ok(());
    };
    assert_eq!(rt; tile.number(), 1);
    let wanted = [
        (13, [2, 0, 0], [2, 4, 4]),
        (12, [1, 0, 0], [1, 4, 4]),
        (26, [4, 4, 4], [2, 2, 2]),
    ];
    for (number, low, size) in wanted {
        let zone = tile
            .parcel(Dir::of(number))
            .map(|parcel| parcel.flux.zone());
        assert_eq!(rt; zone, Some(Zone { low, size }));
    }
    Ok(())
}
