//! The push of a tile, of which that of one tile is its own neighbour: numbers worked by hand.

ghost use Rattle.std.specs.Prelude.{◌≡◌, [], ◌∷◌, ◌<◌, ◌≤◌, IfOk, All, length};
ghost use Rattle.pic_num.specs.Limits.{most_particles};
ghost use Rattle.pic_num.specs.Space.{triple};
ghost use Rattle.pic_block.specs.Cells.{count_of};
ghost use Rattle.pic_grid.specs.PushPhase.{CanShare, no_kind};
ghost use Rattle.pic_grid.specs.Species.{IsKind};
ghost use Rattle.pic_tile.specs.Directions.{directions};
ghost use Rattle.pic_tile.specs.Tiling.{cells_of};
ghost use Rattle.pic_tiles_tests.specs.SmallMaps.{one_tile, eight_tiles};

use pic_grid::{Cells, Lattice, Stop};
use pic_num::{Axis, Kind, Mult, NoMemory, Particle, Sub, What};
use pic_push::push_tile;
use pic_tile::{Dir, Frame, Kinds, Tile, TileMap, cut};
use std::alloc::Global;
use std::process::Abort;

/// A charge of either sign, which no field drives.
fn kind_of(positive: bool) -> Kind
    ensures { IsKind result }
{
    let none = Mult::new(0, 0);
    let charge = if positive { 1 } else { -1 };
    Kind {
        charge,
        mass: 1,
        kick: none,
        turn: none,
    }
}

/// One species of such charges among the tiles of a map, without fields.
#[tactic(auto, using(crate::proofs::SmallMapLaws::one_kind, pic_grid::proofs::SmallLaws::each_zeros))]
fn frame_of(alloc: Global, positive: bool, map: TileMap) -> Result<Frame, NoMemory>
    ensures map { IfOk result (λ f. f.map ≡ map) }
    ensures kinds { IfOk result (λ f. length f.kinds ≡ 1) }
{
    let kinds = Kinds::from_vec(Vec::from_slice(alloc, &[kind_of(positive)])?);
    let force_e = Lattice::new(alloc, map.cells(), [1; 3])?;
    let force_b = Lattice::new(alloc, map.cells(), [1; 3])?;
    Ok(Frame::new(map, kinds, force_e, force_b))
}

/// [2, 2, 2] cells of 4096 sub-cells in one tile.
fn one_tile() -> TileMap
    ensures { result ≡ one_tile }
{
    TileMap::new(Cells::new([2; 3], Sub::of_bits(12)), [1; 3])
}

/// [4, 4, 4] such cells in eight tiles.
fn eight_tiles() -> TileMap
    ensures { result ≡ eight_tiles }
{
    TileMap::new(Cells::new([4; 3], Sub::of_bits(12)), [2; 3])
}

/// The tiles of a map with these particles, after the push of the first.
#[tactic(auto, using(crate::proofs::SmallMapLaws::all_inside))]
fn pushed(
    alloc: Global,
    positive: bool,
    map: TileMap,
    particles: &[Particle],
) -> Result<Vec<Tile>, NoMemory>
    requires some { 0 < count_of map.tiles }
    requires can { All (CanShare map.side (cells_of map) (no_kind ∷ [])) particles.now }
    requires few { length particles.now ≤ most_particles }
{
    let frame = frame_of(alloc, positive, map)?;
    let mut tiles = cut(alloc, frame.map(), particles)?;
    push_tile(&frame, &mut tiles[0]);
    Ok(tiles)
}

/// A particle of the first tile, at a place with a velocity.
fn particle(id: u32, x: [u32; 3], v: [i32; 3]) -> Particle
    requires x { (triple x).x < 8192 }
    requires y { (triple x).y < 8192 }
    requires z { (triple x).z < 8192 }
    ensures one { CanShare 4096 (cells_of one_tile) (no_kind ∷ []) result }
    ensures eight { CanShare 4096 (cells_of eight_tiles) (no_kind ∷ []) result }
{
    Particle {
        id,
        species: 0,
        x,
        v,
    }
}

/// The first particle of a tile's parcel of a direction.
fn first_of(tile: &Tile, dir: u32) -> Option<Particle>
    requires { dir < directions }
{
    tile.parcel(Dir::of(dir))?.chain.iter().next()
}

/// Where it is, or None where nobody goes that way.
fn place_of(tile: &Tile, dir: u32) -> Option<[u32; 3]>
    requires { dir < directions }
{
    Some(first_of(tile, dir)?.x)
}

/// The flux of a tile's parcel of a direction at an edge, or None where its layers don't have that
/// cell.
fn flux_at(tile: &Tile, dir: u32, axis: Axis, cell: [i32; 3]) -> Option<i128> {
    if dir >= 27 {
        return None;
    }
    let flux = &tile.parcel(Dir::of(dir))?.flux;
    if !flux.has(cell) {
        return None;
    }
    Some(flux.at(axis, cell))
}

#[test]
#[tactic(auto, using(crate::proofs::SmallMapLaws::can_one))]
fn an_electron_leaves_downwards(rt: HostRuntime) -> Result<(), NoMemory> {
    let tiles = pushed(
        rt.alloc(),
        false,
        one_tile(),
        &[particle(0, [100, 0, 0], [-819200, 0, 0])],
    )?;
    let Some(tile) = tiles.get(0) else {
        return Ok(());
    };
    assert_eq!(rt; first_of(tile, 13), None);
    assert_eq!(rt;
        first_of(tile, 12),
        Some(particle(0, [8092, 0, 0], [-819200, 0, 0]))
    );
    assert_eq!(rt; flux_at(tile, 13, Axis::X, [0, 0, 0]), Some(20132659200));
    assert_eq!(rt; flux_at(tile, 12, Axis::X, [-1, 0, 0]), Some(20132659200));
    assert_eq!(rt; flux_at(tile, 13, Axis::X, [1, 0, 0]), Some(0));
    assert_eq!(rt; flux_at(tile, 14, Axis::X, [2, 0, 0]), Some(0));
    Ok(())
}

#[test]
#[tactic(auto, using(crate::proofs::SmallMapLaws::can_one))]
fn a_charge_stays_in_its_cell(rt: HostRuntime) -> Result<(), NoMemory> {
    let tiles = pushed(
        rt.alloc(),
        true,
        one_tile(),
        &[particle(0, [1024, 0, 0], [8388608, 0, 0])],
    )?;
    let Some(tile) = tiles.get(0) else {
        return Ok(());
    };
    assert_eq!(rt;
        first_of(tile, 13),
        Some(particle(0, [3072, 0, 0], [8388608, 0, 0]))
    );
    assert_eq!(rt; flux_at(tile, 13, Axis::X, [0, 0, 0]), Some(412316860416));
    assert_eq!(rt; flux_at(tile, 13, Axis::X, [1, 0, 0]), Some(0));
    assert_eq!(rt; flux_at(tile, 12, Axis::X, [-1, 0, 0]), Some(0));
    Ok(())
}

#[test]
#[tactic(auto, using(crate::proofs::SmallMapLaws::can_three))]
fn the_least_halt_is_the_stop(rt: HostRuntime) -> Result<(), NoMemory> {
    let fast = 4097 * 4096;
    let particles = [
        particle(2, [7, 0, 0], [fast, 0, 0]),
        particle(1, [5, 0, 0], [-fast, 0, 0]),
        particle(0, [9, 0, 0], [0, 0, 0]),
    ];
    let tiles = pushed(rt.alloc(), true, one_tile(), &particles)?;
    let Some(tile) = tiles.get(0) else {
        return Ok(());
    };
    let stop = tile.parcel(Dir::HERE).and_then(|parcel| parcel.stop);
    let wanted = Stop::Push {
        id: 1,
        what: What::Far,
        axis: Axis::X,
        value: -4097,
    };
    assert_eq!(rt; stop, Some(wanted));
    assert_eq!(rt;
        tile.parcel(Dir::of(12)).and_then(|parcel| parcel.stop),
        None
    );
    assert_eq!(rt; flux_at(tile, 13, Axis::X, [0, 0, 0]), Some(0));
    Ok(())
}

/// Looks at the flux of parcels by direction, axis and cell.
fn assert_flows(rt: &impl Abort, tile: &Tile, flows: &[(u32, Axis, [i32; 3], i128)]) {
    for (dir, axis, cell, value) in flows {
        let found = flux_at(tile, *dir, *axis, *cell);
        assert_eq!(rt; found, Some(*value), "{dir} {axis:?} {cell:?}");
    }
}

#[test]
#[tactic(auto, using(crate::proofs::SmallMapLaws::can_one))]
fn a_charge_leaves_over_a_face(rt: HostRuntime) -> Result<(), NoMemory> {
    let charge = particle(5, [8092, 0, 0], [819200, 0, 0]);
    let tiles = pushed(rt.alloc(), true, eight_tiles(), &[charge])?;
    let Some(tile) = tiles.get(0) else {
        return Ok(());
    };
    assert_eq!(rt; place_of(tile, 13), None);
    assert_eq!(rt; place_of(tile, 14), Some([8292, 0, 0]));
    let flows = [
        (13, Axis::X, [1, 0, 0], 20132659200),
        (13, Axis::X, [0, 0, 0], 0),
        (14, Axis::X, [2, 0, 0], 20132659200),
        (14, Axis::X, [3, 0, 0], 0),
    ];
    assert_flows(&rt, tile, &flows);
    Ok(())
}

#[test]
#[tactic(auto, using(crate::proofs::SmallMapLaws::can_one))]
fn a_charge_leaves_over_an_edge(rt: HostRuntime) -> Result<(), NoMemory> {
    let charge = particle(5, [8092, 8142, 0], [819200, 409600, 0]);
    let tiles = pushed(rt.alloc(), true, eight_tiles(), &[charge])?;
    let Some(tile) = tiles.get(0) else {
        return Ok(());
    };
    assert_eq!(rt; place_of(tile, 13), None);
    assert_eq!(rt; place_of(tile, 17), Some([8292, 8242, 0]));
    let flows = [
        (13, Axis::X, [1, 1, 0], 122880000),
        (16, Axis::X, [1, 2, 0], 20009779200),
        (13, Axis::Y, [1, 1, 0], 122880000),
        (14, Axis::Y, [2, 1, 0], 9943449600),
        (17, Axis::X, [2, 2, 0], 20009779200),
        (17, Axis::X, [2, 3, 0], 122880000),
        (17, Axis::Y, [2, 2, 0], 9943449600),
        (17, Axis::Y, [3, 2, 0], 122880000),
        (14, Axis::X, [2, 1, 0], 0),
        (16, Axis::Y, [1, 2, 0], 0),
    ];
    assert_flows(&rt, tile, &flows);
    Ok(())
}

#[test]
#[tactic(auto, using(crate::proofs::SmallMapLaws::can_one))]
fn a_negative_charge_leaves_over_a_corner(rt: HostRuntime) -> Result<(), NoMemory> {
    let charge = particle(5, [8092; 3], [819200; 3]);
    let tiles = pushed(rt.alloc(), false, eight_tiles(), &[charge])?;
    let Some(tile) = tiles.get(0) else {
        return Ok(());
    };
    assert_eq!(rt; place_of(tile, 13), None);
    assert_eq!(rt; place_of(tile, 26), Some([8292; 3]));
    let flows = [
        (13, Axis::X, [1, 1, 1], -4000000),
        (16, Axis::X, [1, 2, 1], -241760000),
        (22, Axis::X, [1, 1, 2], -241760000),
        (25, Axis::X, [1, 2, 2], -19645139200),
        (23, Axis::Y, [2, 1, 2], -19645139200),
        (17, Axis::Z, [2, 2, 1], -19645139200),
        (26, Axis::X, [2, 2, 2], -19645139200),
        (26, Axis::Y, [3, 2, 2], -241760000),
        (26, Axis::Z, [3, 3, 2], -4000000),
        (14, Axis::X, [2, 1, 1], 0),
    ];
    assert_flows(&rt, tile, &flows);
    Ok(())
}
