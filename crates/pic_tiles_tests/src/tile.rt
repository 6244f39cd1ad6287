//! A tile's parcels: put, taken, and changed in their places.

ghost use Rattle.std.specs.Prelude.{◌≡◌, IfOk};

use pic_block::{Block, Zone};
use pic_chain::Chain;
use pic_num::{Axis, NoMemory};
use pic_tile::{Dir, Parcel, ParcelBox, Tile};
use std::alloc::Global;

// a parcel over one cell
fn parcel(alloc: Global, dir: Dir) -> Result<ParcelBox, NoMemory>
    ensures { IfOk result (λ p. p.dir ≡ dir) }
{
    let zone = Zone {
        low: [0; 3],
        size: [1; 3],
    };
    let flux = Block::new(alloc, zone)?;
    let parcel = Parcel {
        dir,
        chain: Chain::new(),
        flux,
        stop: None,
    };
    ParcelBox::new(alloc, parcel)
}

#[test]
fn a_parcel_is_taken_from_where_it_is_put(rt: HostRuntime) -> Result<(), NoMemory> {
    let mut tile = Tile::bare(3);
    assert_eq!(rt; tile.number(), 3);
    tile.put_parcel(parcel(rt.alloc(), Dir::of(12))?);
    assert!(rt; tile.parcel(Dir::HERE).is_none());
    let dir = tile.parcel(Dir::of(12)).map(|parcel| parcel.dir);
    assert_eq!(rt; dir, Some(Dir::of(12)));
    assert!(rt; tile.take_parcel(Dir::of(14)).is_none());
    let dir = tile
        .take_parcel(Dir::of(12))
        .map(|parcel| parcel.into_parcel().dir);
    assert_eq!(rt; dir, Some(Dir::of(12)));
    assert!(rt; tile.parcel(Dir::of(12)).is_none());
    Ok(())
}

// sets a block's first value, if it has one
fn put(block: &mut Block, value: i128) {
    if block.has([0; 3]) {
        block.set(Axis::X, [0; 3], value);
    }
}

// the first value of the flux of a tile's parcel, where there is one
fn read(tile: &Tile, dir: Dir) -> Option<i128> {
    let flux = &tile.parcel(dir)?.flux;
    if flux.has([0; 3]) {
        Some(flux.at(Axis::X, [0; 3]))
    } else {
        None
    }
}

#[test]
fn a_parcels_flux_is_changed_in_its_place(rt: HostRuntime) -> Result<(), NoMemory> {
    let mut tile = Tile::bare(3);
    tile.put_parcel(parcel(rt.alloc(), Dir::of(12))?);
    tile.put_parcel(parcel(rt.alloc(), Dir::HERE)?);
    tile.change_flux(Dir::of(12), |flux| put(flux, 5));
    tile.change_flux(Dir::of(14), |flux| put(flux, 6));
    assert_eq!(rt; read(&tile, Dir::of(12)), Some(5));
    assert_eq!(rt; read(&tile, Dir::of(14)), None);
    assert_eq!(rt; read(&tile, Dir::HERE), Some(0));
    Ok(())
}
