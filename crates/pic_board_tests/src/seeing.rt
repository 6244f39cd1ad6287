//! What is seen in finished tiles.

use pic_num::Axis;
use pic_tile::{Dir, Tile};
use std::process::Abort;

// the position of a particle that is in a tile
fn place_in(tiles: &[Tile], number: usize, id: u32) -> Option<[u32; 3]> {
    let parcel = tiles.get(number)?.parcel(Dir::HERE)?;
    parcel
        .chain
        .iter()
        .find(|particle| particle.id == id)
        .map(|particle| particle.x)
}

// the current of a tile through the edge on x of a cell
fn current_of(tiles: &[Tile], number: usize, cell: [i32; 3]) -> Option<i128> {
    let parcel = tiles.get(number)?.parcel(Dir::HERE)?;
    if !parcel.flux.has(cell) {
        return None;
    }
    Some(parcel.flux.at(Axis::X, cell))
}

/// A particle is there in a tile, or isn't in it.
pub(crate) fn check_place(
    rt: &impl Abort,
    tiles: &[Tile],
    number: usize,
    id: u32,
    wanted: Option<[u32; 3]>,
) {
    assert_eq!(rt; place_in(tiles, number, id), wanted);
}

/// So much current of a tile goes through the edge on x of a cell.
pub(crate) fn check_current(
    rt: &impl Abort,
    tiles: &[Tile],
    number: usize,
    cell: [i32; 3],
    wanted: i128,
) {
    assert_eq!(rt; current_of(tiles, number, cell), Some(wanted));
}
