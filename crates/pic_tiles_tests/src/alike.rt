//! Whether tiles have the same flux and the same particles.

use pic_num::{Axis, Particle};
use pic_tile::{Dir, Tile};

// the current of a tile through the edge on an axis of a cell
fn current_of(tile: &Tile, axis: Axis, cell: [i32; 3]) -> Option<i128> {
    let parcel = tile.parcel(Dir::HERE)?;
    if !parcel.flux.has(cell) {
        return None;
    }
    Some(parcel.flux.at(axis, cell))
}

// whether two tiles have the same flux at all edges of [4, 4, 4] cells
fn flow_alike(one: &Tile, other: &Tile) -> bool {
    for place in 0..64 {
        let cell = [place % 4, place / 4 % 4, place / 16];
        for axis in [Axis::X, Axis::Y, Axis::Z] {
            if current_of(one, axis, cell) != current_of(other, axis, cell) {
                return false;
            }
        }
    }
    true
}

/// The particle of an identity that is in a tile.
pub(crate) fn particle_in(tile: &Tile, id: u32) -> Option<Particle> {
    let parcel = tile.parcel(Dir::HERE)?;
    parcel.chain.iter().find(|particle| particle.id == id)
}

// whether two tiles have the same of the first particles
fn hold_alike(one: &Tile, other: &Tile) -> bool {
    for id in 0..Dir::COUNT {
        if particle_in(one, id) != particle_in(other, id) {
            return false;
        }
    }
    true
}

/// Whether eight tiles are like eight others.
pub(crate) fn are_alike(some: &[Tile], others: &[Tile]) -> bool {
    for number in 0..8 {
        let (Some(one), Some(other)) = (some.get(number), others.get(number)) else {
            return false;
        };
        if !flow_alike(one, other) || !hold_alike(one, other) {
            return false;
        }
    }
    true
}
