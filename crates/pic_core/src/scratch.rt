//! What a push of all tiles works with beside them.

ghost use Rattle.std.specs.Prelude.{◌≡◌, ◌<◌, ℕ, IfOk, length, replicate, None, false};
ghost use Rattle.pic_tile.specs.Directions.{directions};
ghost use Rattle.pic_tile.specs.Tile.{parcel_at, tile_in};
ghost use Rattle.pic_core.specs.AtStart.{AreBare, IsScratch};

use pic_num::NoMemory;
use pic_tile::{Dir, ParcelBox, Tile, TileMap};
use std::alloc::Global;

/// The memory that a push of all tiles of a map needs beside them: for each a bare tile that
/// receives parcels, a place for each parcel that is posted, and the marks. A core works in it and
/// gives it back, so that the next takes no memory.
#[derive(Drop)]
pub struct Scratch {
    pub(crate) bare: Vec<Tile>,
    pub(crate) mail: Vec<Option<ParcelBox>>,
    pub(crate) claimed: Vec<bool>,
    pub(crate) posted: Vec<bool>,
    pub(crate) merged: Vec<bool>,
    pub(crate) shut: Vec<bool>,
}

impl Scratch {
    /// The scratch memory for the tiles of a map.
    ///
    /// # Errors
    /// `NoMemory` where memory is refused.
    pub fn new(alloc: Global, map: TileMap) -> Result<Scratch, NoMemory>
        ensures { IfOk result (IsScratch map) }
    {
        let count = map.count();
        let parcels = count as usize * Dir::COUNT as usize;
        let mail = no_parcels(alloc, parcels)?;
        let bare = bare_tiles(alloc, count)?;
        let claimed = vec![in alloc; false; count as usize]?;
        let posted = vec![in alloc; false; parcels]?;
        let merged = vec![in alloc; false; parcels]?;
        let shut = vec![in alloc; false; count as usize]?;
        Ok(Scratch {
            bare,
            mail,
            claimed,
            posted,
            merged,
            shut,
        })
    }
}

/// As many places for parcels, all of them empty.
fn no_parcels(alloc: Global, count: usize) -> Result<Vec<Option<ParcelBox>>, NoMemory>
    ensures { IfOk result (λ v. v.items ≡ replicate count None) }
{
    let mut places = Vec::new(alloc);
    for _ in 0..count {
        places.push(None)?;
    }
    Ok(places)
}

/// As many tiles, numbered in order, with no parcel yet.
fn bare_tiles(alloc: Global, count: u32) -> Result<Vec<Tile>, NoMemory>
    ensures { IfOk result (λ v. AreBare count v.items) }
{
    let mut tiles = Vec::new(alloc);
    for number in 0..count {
        tiles.push(Tile::bare(number))?;
    }
    Ok(tiles)
}

/// Makes so many tiles without parcels the bare tiles of their places, numbered in order.
pub(crate) fn make_bare(tiles: &mut [Tile], count: u32)
    requires long { length tiles.old ≡ count }
    requires none { (r d : ℕ) → r < count → d < directions
        → parcel_at (tile_in tiles.old r) d ≡ None }
    ensures { AreBare count tiles.new }
{
    for number in 0..count {
        make_numbered(&mut tiles[number as usize], number);
    }
}

/// Makes a tile without parcels that of a number, if it has another.
fn make_numbered(tile: &mut Tile, number: u32)
    requires { (d : ℕ) → d < directions → parcel_at tile.old d ≡ None }
    ensures number { tile.new.number ≡ number }
    ensures none { (d : ℕ) → d < directions → parcel_at tile.new d ≡ None }
{
    if tile.number() != number {
        *tile = Tile::bare(number);
    }
}

/// Takes all marks away.
pub(crate) fn unmark(marks: &mut [bool])
    ensures { marks.new ≡ replicate (length marks.old) false }
{
    for i in 0..marks.len() {
        marks[i] = false;
    }
}
