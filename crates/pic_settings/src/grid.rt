//! The table `grid` of a deck.

ghost use Rattle.std.specs.Prelude.{◌≡◌, ℕ, List, ◌<◌, ◌≤◌, None, [], codes, IfOk, slice_index};
ghost use Rattle.toml.specs.View.{view, table_view};
ghost use Rattle.pic_num.specs.Limits.{allowance_of};
ghost use Rattle.pic_num.specs.Space.{triple};
ghost use Rattle.pic_num.specs.Versions.{IsSideOf, IsGridOf};
ghost use Rattle.pic_walk.specs.Path.{path_of};
ghost use Rattle.pic_walk.specs.Walk.{WalksAs, table_of, need, array_of, three};
ghost use Rattle.pic_block.specs.Cells.{Grid, IsCells};
ghost use Rattle.pic_grid.specs.Tiles.{IsTiled, AreTiles};
ghost use Rattle.pic_settings.specs.Keys.{grid_keys, grid, cell_limits, axis_tiles, next_tiles, tiles, side_in};

use crate::tiles::{check_axis_tiles, check_few_tiles};
use pic_grid::Cells;
use pic_num::{MIN_CELLS, Sub, allowance_of};
use pic_walk::{
    Address, Limits, WalkStop, need_table, need_three, need_whole, needed_value, read_array,
};
use std::alloc::Global;
use toml::{Table, Value};

fn grid_table(alloc: Global, table: &Table, version: u32) -> Result<&Table, WalkStop>
    ensures { WalksAs (λ t. table_view t.now)
        (need (table_of (grid_keys version)) (codes "grid") [] (table_view table.now)) result }
{
    if version == 1 {
        need_table(alloc, "grid", &["cells", "tiles"], table)
    } else {
        need_table(alloc, "grid", &["cells", "tiles", "sub"], table)
    }
}

fn read_cells(alloc: Global, table: &Table, version: u32) -> Result<[u32; 3], WalkStop>
    ensures walks { WalksAs (λ (ns : List ℕ). ns)
        (need (three (cell_limits version)) (codes "cells") (codes "grid") (table_view table.now))
        result }
    ensures bounds { IfOk result (λ ns. IsCells (triple ns)) }
    ensures few { IfOk result (λ ns. (k : ℕ) → k < 3
        → slice_index ns k ≤ (allowance_of version).cells) }
{
    let limits = [Limits::from_to(MIN_CELLS, allowance_of(version).cells); 3];
    need_three(alloc, "grid", "cells", table, limits)
}

// the tiles of an axis of so many cells
fn read_axis_tiles(
    alloc: Global,
    address: Address<'_>,
    value: &Value,
    cells: u32,
) -> Result<u32, WalkStop>
    ensures walks { WalksAs (λ (n : ℕ). n)
        (axis_tiles cells (path_of address.entry) (view value.now)) result }
    ensures tiled { IfOk result (λ t. IsTiled cells t) }
{
    match value.as_integer() {
        Some(tiles) => check_axis_tiles(alloc, address, cells, tiles),
        None => Err(address.kind_fault(alloc)),
    }
}

// the tiles of each axis
fn read_each_tiles(
    alloc: Global,
    address: Address<'_>,
    value: &Value,
    cells: [u32; 3],
) -> Result<[u32; 3], WalkStop>
    requires { address.column ≡ None }
    ensures walks { WalksAs (λ (ts : List ℕ). ts)
        (array_of 3 (next_tiles cells) (path_of address.entry) (view value.now)) result }
    ensures tiled { IfOk result (λ ts. (k : ℕ) → k < 3
        → IsTiled (slice_index cells k) (slice_index ts k)) }
{
    let items = read_array(alloc, address, value, 3)?;
    let mut tiles = [0u32; 3];
    for i in 0..3usize {
        tiles[i] = read_axis_tiles(alloc, address.element(i), &items[i], cells[i])?;
    }
    Ok(tiles)
}

// the tiles of all three axes
fn read_tiles(
    alloc: Global,
    address: Address<'_>,
    value: &Value,
    cells: [u32; 3],
) -> Result<[u32; 3], WalkStop>
    requires plain { address.column ≡ None }
    requires cells { IsCells (triple cells) }
    ensures walks { WalksAs (λ (ts : List ℕ). ts)
        (tiles cells (path_of address.entry) (view value.now)) result }
    ensures tiled { IfOk result (λ ts. AreTiles (triple cells) (triple ts)) }
{
    let tiles = read_each_tiles(alloc, address, value, cells)?;
    check_few_tiles(alloc, address, tiles)?;
    Ok(tiles)
}

fn need_tiles(alloc: Global, table: &Table, cells: [u32; 3]) -> Result<[u32; 3], WalkStop>
    requires { IsCells (triple cells) }
    ensures walks { WalksAs (λ (ts : List ℕ). ts)
        (need (tiles cells) (codes "tiles") (codes "grid") (table_view table.now)) result }
    ensures tiled { IfOk result (λ ts. AreTiles (triple cells) (triple ts)) }
{
    let value = needed_value(alloc, "grid", "tiles", table)?;
    read_tiles(alloc, Address::new("grid", "tiles"), value, cells)
}

// the side of a cell
fn read_side(alloc: Global, table: &Table, version: u32) -> Result<Sub, WalkStop>
    ensures walks { WalksAs (λ (side : ℕ). side) (side_in version (table_view table.now)) result }
    ensures allowed { IfOk result (λ side. IsSideOf version side) }
{
    let allowed = allowance_of(version);
    if version == 1 {
        return Ok(Sub::of_bits(allowed.least_bits));
    }
    let limits = Limits::from_to(allowed.least_bits, allowed.greatest_bits);
    let bits = need_whole(alloc, "grid", "sub", table, limits)?;
    Ok(Sub::of_bits(bits))
}

/// The table `grid` of a deck of a version: the cells of each axis with their side, and the tiles.
pub fn read_grid(alloc: Global, table: &Table, version: u32) -> Result<(Cells, [u32; 3]), WalkStop>
    ensures walks { WalksAs (λ (g : Grid × List ℕ). g)
        (grid version (table_view table.now)) result }
    ensures cells { IfOk result (λ g. IsCells g.0.n) }
    ensures allowed { IfOk result (λ g. IsGridOf version g.0.n g.0.side) }
    ensures tiled { IfOk result (λ g. AreTiles g.0.n (triple g.1)) }
{
    let table = grid_table(alloc, table, version)?;
    let cells = read_cells(alloc, table, version)?;
    let tiles = need_tiles(alloc, table, cells)?;
    let sub = read_side(alloc, table, version)?;
    Ok((Cells::new(cells, sub), tiles))
}
