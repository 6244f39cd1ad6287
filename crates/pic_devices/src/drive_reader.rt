//! The tables `drive` of a deck.

ghost use Rattle.std.specs.Prelude.{◌≡◌, ℕ, ℤ, pos, ◌≤◌, List, [], All, None, codes, length, IfOk};
ghost use Rattle.toml.specs.View.{view, array_view, table_view};
ghost use Rattle.pic_num.specs.declared.axis.Axis.{Axis as AxisView};
ghost use Rattle.pic_num.specs.Limits.{most_drive, most_loops};
ghost use Rattle.pic_num.specs.Sizes.{IsAtMost};
ghost use Rattle.pic_num.specs.Space.{triple};
ghost use Rattle.pic_block.specs.Cells.{IsCells, IsWithin};
ghost use Rattle.pic_grid.specs.declared.loops.Loop.{Loop as LoopView};
ghost use Rattle.pic_grid.specs.Loops.{IsLoop, AreLoops};
ghost use Rattle.pic_walk.specs.Path.{path_of};
ghost use Rattle.pic_walk.specs.Limits.{MeetsLimits};
ghost use Rattle.pic_walk.specs.Walk.{WalksAs, three, list_by, each, need, optional};
ghost use Rattle.pic_devices.specs.Drive.{axis, axis_limits, cell_limits, drive_limits, wave_limits, amplitude, wave, loop_in, one_loop, drive_list};

use crate::list_reader::counted;
use pic_grid::{Cells, Loop, Loops, Wave};
use pic_num::{Axis, MAX_DRIVE, MAX_LOOPS, MAX_WAVE};
use pic_walk::{
    Address, Limits, WalkStop, check_within, find_value, need_three, needed_value, read_elements,
    read_number, read_table, read_whole,
};
use std::alloc::Global;
use toml::value::Array;
use toml::{Table, Value};

const LOOP_KEYS: [&str; 3] = ["axis", "cell", "wave"];

fn cell_limits(cells: Cells) -> [Limits; 3]
    ensures value { result ≡ cell_limits cells.n }
    ensures limits { IsCells cells.n }
{
    let [nx, ny, nz] = cells.numbers();
    [Limits::below(nx), Limits::below(ny), Limits::below(nz)]
}

fn drive_limits() -> Limits
    ensures { result ≡ drive_limits }
{
    Limits::new(-MAX_DRIVE, MAX_DRIVE)
}

// the axis at an address
fn read_axis(alloc: Global, address: Address<'_>, value: &Value) -> Result<Axis, WalkStop>
    ensures { WalksAs (λ (a : AxisView). a) (axis (path_of address.entry) (view value.now)) result }
{
    let number = read_whole(alloc, address, value, Limits::new(0, 2))?;
    Ok(Axis::of_number(number))
}

// the axis of the loop in the table at a path
fn need_axis(alloc: Global, path: &str, table: &Table) -> Result<Axis, WalkStop>
    ensures { WalksAs (λ (a : AxisView). a)
        (need axis (codes "axis") path.now (table_view table.now)) result }
{
    let value = needed_value(alloc, path, "axis", table)?;
    read_axis(alloc, Address::new(path, "axis"), value)
}

// the cell of the loop in the table at a path
fn need_cell(alloc: Global, path: &str, table: &Table, cells: Cells) -> Result<[u32; 3], WalkStop>
    ensures walks { WalksAs (λ (ns : List ℕ). ns)
        (need (three (cell_limits cells.n)) (codes "cell") path.now (table_view table.now)) result }
    ensures limits { IfOk result (λ p. IsWithin (triple p) cells.n) }
{
    need_three(alloc, path, "cell", table, cell_limits(cells))
}

// the numbers at an address, one by one
fn read_amplitudes(alloc: Global, address: Address<'_>, value: &Value) -> Result<Vec<i64>, WalkStop>
    requires whole { address.row ≡ None }
    requires plain { address.column ≡ None }
    ensures walks { WalksAs (λ zs. zs.items)
        (list_by amplitude (path_of address.entry) (view value.now)) result }
    ensures sizes { IfOk result (λ zs. All (λ v. IsAtMost v most_drive) zs.items) }
{
    let items = read_elements(alloc, address, value)?;
    let mut numbers = Vec::new(alloc);
    for i in 0..items.len() {
        let number = read_number(alloc, address.element(i), &items[i], drive_limits())?;
        numbers.push(number)?;
    }
    Ok(numbers)
}

// the wave at an address
fn read_wave(alloc: Global, address: Address<'_>, value: &Value) -> Result<Wave, WalkStop>
    requires whole { address.row ≡ None }
    requires plain { address.column ≡ None }
    ensures walks { WalksAs (λ (zs : List ℤ). zs) (wave (path_of address.entry) (view value.now))
        result }
    ensures bounds { IfOk result (λ zs. MeetsLimits wave_limits (pos (length zs))) }
    ensures sizes { IfOk result (λ zs. All (λ v. IsAtMost v most_drive) zs) }
{
    let numbers = read_amplitudes(alloc, address, value)?;
    counted(alloc, address, numbers, Limits::from_to(1, MAX_WAVE))
}

// the wave of the loop in the table at a path
fn need_wave(alloc: Global, path: &str, table: &Table) -> Result<Wave, WalkStop>
    ensures walks { WalksAs (λ (zs : List ℤ). zs)
        (need wave (codes "wave") path.now (table_view table.now)) result }
    ensures bounds { IfOk result (λ zs. MeetsLimits wave_limits (pos (length zs))) }
    ensures sizes { IfOk result (λ zs. All (λ v. IsAtMost v most_drive) zs) }
{
    let value = needed_value(alloc, path, "wave", table)?;
    read_wave(alloc, Address::new(path, "wave"), value)
}

// the loop that the table at a path is
fn loop_in(alloc: Global, path: &str, table: &Table, cells: Cells) -> Result<Loop, WalkStop>
    ensures walks { WalksAs (λ (l : LoopView). l)
        (loop_in cells.n path.now (table_view table.now)) result }
    ensures limits { IfOk result (λ l. IsLoop cells.n l) }
{
    let axis = need_axis(alloc, path, table)?;
    let cell = need_cell(alloc, path, table, cells)?;
    let wave = need_wave(alloc, path, table)?;
    Ok(Loop { axis, cell, wave })
}

// the loop at an address
fn read_loop(
    alloc: Global,
    address: Address<'_>,
    value: &Value,
    cells: Cells,
) -> Result<Loop, WalkStop>
    ensures walks { (done : List LoopView) → WalksAs (λ (l : LoopView). l)
        (one_loop cells.n done (path_of address.entry) (view value.now)) result }
    ensures limits { IfOk result (λ l. IsLoop cells.n l) }
{
    let path = address.path(alloc)?;
    let table = read_table(alloc, address, path.as_str(), &LOOP_KEYS, value)?;
    loop_in(alloc, path.as_str(), table, cells)
}

// the loops at an address, one by one
fn read_each_loop(
    alloc: Global,
    address: Address<'_>,
    items: &Array,
    cells: Cells,
) -> Result<Vec<Loop>, WalkStop>
    requires whole { address.row ≡ None }
    requires plain { address.column ≡ None }
    ensures walks { WalksAs (λ ls. ls.items)
        (each (one_loop cells.n) (path_of address.entry) [] (array_view items.now)) result }
    ensures count { IfOk result (λ ls. length ls.items ≡ length items.now.items) }
    ensures limits { IfOk result (λ ls. All (IsLoop cells.n) ls.items) }
{
    let mut loops = Vec::new(alloc);
    for i in 0..items.len() {
        let one = read_loop(alloc, address.element(i), &items[i], cells)?;
        loops.push(one)?;
    }
    Ok(loops)
}

/// The loops that drive a run on these cells: the array of tables `drive` of a deck.
pub fn read_drive(alloc: Global, value: &Value, cells: Cells) -> Result<Loops, WalkStop>
    ensures walks { WalksAs (λ (ls : List LoopView). ls)
        (drive_list cells.n (codes "drive") (view value.now)) result }
    ensures limits { IfOk result (λ ls. AreLoops cells.n most_loops ls) }
{
    let address = Address::new("", "drive");
    let items = read_elements(alloc, address, value)?;
    let limits = Limits::from_to(0, MAX_LOOPS);
    check_within(alloc, address, items.len() as i128, limits)?;
    let loops = read_each_loop(alloc, address, items, cells)?;
    Ok(Loops::from_vec(loops))
}

/// The loops of a deck, none where it has no key `drive`.
pub fn optional_drive(alloc: Global, table: &Table, cells: Cells) -> Result<Loops, WalkStop>
    ensures walks { WalksAs (λ (ls : List LoopView). ls)
        (optional [] (drive_list cells.n) (codes "drive") [] (table_view table.now)) result }
    ensures limits { IfOk result (λ ls. AreLoops cells.n most_loops ls) }
{
    match find_value("drive", table) {
        Some(value) => read_drive(alloc, value, cells),
        None => Ok(Loops::from_vec(Vec::new(alloc))),
    }
}
