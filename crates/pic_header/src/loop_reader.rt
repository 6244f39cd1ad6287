//! The driven loops in a dump's header, read.

ghost use Rattle.std.specs.Prelude.{◌≡◌, ℤ, ◌+◌, ◌*◌, ◌<◌, ◌≤◌, ◌^◌, All, length, Err, IfOk};
ghost use Rattle.pic_num.specs.Limits.{most_loops, most_wave, most_drive};
ghost use Rattle.pic_num.specs.Sizes.{IsAtMost};
ghost use Rattle.pic_num.specs.Space.{triple};
ghost use Rattle.pic_block.specs.Cells.{IsWithin};
ghost use Rattle.pic_grid.specs.Loops.{IsLoop};
ghost use Rattle.pic_fields.specs.Reads.{Reads, as_it_is};
ghost use Rattle.pic_fields.specs.declared.read_stop.ReadStop.TheVariants.{ReadFault};
ghost use Rattle.pic_header.specs.declared.head_stop.HeadStop.TheVariants.{Read};
ghost use Rattle.pic_header.specs.HeaderFields.{loop_axis_at, loop_cell_at, numbers_at, wave_at, loop_at, loops_at, loop_length, loops_length, loop_most};
ghost use Rattle.pic_header.specs.HeadReads.{HeadReads, TakesWithin, TakesLess};

use crate::head_stop::HeadStop;
use crate::heading::{NUMBER_BYTES, loop_length};
use pic_fields::{Cause, ReadStop, read_at_most, read_within};
use pic_grid::{Cells, Loop, Wave};
use pic_io::Source;
use pic_num::{Axis, MAX_DRIVE, MAX_WAVE};
use std::alloc::Global;

// Reads the axis of a loop.
fn read_axis<S: Source>(source: &mut S, place: u64) -> Result<Axis, ReadStop>
    requires { place + 4 < 2 ^ 63 }
    ensures { Reads as_it_is loop_axis_at place (place + 4) (S.told source.old)
        (S.told source.new) result }
{
    let number = read_within(source, place, Cause::OutOfLimits, 0, 2)?;
    Ok(Axis::of_number(number))
}

// Reads the cell of a loop, one of these.
fn read_cell<S: Source>(source: &mut S, place: u64, cells: Cells) -> Result<[u32; 3], ReadStop>
    requires { place + 12 < 2 ^ 63 }
    ensures reads { Reads as_it_is (loop_cell_at cells.n) place (place + 12) (S.told source.old)
        (S.told source.new) result }
    ensures within { IfOk result (λ cell. IsWithin (triple cell) cells.n) }
{
    let y_place = place + 4;
    let z_place = y_place + 4;
    let [nx, ny, nz] = cells.numbers();
    let x = read_within(source, place, Cause::OutOfLimits, 0, nx - 1)?;
    let y = read_within(source, y_place, Cause::OutOfLimits, 0, ny - 1)?;
    let z = read_within(source, z_place, Cause::OutOfLimits, 0, nz - 1)?;
    Ok([x, y, z])
}

// Reads so many numbers of a wave.
fn read_numbers<S: Source>(
    alloc: Global,
    source: &mut S,
    place: u64,
    count: u32,
) -> Result<Vec<i64>, HeadStop>
    requires few { count ≤ most_wave }
    requires place { place + 8 * most_wave < 2 ^ 63 }
    ensures reads { HeadReads (λ w. w.items) (numbers_at count) place (λ w. place + 8 * length w)
        (place + 8 * count) (S.told source.old) (S.told source.new) result }
    ensures within { TakesWithin (numbers_at count) place (S.told source.old) (S.told source.new) }
    ensures less { result ≡ Err (Read ReadFault)
        → TakesLess (numbers_at count) place (S.told source.old) (S.told source.new) }
    ensures sizes { IfOk result (λ w. All (λ v. IsAtMost v most_drive) w.items) }
    ensures count { IfOk result (λ w. length w.items ≡ count) }
{
    let mut numbers = Vec::new(alloc);
    for index in 0..count {
        let at = place + NUMBER_BYTES * index as u64;
        let number = read_at_most(source, at, Cause::OutOfLimits, MAX_DRIVE as u64)?;
        numbers.push(number)?;
    }
    Ok(numbers)
}

// Reads the wave of a loop: how many numbers it has, and these.
fn read_wave<S: Source>(alloc: Global, source: &mut S, place: u64) -> Result<Wave, HeadStop>
    requires { place + 1000 < 2 ^ 63 }
    ensures reads { HeadReads as_it_is wave_at place (λ w. place + 4 + 8 * length w)
        (place + 4 + 8 * most_wave) (S.told source.old) (S.told source.new) result }
    ensures within { TakesWithin wave_at place (S.told source.old) (S.told source.new) }
    ensures less { result ≡ Err (Read ReadFault)
        → TakesLess wave_at place (S.told source.old) (S.told source.new) }
    ensures some { IfOk result (λ w. 1 ≤ length w) }
    ensures most { IfOk result (λ w. length w ≤ most_wave) }
    ensures sizes { IfOk result (λ w. All (λ v. IsAtMost v most_drive) w) }
{
    let numbers_place = place + 4;
    let count = read_within(source, place, Cause::OutOfLimits, 1, MAX_WAVE)?;
    let numbers = read_numbers(alloc, source, numbers_place, count)?;
    Ok(Wave::from_vec(numbers))
}

// Reads a loop of a grid of these cells.
fn read_loop<S: Source>(
    alloc: Global,
    source: &mut S,
    place: u64,
    cells: Cells,
) -> Result<Loop, HeadStop>
    requires { place + 2000 < 2 ^ 63 }
    ensures reads { HeadReads as_it_is (loop_at cells.n) place (λ l. place + loop_length l)
        (place + loop_most) (S.told source.old) (S.told source.new) result }
    ensures within { TakesWithin (loop_at cells.n) place (S.told source.old) (S.told source.new) }
    ensures less { result ≡ Err (Read ReadFault)
        → TakesLess (loop_at cells.n) place (S.told source.old) (S.told source.new) }
    ensures limits { IfOk result (λ l. IsLoop cells.n l) }
{
    let cell_place = place + 4;
    let wave_place = cell_place + 12;
    let axis = read_axis(source, place)?;
    let cell = read_cell(source, cell_place, cells)?;
    let wave = read_wave(alloc, source, wave_place)?;
    Ok(Loop { axis, cell, wave })
}

/// Reads so many loops of a grid of these cells.
pub fn read_loops<S: Source>(
    alloc: Global,
    source: &mut S,
    place: u64,
    cells: Cells,
    count: u32,
) -> Result<Vec<Loop>, HeadStop>
    requires few { count ≤ most_loops }
    requires place { place + 2000 * 16 < 2 ^ 63 }
    ensures reads { HeadReads (λ ls. ls.items) (loops_at cells.n count) place
        (λ ls. place + loops_length ls) (place + loop_most * count) (S.told source.old)
        (S.told source.new) result }
    ensures within { TakesWithin (loops_at cells.n count) place (S.told source.old)
        (S.told source.new) }
    ensures less { result ≡ Err (Read ReadFault)
        → TakesLess (loops_at cells.n count) place (S.told source.old) (S.told source.new) }
    ensures limits { IfOk result (λ ls. All (IsLoop cells.n) ls.items) }
    ensures count { IfOk result (λ ls. length ls.items ≡ count) }
{
    let mut loops = Vec::new(alloc);
    let mut at = place;
    for _index in 0..count {
        let one = read_loop(alloc, source, at, cells)?;
        at += loop_length(&one);
        loops.push(one)?;
    }
    Ok(loops)
}
