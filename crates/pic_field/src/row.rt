//! Rows of values: a field's values along a line of cells, scaled, and what a curl makes of them.

ghost use Rattle.std.specs.Prelude.{◌≡◌, ℕ, pos, ◌+◌, ◌/◌, ◌%◌, ◌^◌, ◌<◌, ◌≤◌, ◌-ℤ◌, IsTrue, length};
ghost use Rattle.pic_num.specs.Limits.{most_scaled, most_value};
ghost use Rattle.pic_num.specs.Rounding.{rounded, scaled};
ghost use Rattle.pic_num.specs.Sizes.{IsAtMost};
ghost use Rattle.pic_num.specs.Space.{triple};
ghost use Rattle.pic_block.specs.Cells.{IsWithin};
ghost use Rattle.pic_grid.specs.Lattice.{EachAtMost, value_at};
ghost use Rattle.pic_field.specs.FieldPhases.{most_lessened, most_raised};
ghost use Rattle.pic_field.specs.Rows.{most_row, read_by, row_at, curl_at, start_cell, IsSmallRow, IsStart, IsScaledRow, AreCurlRows};

use pic_grid::{Lattice, Slot};
use pic_num::{Axis, Mult, scale};

/// How many values a row has room for: one more than the most cells of an axis.
pub(crate) const VALUES_OF_ROW: usize = 129;

/// The bits of a word of the machine. A shift that is seen to be less takes no test.
const WORD: u32 = 64;

/// A room for a row.
pub(crate) type Row = [i128; VALUES_OF_ROW];

/// The four rows that make a curl: of the two other components, each where the curl is (`near`) and
/// a cell further (`far`).
#[derive(Clone, Copy)]
pub(crate) struct CurlRows<'a> {
    pub(crate) far_third: &'a [i128],
    pub(crate) near_third: &'a [i128],
    pub(crate) far_second: &'a [i128],
    pub(crate) near_second: &'a [i128],
}

/// A field whose values are scaled as they are read.
#[derive(Clone, Copy)]
pub(crate) struct Scaled<'a> {
    pub(crate) field: &'a Lattice,
    pub(crate) by: Mult,
}

/// The cell of a field where a row begins: its layer of x, and the slots of its y and z, which
/// serve the whole row.
#[derive(Clone, Copy)]
pub(crate) struct Start {
    pub(crate) x: u32,
    pub(crate) y: Slot,
    pub(crate) z: Slot,
}

/// The start of the row from `cell` on.
#[inline(always)]
pub(crate) fn start_at(field: &Lattice, cell: [u32; 3]) -> Start
    requires { IsWithin (triple cell) field.now.cells }
    ensures cell { start_cell result ≡ triple cell }
    ensures slots { IsStart field.now result }
{
    let [x, y, z] = cell;
    Start {
        x,
        y: field.slot_y(y),
        z: field.slot_z(z),
    }
}

/// The first `count` values of the component on `axis` along the row from `start` on, round the
/// grid, each scaled once.
pub(crate) fn scaled_row(from: &Scaled, axis: Axis, start: Start, count: usize, to: &mut [i128])
    requires start { IsStart from.now.field.now start }
    requires room { count ≤ length to.old }
    requires small { EachAtMost most_value from.now.field.now }
    ensures { IsScaledRow from.now.field.now.cells (read_by from.now) axis (start_cell start)
        0 count to.new }
{
    let [nx, _, _] = from.field.cells().numbers();
    let Start { mut x, y, z } = start;
    let mut done = 0;
    while done < count {
        let run = from.field.run_at(axis, from.field.slot_x(x), y, z);
        let more = run.len().min(count - done);
        scale_row(&run[..more], from.by, &mut to[done..done + more]);
        done = done + more;
        x = after_run(nx, x, more);
    }
}

/// Takes the values of a lattice from `start` on off those of a row, which doesn't pass the last cell.
pub(crate) fn lessen_row(by: &Lattice, axis: Axis, start: Start, row: &mut [i128])
    requires start { IsStart by.now start }
    requires fits { start.x + length row.old ≤ by.now.cells.x }
    requires by_small { EachAtMost most_value by.now }
    requires small { IsSmallRow most_raised (length row.old) row.old }
    ensures { (i : ℕ) → i < length row.old → row_at row.new i ≡ row_at row.old i
        -ℤ value_at by.now axis (record (start_cell start) { x = start.x + i }) }
{
    let [_, _, _] = by.cells().numbers();
    let count = row.len();
    let mut done = 0;
    while done < count {
        let x = by.slot_x(start.x + done as u32);
        let run = by.run_at(axis, x, start.y, start.z);
        let more = run.len().min(count - done);
        subtract(&mut row[done..done + more], &run[..more]);
        done = done + more;
    }
}

/// Takes the values of a row off those of another.
#[inline(always)]
fn subtract(row: &mut [i128], by: &[i128])
    requires length { length by.now ≡ length row.old }
    requires small { IsSmallRow most_raised (length row.old) row.old }
    requires by_small { IsSmallRow most_value (length row.old) by.now }
    ensures { (i : ℕ) → i < length row.old
        → row_at row.new i ≡ row_at row.old i -ℤ row_at by.now i }
{
    for i in 0..row.len() {
        row[i] = row[i] - by[i];
    }
}

/// The layer that follows a run of `more` layers from `x` on, of `count` periodic ones.
pub(crate) fn after_run(count: u32, x: u32, more: usize) -> u32
    requires count { count < 2 ^ 31 }
    requires x { x < count }
    requires run { x + more ≤ count }
    ensures value { result ≡ (x + more) % count }
    ensures below { result < count }
{
    let next = x + more as u32;
    if next == count { 0 } else { next }
}

/// Scales every value of a row. A multiplier whose number is 1, as most are, takes no product.
#[inline(always)]
pub(crate) fn scale_row(from: &[i128], by: Mult, to: &mut [i128])
    requires length { length to.old ≡ length from.now }
    requires small { IsSmallRow most_value (length from.now) from.now }
    ensures values { (i : ℕ) → i < length from.now
        → row_at to.new i ≡ scaled (row_at from.now i) by }
    ensures small { IsSmallRow most_row (length from.now) to.new }
{
    if by.n() == 1 {
        shift_row(from, by, to);
    } else {
        multiply_row(from, by, to);
    }
}

/// Scales every value of a row by any multiplier.
#[inline(always)]
fn multiply_row(from: &[i128], by: Mult, to: &mut [i128])
    requires length { length to.old ≡ length from.now }
    requires small { IsSmallRow most_value (length from.now) from.now }
    ensures values { (i : ℕ) → i < length from.now
        → row_at to.new i ≡ scaled (row_at from.now i) by }
    ensures small { IsSmallRow most_row (length from.now) to.new }
{
    for i in 0..from.len() {
        to[i] = scale(from[i], by);
    }
}

/// Scales every value of a row by a multiplier whose number is 1.
#[inline(always)]
fn shift_row(from: &[i128], by: Mult, to: &mut [i128])
    requires one { by.n ≡ pos 1 }
    requires length { length to.old ≡ length from.now }
    requires small { IsSmallRow most_value (length from.now) from.now }
    ensures values { (i : ℕ) → i < length from.now
        → row_at to.new i ≡ scaled (row_at from.now i) by }
    ensures small { IsSmallRow most_row (length from.now) to.new }
{
    let k = by.k();
    let half = half_of_power(k);
    for i in 0..from.len() {
        to[i] = shifted(from[i], half, k);
    }
}

/// A value times a multiplier, rounded once.
#[inline(always)]
pub(crate) fn scale_value(v: i128, by: Mult) -> i128
    requires { IsAtMost v most_value }
    ensures value { result ≡ scaled v by }
    ensures size { IsAtMost result most_scaled }
{
    if by.n() == 1 {
        let k = by.k();
        shifted(v, half_of_power(k), k)
    } else {
        scale(v, by)
    }
}

/// Half of a power of two, without its fraction.
#[inline(always)]
fn half_of_power(k: u32) -> i128
    requires { k ≤ 62 }
    ensures value { result ≡ pos (2 ^ k / 2) }
    ensures size { IsAtMost result (2 ^ 62) }
{
    let power = 1u64 << (k % WORD);
    i128::from(power / 2)
}

/// `v / 2^k`, rounded to the nearest whole number, a half going up, where `half` is that of `2^k`.
#[inline(always)]
fn shifted(v: i128, half: i128, k: u32) -> i128
    requires v { IsAtMost v most_value }
    requires k { k ≤ 62 }
    requires half { half ≡ pos (2 ^ k / 2) }
    requires small { IsAtMost half (2 ^ 62) }
    ensures value { result ≡ rounded v (pos (2 ^ k)) }
    ensures size { IsAtMost result most_value }
{
    let bits = k % WORD;
    (v + half) >> bits
}

/// Lessens every value of a row by the curl of four rows. Where the answer is yes all are then at
/// most `most` in size; where all are at most half of that it is yes.
#[inline(always)]
pub(crate) fn curl_row(row: &mut [i128], four: &CurlRows, most: u128) -> bool
    requires small { IsSmallRow most_lessened (length row.old) row.old }
    requires four { AreCurlRows (length row.old) four.now }
    ensures values { (i : ℕ) → i < length row.old
        → row_at row.new i ≡ row_at row.old i -ℤ curl_at four.now i }
    ensures calm { IsTrue result → IsSmallRow most (length row.old) row.new }
{
    let mut sizes = 0;
    for i in 0..row.len() {
        let curl = four.far_third[i] - four.near_third[i] - four.far_second[i]
            + four.near_second[i];
        let value = row[i] - curl;
        row[i] = value;
        sizes = sizes | size_of(value);
    }
    sizes < most
}

/// The size of a number, or one less: the bits of many such say at once how large the numbers are.
#[inline(always)]
pub(crate) fn size_of(value: i128) -> u128
    ensures { IsAtMost value (result + 1) }
{
    if value < 0 {
        return (-1 - value) as u128;
    }
    value as u128
}

/// The `count` values of a row from the index `first` on.
pub(crate) fn part(row: &[i128], first: usize, count: usize) -> &[i128]
    requires { first + count ≤ length row.now }
    ensures length { length result.now ≡ count }
    ensures values { (i : ℕ) → i < count → row_at result.now i ≡ row_at row.now (first + i) }
{
    &row[first..first + count]
}
