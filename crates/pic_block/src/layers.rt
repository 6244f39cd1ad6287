//! Layers of a block: the values of one block added to those of another, row by row.

ghost use Rattle.std.specs.Prelude.{◌≡◌, ℕ, pos, ◌+◌, ◌*◌, ◌^◌, ◌<◌, ◌≤◌, ◌+ℤ◌, ◌≢◌, ◌⊎◌, length, replicate, slice_index_or};
ghost use Rattle.pic_num.specs.Sizes.{IsAtMost};
ghost use Rattle.pic_num.specs.Space.{triple, spot};
ghost use Rattle.pic_block.specs.Block.{AllAtMost, IsShaped};
ghost use Rattle.pic_block.specs.BlockLayers.{FitsAt, AddsLayers, NumbersAtMost, box_of, most_of_layer};
ghost use Rattle.pic_block.specs.Cells.{count_of};

use crate::block::Block;
use crate::rows::row_start;
use pic_num::Axis;

impl Block {
    /// Adds each value of `from` to the one that lies `offset` further from the lowest cell on x, y
    /// and z, where `from` fits into this block. The values of both are at most 2^120 in size.
    pub fn add_layers(&mut self, from: &Block, offset: [u32; 3])
        requires fits { FitsAt (triple offset) from.now.size self.old.size }
        requires room { AllAtMost most_of_layer self.old }
        requires small { AllAtMost most_of_layer from.now }
        ensures shape { IsShaped self.old self.new }
        ensures values { AddsLayers self.old self.new from.now (triple offset) }
    {
        if from.is_blank() {
            return;
        }
        if from.values.is_empty() {
            return;
        }
        let n = from.zone.size;
        let size = self.zone.size;
        self.blank = false;
        self.weak = false;
        add_values(
            self.values.as_mut_slice(),
            size,
            from.values.as_slice(),
            n,
            offset,
        );
    }

    /// Makes every component 0, and `low` the lowest cell.
    pub fn clear_at(&mut self, low: [i32; 3])
        ensures { self.new ≡ record self.old {
          low = spot low;
          values = replicate (3 * count_of self.old.size) (pos 0);
        } }
    {
        self.clear();
        self.zone.low = low;
    }
}

/// Adds the values of `n` layers to those of `size` layers, `offset` further from the lowest cell.
fn add_values(to: &mut [i128], size: [u32; 3], from: &[i128], n: [u32; 3], offset: [u32; 3])
    requires fits { FitsAt (triple offset) (triple n) (triple size) }
    requires some { 0 < count_of (triple n) }
    requires to_long { length to.old ≡ 3 * count_of (triple size) }
    requires from_long { length from.now ≡ 3 * count_of (triple n) }
    requires room { NumbersAtMost most_of_layer to.old }
    requires small { NumbersAtMost most_of_layer from.now }
    ensures { AddsLayers (box_of (triple size) to.old) (box_of (triple size) to.new)
        (box_of (triple n) from.now) (triple offset) }
{
    let [nx, ny, nz] = n;
    let [mx, my, mz] = size;
    let [ox, oy, oz] = offset;
    let plane = my as usize * mx as usize;
    let from_plane = ny as usize * nx as usize;
    let apart = plane * mz as usize;
    let from_apart = from_plane * nz as usize;
    let mut at = row_start(size, Axis::X, oy, oz) + ox as usize;
    let mut start = 0;
    for _z in 0..nz {
        add_layer(
            to,
            at,
            apart,
            mx as usize,
            from,
            start,
            from_apart,
            nx as usize,
            ny as usize,
        );
        at += plane;
        start += from_plane;
    }
}

/// Adds `rows` rows of `count` numbers on each axis, the first from the place `start` on, to those
/// from the place `at` on, where a row begins `step` places after the one before. The numbers on an
/// axis are `from_apart` and `apart` places after those on the axis before.
fn add_layer(
    to: &mut [i128],
    at: usize,
    apart: usize,
    step: usize,
    from: &[i128],
    start: usize,
    from_apart: usize,
    count: usize,
    rows: usize,
)
    requires within { count ≤ step }
    requires apart { rows * step ≤ apart }
    requires to_end { at + 2 * apart + rows * step + count ≤ length to.old + step }
    requires to_room { length to.old + step < 2 ^ 64 }
    requires from_end { start + 2 * from_apart + rows * count ≤ length from.now }
    requires room { (x i y : ℕ) → x < count → i < 3 → y < rows
        → IsAtMost (slice_index_or to.old (at + i * apart + y * step + x) (pos 0)) most_of_layer }
    requires small { NumbersAtMost most_of_layer from.now }
    ensures inside { (x i y : ℕ) → x < count → i < 3 → y < rows
        → slice_index_or to.new (at + i * apart + y * step + x) (pos 0)
        ≡ slice_index_or to.old (at + i * apart + y * step + x) (pos 0)
        +ℤ slice_index_or from.now (start + i * from_apart + y * count + x) (pos 0) }
    ensures outside { (k : ℕ)
        → ((x i y : ℕ) → x < count → i < 3 → y < rows → k ≢ at + i * apart + y * step + x)
        → slice_index_or to.new k (pos 0) ≡ slice_index_or to.old k (pos 0) }
{
    if count == step {
        add_rows(to, at, apart, from, start, from_apart, rows * count);
        return;
    }
    let mut here = at;
    let mut there = start;
    for _y in 0..rows {
        add_rows(to, here, apart, from, there, from_apart, count);
        here += step;
        there += count;
    }
}

/// Adds a row of `count` numbers on each axis, that on x from the place `start` on, to those from
/// the place `at` on. The numbers on an axis are `from_apart` and `apart` places after those on the
/// axis before.
fn add_rows(
    to: &mut [i128],
    at: usize,
    apart: usize,
    from: &[i128],
    start: usize,
    from_apart: usize,
    count: usize,
)
    requires apart { count ≤ apart }
    requires to_end { at + 2 * apart + count ≤ length to.old }
    requires from_end { start + 2 * from_apart + count ≤ length from.now }
    requires room { (x i : ℕ) → x < count → i < 3
        → IsAtMost (slice_index_or to.old (at + i * apart + x) (pos 0)) most_of_layer }
    requires small { NumbersAtMost most_of_layer from.now }
    ensures inside { (x i : ℕ) → x < count → i < 3
        → slice_index_or to.new (at + i * apart + x) (pos 0)
        ≡ slice_index_or to.old (at + i * apart + x) (pos 0)
        +ℤ slice_index_or from.now (start + i * from_apart + x) (pos 0) }
    ensures outside { (k : ℕ)
        → ((x i : ℕ) → x < count → i < 3 → k ≢ at + i * apart + x)
        → slice_index_or to.new k (pos 0) ≡ slice_index_or to.old k (pos 0) }
{
    add_row(to, at, from, start, count);
    add_row(to, at + apart, from, start + from_apart, count);
    add_row(to, at + 2 * apart, from, start + 2 * from_apart, count);
}

/// Adds `count` numbers from the place `start` on to those from the place `at` on, where `count` is
/// often 1 or 2.
fn add_row(to: &mut [i128], at: usize, from: &[i128], start: usize, count: usize)
    requires to_end { at + count ≤ length to.old }
    requires from_end { start + count ≤ length from.now }
    requires room { (x : ℕ) → x < count
        → IsAtMost (slice_index_or to.old (at + x) (pos 0)) most_of_layer }
    requires small { NumbersAtMost most_of_layer from.now }
    ensures inside { (x : ℕ) → x < count → slice_index_or to.new (at + x) (pos 0)
        ≡ slice_index_or to.old (at + x) (pos 0) +ℤ slice_index_or from.now (start + x) (pos 0) }
    ensures outside { (k : ℕ) → (k < at) ⊎ (at + count ≤ k)
        → slice_index_or to.new k (pos 0) ≡ slice_index_or to.old k (pos 0) }
{
    if count == 1 {
        add_number(to, at, from, start);
        return;
    }
    if count == 2 {
        add_number(to, at, from, start);
        add_number(to, at + 1, from, start + 1);
        return;
    }
    add_run(to, at, from, start, count);
}

/// Adds `count` numbers from the place `start` on to those from the place `at` on.
fn add_run(to: &mut [i128], at: usize, from: &[i128], start: usize, count: usize)
    requires to_end { at + count ≤ length to.old }
    requires from_end { start + count ≤ length from.now }
    requires room { (x : ℕ) → x < count
        → IsAtMost (slice_index_or to.old (at + x) (pos 0)) most_of_layer }
    requires small { NumbersAtMost most_of_layer from.now }
    ensures inside { (x : ℕ) → x < count → slice_index_or to.new (at + x) (pos 0)
        ≡ slice_index_or to.old (at + x) (pos 0) +ℤ slice_index_or from.now (start + x) (pos 0) }
    ensures outside { (k : ℕ) → (k < at) ⊎ (at + count ≤ k)
        → slice_index_or to.new k (pos 0) ≡ slice_index_or to.old k (pos 0) }
{
    for x in 0..count {
        add_number(to, at + x, from, start + x);
    }
}

/// Adds the number at the place `start` to the one at the place `at`.
fn add_number(to: &mut [i128], at: usize, from: &[i128], start: usize)
    requires to_end { at < length to.old }
    requires from_end { start < length from.now }
    requires room { IsAtMost (slice_index_or to.old at (pos 0)) most_of_layer }
    requires small { NumbersAtMost most_of_layer from.now }
    ensures sum { slice_index_or to.new at (pos 0)
        ≡ slice_index_or to.old at (pos 0) +ℤ slice_index_or from.now start (pos 0) }
    ensures others { (k : ℕ) → k ≢ at
        → slice_index_or to.new k (pos 0) ≡ slice_index_or to.old k (pos 0) }
{
    to[at] += from[start];
}
