//! Boxes of cells, and three components for each cell of one.

ghost use Rattle.std.specs.Prelude.{◌≡◌, ◌↔◌, ℕ, ℤ, pos, ◌*◌, ◌<◌, ◌+ℤ◌, ◌-ℤ◌, ◌≤ℤ◌, ◌<ℤ◌, length, replicate, unsigned_abs, FitsSigned, IsTrue, IfOk, IfSome};
ghost use Rattle.std.specs.Int.{w128};
ghost use Rattle.pic_num.specs.Space.{triple, spot};
ghost use Rattle.pic_block.specs.Cells.{IsWithin, count_of, place_of};
ghost use Rattle.pic_block.specs.Block.{BlockValues, IsFilled, InZone, inner_of, edge_at, with_edge};

use crate::among::is_among;
use crate::places::place_in;
use pic_num::{Axis, NoMemory};
use std::alloc::Global;
use std::marker::Model;

/// A box of cells: its lowest cell, which isn't wrapped, and its numbers of layers on x, y and z.
#[derive(Clone, Copy, Debug, PartialEq, Eq)]
pub struct Zone {
    pub low: [i32; 3],
    pub size: [u32; 3],
}

impl Zone {
    /// How many components a block of the zone has, or `None` where a `usize` can't tell.
    fn places(self) -> Option<usize>
        ensures { IfSome result (λ n. n ≡ 3 * count_of (triple self.size)) }
    {
        let [x, y, z] = self.size;
        let places = 3 * (u128::from(x) * u128::from(y) * u128::from(z));
        if places > u128::from(u64::MAX) {
            return None;
        }
        Some(places as usize)
    }
}

/// Three `i128` components for each cell of a zone.
// Where `blank` is true, all of them are 0; where `weak` is true, all are at most 2^26 in size.
#[derive(Drop)]
pub struct Block {
    pub(crate) zone: Zone,
    pub(crate) values: Vec<i128>,
    pub(crate) blank: bool,
    pub(crate) weak: bool,
}

impl Model for Block {
    ghost Value = { BlockValues };

    ghost view = { λ b. record {
      low = spot b.zone.low;
      size = triple b.zone.size;
      values = b.values.items;
    } };

    ghost invariant = { λ b. IsFilled (triple b.zone.size) b.values.items b.blank b.weak };
}

impl Block {
    /// A block of zeros over any zone.
    pub fn new(alloc: Global, zone: Zone) -> Result<Block, NoMemory>
        ensures { IfOk result (λ b. b ≡ record {
          low = spot zone.low;
          size = triple zone.size;
          values = replicate (3 * count_of (triple zone.size)) (pos 0);
        }) }
    {
        let Some(places) = zone.places() else {
            return Err(NoMemory);
        };
        let values = vec![in alloc; 0i128; places]?;
        Ok(Block {
            zone,
            values,
            blank: true,
            weak: false,
        })
    }

    /// The zone.
    pub fn zone(&self) -> Zone
        ensures low { spot result.low ≡ self.now.low }
        ensures size { triple result.size ≡ self.now.size }
        ensures shape { length self.now.values ≡ 3 * count_of self.now.size }
    {
        let _values = &self.values;
        self.zone
    }

    /// Whether it is known to have no component but 0. It may be false for a block of zeros, as
    /// where a 0 was written.
    pub fn is_blank(&self) -> bool
        ensures { IsTrue result
            → self.now.values ≡ replicate (3 * count_of self.now.size) (pos 0) }
    {
        self.blank
    }

    /// Whether `cell` is one of the zone's.
    pub fn has(&self, cell: [i32; 3]) -> bool
        ensures { IsTrue result ↔ InZone self.now.low self.now.size (spot cell) }
    {
        is_inside(self.zone, cell)
    }

    /// The component on `axis` at `cell`, one of the zone's.
    pub fn at(&self, axis: Axis, cell: [i32; 3]) -> i128
        requires { InZone self.now.low self.now.size (spot cell) }
        ensures { result ≡ edge_at self.now axis (spot cell) }
    {
        let place = self.place(axis, cell);
        self.values[place]
    }

    /// Adds `value` to the component on `axis` at `cell`, one of the zone's, and changes nothing else.
    /// The sum fits an `i128`.
    pub fn add(&mut self, axis: Axis, cell: [i32; 3], value: i128)
        requires within { InZone self.old.low self.old.size (spot cell) }
        requires room { FitsSigned w128 (edge_at self.old axis (spot cell) +ℤ value) }
        ensures after { self.new ≡ with_edge self.old axis (spot cell)
            (edge_at self.old axis (spot cell) +ℤ value) }
        ensures stored { edge_at self.new axis (spot cell)
            ≡ edge_at self.old axis (spot cell) +ℤ value }
    {
        let sum = self.at(axis, cell) + value;
        self.set(axis, cell, sum);
    }

    /// Makes every component 0.
    pub fn clear(&mut self)
        ensures { self.new ≡ record self.old {
          values = replicate
              (3 * count_of self.old.size) (pos 0);
        } }
    {
        if self.blank {
            return;
        }
        self.weak = false;
        zero(self.values.as_mut_slice());
        self.blank = true;
    }

    /// Changes the component on `axis` at `cell`, one of the zone's, to `value`, and nothing else.
    pub fn set(&mut self, axis: Axis, cell: [i32; 3], value: i128)
        requires { InZone self.old.low self.old.size (spot cell) }
        ensures after { self.new ≡ with_edge self.old axis (spot cell) value }
        ensures stored { edge_at self.new axis (spot cell) ≡ value }
    {
        let place = self.place(axis, cell);
        self.values[place] = value;
        self.blank = false;
        self.weak = false;
    }

    fn place(&self, axis: Axis, cell: [i32; 3]) -> usize
        requires { InZone self.now.low self.now.size (spot cell) }
        ensures value { result ≡ place_of self.now.size axis (inner_of self.now.low (spot cell)) }
        ensures below { result < length self.now.values }
    {
        let _count = self.values.len();
        let [low_x, low_y, low_z] = self.zone.low;
        let [nx, ny, nz] = self.zone.size;
        let [x, y, z] = cell;
        let inner = [
            above(low_x, x, nx),
            above(low_y, y, ny),
            above(low_z, z, nz),
        ];
        place_in(self.zone.size, axis, inner)
    }
}

/// How far `c` lies above `low`, on an axis of `size` layers.
pub(crate) fn above(low: i32, c: i32, size: u32) -> u32
    requires low { low ≤ℤ c }
    requires high { c <ℤ (low +ℤ pos size) }
    ensures value { result ≡ unsigned_abs (c -ℤ low) }
    ensures below { result < size }
{
    (i64::from(c) - i64::from(low)) as u32
}

fn is_inside(zone: Zone, cell: [i32; 3]) -> bool
    ensures { IsTrue result ↔ InZone (spot zone.low) (triple zone.size) (spot cell) }
{
    let [low_x, low_y, low_z] = zone.low;
    let [nx, ny, nz] = zone.size;
    let [x, y, z] = cell;
    if !is_among(low_x, nx, i64::from(x)) {
        return false;
    }
    if !is_among(low_y, ny, i64::from(y)) {
        return false;
    }
    if !is_among(low_z, nz, i64::from(z)) {
        return false;
    }
    true
}

/// Makes every number 0.
fn zero(values: &mut [i128])
    ensures { values.new ≡ replicate (length values.old) (pos 0) }
{
    for i in 0..values.len() {
        values[i] = 0;
    }
}
