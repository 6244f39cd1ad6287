//! How an amount is shared by the eight nodes round a point, in sums of 64 bits.

ghost use Rattle.std.specs.Prelude.{◌≡◌, ◌^◌, ◌+◌, ◌*◌, ◌<◌, length};
ghost use Rattle.pic_num.specs.Sizes.{IsAtMost};
ghost use Rattle.pic_num.specs.Space.{triple};
ghost use Rattle.pic_block.specs.Cells.{IsWithin, count_of, index_of};
ghost use Rattle.pic_grid.specs.Hat.{only_at};
ghost use Rattle.pic_grid.specs.Pair.{weight_in};
ghost use Rattle.pic_charge.specs.Spread.{spread, CanSpread, Adds};
ghost use Rattle.pic_charge.specs.Sums.{nodes_in, SumsAtMost};

use crate::spread::times;
use pic_grid::Pair;

/// Adds an amount to one sum. Its place is found axis by axis: the eight nodes of a box share the
/// products.
#[inline(always)]
fn add(n: [u32; 3], sums: &mut [i64], node: [u32; 3], amount: i64)
    requires long { length sums.old ≡ count_of (triple n) }
    requires within { IsWithin (triple node) (triple n) }
    requires room { SumsAtMost (triple n) sums.old (2 ^ 62 + 3 * 2 ^ 59) }
    requires size { IsAtMost amount (2 ^ 59) }
    ensures long { length sums.new ≡ length sums.old }
    ensures sums { Adds (nodes_in (triple n) sums.old) (nodes_in (triple n) sums.new)
        (spread amount (only_at (triple node).x 1) (only_at (triple node).y 1)
        (only_at (triple node).z 1)) }
{
    let place = place_of(n, node);
    sums[place] += amount;
}

/// The number of a node, as a sum of a number for each axis.
#[inline(always)]
fn place_of(n: [u32; 3], node: [u32; 3]) -> usize
    requires within { IsWithin (triple node) (triple n) }
    requires room { count_of (triple n) < 2 ^ 64 }
    ensures value { result ≡ index_of (triple n) (triple node) }
    ensures below { result < count_of (triple n) }
{
    let [nx, ny, _] = n;
    let [x, y, z] = node;
    let row = y as usize * nx as usize;
    let layer = z as usize * (nx as usize * ny as usize);
    x as usize + row + layer
}

/// Shares an amount between the two nodes of a line along x.
#[inline(always)]
fn add_line(n: [u32; 3], sums: &mut [i64], x: Pair, y: u32, z: u32, amount: i64)
    requires long { length sums.old ≡ count_of (triple n) }
    requires x { CanSpread (triple n).x x }
    requires y { y < (triple n).y }
    requires z { z < (triple n).z }
    requires room { SumsAtMost (triple n) sums.old (2 ^ 62 + 2 * 2 ^ 59) }
    requires size { IsAtMost amount (2 ^ 45) }
    ensures long { length sums.new ≡ length sums.old }
    ensures sums { Adds (nodes_in (triple n) sums.old) (nodes_in (triple n) sums.new)
        (spread amount (weight_in x) (only_at y 1) (only_at z 1)) }
{
    add(n, sums, [x.low, y, z], times(amount, x.low_weight));
    add(n, sums, [x.high, y, z], times(amount, x.high_weight));
}

/// Shares an amount between the two lines of a plane across z.
#[inline(always)]
fn add_plane(n: [u32; 3], sums: &mut [i64], x: Pair, y: Pair, z: u32, amount: i64)
    requires long { length sums.old ≡ count_of (triple n) }
    requires x { CanSpread (triple n).x x }
    requires y { CanSpread (triple n).y y }
    requires z { z < (triple n).z }
    requires room { SumsAtMost (triple n) sums.old (2 ^ 62 + 2 ^ 59) }
    requires size { IsAtMost amount (2 ^ 31) }
    ensures long { length sums.new ≡ length sums.old }
    ensures sums { Adds (nodes_in (triple n) sums.old) (nodes_in (triple n) sums.new)
        (spread amount (weight_in x) (weight_in y) (only_at z 1)) }
{
    add_line(n, sums, x, y.low, z, times(amount, y.low_weight));
    add_line(n, sums, x, y.high, z, times(amount, y.high_weight));
}

/// Shares an amount between the two planes of a box of eight nodes.
#[inline(always)]
pub(crate) fn add_box(n: [u32; 3], sums: &mut [i64], x: Pair, y: Pair, z: Pair, amount: i64)
    requires long { length sums.old ≡ count_of (triple n) }
    requires x { CanSpread (triple n).x x }
    requires y { CanSpread (triple n).y y }
    requires z { CanSpread (triple n).z z }
    requires room { SumsAtMost (triple n) sums.old (2 ^ 62) }
    requires size { IsAtMost amount (2 ^ 17) }
    ensures long { length sums.new ≡ length sums.old }
    ensures sums { Adds (nodes_in (triple n) sums.old) (nodes_in (triple n) sums.new)
        (spread amount (weight_in x) (weight_in y) (weight_in z)) }
{
    add_plane(n, sums, x, y, z.low, times(amount, z.low_weight));
    add_plane(n, sums, x, y, z.high, times(amount, z.high_weight));
}
