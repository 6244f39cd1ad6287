//! How an amount is shared by the eight nodes round a point.

ghost use Rattle.std.specs.Prelude.{◌≡◌, pos, ◌^◌, ◌<◌, ◌≤◌, ◌*ℤ◌};
ghost use Rattle.pic_num.specs.Limits.{most_side};
ghost use Rattle.pic_num.specs.Sizes.{IsAtMost};
ghost use Rattle.pic_grid.specs.Hat.{only_at};
ghost use Rattle.pic_grid.specs.Pair.{weight_in};
ghost use Rattle.pic_charge.specs.Spread.{spread, CanSpread, NodesAtMost, Adds};

use pic_grid::{Nodes, Pair};

/// Adds an amount to one node.
fn add(to: &mut Nodes, x: u32, y: u32, z: u32, amount: i64)
    requires x { x < to.old.cells.x }
    requires y { y < to.old.cells.y }
    requires z { z < to.old.cells.z }
    requires room { NodesAtMost to.old (2 ^ 90) }
    requires size { IsAtMost amount (2 ^ 61) }
    ensures { Adds to.old to.new (spread amount (only_at x 1) (only_at y 1) (only_at z 1)) }
{
    let node = [x, y, z];
    let sum = to.at(node) + i128::from(amount);
    to.set(node, sum);
}

/// Shares an amount between the two nodes of a line along x.
fn add_line(to: &mut Nodes, x: Pair, y: u32, z: u32, amount: i64)
    requires x { CanSpread to.old.cells.x x }
    requires y { y < to.old.cells.y }
    requires z { z < to.old.cells.z }
    requires room { NodesAtMost to.old (2 ^ 89) }
    requires size { IsAtMost amount (2 ^ 47) }
    ensures { Adds to.old to.new (spread amount (weight_in x) (only_at y 1) (only_at z 1)) }
{
    add(to, x.low, y, z, times(amount, x.low_weight));
    add(to, x.high, y, z, times(amount, x.high_weight));
}

/// Shares an amount between the two lines of a plane across z.
fn add_plane(to: &mut Nodes, x: Pair, y: Pair, z: u32, amount: i64)
    requires x { CanSpread to.old.cells.x x }
    requires y { CanSpread to.old.cells.y y }
    requires z { z < to.old.cells.z }
    requires room { NodesAtMost to.old (2 ^ 88) }
    requires size { IsAtMost amount (2 ^ 33) }
    ensures { Adds to.old to.new (spread amount (weight_in x) (weight_in y) (only_at z 1)) }
{
    add_line(to, x, y.low, z, times(amount, y.low_weight));
    add_line(to, x, y.high, z, times(amount, y.high_weight));
}

/// Shares an amount between the two planes of a box of eight nodes.
pub(crate) fn add_box(to: &mut Nodes, x: Pair, y: Pair, z: Pair, amount: i64)
    requires x { CanSpread to.old.cells.x x }
    requires y { CanSpread to.old.cells.y y }
    requires z { CanSpread to.old.cells.z z }
    requires room { NodesAtMost to.old (2 ^ 87) }
    requires size { IsAtMost amount (2 ^ 19) }
    ensures { Adds to.old to.new (spread amount (weight_in x) (weight_in y) (weight_in z)) }
{
    add_plane(to, x, y, z.low, times(amount, z.low_weight));
    add_plane(to, x, y, z.high, times(amount, z.high_weight));
}

/// An amount times a weight.
#[inline(always)]
pub(crate) fn times(amount: i64, weight: u32) -> i64
    requires amount_most { IsAtMost amount (2 ^ 47) }
    requires weight_most { weight ≤ most_side }
    ensures { result ≡ amount *ℤ pos weight }
{
    amount * i64::from(weight)
}
