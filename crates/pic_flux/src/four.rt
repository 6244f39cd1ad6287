//! A segment's flux through the four edges of its cell along one axis: what it carries, and a
//! weight for each edge.

ghost use Rattle.std.specs.Prelude.{◌≡◌, pos, ◌*◌, ◌^◌, ◌+ℤ◌, ◌-ℤ◌, ◌*ℤ◌};
ghost use Rattle.pic_num.specs.Sizes.{IsAtMost};
ghost use Rattle.pic_block.specs.Fours.{AreSmall, most_carried, most_of_weight};
ghost use Rattle.pic_flux.specs.Spans.{IsShort, four_by};

use crate::spans::Spans;
use pic_block::Four;
use pic_num::Axis;

/// The flux of the charge `q` on a segment through the four edges of its cell along `axis`: what it
/// carries, in a charge times a sub-cell, and the weight of each edge, in twelfths of a square
/// sub-cell. The weight of the one that is high on both other axes takes two products; the others'
/// take none.
#[inline(always)]
pub(crate) fn four_of(spans: &Spans, q: i64, axis: Axis) -> Four
    requires short { IsShort spans.now }
    requires charge { IsAtMost q (2 ^ 31) }
    ensures value { result ≡ four_by spans.now q axis }
    ensures small { AreSmall result }
{
    let second = axis.next();
    let (a, b) = (spans.on(second), spans.on(second.next()));
    let both = both_high(a.sum, b.sum, a.way, b.way);
    let high_a = one_high(a.part, both);
    let high_b = one_high(b.part, both);
    let none = none_high(spans.whole, high_a, high_b, both);
    Four {
        by: carried(q, spans.on(axis).way),
        low_low: none,
        high_low: high_a,
        low_high: high_b,
        high_high: both,
    }
}

/// What a charge carries along a way, in a charge times a sub-cell.
#[inline(always)]
fn carried(q: i64, way: i64) -> i64
    requires q { IsAtMost q (2 ^ 31) }
    requires way { IsAtMost way (2 ^ 14) }
    ensures value { result ≡ q *ℤ way }
    ensures size { IsAtMost result most_carried }
{
    q * way
}

/// The weight of the edge that is high on both other axes, 12 times: the mean weights and the
/// correction for how they change together.
#[inline(always)]
fn both_high(a: i64, b: i64, way_a: i64, way_b: i64) -> i64
    requires a { IsAtMost a (2 ^ 15) }
    requires b { IsAtMost b (2 ^ 15) }
    requires way_a { IsAtMost way_a (2 ^ 14) }
    requires way_b { IsAtMost way_b (2 ^ 14) }
    ensures value { result ≡ pos 3 *ℤ a *ℤ b +ℤ way_a *ℤ way_b }
    ensures size { IsAtMost result (2 ^ 32) }
{
    3 * a * b + way_a * way_b
}

/// The weight of an edge that is high on one axis alone.
#[inline(always)]
fn one_high(part: i64, both: i64) -> i64
    requires part { IsAtMost part (3 * 2 ^ 30) }
    requires both { IsAtMost both (2 ^ 32) }
    ensures value { result ≡ part -ℤ both }
    ensures size { IsAtMost result (2 ^ 33) }
{
    part - both
}

/// The weight of the edge that is low on both axes.
#[inline(always)]
fn none_high(whole: i64, high_a: i64, high_b: i64, both: i64) -> i64
    requires whole { IsAtMost whole (3 * 2 ^ 30) }
    requires high_a { IsAtMost high_a (2 ^ 33) }
    requires high_b { IsAtMost high_b (2 ^ 33) }
    requires both { IsAtMost both (2 ^ 32) }
    ensures value { result ≡ whole -ℤ high_a -ℤ high_b -ℤ both }
    ensures size { IsAtMost result most_of_weight }
{
    whole - high_a - high_b - both
}
