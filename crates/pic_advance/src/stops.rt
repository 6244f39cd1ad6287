//! The stop of many blocks.

ghost use Rattle.std.specs.Prelude.{◌≡◌, ◌^◌};
ghost use Rattle.pic_num.specs.Space.{triple};
ghost use Rattle.pic_advance.specs.Blocks.{number_of, place_number, earlier};

use pic_grid::Stop;
use pic_num::Axis;

/// The number of a place, in the order of the axis first, then z, then y, then x.
fn number_of(axis: Axis, cell: [u32; 3]) -> u128
    ensures { result ≡ number_of axis (triple cell) }
{
    let [x, y, z] = cell;
    let axis = u128::from(axis.number());
    let layer = (axis << 32) + u128::from(z);
    let line = (layer << 32) + u128::from(y);
    (line << 32) + u128::from(x)
}

/// The number of the place that a stop of a field phase names.
#[tactic(auto, unfolding(crate::specs::Blocks::place_number))]
fn place_number(stop: &Stop) -> u128
    ensures { result ≡ place_number stop.now }
{
    match *stop {
        Stop::Field { axis, cell, .. } => number_of(axis, cell),
        Stop::Push { .. } => 0,
    }
}

/// Of two stops that of the lesser place, the first where they name one place, and what is there
/// where one isn't.
#[tactic(auto, unfolding(crate::specs::Blocks::earlier))]
pub(crate) fn earlier(first: Option<Stop>, second: Option<Stop>) -> Option<Stop>
    ensures { result ≡ earlier first second }
{
    let Some(one) = first else {
        return second;
    };
    let Some(other) = second else {
        return Some(one);
    };
    if place_number(&other) < place_number(&one) {
        Some(other)
    } else {
        Some(one)
    }
}
