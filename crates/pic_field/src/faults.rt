//! What stops a field phase at a new value.

ghost use Rattle.std.specs.Prelude.{◌≡◌, ℤ};
ghost use Rattle.pic_num.specs.Push.{unless};
ghost use Rattle.pic_num.specs.Sizes.{IsAtMost};
ghost use Rattle.pic_num.specs.Space.{triple, unwrapped};
ghost use Rattle.pic_block.specs.Block.{IsAmongCells, edge_at};
ghost use Rattle.pic_field.specs.FieldPhases.{fault_of, lowest, least_fault, IsBounded};

use crate::zone::{cell_in, place_count};
use pic_block::{Block, Place};
use pic_grid::{Bound, Cells, Phase, Stop};
use pic_num::{Axis, Mult, scale};

/// The greatest size of a field's value.
const GREATEST_VALUE: u128 = 1 << 90;

/// The greatest size of a force value.
const GREATEST_FORCE: u128 = 1 << 44;

/// What stops a phase at a new value of the component on `axis` at `cell`, with the multiplier of
/// its force value.
#[tactic(auto, unfolding(crate::specs::FieldPhases::fault_of))]
pub(crate) fn fault(phase: Phase, by: Mult, axis: Axis, cell: [u32; 3], value: i128) -> Option<Stop>
    ensures { result ≡ fault_of phase by axis (triple cell) value }
{
    let [x, y, z] = cell;
    let cell = [x, y, z];
    if value.unsigned_abs() > GREATEST_VALUE {
        return Some(Stop::Field {
            phase,
            bound: Bound::Value,
            axis,
            cell,
            value,
        });
    }
    let force = scale(value, by);
    if force.unsigned_abs() > GREATEST_FORCE {
        return Some(Stop::Field {
            phase,
            bound: Bound::Force,
            axis,
            cell,
            value: force,
        });
    }
    None
}

/// A size up to which no value is above 2^90 in size, nor its force value above 2^44.
pub(crate) fn safe_most(by: Mult) -> u128
    ensures { (v : ℤ) → IsAtMost v result → IsBounded by v }
{
    let size = u128::from(by.n().unsigned_abs());
    if size == 0 {
        return GREATEST_VALUE;
    }
    let most = (GREATEST_FORCE << by.k()) / size;
    most.min(GREATEST_VALUE)
}

/// The stop of the values of a block: that of its least place whose value passes a bound. The zone
/// of the block lies among the cells.
pub(crate) fn stop_in(phase: Phase, by: Mult, cells: Cells, b: &Block) -> Result<(), Stop>
    requires among { IsAmongCells b.now.low b.now.size cells.n }
    ensures { result ≡ unless (least_fault phase by (lowest b.now.low) b.now.size
        (λ a p. edge_at b.now a (unwrapped p))) tt }
{
    let zone = b.zone();
    let mut stop = None;
    let mut place = Place::first();
    for _number in 0..place_count(cells, zone) {
        let cell = cell_in(cells, zone, place.inner);
        let value = b.at(place.axis, cells.unwrapped(cell));
        let found = fault(phase, by, place.axis, cell, value);
        stop = stop.or(found);
        place = place.following(zone.size);
    }
    answer(stop)
}

/// The answer of a phase: its stop, if there is one.
pub(crate) fn answer(stop: Option<Stop>) -> Result<(), Stop>
    ensures { result ≡ unless stop tt }
{
    match stop {
        None => Ok(()),
        Some(stop) => Err(stop),
    }
}
