//! One sweep over a block, for either field: each value is lessened by the curl of the other
//! field's scaled values, strip by strip of lines. It is inlined, so that each field has straight
//! code of its own.

ghost use Rattle.std.specs.Prelude.{◌≡◌, ℤ, ◌-◌, ◌<◌, ◌-ℤ◌, true, false, IsTrue, OnOk};
ghost use Rattle.pic_num.specs.declared.axis.Axis.{Axis as AxisName};
ghost use Rattle.pic_num.specs.Limits.{most_value};
ghost use Rattle.pic_num.specs.Push.{unless};
ghost use Rattle.pic_num.specs.Sizes.{IsAtMost};
ghost use Rattle.pic_num.specs.Space.{Triple};
ghost use Rattle.pic_block.specs.Cells.{IsWithin};
ghost use Rattle.pic_block.specs.Block.{IsAmongCells, AllAtMost, inner_at, outer_of};
ghost use Rattle.pic_grid.specs.Lattice.{EachAtMost};
ghost use Rattle.pic_field.specs.FieldPhases.{lowest, least_fault, IsBounded, AllBounded, most_lessened};
ghost use Rattle.pic_field.specs.Lines.{HasCells, OnRow, OnLine, OnLines, OnStrip, Changed, AreSmall};
ghost use Rattle.pic_field.specs.Rows.{curl_at, AreCurlRows};
ghost use Rattle.pic_field.specs.Planes.{IsStrip, plane_at};
ghost use Rattle.pic_field.specs.Sweeps.{sweep_cells, made, AreRowsOf, IsPlaneOf, IsPlaneBeside};

use crate::faults::stop_in;
use crate::plane::{
    Line, Plane, Strip, fill_next_plane, fill_plane, first_of, span_for, strip_end,
};
use crate::rooms::Rooms;
use crate::row::{CurlRows, Scaled, curl_row, part};
use crate::zone::{beside_in_z, corner_in, is_empty, layer_of, line_length};
use pic_block::Block;
use pic_grid::{Phase, Stop};
use pic_num::{Axis, Mult};

/// What a sweep over a block makes its values from.
#[derive(Clone, Copy)]
pub(crate) struct Sweep<'a> {
    /// The field whose curl is taken off.
    pub(crate) from: Scaled<'a>,
    /// Whether the curl reads the next cells beside its own, or else the last ones.
    pub(crate) up: bool,
    /// A size up to which no new value passes a bound.
    pub(crate) most: u128,
}

/// The scaled rows that a curl has along a line: of the line itself, and of those beside it in y
/// and in z.
#[derive(Clone, Copy)]
struct CurlLines<'a> {
    own: &'a Line,
    by_y: &'a Line,
    by_z: &'a Line,
}

/// Sweeps over a block, with the multiplier of its force values. Every place has its new value,
/// also where the answer is a stop: that of the least place whose new value passes a bound.
#[inline(always)]
pub(crate) fn advance(
    step: &Sweep,
    phase: Phase,
    force: Mult,
    b: &mut Block,
    rooms: &mut Rooms,
) -> Result<(), Stop>
    requires among { IsAmongCells b.old.low b.old.size (sweep_cells step.now) }
    requires field { EachAtMost most_value step.now.from.field.now }
    requires small { AllAtMost most_lessened b.old }
    requires safe { (v : ℤ) → IsAtMost v step.now.most → IsBounded force v }
    ensures changed { Changed (made step.now b.old.low) (OnStrip 0 b.old.size.y) b.old b.new }
    ensures stop { (f : AxisName → Triple → ℤ)
        → ((a : AxisName) (p : Triple) → IsWithin p b.old.size
        → inner_at b.new a p ≡ f a (outer_of b.old.low p))
        → result ≡ unless (least_fault phase force (lowest b.old.low) b.old.size f) tt }
    ensures bounded { OnOk result (AllBounded force b.new) }
{
    if sweep_strips(step, b, rooms) {
        return Ok(());
    }
    stop_in(phase, force, step.from.field.cells(), b)
}

/// Sweeps over a block strip by strip, and answers whether all new values are at most the sweep's
/// `most` in size.
#[inline(always)]
fn sweep_strips(step: &Sweep, b: &mut Block, rooms: &mut Rooms) -> bool
    requires among { IsAmongCells b.old.low b.old.size (sweep_cells step.now) }
    requires field { EachAtMost most_value step.now.from.field.now }
    requires small { AreSmall most_lessened (OnStrip 0 b.old.size.y) b.old }
    ensures changed { Changed (made step.now b.old.low) (OnStrip 0 b.old.size.y) b.old b.new }
    ensures calm { IsTrue result → AreSmall step.now.most (OnStrip 0 b.old.size.y) b.new }
{
    let zone = b.zone();
    if is_empty(zone) {
        return true;
    }
    let mut calm = true;
    let mut from = 0;
    while from < zone.size[1] {
        let to = strip_end(from, zone.size[1]);
        let found = sweep_strip(step, b, Strip { from, to }, rooms);
        calm = calm & found;
        from = to;
    }
    calm
}

/// Sweeps over the lines of a strip, layer by layer. The layer beside each but the first was swept
/// before it, so that a plane of scaled rows serves two layers.
#[inline(always)]
fn sweep_strip(step: &Sweep, b: &mut Block, strip: Strip, rooms: &mut Rooms) -> bool
    requires among { IsAmongCells b.old.low b.old.size (sweep_cells step.now) }
    requires some { HasCells b.old.size }
    requires field { EachAtMost most_value step.now.from.field.now }
    requires strip { IsStrip strip b.old.size.y }
    requires small { AreSmall most_lessened (OnStrip strip.from strip.to) b.old }
    ensures changed { Changed (made step.now b.old.low) (OnStrip strip.from strip.to)
        b.old b.new }
    ensures calm { IsTrue result → AreSmall step.now.most (OnStrip strip.from strip.to) b.new }
{
    let zone = b.zone();
    let cells = step.from.field.cells();
    let span = span_for(step.up, line_length(cells, zone));
    let corner = corner_in(
        cells,
        zone,
        step.up,
        strip.from,
        layer_of(step.up, zone.size[2], 0),
    );
    let beside = beside_in_z(cells, step.up, corner);
    let lines = (strip.to - strip.from) as usize;
    fill_next_plane(&step.from, beside, span, lines, &mut rooms.planes[0]);
    let mut far = 0;
    let mut calm = true;
    for k in 0..zone.size[2] {
        let z = layer_of(step.up, zone.size[2], k);
        let found = sweep_layer(step, b, strip, z, far, rooms);
        calm = calm & found;
        far = 1 - far;
    }
    calm
}

/// Sweeps over the lines of a strip in a layer, where the plane of scaled rows of the layer beside
/// it is that at `far`. The other room has the plane of the layer itself then.
#[inline(always)]
fn sweep_layer(
    step: &Sweep,
    b: &mut Block,
    strip: Strip,
    z: u32,
    far: usize,
    rooms: &mut Rooms,
) -> bool
    requires among { IsAmongCells b.old.low b.old.size (sweep_cells step.now) }
    requires some { HasCells b.old.size }
    requires field { EachAtMost most_value step.now.from.field.now }
    requires strip { IsStrip strip b.old.size.y }
    requires z { z < b.old.size.z }
    requires small { AreSmall most_lessened (OnLines strip.from strip.to z) b.old }
    requires far { far < 2 }
    requires plane { IsPlaneBeside step.now b.old.low strip z b.old.size.x
        (plane_at rooms.old.planes far) }
    ensures plane { IsPlaneOf step.now b.old.low strip z b.old.size.x
        (plane_at rooms.new.planes (1 - far)) }
    ensures changed { Changed (made step.now b.old.low) (OnLines strip.from strip.to z)
        b.old b.new }
    ensures calm { IsTrue result → AreSmall step.now.most (OnLines strip.from strip.to z) b.new }
{
    let zone = b.zone();
    let cells = step.from.field.cells();
    let span = span_for(step.up, line_length(cells, zone));
    let corner = corner_in(cells, zone, step.up, strip.from, z);
    let lines = (strip.to - strip.from) as usize;
    let near = 1 - far;
    fill_plane(&step.from, corner, span, lines, &mut rooms.planes[near]);
    let planes = &rooms.planes;
    sweep_lines(step, b, strip, z, &planes[near], &planes[far])
}

/// Sweeps over the lines of a strip in a layer, from the scaled rows of the layer and the one
/// beside it.
#[inline(always)]
fn sweep_lines(step: &Sweep, b: &mut Block, strip: Strip, z: u32, near: &Plane, far: &Plane) -> bool
    requires among { IsAmongCells b.old.low b.old.size (sweep_cells step.now) }
    requires strip { IsStrip strip b.old.size.y }
    requires z { z < b.old.size.z }
    requires small { AreSmall most_lessened (OnLines strip.from strip.to z) b.old }
    requires near { IsPlaneOf step.now b.old.low strip z b.old.size.x near.now }
    requires far { IsPlaneBeside step.now b.old.low strip z b.old.size.x far.now }
    ensures changed { Changed (made step.now b.old.low) (OnLines strip.from strip.to z)
        b.old b.new }
    ensures calm { IsTrue result → AreSmall step.now.most (OnLines strip.from strip.to z) b.new }
{
    let first = first_of(step.up);
    let mut calm = true;
    for y in strip.from..strip.to {
        let j = (y - strip.from) as usize;
        let lines = CurlLines {
            own: &near[first + j],
            by_y: &near[1 - first + j],
            by_z: &far[first + j],
        };
        let found = sweep_line(step, b, y, z, &lines);
        calm = calm & found;
    }
    calm
}

/// Sweeps over a line, from its scaled rows and those of the lines beside it.
#[inline(always)]
fn sweep_line(step: &Sweep, b: &mut Block, y: u32, z: u32, lines: &CurlLines) -> bool
    requires among { IsAmongCells b.old.low b.old.size (sweep_cells step.now) }
    requires y { y < b.old.size.y }
    requires z { z < b.old.size.z }
    requires small { AreSmall most_lessened (OnLine y z) b.old }
    requires rows { AreRowsOf step.now b.old.low y z b.old.size.x
        lines.now.own.now lines.now.by_y.now lines.now.by_z.now }
    ensures changed { Changed (made step.now b.old.low) (OnLine y z) b.old b.new }
    ensures calm { IsTrue result → AreSmall step.now.most (OnLine y z) b.new }
{
    let count = line_length(step.from.field.cells(), b.zone());
    let near = first_of(step.up);
    let far = 1 - near;
    let CurlLines { own, by_y, by_z } = *lines;
    let on_x = CurlRows {
        far_third: part(&by_y.z[..], near, count),
        near_third: part(&own.z[..], near, count),
        far_second: part(&by_z.y[..], near, count),
        near_second: part(&own.y[..], near, count),
    };
    let calm_x = sweep_row(step, b, Axis::X, y, z, &on_x);
    let on_y = CurlRows {
        far_third: part(&by_z.x[..], near, count),
        near_third: part(&own.x[..], near, count),
        far_second: part(&own.z[..], far, count),
        near_second: part(&own.z[..], near, count),
    };
    let calm_y = sweep_row(step, b, Axis::Y, y, z, &on_y);
    let on_z = CurlRows {
        far_third: part(&own.y[..], far, count),
        near_third: part(&own.y[..], near, count),
        far_second: part(&by_y.x[..], near, count),
        near_second: part(&own.x[..], near, count),
    };
    let calm_z = sweep_row(step, b, Axis::Z, y, z, &on_z);
    calm_x & calm_y & calm_z
}

/// Lessens the components of a block on `axis` along the row at the layers `y` and `z` by the curl
/// of four rows, and answers whether all new values are at most the sweep's `most` in size.
#[inline(always)]
fn sweep_row(step: &Sweep, b: &mut Block, axis: Axis, y: u32, z: u32, four: &CurlRows) -> bool
    requires y { y < b.old.size.y }
    requires z { z < b.old.size.z }
    requires small { AreSmall most_lessened (OnRow axis y z) b.old }
    requires four { AreCurlRows b.old.size.x four.now }
    ensures changed { Changed (λ a p v. v -ℤ curl_at four.now p.x) (OnRow axis y z) b.old b.new }
    ensures calm { IsTrue result → AreSmall step.now.most (OnRow axis y z) b.new }
{
    let zone = b.zone();
    let count = zone.size[0] as usize;
    let start = b.row_start(axis, y, z);
    let values = b.values_mut();
    curl_row(&mut values[start..start + count], four, step.most)
}
