//! Planes of scaled rows: those of a strip of lines at one layer of z, each row scaled once.

ghost use Rattle.std.specs.Prelude.{◌≡◌, ◌+◌, ◌<◌, ◌≤◌, IsTrue};
ghost use Rattle.pic_num.specs.Limits.{most_cells_of_axis, most_value};
ghost use Rattle.pic_num.specs.Sizes.{IsAtMost};
ghost use Rattle.pic_num.specs.Space.{triple};
ghost use Rattle.pic_block.specs.Cells.{IsWithin};
ghost use Rattle.pic_grid.specs.Lattice.{EachAtMost};
ghost use Rattle.pic_grid.specs.Slot.{IsSlotX, IsSlotY, IsSlotZ};
ghost use Rattle.pic_field.specs.Beside.{first_index};
ghost use Rattle.pic_field.specs.Rows.{most_row, read_by, start_cell, IsStart, IsScaledRow};
ghost use Rattle.pic_field.specs.Planes.{span_of, IsSpan, IsOwnLine, IsSideLine, IsNextLine, IsScaledPlane, IsNextPlane};

use crate::row::{Row, Scaled, Start, after_run, scale_row, scale_value};
use pic_grid::Slot;
use pic_num::Axis;

/// How many lines a strip has at most.
pub(crate) const LINES_OF_STRIP: u32 = 8;

/// How many lines a plane has room for: those of a strip, and one beside it.
pub(crate) const LINES_OF_PLANE: usize = 9;

/// The scaled rows of a line of cells, one for each component.
#[derive(Clone, Copy)]
pub(crate) struct Line {
    pub(crate) x: Row,
    pub(crate) y: Row,
    pub(crate) z: Row,
}

/// A room for the scaled rows of a plane.
pub(crate) type Plane = [Line; LINES_OF_PLANE];

/// Where the values of a row stand in its room.
#[derive(Clone, Copy)]
pub(crate) struct Span {
    /// The index of the value of the row's first cell. In a plane also that of a strip's first
    /// line.
    pub(crate) first: usize,
    /// The index of the value of the cell beside the row, before or behind it.
    pub(crate) edge: usize,
    /// How many cells the row has.
    pub(crate) cells: usize,
}

/// The index of a row's first cell in its room, and of a strip's first line in a plane: 0 where
/// what is read beside them stands behind them, or else 1.
#[inline(always)]
pub(crate) fn first_of(up: bool) -> usize
    ensures value { result ≡ first_index up }
    ensures most { result ≤ 1 }
{
    if up { 0 } else { 1 }
}

/// The span of rows of so many cells, which end with the value of the next cell, or else begin with
/// that of the last one.
pub(crate) fn span_for(up: bool, cells: usize) -> Span
    requires { cells ≤ most_cells_of_axis }
    ensures value { result ≡ span_of up cells }
    ensures is { IsSpan result }
{
    if up {
        return Span {
            first: 0,
            edge: cells,
            cells,
        };
    }
    Span {
        first: 1,
        edge: 0,
        cells,
    }
}

/// The lines of a strip in a zone: from one on and below another.
#[derive(Clone, Copy)]
pub(crate) struct Strip {
    pub(crate) from: u32,
    pub(crate) to: u32,
}

/// The line behind a strip that begins at the line `from`, of a zone of `count` lines.
pub(crate) fn strip_end(from: u32, count: u32) -> u32
    requires { from < count }
    ensures some { from < result }
    ensures few { result ≤ from + 8 }
    ensures within { result ≤ count }
{
    from + LINES_OF_STRIP.min(count - from)
}

/// Scales what a curl reads of the plane of a strip of `lines` lines in the strip's own layer and
/// the one beside it: of the strip's lines, and of that beside them in y. The plane begins with the
/// line whose rooms begin with the cell `at`.
pub(crate) fn fill_plane(from: &Scaled, at: [u32; 3], span: Span, lines: usize, to: &mut Plane)
    requires within { IsWithin (triple at) from.now.field.now.cells }
    requires span { IsSpan span }
    requires edge { (triple at).x + span.edge ≤ from.now.field.now.cells.x }
    requires lines { lines ≤ 8 }
    requires small { EachAtMost most_value from.now.field.now }
    ensures { IsScaledPlane from.now.field.now.cells (read_by from.now) (triple at) span lines
        to.new }
{
    let [_, ny, _] = from.field.cells().numbers();
    let [x, first, z] = at;
    let z = from.field.slot_z(z);
    let mut y = first;
    for j in 0..lines + 1 {
        let own = is_own(span.first, lines, j);
        let start = Start {
            x,
            y: from.field.slot_y(y),
            z,
        };
        scale_line(from, start, span, own, &mut to[j]);
        y = after_run(ny, y, 1);
    }
}

/// Scales what a curl reads of the plane of a strip of `lines` lines in the layer beside it alone.
pub(crate) fn fill_next_plane(from: &Scaled, at: [u32; 3], span: Span, lines: usize, to: &mut Plane)
    requires within { IsWithin (triple at) from.now.field.now.cells }
    requires span { IsSpan span }
    requires lines { lines ≤ 8 }
    requires small { EachAtMost most_value from.now.field.now }
    ensures { IsNextPlane from.now.field.now.cells (read_by from.now) (triple at) span lines
        to.new }
{
    let [_, ny, _] = from.field.cells().numbers();
    let [x, first, z] = at;
    let z = from.field.slot_z(z);
    let mut y = after_run(ny, first, span.first);
    for j in span.first..span.first + lines {
        let start = Start {
            x,
            y: from.field.slot_y(y),
            z,
        };
        scale_next(from, start, span, &mut to[j]);
        y = after_run(ny, y, 1);
    }
}

/// Whether the line at the index `j` of a plane is one of the strip's.
#[inline(always)]
fn is_own(first: usize, lines: usize, j: usize) -> bool
    requires first { first ≤ 1 }
    requires lines { lines ≤ 8 }
    ensures { first ≤ j → j < first + lines → IsTrue result }
{
    if j < first {
        return false;
    }
    j < first + lines
}

/// Scales what a curl reads of the line from a start on, with whose cell its rooms begin: one of a
/// strip's own, or else the line beside it in y.
#[inline(always)]
fn scale_line(from: &Scaled, start: Start, span: Span, own: bool, to: &mut Line)
    requires start { IsStart from.now.field.now start }
    requires span { IsSpan span }
    requires edge { start.x + span.edge ≤ from.now.field.now.cells.x }
    requires small { EachAtMost most_value from.now.field.now }
    ensures own { IsTrue own
        → IsOwnLine from.now.field.now.cells (read_by from.now) (start_cell start) span to.new }
    ensures side { IsSideLine from.now.field.now.cells (read_by from.now) (start_cell start) span
        to.new }
{
    if own {
        return scale_own(from, start, span, to);
    }
    let wanted = Wanted { y: false, z: true };
    scale_rows(from, start, span, wanted, to)
}

/// Scales what a curl reads of the line that it is along.
#[inline(always)]
fn scale_own(from: &Scaled, start: Start, span: Span, to: &mut Line)
    requires start { IsStart from.now.field.now start }
    requires span { IsSpan span }
    requires edge { start.x + span.edge ≤ from.now.field.now.cells.x }
    requires small { EachAtMost most_value from.now.field.now }
    ensures { IsOwnLine from.now.field.now.cells (read_by from.now) (start_cell start) span to.new }
{
    let [nx, _, _] = from.field.cells().numbers();
    let wanted = Wanted { y: true, z: true };
    scale_rows(from, start, span, wanted, to);
    let edge = from.field.slot_x(after_run(nx, start.x, span.edge));
    let of_y = scaled_at(from, Axis::Y, edge, start.y, start.z);
    let of_z = scaled_at(from, Axis::Z, edge, start.y, start.z);
    to.y[span.edge] = of_y;
    to.z[span.edge] = of_z;
}

/// Scales what a curl reads of a line beside it in z.
#[inline(always)]
fn scale_next(from: &Scaled, start: Start, span: Span, to: &mut Line)
    requires start { IsStart from.now.field.now start }
    requires span { IsSpan span }
    requires small { EachAtMost most_value from.now.field.now }
    ensures { IsNextLine from.now.field.now.cells (read_by from.now) (start_cell start) span
        to.new }
{
    let wanted = Wanted { y: true, z: false };
    scale_rows(from, start, span, wanted, to);
}

/// The component on `axis` at the cell of three slots, scaled.
#[inline(always)]
fn scaled_at(from: &Scaled, axis: Axis, x: Slot, y: Slot, z: Slot) -> i128
    requires x { IsSlotX from.now.field.now.cells from.now.field.now.parts x }
    requires y { IsSlotY from.now.field.now.cells from.now.field.now.parts y }
    requires z { IsSlotZ from.now.field.now.cells from.now.field.now.parts z }
    requires small { EachAtMost most_value from.now.field.now }
    ensures value { result
        ≡ read_by from.now axis (record { x = x.index; y = y.index; z = z.index }) }
    ensures size { IsAtMost result most_row }
{
    let run = from.field.run_at(axis, x, y, z);
    scale_value(run[0], from.by)
}

/// Which rows of a line are wanted beside that of x.
#[derive(Clone, Copy)]
struct Wanted {
    y: bool,
    z: bool,
}

/// Scales the values at the cells of a line whose rooms begin with the start, round the grid: of x,
/// and of y and z if they are wanted. The runs of the three components lie at the same place of a
/// part, which is found once for them.
#[inline(always)]
fn scale_rows(from: &Scaled, start: Start, span: Span, wanted: Wanted, to: &mut Line)
    requires start { IsStart from.now.field.now start }
    requires span { IsSpan span }
    requires small { EachAtMost most_value from.now.field.now }
    ensures x { IsScaledRow from.now.field.now.cells (read_by from.now) Axis.X (start_cell start)
        span.first (span.first + span.cells) to.new.x }
    ensures y { IsTrue wanted.y → IsScaledRow from.now.field.now.cells (read_by from.now) Axis.Y
        (start_cell start) span.first (span.first + span.cells) to.new.y }
    ensures z { IsTrue wanted.z → IsScaledRow from.now.field.now.cells (read_by from.now) Axis.Z
        (start_cell start) span.first (span.first + span.cells) to.new.z }
{
    let by = from.by;
    let [nx, _, _] = from.field.cells().numbers();
    let Start { x: begin, y, z } = start;
    let mut x = after_run(nx, begin, span.first);
    let mut done = span.first;
    while done < span.first + span.cells {
        let here = from.field.slot_x(x);
        let of_x = from.field.run_at(Axis::X, here, y, z);
        let of_y = from.field.run_at(Axis::Y, here, y, z);
        let of_z = from.field.run_at(Axis::Z, here, y, z);
        let more = of_x.len().min(span.first + span.cells - done);
        let more_y = count_if(wanted.y, more);
        let more_z = count_if(wanted.z, more);
        scale_row(&of_x[..more], by, &mut to.x[done..done + more]);
        scale_row(&of_y[..more_y], by, &mut to.y[done..done + more_y]);
        scale_row(&of_z[..more_z], by, &mut to.z[done..done + more_z]);
        done = done + more;
        x = after_run(nx, x, more);
    }
}

/// A count, or 0 where nothing is wanted.
#[inline(always)]
fn count_if(is: bool, count: usize) -> usize
    ensures all { IsTrue is → result ≡ count }
    ensures most { result ≤ count }
{
    if is { count } else { 0 }
}
