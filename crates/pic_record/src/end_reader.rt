//! The end record of a dump, read.

ghost use Rattle.std.specs.Prelude.{◌≡◌, ℕ, List, true, ◌+◌, ◌-◌, ◌*◌, ◌<◌, ◌≤◌, ◌^◌, sum, Option, IfOk, IfSome};
ghost use Rattle.pic_num.specs.Space.{triple};
ghost use Rattle.pic_block.specs.Cells.{IsWithin, axis_of};
ghost use Rattle.pic_fields.specs.Number.{is_from_to};
ghost use Rattle.pic_fields.specs.Reads.{Reads, ReadsEnd, as_it_is};
ghost use Rattle.pic_header.specs.Limits.{most_steps};
ghost use Rattle.pic_record.specs.Limits.{end_most};
ghost use Rattle.pic_record.specs.EndFields.{code_at, below_at, is_phase, phase_of, bound_of, what_of, phase_at, bound_at, what_at};
ghost use Rattle.pic_record.specs.EndFields.{axis_at, stop_cell_at, bound_limit, what_limit, is_past, past_at, field_stop_at};
ghost use Rattle.pic_record.specs.EndFields.{push_stop_at, is_kind, first_after, done_at, field_end_at, push_end_at, end_at};
ghost use Rattle.pic_record.specs.Records.{RecordView, AnEnd, last_record};

use crate::frame_reader::{read_below, read_step};
use crate::layout::Layout;
use pic_fields::{Cause, ReadStop, is_from_to, read_byte, read_end, read_i128, read_within};
use pic_grid::{Bound, Cells, EndMark, Phase, Stop};
use pic_io::Source;
use pic_num::{Axis, MAX_FORCE, MAX_SPEED, MAX_TURN, MAX_VALUE, What};

// Reads a byte from `low` to `high`.
fn read_code<S: Source>(source: &mut S, place: u64, low: u8, high: u8) -> Result<u8, ReadStop>
    requires { place + 1 < 2 ^ 63 }
    ensures reads { Reads as_it_is (code_at (is_from_to low high)) place (place + 1)
        (S.told source.old) (S.told source.new) result }
    ensures low { IfOk result (λ n. low ≤ n) }
    ensures high { IfOk result (λ n. n ≤ high) }
{
    let n = read_byte(source, place)?;
    if !is_from_to(low as u32, high as u32, n as u32) {
        return Err(Cause::WrongEnd.at(place));
    }
    Ok(n)
}

fn read_phase<S: Source>(source: &mut S, place: u64) -> Result<Phase, ReadStop>
    requires { place + 1 < 2 ^ 63 }
    ensures { Reads as_it_is phase_at place (place + 1) (S.told source.old)
        (S.told source.new) result }
{
    let n = read_byte(source, place)?;
    if !is_phase(n) {
        return Err(Cause::WrongEnd.at(place));
    }
    Ok(phase_of(n))
}

fn is_phase(n: u8) -> bool
    ensures { result ≡ is_phase n }
{
    n == 1 || n == 3 || n == 4
}

fn phase_of(n: u8) -> Phase
    ensures { result ≡ phase_of n }
{
    if n == 1 {
        Phase::Half1
    } else if n == 3 {
        Phase::Half2
    } else {
        Phase::Electric
    }
}

fn read_bound<S: Source>(source: &mut S, place: u64) -> Result<Bound, ReadStop>
    requires { place + 1 < 2 ^ 63 }
    ensures { Reads as_it_is bound_at place (place + 1) (S.told source.old)
        (S.told source.new) result }
{
    let n = read_code(source, place, 1, 2)?;
    Ok(bound_of(n))
}

fn bound_of(n: u8) -> Bound
    ensures { result ≡ bound_of n }
{
    if n == 1 { Bound::Value } else { Bound::Force }
}

fn read_what<S: Source>(source: &mut S, place: u64) -> Result<What, ReadStop>
    requires { place + 1 < 2 ^ 63 }
    ensures { Reads as_it_is what_at place (place + 1) (S.told source.old)
        (S.told source.new) result }
{
    let n = read_code(source, place, 1, 3)?;
    Ok(what_of(n))
}

fn what_of(n: u8) -> What
    ensures { result ≡ what_of n }
{
    if n == 1 {
        What::Speed
    } else if n == 2 {
        What::Turn
    } else {
        What::Far
    }
}

fn read_axis<S: Source>(source: &mut S, place: u64) -> Result<Axis, ReadStop>
    requires { place + 1 < 2 ^ 63 }
    ensures { Reads as_it_is axis_at place (place + 1) (S.told source.old)
        (S.told source.new) result }
{
    let n = read_code(source, place, 0, 2)?;
    Ok(axis_of(n))
}

fn axis_of(n: u8) -> Axis
    ensures { result ≡ axis_of n }
{
    match n {
        0 => Axis::X,
        1 => Axis::Y,
        _ => Axis::Z,
    }
}

fn read_cell<S: Source>(source: &mut S, place: u64, cells: Cells) -> Result<[u32; 3], ReadStop>
    requires { place + 12 < 2 ^ 63 }
    ensures { Reads as_it_is (stop_cell_at cells.n) place (place + 12) (S.told source.old)
        (S.told source.new) result }
{
    let y_place = place + 4;
    let z_place = y_place + 4;
    let [nx, ny, nz] = cells.numbers();
    let x = read_below(source, place, Cause::WrongEnd, nx)?;
    let y = read_below(source, y_place, Cause::WrongEnd, ny)?;
    let z = read_below(source, z_place, Cause::WrongEnd, nz)?;
    Ok([x, y, z])
}

// Reads a number that passes a bound.
fn read_past<S: Source>(source: &mut S, place: u64, limit: u128) -> Result<i128, ReadStop>
    requires { place + 16 < 2 ^ 63 }
    ensures { Reads as_it_is (past_at limit) place (place + 16) (S.told source.old)
        (S.told source.new) result }
{
    let value = read_i128(source, place)?;
    if !is_past(limit, value) {
        return Err(Cause::WrongEnd.at(place));
    }
    Ok(value)
}

fn is_past(limit: u128, value: i128) -> bool
    ensures { result ≡ is_past limit value }
{
    limit < value.unsigned_abs()
}

fn bound_limit(bound: Bound) -> u128
    ensures { result ≡ bound_limit bound }
{
    match bound {
        Bound::Value => MAX_VALUE,
        Bound::Force => MAX_FORCE,
    }
}

fn what_limit(side: u32, what: What) -> u128
    ensures { result ≡ what_limit side what }
{
    match what {
        What::Speed => MAX_SPEED,
        What::Turn => MAX_TURN,
        What::Far => u128::from(side),
    }
}

// Reads what stopped a field phase.
fn read_field_stop<S: Source>(source: &mut S, place: u64, layout: &Layout) -> Result<Stop, ReadStop>
    requires { place + 31 < 2 ^ 63 }
    ensures { Reads as_it_is (field_stop_at layout.now) place (place + 31) (S.told source.old)
        (S.told source.new) result }
{
    let bound_place = place + 1;
    let axis_place = bound_place + 1;
    let cell_place = axis_place + 1;
    let value_place = cell_place + 12;
    let phase = read_phase(source, place)?;
    let bound = read_bound(source, bound_place)?;
    let axis = read_axis(source, axis_place)?;
    let cell = read_cell(source, cell_place, layout.cells())?;
    let value = read_past(source, value_place, bound_limit(bound))?;
    Ok(Stop::Field {
        phase,
        bound,
        axis,
        cell,
        value,
    })
}

// Reads what stopped a push.
fn read_push_stop<S: Source>(source: &mut S, place: u64, layout: &Layout) -> Result<Stop, ReadStop>
    requires { place + 22 < 2 ^ 63 }
    ensures { Reads as_it_is (push_stop_at layout.now) place (place + 22) (S.told source.old)
        (S.told source.new) result }
{
    let what_place = place + 4;
    let axis_place = what_place + 1;
    let value_place = axis_place + 1;
    let id = read_below(source, place, Cause::WrongEnd, layout.particles())?;
    let what = read_what(source, what_place)?;
    let axis = read_axis(source, axis_place)?;
    let value = read_past(source, value_place, what_limit(layout.side(), what))?;
    Ok(Stop::Push {
        id,
        what,
        axis,
        value,
    })
}

// Reads the end of a run that is done.
fn read_done<S: Source>(source: &mut S, place: u64, layout: &Layout) -> Result<EndMark, ReadStop>
    requires { place + 64 < 2 ^ 63 }
    ensures { ReadsEnd (λ m. AnEnd m) (done_at layout.now last_record) place (place + 4 + 1)
        (S.told source.old) (S.told source.new) result }
{
    let end_place = place + 4;
    let steps = read_step(source, place, layout.steps())?;
    read_end(source, end_place)?;
    Ok(EndMark::Done { steps })
}

// Reads the end of a run that a field value stopped, in a step from `low` to `high`.
fn read_field_end<S: Source>(
    source: &mut S,
    place: u64,
    layout: &Layout,
    low: u32,
    high: u32,
) -> Result<EndMark, ReadStop>
    requires { place + 64 < 2 ^ 63 }
    ensures { ReadsEnd (λ m. AnEnd m) (field_end_at layout.now low high last_record) place
        (place + 4 + 31 + 1) (S.told source.old) (S.told source.new) result }
{
    let stop_place = place + 4;
    let end_place = stop_place + 31;
    let step = read_within(source, place, Cause::WrongStep, low, high)?;
    let stop = read_field_stop(source, stop_place, layout)?;
    read_end(source, end_place)?;
    Ok(EndMark::Stopped { step, stop })
}

// Reads the end of a run that the push of a particle stopped.
fn read_push_end<S: Source>(
    source: &mut S,
    place: u64,
    layout: &Layout,
    low: u32,
    high: u32,
) -> Result<EndMark, ReadStop>
    requires { place + 64 < 2 ^ 63 }
    ensures { ReadsEnd (λ m. AnEnd m) (push_end_at layout.now low high last_record) place
        (place + 4 + 22 + 1) (S.told source.old) (S.told source.new) result }
{
    let stop_place = place + 4;
    let end_place = stop_place + 22;
    let step = read_within(source, place, Cause::WrongStep, low, high)?;
    let stop = read_push_stop(source, stop_place, layout)?;
    read_end(source, end_place)?;
    Ok(EndMark::Stopped { step, stop })
}

// Reads the kind of an end record: a run is done where no frame is due any more.
fn read_kind<S: Source>(source: &mut S, place: u64, due: Option<u32>) -> Result<u8, ReadStop>
    requires { place + 1 < 2 ^ 63 }
    ensures reads { Reads as_it_is (code_at (is_kind due)) place (place + 1) (S.told source.old)
        (S.told source.new) result }
    ensures is { IfOk result (λ kind. is_kind due kind ≡ true) }
{
    let kind = read_byte(source, place)?;
    if !is_kind(due, kind) {
        return Err(Cause::WrongEnd.at(place));
    }
    Ok(kind)
}

fn is_kind(due: Option<u32>, kind: u8) -> bool
    ensures { result ≡ is_kind due kind }
{
    match due {
        None => kind == 0,
        Some(_) => kind == 1 || kind == 2,
    }
}

fn first_after(last: Option<u32>) -> u32
    requires { IfSome last (λ step. step ≤ most_steps) }
    ensures { result ≡ first_after last }
{
    match last {
        None => 1,
        Some(step) => step + 1,
    }
}

/// Reads the end record behind its mark, and the end of the input: at most what is left of the longest
/// end record that may stand there is taken, and one byte behind it.
pub fn read_end_record<S: Source>(
    source: &mut S,
    place: u64,
    layout: &Layout,
    last: Option<u32>,
    due: Option<u32>,
) -> Result<EndMark, ReadStop>
    requires place { place + 65 < 2 ^ 63 }
    requires last { IfSome last (λ step. step ≤ most_steps) }
    ensures { ReadsEnd (λ m. AnEnd m) (end_at layout.now last due last_record) place
        (place + end_most due) (S.told source.old) (S.told source.new) result }
{
    let step_place = place + 1;
    let kind = read_kind(source, place, due)?;
    let low = first_after(last);
    let high = due.unwrap_or(0);
    if kind == 0 {
        return read_done(source, step_place, layout);
    }
    if kind == 1 {
        return read_field_end(source, step_place, layout, low, high);
    }
    read_push_end(source, step_place, layout, low, high)
}
