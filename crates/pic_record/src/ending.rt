//! The end record of a dump, put.

ghost use Rattle.std.specs.Prelude.{◌≡◌};
ghost use Rattle.pic_io.specs.Told.{HasCause};
ghost use Rattle.pic_io.specs.Sink.{Puts};
ghost use Rattle.pic_record.specs.RecordText.{phase_code, bound_code, what_code, end_bytes};

use pic_grid::{Bound, EndMark, Phase, Stop};
use pic_io::{Failed, Sink};
use pic_num::{Text, What};

/// Room for the longest end record.
const END_BYTES: usize = 37;

type EndText = Text<END_BYTES>;

/// Puts the end record of a dump, in one put: 6 bytes for a run that is done, 37 for one that a field
/// value stopped, 28 for one that a push stopped.
///
/// `Failed` comes only where the count of faults rose, and then a front of the record was put.
pub fn put_end<O: Sink>(out: &mut O, end: EndMark) -> Result<(), Failed>
    ensures bytes { Puts (O.told out.old) (O.told out.new) (end_bytes end) result }
    ensures cause { HasCause (O.told out.old) (O.told out.new) result }
{
    let text = end_text(end);
    out.put(text.bytes())
}

fn end_text(end: EndMark) -> EndText
    ensures { result ≡ end_bytes end }
{
    match end {
        EndMark::Done { steps } => done_text(steps),
        EndMark::Stopped { step, stop } => stop_text(step, stop),
    }
}

#[tactic(auto, unfolding(crate::specs::RecordText::end_bytes, crate::specs::RecordText::done_bytes))]
fn done_text(steps: u32) -> EndText
    ensures { result ≡ end_bytes (EndMark.Done steps) }
{
    let mut text = EndText::new();
    text.push(b"E");
    text.push_byte(0);
    text.push_u32(steps);
    text
}

#[tactic(auto, unfolding(crate::specs::RecordText::end_bytes, crate::specs::RecordText::field_stop_bytes, crate::specs::RecordText::push_stop_bytes))]
fn stop_text(step: u32, stop: Stop) -> EndText
    ensures { result ≡ end_bytes (EndMark.Stopped step stop) }
{
    let mut text = EndText::new();
    text.push(b"E");
    match stop {
        Stop::Field {
            phase,
            bound,
            axis,
            cell,
            value,
        } => {
            let [x, y, z] = cell;
            text.push_byte(1);
            text.push_u32(step);
            text.push_byte(phase_code(phase));
            text.push_byte(bound_code(bound));
            text.push_byte(axis.number() as u8);
            text.push_u32(x);
            text.push_u32(y);
            text.push_u32(z);
            text.push_i128(value);
            text
        }
        Stop::Push {
            id,
            what,
            axis,
            value,
        } => {
            text.push_byte(2);
            text.push_u32(step);
            text.push_u32(id);
            text.push_byte(what_code(what));
            text.push_byte(axis.number() as u8);
            text.push_i128(value);
            text
        }
    }
}

fn phase_code(phase: Phase) -> u8
    ensures { result ≡ phase_code phase }
{
    match phase {
        Phase::Half1 => 1,
        Phase::Half2 => 3,
        Phase::Electric => 4,
    }
}

fn bound_code(bound: Bound) -> u8
    ensures { result ≡ bound_code bound }
{
    match bound {
        Bound::Value => 1,
        Bound::Force => 2,
    }
}

fn what_code(what: What) -> u8
    ensures { result ≡ what_code what }
{
    match what {
        What::Speed => 1,
        What::Turn => 2,
        What::Far => 3,
    }
}
