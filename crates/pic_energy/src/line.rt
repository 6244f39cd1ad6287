//! The lines of a report that tell of a run.

ghost use Rattle.std.specs.Prelude.{◌≡◌, ◌≤◌, length};
ghost use Rattle.pic_num.specs.Space.{triple};
ghost use Rattle.pic_energy.specs.Line.{phase_word, bound_word, what_word, frame_line, done_line, field_line, particle_line, end_line};

use crate::amounts::Energies;
use pic_grid::{Bound, EndMark, Phase, Stop};
use pic_num::{Axis, Text, What};
use std::marker::Model;

/// Room for the longest line.
const LINE_BYTES: usize = 320;

/// A line of a report, its line feed included. Contracts see its bytes.
#[derive(Drop)]
pub struct Line {
    text: Text<LINE_BYTES>,
}

impl Model for Line {
    ghost use Rattle.std.specs.Prelude.{List, ℕ};

    ghost Value = { List ℕ };

    ghost view = { λ l. l.text };
}

impl Line {
    /// The bytes of the line, its line feed included.
    pub fn bytes(&self) -> &[u8]
        ensures { result.now ≡ self.now }
    {
        self.text.bytes()
    }
}

/// The line of a frame: its step and its energies.
#[tactic(auto, unfolding(crate::specs::Line::frame_line))]
pub fn frame_line(step: u32, energies: Energies) -> Line
    ensures { result ≡ frame_line step energies }
{
    let mut text = Text::<LINE_BYTES>::new();
    text.push(b"frame ");
    text.push_decimal(u128::from(step));
    text.push(b" kinetic ");
    text.push_decimal(energies.kinetic);
    text.push(b" electric ");
    text.push_decimal(energies.electric);
    text.push(b" magnetic ");
    text.push_decimal(energies.magnetic);
    text.push(b"\n");
    Line { text }
}

/// The last line of a run: that it is done, or what stopped it in which step.
#[tactic(auto, unfolding(crate::specs::Line::end_line))]
pub fn end_line(end: EndMark) -> Line
    ensures { result ≡ end_line end }
{
    let text = match end {
        EndMark::Done { steps } => done_text(steps),
        EndMark::Stopped {
            step,
            stop: Stop::Field {
                phase,
                bound,
                axis,
                cell,
                value,
            },
        } => field_text(step, phase, bound, axis, cell, value),
        EndMark::Stopped {
            step,
            stop: Stop::Push {
                id,
                what,
                axis,
                value,
            },
        } => particle_text(step, id, what, axis, value),
    };
    Line { text }
}

// The line of a run that is done.
#[tactic(auto, unfolding(crate::specs::Line::done_line))]
fn done_text(steps: u32) -> Text<LINE_BYTES>
    ensures { result ≡ done_line steps }
{
    let mut text = Text::new();
    text.push(b"done ");
    text.push_decimal(u128::from(steps));
    text.push(b"\n");
    text
}

// The line of a run that a field value stopped.
#[tactic(auto, unfolding(crate::specs::Line::field_line))]
fn field_text(
    step: u32,
    phase: Phase,
    bound: Bound,
    axis: Axis,
    cell: [u32; 3],
    value: i128,
) -> Text<LINE_BYTES>
    ensures { result ≡ field_line step phase bound axis (triple cell) value }
{
    let [x, y, z] = cell;
    let mut text = Text::new();
    text.push(b"stopped ");
    text.push_decimal(u128::from(step));
    text.push(b" field ");
    text.push(phase_word(phase));
    text.push(b" ");
    text.push(bound_word(bound));
    text.push(b" ");
    text.push_decimal(u128::from(axis.number()));
    text.push(b" ");
    text.push_decimal(u128::from(x));
    text.push(b" ");
    text.push_decimal(u128::from(y));
    text.push(b" ");
    text.push_decimal(u128::from(z));
    text.push(b" ");
    text.push_signed(value);
    text.push(b"\n");
    text
}

// The line of a run that the push of a particle stopped.
#[tactic(auto, unfolding(crate::specs::Line::particle_line))]
fn particle_text(step: u32, id: u32, what: What, axis: Axis, value: i128) -> Text<LINE_BYTES>
    ensures { result ≡ particle_line step id what axis value }
{
    let mut text = Text::new();
    text.push(b"stopped ");
    text.push_decimal(u128::from(step));
    text.push(b" particle ");
    text.push_decimal(u128::from(id));
    text.push(b" ");
    text.push(what_word(what));
    text.push(b" ");
    text.push_decimal(u128::from(axis.number()));
    text.push(b" ");
    text.push_signed(value);
    text.push(b"\n");
    text
}

#[tactic(auto, unfolding(crate::specs::Line::phase_word))]
fn phase_word(phase: Phase) -> &'static [u8]
    ensures word { result.now ≡ phase_word phase }
    ensures len { length result.now ≤ 8 }
{
    match phase {
        Phase::Half1 => b"half1",
        Phase::Half2 => b"half2",
        Phase::Electric => b"electric",
    }
}

#[tactic(auto, unfolding(crate::specs::Line::bound_word))]
fn bound_word(bound: Bound) -> &'static [u8]
    ensures word { result.now ≡ bound_word bound }
    ensures len { length result.now ≤ 8 }
{
    match bound {
        Bound::Value => b"value",
        Bound::Force => b"force",
    }
}

#[tactic(auto, unfolding(crate::specs::Line::what_word))]
fn what_word(what: What) -> &'static [u8]
    ensures word { result.now ≡ what_word what }
    ensures len { length result.now ≤ 8 }
{
    match what {
        What::Speed => b"speed",
        What::Turn => b"turn",
        What::Far => b"far",
    }
}
