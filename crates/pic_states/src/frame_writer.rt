//! What a run puts of its states and of its end.

ghost use Rattle.std.specs.Prelude.{◌≡◌, ◌≤◌, [], ◌∷◌, map, Ok};
ghost use Rattle.pic_io.specs.Told.{Told};
ghost use Rattle.pic_io.specs.Sinks.{sinks, Writes};
ghost use Rattle.pic_tile.specs.InOrder.{AreOrdered};
ghost use Rattle.pic_step.specs.Shown.{Shows};
ghost use Rattle.pic_step.specs.Sound.{IsSound};
ghost use Rattle.pic_states.specs.declared.output.Output.TheVariants as put;
ghost use Rattle.pic_states.specs.Frames.{frame_piece, due_state, energies_in, end_piece};
ghost use Rattle.pic_states.specs.Rooms.{CanLook, CanPut, HasShape, HoldsState};

use crate::output::{Output, Plan};
use pic_devices::Probes;
use pic_dump::{is_due, put_end, put_frame};
use pic_energy::{Energies, end_line, energies, frame_line};
use pic_grid::{EndMark, Snapshot};
use pic_io::{Failed, Side, Sink};
use pic_report::{put_line, put_out};
use pic_step::State;

/// Writes the frame of a state, where it is due. What the room held is lost; its shape stays.
pub fn write_due<O: Sink, R: Sink>(
    plan: &Plan,
    out: &mut O,
    report: &mut R,
    state: &State,
    room: &mut Snapshot,
) -> Result<(), Side>
    requires every { 1 ≤ plan.now.every }
    requires room { HasShape room.old state.now.world }
    requires probes { CanPut plan.now.output state.now.world }
    requires look { CanLook plan.now.output room.old state.now.followed }
    ensures writes { Writes (sinks (O.told out.old) (R.told report.old))
        (sinks (O.told out.new) (R.told report.new))
        (map (frame_piece plan.now.output)
        (due_state plan.now.steps plan.now.every (Ok state.now.world))) result }
    ensures room { HasShape room.new state.now.world }
    ensures look { CanLook plan.now.output room.new state.now.followed }
{
    if is_due(plan.steps, plan.every, state.step_number()) {
        write_frame(&plan.output, out, report, state, room)
    } else {
        Ok(())
    }
}

/// Writes the frame of a state. What the room held is lost; its shape stays.
pub fn write_frame<O: Sink, R: Sink>(
    output: &Output,
    out: &mut O,
    report: &mut R,
    state: &State,
    room: &mut Snapshot,
) -> Result<(), Side>
    requires room { HasShape room.old state.now.world }
    requires probes { CanPut output.now state.now.world }
    requires look { CanLook output.now room.old state.now.followed }
    ensures writes { Writes (sinks (O.told out.old) (R.told report.old))
        (sinks (O.told out.new) (R.told report.new))
        (frame_piece output.now state.now.world ∷ []) result }
    ensures room { HasShape room.new state.now.world }
    ensures look { CanLook output.now room.new state.now.followed }
{
    match output {
        Output::Dump => {
            state.fill(room);
            put_record(out, report, state, room)
        }
        Output::Lines => {
            state.fill(room);
            put_summary(out, state, room)
        }
        Output::Probe(probes) => {
            state.look(probes, room);
            put_sight(out, probes, state, room)
        }
    }
}

// Puts the record of a state that stands in the room, and its line.
fn put_record<O: Sink, R: Sink>(
    out: &mut O,
    report: &mut R,
    state: &State,
    room: &Snapshot,
) -> Result<(), Side>
    requires { HoldsState room.now state.now.world }
    ensures { Writes (sinks (O.told out.old) (R.told report.old))
        (sinks (O.told out.new) (R.told report.new))
        (frame_piece put.Dump state.now.world ∷ []) result }
{
    let step = state.step_number();
    let energies = energies_in(state, room);
    match put_frame(out, step, room, energies) {
        Ok(()) => put_line(report, frame_line(step, energies).bytes()),
        Err(Failed) => Err(Side::Out), // and no line follows
    }
}

// Puts the line of a state that stands in the room.
fn put_summary<O: Sink>(out: &mut O, state: &State, room: &Snapshot) -> Result<(), Side>
    requires { HoldsState room.now state.now.world }
    ensures { (r : Told) → Writes (sinks (O.told out.old) r) (sinks (O.told out.new) r)
        (frame_piece put.Lines state.now.world ∷ []) result }
{
    let line = frame_line(state.step_number(), energies_in(state, room));
    put_out(out, line.bytes())
}

// Puts what the probes see of a state, which the room shows.
fn put_sight<O: Sink>(
    out: &mut O,
    probes: &Probes,
    state: &State,
    room: &Snapshot,
) -> Result<(), Side>
    requires room { HasShape room.now state.now.world }
    requires probes { CanPut (put.Probe probes.now) state.now.world }
    requires ordered { AreOrdered room.now.particles.items }
    requires shows { Shows probes.now room.now state.now.world }
    ensures { (r : Told) → Writes (sinks (O.told out.old) r) (sinks (O.told out.new) r)
        (frame_piece (put.Probe probes.now) state.now.world ∷ []) result }
{
    let _cells = state.cells();
    match pic_probe::put_line(out, probes, state.step_number(), room) {
        Ok(()) => Ok(()),
        Err(Failed) => Err(Side::Out),
    }
}

// The energies of a state that stands in the room.
fn energies_in(state: &State, room: &Snapshot) -> Energies
    requires { HoldsState room.now state.now.world }
    ensures value { result ≡ energies_in state.now.world }
    ensures sound { IsSound state.now.world }
{
    let _cells = state.cells();
    energies(&state.scales(), state.kinds(), room)
}

/// Writes the end of a run.
pub fn put_last<O: Sink, R: Sink>(
    output: &Output,
    out: &mut O,
    report: &mut R,
    end: EndMark,
) -> Result<(), Side>
    ensures { Writes (sinks (O.told out.old) (R.told report.old))
        (sinks (O.told out.new) (R.told report.new))
        (end_piece output.now end ∷ []) result }
{
    let line = end_line(end);
    let text = line.bytes();
    match output {
        Output::Dump => match put_end(out, end) {
            Ok(()) => put_line(report, text),
            Err(Failed) => Err(Side::Out),
        },
        Output::Lines => put_out(out, text),
        Output::Probe(_) => put_out(out, text),
    }
}
