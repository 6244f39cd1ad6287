//! A frame of a dump, put in pieces.

ghost use Rattle.std.specs.Prelude.{◌≡◌, ◌+◌, ◌*◌, ◌≤◌, [], ◌++◌, length, map};
ghost use Rattle.std.specs.List.{range_with_len};
ghost use Rattle.pic_io.specs.Told.{HasCause};
ghost use Rattle.pic_io.specs.Sink.{Puts};
ghost use Rattle.pic_num.specs.Limits.{most_cells_of_axis};
ghost use Rattle.pic_num.specs.Space.{triple, spot};
ghost use Rattle.pic_record.specs.RecordText.{start_bytes, values_bytes, position_bytes, velocity_bytes, particle_bytes};
ghost use Rattle.pic_record.specs.RecordText.{particles_bytes, energies_bytes, state_bytes, frame_bytes};
ghost use Rattle.pic_record.specs.Queues.{Queues};

use crate::frame_buffer::{FrameBuffer, make_room};
use pic_block::Place;
use pic_energy::Energies;
use pic_grid::{Lattice, Snapshot};
use pic_io::{Failed, Sink};
use pic_num::Particle;

const VALUE_BYTES: usize = 16;

const PARTICLE_BYTES: usize = 24;

const ENERGIES_BYTES: usize = 48;

/// Puts a frame: its step, E and B in the order of places, the particles, and the energies. It is put
/// in pieces of up to 65536 bytes, and takes no memory.
///
/// The particles' identities are 0, 1, 2 and so on in their order. `Failed` comes only where the
/// count of faults rose, and then a front of the frame was put.
pub fn put_frame<O: Sink>(
    out: &mut O,
    step: u32,
    state: &Snapshot,
    energies: Energies,
) -> Result<(), Failed>
    requires { map (λ particle. particle.id) state.now.particles.items
        ≡ range_with_len 0 (length state.now.particles.items) }
    ensures bytes { Puts (O.told out.old) (O.told out.new)
        (frame_bytes step state.now.e state.now.b state.now.particles.items energies) result }
    ensures cause { HasCause (O.told out.old) (O.told out.new) result }
{
    let mut room = start(step);
    put_state(out, &mut room, state)?;
    put_end_of_frame(out, &mut room, energies)
}

// A room with the start of a frame.
#[tactic(auto, unfolding(crate::specs::RecordText::start_bytes))]
fn start(step: u32) -> FrameBuffer
    ensures { result ≡ start_bytes step }
{
    let mut room = FrameBuffer::new();
    room.push(b"F");
    room.push_u32(step);
    room
}

// The fields and the particles.
fn put_state<O: Sink>(out: &mut O, room: &mut FrameBuffer, state: &Snapshot) -> Result<(), Failed>
    ensures bytes { Queues (O.told out.old) (O.told out.new) room.old room.new
        (state_bytes state.now.e state.now.b state.now.particles.items) result }
    ensures cause { HasCause (O.told out.old) (O.told out.new) result }
{
    put_values(out, room, &state.e)?;
    put_values(out, room, &state.b)?;
    put_particles(out, room, &state.particles)
}

// The values of a field, run by run in the order of places.
fn put_values<O: Sink>(out: &mut O, room: &mut FrameBuffer, field: &Lattice) -> Result<(), Failed>
    ensures bytes { Queues (O.told out.old) (O.told out.new) room.old room.new
        (values_bytes field.now.values) result }
    ensures cause { HasCause (O.told out.old) (O.told out.new) result }
{
    let cells = field.cells();
    let all = 3 * cells.count() as usize;
    let size = cells.numbers();
    let mut done = 0;
    let mut place = Place::first();
    while done < all {
        let run = field.run(place.axis, place.inner);
        put_run(out, room, run)?;
        done += run.len();
        place = place.behind_run(run.len(), size);
    }
    Ok(())
}

// The values of a run, which the buffer has room for.
fn put_run<O: Sink>(out: &mut O, room: &mut FrameBuffer, run: &[i128]) -> Result<(), Failed>
    requires { length run.now ≤ most_cells_of_axis }
    ensures bytes { Queues (O.told out.old) (O.told out.new) room.old room.new
        (values_bytes run.now) result }
    ensures cause { HasCause (O.told out.old) (O.told out.new) result }
{
    make_room(out, room, VALUE_BYTES * run.len())?;
    push_values(room, run);
    Ok(())
}

fn push_values(room: &mut FrameBuffer, run: &[i128])
    requires { length room.old + 16 * length run.now ≤ 65536 }
    ensures { room.new ≡ room.old ++ values_bytes run.now }
{
    for value in run {
        room.push_i128(*value);
    }
}

// The particles, in their order.
fn put_particles<O: Sink>(
    out: &mut O,
    room: &mut FrameBuffer,
    particles: &[Particle],
) -> Result<(), Failed>
    ensures bytes { Queues (O.told out.old) (O.told out.new) room.old room.new
        (particles_bytes particles.now) result }
    ensures cause { HasCause (O.told out.old) (O.told out.new) result }
{
    for particle in particles {
        put_particle(out, room, particle)?;
    }
    Ok(())
}

fn put_particle<O: Sink>(
    out: &mut O,
    room: &mut FrameBuffer,
    particle: &Particle,
) -> Result<(), Failed>
    ensures bytes { Queues (O.told out.old) (O.told out.new) room.old room.new
        (particle_bytes particle.now) result }
    ensures cause { HasCause (O.told out.old) (O.told out.new) result }
{
    make_room(out, room, PARTICLE_BYTES)?;
    push_particle(room, particle);
    Ok(())
}

#[tactic(auto, unfolding(crate::specs::RecordText::particle_bytes))]
fn push_particle(room: &mut FrameBuffer, particle: &Particle)
    requires { length room.old + 24 ≤ 65536 }
    ensures { room.new ≡ room.old ++ particle_bytes particle.now }
{
    push_position(room, particle.x);
    push_velocity(room, particle.v);
}

#[tactic(auto, unfolding(crate::specs::RecordText::position_bytes))]
fn push_position(room: &mut FrameBuffer, at: [u32; 3])
    requires { length room.old + 12 ≤ 65536 }
    ensures bytes { room.new ≡ room.old ++ position_bytes (triple at) }
    ensures len { length room.new ≡ length room.old + 12 }
{
    let [x, y, z] = at;
    room.push_u32(x);
    room.push_u32(y);
    room.push_u32(z);
}

#[tactic(auto, unfolding(crate::specs::RecordText::velocity_bytes))]
fn push_velocity(room: &mut FrameBuffer, v: [i32; 3])
    requires { length room.old + 12 ≤ 65536 }
    ensures bytes { room.new ≡ room.old ++ velocity_bytes (spot v) }
    ensures len { length room.new ≡ length room.old + 12 }
{
    let [x, y, z] = v;
    room.push_i32(x);
    room.push_i32(y);
    room.push_i32(z);
}

// The energies, and with them all that waits.
fn put_end_of_frame<O: Sink>(
    out: &mut O,
    room: &mut FrameBuffer,
    energies: Energies,
) -> Result<(), Failed>
    ensures bytes { Puts (O.told out.old) (O.told out.new)
        (room.old ++ energies_bytes energies) result }
    ensures cause { HasCause (O.told out.old) (O.told out.new) result }
{
    make_room(out, room, ENERGIES_BYTES)?;
    push_energies(room, energies);
    out.put(room.bytes())
}

#[tactic(auto, unfolding(crate::specs::RecordText::energies_bytes))]
fn push_energies(room: &mut FrameBuffer, energies: Energies)
    requires { length room.old + 48 ≤ 65536 }
    ensures { room.new ≡ room.old ++ energies_bytes energies }
{
    room.push_u128(energies.kinetic);
    room.push_u128(energies.electric);
    room.push_u128(energies.magnetic);
}
