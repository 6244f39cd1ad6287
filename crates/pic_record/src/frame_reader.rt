//! A frame of a dump, read.

ghost use Rattle.std.specs.Prelude.{◌≡◌, pos, ◌-ℤ◌, ◌+◌, ◌-◌, ◌*◌, ◌<◌, ◌≤◌, ◌^◌, All, length, sum, nat_eq, IfOk, OnOk};
ghost use Rattle.pic_num.specs.Limits.{most_side, most_cells_of_axis};
ghost use Rattle.pic_num.specs.Velocity.{too_fast};
ghost use Rattle.pic_num.specs.Space.{triple};
ghost use Rattle.pic_grid.specs.Hat.{IsInBox};
ghost use Rattle.pic_fields.specs.Causes.{cause_number};
ghost use Rattle.pic_fields.specs.Reads.{Reads, always, as_it_is};
ghost use Rattle.pic_energy.specs.Energies.{IsOfKinds};
ghost use Rattle.pic_record.specs.Fields.{is_below, below, the_step};
ghost use Rattle.pic_record.specs.FrameFields.{coordinate_at, position_at, velocity_at, speed_at, particle_with, particle_at, particles_at};
ghost use Rattle.pic_record.specs.FrameFields.{energy_at, energies_at, frame_of, frame_at, frame_length, IsSameShape, IsBoxed, IsHeld};
ghost use Rattle.pic_record.specs.Parts.{ReadsPart, FirstAreHeld};

use crate::field_reader::read_field;
use crate::layout::{Layout, species_at};
use crate::part::Part;
use pic_energy::{Energies, energies};
use pic_fields::{Ahead, Cause, ReadStop, fill, read_between, read_u32, read_u128};
use pic_grid::{Cells, Snapshot};
use pic_io::Source;
use pic_num::{Particle, VELOCITY_UNIT};

/// How many particles a piece of 65536 bytes has at most.
const PARTICLES_OF_A_PIECE: u32 = 2730;

// Reads a number below another; a fault is of this cause.
pub(crate) fn read_below<S: Source>(
    source: &mut S,
    place: u64,
    cause: Cause,
    limit: u32,
) -> Result<u32, ReadStop>
    requires { place + 4 < 2 ^ 63 }
    ensures reads { Reads as_it_is (below (cause_number cause) limit) place (place + 4)
        (S.told source.old) (S.told source.new) result }
    ensures below { IfOk result (λ n. n < limit) }
{
    let n = read_u32(source, place)?;
    if !is_below(limit, n) {
        return Err(cause.at(place));
    }
    Ok(n)
}

fn is_below(limit: u32, n: u32) -> bool
    ensures { result ≡ is_below limit n }
{
    n < limit
}

// Reads a position on an axis of so many cells of this side.
fn read_coordinate<S: Source>(
    source: &mut S,
    place: u64,
    side: u32,
    cells: u32,
) -> Result<u32, ReadStop>
    requires place { place + 4 < 2 ^ 63 }
    requires side { side ≤ most_side }
    requires cells { cells ≤ most_cells_of_axis }
    ensures reads { Reads as_it_is (coordinate_at side cells) place (place + 4) (S.told source.old)
        (S.told source.new) result }
    ensures below { IfOk result (λ x. x < cells * side) }
{
    read_below(source, place, Cause::OutOfRange, cells * side)
}

fn read_position<S: Source>(source: &mut S, place: u64, cells: Cells) -> Result<[u32; 3], ReadStop>
    requires { place + 12 < 2 ^ 63 }
    ensures reads { Reads as_it_is (position_at cells.side cells.n) place (place + 12)
        (S.told source.old) (S.told source.new) result }
    ensures inside { IfOk result (λ x. IsInBox cells.side cells.n (triple x)) }
{
    let y_place = place + 4;
    let z_place = y_place + 4;
    let [nx, ny, nz] = cells.numbers();
    let side = cells.sub().side();
    let x = read_coordinate(source, place, side, nx)?;
    let y = read_coordinate(source, y_place, side, ny)?;
    let z = read_coordinate(source, z_place, side, nz)?;
    Ok([x, y, z])
}

// Reads a velocity that a push with cells of this side keeps.
fn read_speed<S: Source>(source: &mut S, place: u64, side: u32) -> Result<i32, ReadStop>
    requires place { place + 4 < 2 ^ 63 }
    requires side { side ≤ most_side }
    ensures { Reads as_it_is (speed_at side) place (place + 4) (S.told source.old)
        (S.told source.new) result }
{
    let low = slowest(side);
    let high = fastest(side);
    read_between(source, place, Cause::OutOfRange, low, high)
}

// The least speed that leads further than a cell of this side.
fn too_fast(side: u32) -> i32
    requires { side ≤ most_side }
    ensures value { result ≡ pos (too_fast side) }
    ensures most { too_fast side < 2 ^ 30 }
{
    (VELOCITY_UNIT * side + VELOCITY_UNIT / 2) as i32
}

// The least and the greatest velocity that a push with cells of this side keeps.
fn slowest(side: u32) -> i32
    requires { side ≤ most_side }
    ensures { result ≡ pos 0 -ℤ pos (too_fast side) }
{
    -too_fast(side)
}

fn fastest(side: u32) -> i32
    requires { side ≤ most_side }
    ensures { result ≡ pos (too_fast side - 1) }
{
    too_fast(side) - 1
}

fn read_velocity<S: Source>(source: &mut S, place: u64, side: u32) -> Result<[i32; 3], ReadStop>
    requires place { place + 12 < 2 ^ 63 }
    requires side { side ≤ most_side }
    ensures { Reads as_it_is (velocity_at side) place (place + 12) (S.told source.old)
        (S.told source.new) result }
{
    let y_place = place + 4;
    let z_place = y_place + 4;
    let x = read_speed(source, place, side)?;
    let y = read_speed(source, y_place, side)?;
    let z = read_speed(source, z_place, side)?;
    Ok([x, y, z])
}

// Reads the particle of an identity.
fn read_particle<S: Source>(
    source: &mut S,
    place: u64,
    layout: &Layout,
    id: u32,
) -> Result<Particle, ReadStop>
    requires place { place + 24 < 2 ^ 63 }
    requires id { id < sum layout.now.counts }
    ensures reads { Reads as_it_is (particle_with layout.now id) place (place + 24)
        (S.told source.old) (S.told source.new) result }
    ensures species { IfOk result (λ p. IsOfKinds layout.now.kinds p) }
    ensures place { IfOk result (λ p. IsBoxed layout.now.side layout.now.cells p) }
{
    let velocity_place = place + 12;
    let species = species_at(layout.counts(), id);
    let x = read_position(source, place, layout.cells())?;
    let v = read_velocity(source, velocity_place, layout.side())?;
    Ok(Particle { id, species, x, v })
}

// Reads so many particles, behind the first ones.
fn read_some_particles<S: Source>(
    source: &mut S,
    place: u64,
    layout: &Layout,
    particles: &mut [Particle],
    part: Part,
) -> Result<(), ReadStop>
    requires place { place + 24 * part.count < 2 ^ 63 }
    requires end { part.first + part.count < 2 ^ 32 }
    requires count { part.first + part.count ≤ sum layout.now.counts }
    requires length { length particles.old ≡ sum layout.now.counts }
    requires held { FirstAreHeld layout.now part.first particles.old }
    ensures part { ReadsPart (particle_at layout.now) 24 part.first part.count place
        (S.told source.old) (S.told source.new) particles.old particles.new result }
    ensures held { OnOk result (FirstAreHeld layout.now (part.first + part.count) particles.new) }
{
    for index in 0..part.count {
        let id = part.first + index;
        let particle = read_particle(source, place + 24 * index as u64, layout, id)?;
        particles[id as usize] = particle;
    }
    Ok(())
}

// Takes a piece of the particles into the room, and reads these.
fn read_piece_of_particles<S: Source>(
    source: &mut S,
    room: &mut [u8],
    place: u64,
    layout: &Layout,
    particles: &mut [Particle],
    part: Part,
) -> Result<(), ReadStop>
    requires room { length room.old ≡ 24 * part.count }
    requires place { place + 24 * part.count < 2 ^ 63 }
    requires end { part.first + part.count < 2 ^ 32 }
    requires count { part.first + part.count ≤ sum layout.now.counts }
    requires length { length particles.old ≡ sum layout.now.counts }
    requires held { FirstAreHeld layout.now part.first particles.old }
    ensures part { ReadsPart (particle_at layout.now) 24 part.first part.count place
        (S.told source.old) (S.told source.new) particles.old particles.new result }
    ensures held { OnOk result (FirstAreHeld layout.now (part.first + part.count) particles.new) }
{
    let taken = fill(source, room)?;
    let mut piece = Ahead::new(&room[..taken]);
    read_some_particles(&mut piece, place, layout, particles, part)
}

// Reads the particles, in pieces of up to 65520 bytes.
fn read_particles<S: Source>(
    source: &mut S,
    place: u64,
    layout: &Layout,
    particles: &mut [Particle],
) -> Result<(), ReadStop>
    requires place { place + 2 ^ 29 < 2 ^ 63 }
    requires count { length particles.old ≡ sum layout.now.counts }
    ensures reads { Reads (always particles.new) (particles_at layout.now) place
        (place + 24 * sum layout.now.counts)
        (S.told source.old) (S.told source.new) result }
    ensures length { length particles.new ≡ length particles.old }
    ensures species { OnOk result (All (IsOfKinds layout.now.kinds) particles.new) }
    ensures places { OnOk result (All (IsBoxed layout.now.side layout.now.cells) particles.new) }
{
    let all = layout.particles();
    let mut room = [0u8; 65536];
    let mut first = 0u32;
    while first < all {
        let count = PARTICLES_OF_A_PIECE.min(all - first);
        let at = place + 24 * first as u64;
        let part = Part { first, count };
        let piece = &mut room[..24 * count as usize];
        read_piece_of_particles(source, piece, at, layout, particles, part)?;
        first += count;
    }
    Ok(())
}

// Reads an energy, which has to be this one.
fn read_energy<S: Source>(source: &mut S, place: u64, want: u128) -> Result<u128, ReadStop>
    requires { place + 16 < 2 ^ 63 }
    ensures { Reads as_it_is (energy_at want) place (place + 16) (S.told source.old)
        (S.told source.new) result }
{
    let energy = read_u128(source, place)?;
    if !is_same(want, energy) {
        return Err(Cause::WrongEnergy.at(place));
    }
    Ok(energy)
}

fn is_same(want: u128, energy: u128) -> bool
    ensures { result ≡ nat_eq want energy }
{
    want == energy
}

fn read_energies<S: Source>(
    source: &mut S,
    place: u64,
    want: Energies,
) -> Result<Energies, ReadStop>
    requires { place + 48 < 2 ^ 63 }
    ensures { Reads as_it_is (energies_at want) place (place + 48) (S.told source.old)
        (S.told source.new) result }
{
    let electric_place = place + 16;
    let magnetic_place = electric_place + 16;
    let kinetic = read_energy(source, place, want.kinetic)?;
    let electric = read_energy(source, electric_place, want.electric)?;
    let magnetic = read_energy(source, magnetic_place, want.magnetic)?;
    Ok(Energies {
        kinetic,
        electric,
        magnetic,
    })
}

// Takes the energies as one piece, and reads them.
fn read_piece_of_energies<S: Source>(
    source: &mut S,
    place: u64,
    want: Energies,
) -> Result<Energies, ReadStop>
    requires { place + 48 < 2 ^ 63 }
    ensures { Reads as_it_is (energies_at want) place (place + 48) (S.told source.old)
        (S.told source.new) result }
{
    let mut room = [0u8; 48];
    let taken = fill(source, &mut room)?;
    let mut piece = Ahead::new(&room[..taken]);
    read_energies(&mut piece, place, want)
}

// Reads a step, which has to be this one.
pub(crate) fn read_step<S: Source>(source: &mut S, place: u64, want: u32) -> Result<u32, ReadStop>
    requires { place + 4 < 2 ^ 63 }
    ensures { Reads as_it_is (the_step want) place (place + 4) (S.told source.old)
        (S.told source.new) result }
{
    let step = read_u32(source, place)?;
    if !is_same_step(want, step) {
        return Err(Cause::WrongStep.at(place));
    }
    Ok(step)
}

fn is_same_step(want: u32, step: u32) -> bool
    ensures { result ≡ nat_eq want step }
{
    want == step
}

/// Reads the frame of the step that is due, behind its mark, and answers its energies: the step, E, B,
/// the particles and the energies are taken each by itself, in pieces of up to 65536 bytes.
pub fn read_frame<S: Source>(
    source: &mut S,
    place: u64,
    layout: &Layout,
    due: u32,
    state: &mut Snapshot,
) -> Result<Energies, ReadStop>
    requires place { place + 2 ^ 30 < 2 ^ 63 }
    requires e { state.old.e.cells ≡ layout.now.cells }
    requires b { state.old.b.cells ≡ layout.now.cells }
    requires particles { length state.old.particles.items ≡ sum layout.now.counts }
    ensures reads { Reads (frame_of due state.new.e.values state.new.b.values
        state.new.particles.items) (frame_at layout.now due)
        place (place + frame_length layout.now) (S.told source.old) (S.told source.new) result }
    ensures held { OnOk result (IsHeld layout.now state.new.e state.new.b
        state.new.particles.items) }
    ensures e { IsSameShape state.old.e state.new.e }
    ensures b { IsSameShape state.old.b state.new.b }
    ensures particles { length state.new.particles.items ≡ length state.old.particles.items }
{
    let values = 3 * u64::from(layout.cells().count());
    let e_place = place + 4;
    let b_place = e_place + 16 * values;
    let particles_place = b_place + 16 * values;
    let energies_place = particles_place + 24 * u64::from(layout.particles());
    read_step(source, place, due)?;
    read_field(source, e_place, layout.scales().e_force, &mut state.e)?;
    read_field(source, b_place, layout.scales().b_force, &mut state.b)?;
    read_particles(
        source,
        particles_place,
        layout,
        state.particles.as_mut_slice(),
    )?;
    let want = energies(layout.scales(), layout.kinds(), state);
    read_piece_of_energies(source, energies_place, want)
}
