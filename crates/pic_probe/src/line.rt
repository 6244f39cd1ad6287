//! The line of a state, put.

ghost use Rattle.std.specs.Prelude.{◌≡◌, ◌+◌, ◌*◌, ◌<◌, ◌≤◌, ◌++◌, All, codes, length, map, flat_map};
ghost use Rattle.std.specs.Fmt.{signed_decimal};
ghost use Rattle.std.specs.List.{range_with_len};
ghost use Rattle.pic_num.specs.Space.{triple};
ghost use Rattle.pic_io.specs.Told.{HasCause};
ghost use Rattle.pic_io.specs.Sink.{Puts};
ghost use Rattle.pic_grid.specs.Lattice.{value_at};
ghost use Rattle.pic_devices.specs.Probes.{IsPlace, AreProbes, most_places, most_ids};
ghost use Rattle.pic_probe.specs.ProbeLine.{value_of, particle_with, track_of, probe_line};

use pic_devices::{MAX_IDS, MAX_PLACES, Place, Probes};
use pic_grid::Snapshot;
use pic_io::{Failed, Sink};
use pic_num::{Particle, Text};

/// Room for a column: a space, and the digits of a number with its sign.
const COLUMN_BYTES: usize = 41;

/// Room for the columns of a particle: its position and its velocity.
const TRACK_BYTES: usize = 6 * COLUMN_BYTES;

/// Room for the step and the values of all places.
const VALUES_BYTES: usize = COLUMN_BYTES * (1 + MAX_PLACES as usize);

/// Room for the longest line, its line feed included.
const LINE_BYTES: usize = VALUES_BYTES + TRACK_BYTES * MAX_IDS as usize + 1;

/// Puts the line of a state: its step, the value of each place, and the position and the velocity of each
/// identity's particle, in plain decimal, with a space between and a line feed at the end. It is one put,
/// and takes no memory.
///
/// The probes are within a deck's limits for the state, whose particles have the identities 0, 1, 2 and so
/// on in their order. `Failed` comes only where the count of faults rose.
pub fn put_line<O: Sink>(
    out: &mut O,
    probes: &Probes,
    step: u32,
    state: &Snapshot,
) -> Result<(), Failed>
    requires probes { AreProbes state.now.e.cells (length state.now.particles.items) probes.now }
    requires cells { state.now.b.cells ≡ state.now.e.cells }
    requires identities { map (λ particle. particle.id) state.now.particles.items
        ≡ range_with_len 0 (length state.now.particles.items) }
    ensures bytes { Puts (O.told out.old) (O.told out.new)
        (probe_line probes.now step (value_at state.now.e) (value_at state.now.b)
        state.now.particles.items) result }
    ensures cause { HasCause (O.told out.old) (O.told out.new) result }
{
    let mut text = Text::<LINE_BYTES>::new();
    text.push_decimal(u128::from(step));
    push_places(&mut text, probes.places.as_slice(), state);
    push_tracks(&mut text, probes.ids.as_slice(), &state.particles);
    text.push(b"\n");
    out.put(text.bytes())
}

// Appends the values of some places.
fn push_places(text: &mut Text<LINE_BYTES>, places: &[Place], state: &Snapshot)
    requires places { All (IsPlace state.now.e.cells) places.now }
    requires cells { state.now.b.cells ≡ state.now.e.cells }
    requires few { length places.now ≤ most_places }
    requires room { length text.old ≤ COLUMN_BYTES }
    ensures bytes { text.new ≡ text.old ++ flat_map
        (λ p. codes " "
        ++ signed_decimal (value_of (value_at state.now.e) (value_at state.now.b) p))
        places.now }
    ensures len { length text.new ≤ length text.old + COLUMN_BYTES * length places.now }
{
    for place in places {
        let value = value_of(state, *place);
        push_column(text, value);
    }
}

// The value of a place.
#[tactic(auto, unfolding(crate::specs::ProbeLine::value_of))]
fn value_of(state: &Snapshot, place: Place) -> i128
    requires place { IsPlace state.now.e.cells place }
    requires cells { state.now.b.cells ≡ state.now.e.cells }
    ensures { result ≡ value_of (value_at state.now.e) (value_at state.now.b) place }
{
    if place.field == 0 {
        state.e.at(place.axis, place.cell)
    } else {
        state.b.at(place.axis, place.cell)
    }
}

// Appends the positions and velocities of the particles with some identities.
fn push_tracks(text: &mut Text<LINE_BYTES>, ids: &[u32], particles: &[Particle])
    requires ids { All (λ id. id < length particles.now) ids.now }
    requires identities { map (λ particle. particle.id) particles.now
        ≡ range_with_len 0 (length particles.now) }
    requires few { length ids.now ≤ most_ids }
    requires room { length text.old ≤ VALUES_BYTES }
    ensures bytes { text.new ≡ text.old ++ flat_map
        (λ id. flat_map (λ column. codes " " ++ column) (track_of (particle_with particles.now id)))
        ids.now }
    ensures len { length text.new ≤ length text.old + TRACK_BYTES * length ids.now }
{
    for id in ids {
        push_track(text, &particles[*id as usize]);
    }
}

// Appends the position and the velocity of a particle.
fn push_track(text: &mut Text<LINE_BYTES>, particle: &Particle)
    requires { length text.old + TRACK_BYTES ≤ LINE_BYTES }
    ensures bytes { text.new ≡ text.old ++ flat_map (λ column. codes " " ++ column)
        (track_of particle.now) }
    ensures len { length text.new ≤ length text.old + TRACK_BYTES }
{
    let [x, y, z] = particle.x;
    let [vx, vy, vz] = particle.v;
    push_column(text, i128::from(x));
    push_column(text, i128::from(y));
    push_column(text, i128::from(z));
    push_column(text, i128::from(vx));
    push_column(text, i128::from(vy));
    push_column(text, i128::from(vz));
}

// Appends a number behind a space.
fn push_column(text: &mut Text<LINE_BYTES>, number: i128)
    requires { length text.old + COLUMN_BYTES ≤ LINE_BYTES }
    ensures bytes { text.new ≡ text.old ++ (codes " " ++ signed_decimal number) }
    ensures len { length text.new ≤ length text.old + COLUMN_BYTES }
{
    text.push_byte(b' ');
    text.push_signed(number);
}
