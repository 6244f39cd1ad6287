//! The sums of energies over particles and field values.

ghost use Rattle.std.specs.Prelude.{◌≡◌, ◌*◌, ◌^◌, ◌<◌, ◌≤◌, All, length};
ghost use Rattle.pic_num.specs.Limits.{most_mass, most_particles, most_value, most_force, most_cells_of_axis};
ghost use Rattle.pic_num.specs.Rounding.{scaled};
ghost use Rattle.pic_num.specs.Sizes.{IsAtMost};
ghost use Rattle.pic_num.specs.Space.{spot};
ghost use Rattle.pic_grid.specs.PushPhase.{kind_of};
ghost use Rattle.pic_energy.specs.Energies.{square_of, speed_square, kinetic_of, kinetic_sum, square_sum, energies_of, HasMass, IsOfKinds, IsBounded};

use crate::amounts::Energies;
use pic_block::Place;
use pic_grid::{Lattice, Snapshot};
use pic_num::{Kind, Mult, Particle, Scales, scale};

/// The energies of a state: kinetic is the sum of mass times the square of the velocity over the
/// particles, electric the sum of the squares of E's force values, magnetic the same of B.
///
/// Each particle is of one of the kinds, whose masses are 1 to 65536, and there are at most 4194304
/// particles. Each value of E and B is at most 2^90 in size, and its force value at most 2^44.
pub fn energies(scales: &Scales, kinds: &[Kind], state: &Snapshot) -> Energies
    requires species { All (IsOfKinds kinds.now) state.now.particles.items }
    requires masses { All HasMass kinds.now }
    requires few { length state.now.particles.items ≤ most_particles }
    requires e_bounded { IsBounded scales.now.e_force state.now.e }
    requires b_bounded { IsBounded scales.now.b_force state.now.b }
    ensures { result ≡ energies_of scales.now kinds.now state.now.e state.now.b
        state.now.particles.items }
{
    Energies {
        kinetic: kinetic(kinds, &state.particles),
        electric: squares(scales.e_force, &state.e),
        magnetic: squares(scales.b_force, &state.b),
    }
}

// The kinetic energy of all particles.
fn kinetic(kinds: &[Kind], particles: &[Particle]) -> u128
    requires species { All (IsOfKinds kinds.now) particles.now }
    requires masses { All HasMass kinds.now }
    requires few { length particles.now ≤ most_particles }
    ensures { result ≡ kinetic_sum kinds.now particles.now }
{
    let mut total = 0u128;
    for particle in particles {
        let part = kinetic_part(kinds, particle);
        total += part;
    }
    total
}

// The kinetic energy of one particle.
#[tactic(auto, unfolding(crate::specs::Energies::kinetic_of))]
fn kinetic_part(kinds: &[Kind], particle: &Particle) -> u128
    requires species { IsOfKinds kinds.now particle.now }
    requires masses { All HasMass kinds.now }
    ensures value { result ≡ kinetic_of kinds.now particle.now }
    ensures most { result ≤ 2 ^ 80 }
{
    u128::from(mass_of(kinds, particle)) * speed_square(particle.v)
}

// The mass of a particle.
fn mass_of(kinds: &[Kind], particle: &Particle) -> u32
    requires species { IsOfKinds kinds.now particle.now }
    requires masses { All HasMass kinds.now }
    ensures value { result ≡ (kind_of kinds.now particle.now).mass }
    ensures most { result ≤ most_mass }
{
    kinds[usize::from(particle.species)].mass
}

// The square of a velocity.
fn speed_square(v: [i32; 3]) -> u128
    ensures value { result ≡ speed_square (spot v) }
    ensures most { result ≤ 3 * 2 ^ 62 }
{
    let [x, y, z] = v;
    component_square(x) + component_square(y) + component_square(z)
}

// The square of a velocity's component.
#[tactic(auto, unfolding(crate::specs::Energies::square_of))]
fn component_square(v: i32) -> u128
    ensures value { result ≡ square_of v }
    ensures most { result ≤ 2 ^ 62 }
{
    let size = u128::from(v.unsigned_abs());
    size * size
}

// The sum of the squares of a field's force values, run by run.
fn squares(by: Mult, field: &Lattice) -> u128
    requires { IsBounded by field.now }
    ensures { result ≡ square_sum by field.now.values }
{
    let cells = field.cells();
    let all = 3 * cells.count() as usize;
    let size = cells.numbers();
    let mut total = 0u128;
    let mut done = 0;
    let mut place = Place::first();
    while done < all {
        let run = field.run(place.axis, place.inner);
        let part = squares_of(by, run);
        total += part;
        done += run.len();
        place = place.behind_run(run.len(), size);
    }
    total
}

// The sum of the squares of the force values of a run.
fn squares_of(by: Mult, run: &[i128]) -> u128
    requires few { length run.now ≤ most_cells_of_axis }
    requires values { All (λ v. IsAtMost v most_value) run.now }
    requires forces { All (λ v. IsAtMost (scaled v by) most_force) run.now }
    ensures value { result ≡ square_sum by run.now }
    ensures most { result ≤ length run.now * 2 ^ 88 }
{
    let mut total = 0u128;
    for value in run {
        let part = square(scale(*value, by));
        total += part;
    }
    total
}

// The square of a number.
#[tactic(auto, unfolding(crate::specs::Energies::square_of))]
fn square(value: i128) -> u128
    requires { IsAtMost value most_force }
    ensures value { result ≡ square_of value }
    ensures most { result ≤ 2 ^ 88 }
{
    let size = value.unsigned_abs();
    size * size
}
