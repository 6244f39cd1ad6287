//! The particles of a deck, species by species.

ghost use Rattle.std.specs.Prelude.{◌≡◌, ℕ, pos, ◌+◌, ◌+ℤ◌, ◌*◌, ◌%◌, ◌^◌, ◌<◌, ◌≤◌, ◌++◌, ◌∷◌, [], length, slice_index, slice_index_or, IfOk, OnOk};
ghost use Rattle.std.specs.List.{All};
ghost use Rattle.pic_num.specs.declared.axis.Axis.{Axis};
ghost use Rattle.pic_num.specs.Limits.{most_side};
ghost use Rattle.pic_num.specs.Rounding.{residue};
ghost use Rattle.pic_num.specs.Sizes.{IsAtMost};
ghost use Rattle.pic_num.specs.Space.{triple, spot, along};
ghost use Rattle.pic_deck.specs.Deck.{most_extent};
ghost use Rattle.pic_block.specs.Cells.{Grid, cell_of};
ghost use Rattle.pic_grid.specs.Hat.{IsInBox};
ghost use Rattle.pic_deck.specs.Species.{ArePoints, IsFilledFrom, fastest, most_particles, most_species, no_point, particles_of};
ghost use Rattle.pic_load.specs.Drawing.{IsSpread};
ghost use Rattle.pic_load.specs.Generator.{after};
ghost use Rattle.pic_load.specs.Loading.{loaded_particle, no_particle, site, at_site, drawn, beside, moved};
ghost use Rattle.pic_load.specs.Loading.{displaced, first_of_species, particles_in, loaded, IsPlaced, AreLoaded};

use crate::drawing::{draw_place, draw_velocity};
use pic_deck::{Deck, Fill, Point6, Species, Terms, extent, particles_of};
use pic_grid::Cells;
use pic_num::{NoMemory, Particle, wrap};
use rand_pcg::Pcg32;
use std::alloc::Global;

// adds a particle of a species
fn add(particles: &mut Vec<Particle>, species: u8, x: [u32; 3], v: [i32; 3]) -> Result<(), NoMemory>
    requires { length particles.old.items < 2 ^ 32 }
    ensures { OnOk result (particles.new.items ≡ particles.old.items
        ++ loaded_particle (length particles.old.items) species (record { x = x; v = v }) ∷ []) }
{
    let id = particles.len() as u32;
    particles.push(Particle { id, species, x, v })?;
    Ok(())
}

// adds particles that are given one by one
fn load_points(
    particles: &mut Vec<Particle>,
    species: u8,
    points: &[Point6],
) -> Result<(), NoMemory>
    requires { length particles.old.items + length points.now ≤ most_particles }
    ensures value { OnOk result (particles.new.items ≡ particles.old.items
        ++ first_of_species (length particles.old.items) species
        (λ i. slice_index_or points.now i no_point) (length points.now)) }
    ensures placed { (grid : Grid) (m : ℕ) → species < m → ArePoints grid points.now
        → All (IsPlaced grid m) particles.old.items
        → OnOk result (All (IsPlaced grid m) particles.new.items) }
{
    for point in points {
        add(particles, species, point.x, point.v)?;
    }
    Ok(())
}

fn site_on(first: u32, gap: u32, at: u32, len: u32) -> u32
    requires some { 1 ≤ len }
    requires most { len ≤ most_extent }
    ensures value { result ≡ (first + at * gap) % len }
    ensures below { result < len }
{
    ((u64::from(first) + u64::from(at) * u64::from(gap)) % u64::from(len)) as u32
}

// the cell of a number in a lattice of so many
fn number_in(count: [u32; 3], number: u32) -> [u32; 3]
    requires { (k : ℕ) → k < 3 → 1 ≤ slice_index count k }
    ensures { triple result ≡ cell_of (triple count) number }
{
    let [x, y, _] = count;
    [number % x, number / x % y, number / x / y]
}

fn site(cells: Cells, first: [u32; 3], gap: [u32; 3], at: [u32; 3]) -> [u32; 3]
    ensures value { result ≡ site cells (triple first) (triple gap) (triple at) }
    ensures within { IsInBox cells.side cells.n (triple result) }
{
    let [x_len, y_len, z_len] = extent(cells);
    let x = site_on(first[0], gap[0], at[0], x_len);
    let y = site_on(first[1], gap[1], at[1], y_len);
    let z = site_on(first[2], gap[2], at[2], z_len);
    [x, y, z]
}

// the numbers of a lattice that a deck says
#[derive(Clone, Copy)]
struct Sites {
    first: [u32; 3],
    gap: [u32; 3],
    count: [u32; 3],
    v: [i32; 3],
}

// adds the first so many particles of a lattice
fn load_lattice(
    particles: &mut Vec<Particle>,
    species: u8,
    cells: Cells,
    sites: Sites,
    total: u32,
) -> Result<(), NoMemory>
    requires few { length particles.old.items + total ≤ most_particles }
    requires some { (k : ℕ) → k < 3 → 1 ≤ slice_index sites.count k }
    ensures value { OnOk result (particles.new.items ≡ particles.old.items
        ++ first_of_species (length particles.old.items) species
        (at_site cells sites.first sites.gap sites.count sites.v) total) }
    ensures placed { (m : ℕ) → species < m
        → ((a : Axis) → IsAtMost (along a (spot sites.v)) (fastest cells.side))
        → All (IsPlaced cells m) particles.old.items
        → OnOk result (All (IsPlaced cells m) particles.new.items) }
{
    for i in 0..total {
        let at = number_in(sites.count, i);
        add(
            particles,
            species,
            site(cells, sites.first, sites.gap, at),
            sites.v,
        )?;
    }
    Ok(())
}

// the mean of the velocities that a deck says, and their spread
#[derive(Clone, Copy)]
struct Spread {
    drift: [i32; 3],
    width: [u32; 3],
}

// adds so many particles at random places
fn load_random(
    particles: &mut Vec<Particle>,
    species: u8,
    cells: Cells,
    total: u32,
    rng: &mut Pcg32,
    spread: Spread,
) -> Result<(), NoMemory>
    requires few { length particles.old.items + total ≤ most_particles }
    requires spread { IsSpread most_side spread.drift spread.width }
    ensures value { OnOk result (particles.new.items ≡ particles.old.items
        ++ first_of_species (length particles.old.items) species
        (λ i. drawn cells spread.drift spread.width (after (39 * i) rng.old)) total) }
    ensures placed { (m : ℕ) → species < m → IsSpread cells.side spread.drift spread.width
        → All (IsPlaced cells m) particles.old.items
        → OnOk result (All (IsPlaced cells m) particles.new.items) }
{
    for _ in 0..total {
        let x = draw_place(rng, cells);
        let v = draw_velocity(rng, spread.drift, spread.width);
        add(particles, species, x, v)?;
    }
    Ok(())
}

// adds so many particles where others stand, those from an identity on
fn load_pair(
    particles: &mut Vec<Particle>,
    species: u8,
    start: usize,
    total: u32,
    rng: &mut Pcg32,
    spread: Spread,
) -> Result<(), NoMemory>
    requires few { length particles.old.items + total ≤ most_particles }
    requires others { start + total ≤ length particles.old.items }
    requires spread { IsSpread most_side spread.drift spread.width }
    ensures value { OnOk result (particles.new.items ≡ particles.old.items
        ++ first_of_species (length particles.old.items) species
        (λ i. beside (slice_index_or particles.old.items (start + i) no_particle)
        spread.drift spread.width (after (36 * i) rng.old)) total) }
    ensures placed { (grid : Grid) (m : ℕ) → species < m
        → IsSpread grid.side spread.drift spread.width → All (IsPlaced grid m) particles.old.items
        → OnOk result (All (IsPlaced grid m) particles.new.items) }
{
    for i in 0..total {
        let other = particles[start + i as usize];
        let own = draw_velocity(rng, spread.drift, spread.width);
        add(particles, species, other.x, own)?;
    }
    Ok(())
}

fn moved_on(from: u32, by: i32, len: u32) -> u32
    requires some { 1 ≤ len }
    requires most { len ≤ most_extent }
    ensures value { result ≡ residue (pos from +ℤ by) len }
    ensures below { result < len }
{
    wrap(i64::from(from) + i64::from(by), len)
}

// where a way from a position leads
fn moved(cells: Cells, from: [u32; 3], by: [i32; 3]) -> [u32; 3]
    ensures value { result ≡ moved cells (triple from) (spot by) }
    ensures within { IsInBox cells.side cells.n (triple result) }
{
    let [x_len, y_len, z_len] = extent(cells);
    let x = moved_on(from[0], by[0], x_len);
    let y = moved_on(from[1], by[1], y_len);
    let z = moved_on(from[2], by[2], z_len);
    [x, y, z]
}

// how far the particles of a species stand from those of another one, and their velocity
#[derive(Clone, Copy)]
struct Displacement {
    by: [i32; 3],
    v: [i32; 3],
}

// adds so many particles beside others, those from an identity on
fn load_displaced(
    particles: &mut Vec<Particle>,
    species: u8,
    cells: Cells,
    start: usize,
    total: u32,
    displacement: Displacement,
) -> Result<(), NoMemory>
    requires few { length particles.old.items + total ≤ most_particles }
    requires others { start + total ≤ length particles.old.items }
    ensures value { OnOk result (particles.new.items ≡ particles.old.items
        ++ first_of_species (length particles.old.items) species
        (λ i. displaced cells (slice_index_or particles.old.items (start + i) no_particle)
        displacement.by displacement.v) total) }
    ensures placed { (m : ℕ) → species < m
        → ((a : Axis) → IsAtMost (along a (spot displacement.v)) (fastest cells.side))
        → All (IsPlaced cells m) particles.old.items
        → OnOk result (All (IsPlaced cells m) particles.new.items) }
{
    for i in 0..total {
        let from = particles[start + i as usize].x;
        let x = moved(cells, from, displacement.by);
        add(particles, species, x, displacement.v)?;
    }
    Ok(())
}

// adds the particles of the next species
fn load_species(
    particles: &mut Vec<Particle>,
    terms: Terms,
    earlier: &[Species],
    species: &Species,
) -> Result<(), NoMemory>
    requires number { length earlier.now < most_species }
    requires count { length particles.old.items ≡ particles_of earlier.now }
    requires few { particles_of earlier.now + species.now.count ≤ most_particles }
    requires side { terms.grid.side ≤ most_side }
    requires filled { IsFilledFrom terms earlier.now species.now }
    ensures value { OnOk result (particles.new.items ≡ particles.old.items
        ++ particles_in terms.grid earlier.now particles.old.items species.now) }
    ensures placed { (m : ℕ) → length earlier.now < m
        → All (IsPlaced terms.grid m) particles.old.items
        → OnOk result (All (IsPlaced terms.grid m) particles.new.items) }
{
    let number = earlier.len() as u8;
    let cells = terms.cells();
    let total = species.count;
    match &species.fill {
        Fill::Points(points) => load_points(particles, number, points.as_slice()),
        Fill::Lattice {
            first,
            gap,
            count,
            v,
        } => {
            let sites = Sites {
                first: *first,
                gap: *gap,
                count: *count,
                v: *v,
            };
            load_lattice(particles, number, cells, sites, total)
        }
        Fill::Random {
            seed,
            stream,
            drift,
            spread,
            ..
        } => {
            let mut rng = Pcg32::new(*seed, *stream);
            let wide = Spread {
                drift: *drift,
                width: *spread,
            };
            load_random(particles, number, cells, total, &mut rng, wide)
        }
        Fill::Pair {
            of,
            seed,
            stream,
            drift,
            spread,
        } => {
            let start = particles_of(&earlier[..*of as usize]);
            let mut own = Pcg32::new(*seed, *stream);
            let wide = Spread {
                drift: *drift,
                width: *spread,
            };
            load_pair(particles, number, start, total, &mut own, wide)
        }
        Fill::Displace { of, by, v } => {
            let from = particles_of(&earlier[..*of as usize]);
            let displacement = Displacement { by: *by, v: *v };
            load_displaced(particles, number, cells, from, total, displacement)
        }
    }
}

/// The particles of a deck: the species in the deck's order, with the identities 0, 1, 2 and so on.
/// All room is taken first.
pub fn load(alloc: Global, deck: &Deck) -> Result<Vec<Particle>, NoMemory>
    ensures value { IfOk result (λ ps. ps.items ≡ loaded deck.now) }
    ensures limits { IfOk result (λ ps. AreLoaded deck.now ps.items) }
{
    let terms = deck.terms();
    let all = deck.species();
    let mut particles = Vec::with_capacity(alloc, deck.particles())?;
    for number in 0..all.len() {
        load_species(&mut particles, terms, &all[..number], &all[number])?;
    }
    Ok(particles)
}
