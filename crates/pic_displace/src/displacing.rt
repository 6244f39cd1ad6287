//! The E of the displaced start.

ghost use Rattle.std.specs.Prelude.{◌≡◌, ◌≤◌, length, codes, false, Ok};
ghost use Rattle.std.specs.List.{All};
ghost use Rattle.pic_num.specs.declared.axis.Axis.{Axis as AxisName};
ghost use Rattle.pic_num.specs.Limits.{most_flux_of, most_particles, most_value};
ghost use Rattle.pic_num.specs.Sizes.{IsAtMost};
ghost use Rattle.pic_num.specs.Space.{Triple};
ghost use Rattle.pic_block.specs.Block.{IsShaped, AllAtMost};
ghost use Rattle.pic_block.specs.Cells.{IsWithin};
ghost use Rattle.pic_grid.specs.Lattice.{field_of, value_at};
ghost use Rattle.pic_flux.specs.Adds.{Adds};
ghost use Rattle.pic_walk.specs.Path.{key_at};
ghost use Rattle.pic_deck.specs.Deck.{initial_e};
ghost use Rattle.pic_deck.specs.Species.{particles_of};
ghost use Rattle.pic_load.specs.Loading.{loaded, AreLoaded};
ghost use Rattle.pic_ways.specs.Room.{HasRoom};
ghost use Rattle.pic_ways.specs.Way.{IsWithinLimits, flux_of_ways};
ghost use Rattle.pic_displace.specs.Displace.{is_displacement, has_displaced, way_of, IsOfSpecies};
ghost use Rattle.pic_displace.specs.Displace.{displaced_e, BecomesDisplaced, e_allowed, Refuses, Displaces};

use crate::fault::DisplaceFault;
use pic_block::Block;
use pic_deck::{Deck, Fill, KeyPath, Refusal, Species, first_strong, particles_of};
use pic_grid::{Cells, Lattice};
use pic_num::{MAX_FORCE, Mult, Particle};
use pic_walk::Address;
use pic_ways::{Way, WayRoom, add_way, take_current_off};
use std::alloc::Global;

/// Whether a species is displaced from another.
fn is_displaced(one: &Species) -> bool
    ensures { result ≡ is_displacement one.now.fill }
{
    match &one.fill {
        Fill::Points(_) | Fill::Lattice { .. } => false,
        Fill::Random { .. } | Fill::Pair { .. } => false,
        Fill::Displace { .. } => true,
    }
}

/// Whether one of some species is displaced from another.
fn has_displaced(species: &[Species]) -> bool
    ensures { result ≡ has_displaced species.now }
{
    species.iter().any(|one| is_displaced(one))
}

/// The way of a particle of these species, if it is displaced: from the particle of the same index of
/// the species that is named.
#[tactic(auto, unfolding(crate::specs::Displace::way_of))]
fn way_of(species: &[Species], particles: &[Particle], particle: &Particle) -> Option<Way>
    requires few { particles_of species.now ≤ most_particles }
    requires of { IsOfSpecies species.now particles.now particle.now }
    ensures { result ≡ way_of species.now particles.now particle.now }
{
    let number = particle.species as usize;
    let own = &species[number];
    match &own.fill {
        Fill::Points(_) | Fill::Lattice { .. } => None,
        Fill::Random { .. } | Fill::Pair { .. } => None,
        Fill::Displace { of, by, .. } => {
            let index = particle.id as usize - particles_of(&species[..number]);
            let named = particles[particles_of(&species[..*of as usize]) + index];
            let from = named.x;
            Some(Way {
                charge: own.kind.charge,
                from,
                by: *by,
            })
        }
    }
}

/// Adds the flux of the ways of all displaced particles to a block of zeros.
fn add_ways(cells: Cells, species: &[Species], particles: &[Particle], to: &mut Block)
    requires few { particles_of species.now ≤ most_particles }
    requires count { length particles.now ≤ most_particles }
    requires of { All (IsOfSpecies species.now particles.now) particles.now }
    requires ways { All (λ x. IsWithinLimits cells.side cells.n
        (way_of species.now particles.now x)) particles.now }
    requires zeros { AllAtMost 0 to.old }
    ensures shape { IsShaped to.old to.new }
    ensures values { Adds to.old to.new
        (flux_of_ways cells.side (way_of species.now particles.now) particles.now) }
    ensures small { AllAtMost (most_flux_of most_particles) to.new }
{
    for particle in particles {
        match way_of(species, particles, particle) {
            None => (),
            Some(way) => add_way(cells, &way, to),
        }
    }
}

/// Makes E, the one that a deck begins with, that of its displaced start.
fn displace_in(room: WayRoom, deck: &Deck, particles: &[Particle], e: &mut Lattice)
    requires room { HasRoom deck.now.cells deck.now.filter room }
    requires loaded { particles.now ≡ loaded deck.now }
    requires limits { AreLoaded deck.now particles.now }
    requires e { e.old ≡ field_of e.old.side deck.now.cells e.old.parts (initial_e deck.now) }
    ensures displaced { BecomesDisplaced deck.now particles.now e.old e.new }
    ensures small { (a : AxisName) (p : Triple) → IsWithin p deck.now.cells
        → IsAtMost (displaced_e deck.now particles.now a p) most_value }
{
    let cells = deck.cells();
    let mut room = room;
    add_ways(cells, deck.species(), particles, &mut room.flux);
    let WayRoom { flux, smoothing } = room;
    take_current_off(cells, &flux, smoothing, e);
}

/// Refuses an E that has a force value above 2^44 in size, by that of the least place, with the path of
/// the key.
fn check_force(by: Mult, path: KeyPath, e: &Lattice) -> Result<(), DisplaceFault>
    requires path { path ≡ key_at (codes "scale") (codes "e_force") }
    requires small { (a : AxisName) (p : Triple) → IsWithin p e.now.cells
        → IsAtMost (value_at e.now a p) most_value }
    ensures { Refuses (e_allowed e.now.cells by (value_at e.now)) result }
{
    match first_strong(by, e) {
        None => Ok(()),
        Some(value) => Err(DisplaceFault::Refused(Refusal::Limit {
            path,
            value,
            low: -(MAX_FORCE as i128),
            high: MAX_FORCE as i128,
        })),
    }
}

/// Makes the E that a deck begins with that of its displaced start: less the current of the ways from
/// the particles that are named to those that are displaced from them, which is filtered where that of
/// a step is. The list is that of `load`. A force value above 2^44 in size is refused as a limit of
/// `scale.e_force`, that of the least place. All memory is taken first, and given back; after want of it
/// E is as before, and after any other answer it is that of the displaced start. A deck without displaced
/// species takes none, and changes nothing.
pub fn displace(
    alloc: Global,
    deck: &Deck,
    particles: &[Particle],
    e: &mut Lattice,
) -> Result<(), DisplaceFault>
    requires loaded { particles.now ≡ loaded deck.now }
    requires limits { AreLoaded deck.now particles.now }
    requires e { e.old ≡ field_of e.old.side deck.now.cells e.old.parts (initial_e deck.now) }
    ensures displaces { Displaces deck.now particles.now e.old e.new result }
    ensures none { has_displaced deck.now.species ≡ false → (result ≡ Ok tt) × (e.new ≡ e.old) }
{
    if !has_displaced(deck.species()) {
        return Ok(());
    }
    let path = Address::new("scale", "e_force").path(alloc)?;
    let room = WayRoom::new(alloc, deck.cells(), deck.filter())?;
    displace_in(room, deck, particles, e);
    check_force(deck.scales().e_force, path, e)
}
