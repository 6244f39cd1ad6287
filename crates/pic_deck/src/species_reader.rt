//! The tables `species` of a deck.

ghost use Rattle.std.specs.Prelude.{◌≡◌, ℕ, pos, ◌+◌, ◌^◌, ◌<◌, ◌≤◌, List, [], None, map, codes, length, IfOk, OnOk};
ghost use Rattle.toml.specs.View.{view, array_view, table_view};
ghost use Rattle.pic_num.specs.declared.motion.Kind.{Kind as KindView};
ghost use Rattle.pic_grid.specs.Species.{IsKind, AreHeads};
ghost use Rattle.pic_num.specs.Limits.{most_species, most_particles, allowance_of};
ghost use Rattle.pic_walk.specs.Path.{path_of};
ghost use Rattle.pic_walk.specs.Limits.{from_to};
ghost use Rattle.pic_walk.specs.Walk.{WalksAs, within, each, table_of, optional};
ghost use Rattle.pic_deck.specs.declared.species.Species.{Species as SpeciesView};
ghost use Rattle.pic_deck.specs.Species.{IsNext, AreFilled, filled_count, particles_of, head_of};
ghost use Rattle.pic_deck.specs.Keys.{species_keys, species_kind, counted, species_in, one_species, species_list};

use crate::fill_reader::read_fill;
use crate::naming::need_name;
use crate::species::{Fill, Species, SpeciesList};
use pic_num::{Kind, MAX_CHARGE, MAX_MASS, MAX_SPECIES, MIN_CHARGE, allowance_of};
use pic_walk::{
    Address, Limits, Terms, WalkStop, check_within, find_value, need_multiplier, need_number,
    need_whole, read_elements, read_table,
};
use std::alloc::Global;
use toml::value::Array;
use toml::{Table, Value};

const KEYS_1: [&str; 9] = [
    "name", "charge", "mass", "kick", "turn", "points", "lattice", "random", "pair",
];

const KEYS: [&str; 10] = [
    "name", "charge", "mass", "kick", "turn", "points", "lattice", "random", "pair", "displace",
];

// the keys of a species in a deck of a version
fn species_keys(version: u32) -> &'static [&'static str]
    ensures { map (λ k. k.now) result.now ≡ species_keys version }
{
    if version == 1 { &KEYS_1 } else { &KEYS }
}

// what the particles of a species have in common
fn read_kind(alloc: Global, path: &str, table: &Table) -> Result<Kind, WalkStop>
    ensures walks { WalksAs (λ (k : KindView). k) (species_kind path.now (table_view table.now))
        result }
    ensures limits { IfOk result (λ k. IsKind k) }
{
    let charge = need_number(
        alloc,
        path,
        "charge",
        table,
        Limits::new(MIN_CHARGE as i64, MAX_CHARGE as i64),
    )?;
    let mass = need_whole(alloc, path, "mass", table, Limits::new(1, MAX_MASS as i64))?;
    let kick = need_multiplier(alloc, path, "kick", table)?;
    let turn = need_multiplier(alloc, path, "turn", table)?;
    Ok(Kind {
        charge: charge as i32,
        mass,
        kick,
        turn,
    })
}

/// How many particles some species have.
pub fn particles_of(species: &[Species]) -> usize
    requires { particles_of species.now ≤ most_particles }
    ensures { result ≡ particles_of species.now }
{
    let mut total = 0;
    for one in species {
        total += one.count as usize;
    }
    total
}

// refuses a species with whose particles there are too many
fn check_particles(
    alloc: Global,
    address: Address<'_>,
    terms: Terms,
    earlier: &[Species],
    count: u128,
) -> Result<(), WalkStop>
    requires few { particles_of earlier.now ≤ (allowance_of terms.version).particles }
    requires size { count < 2 ^ 96 }
    ensures walks { WalksAs (λ _. pos (particles_of earlier.now + count))
        (within (from_to (pos 0) (pos (allowance_of terms.version).particles))
        (path_of address.entry) (pos (particles_of earlier.now + count))) result }
    ensures few { OnOk result (particles_of earlier.now + count
        ≤ (allowance_of terms.version).particles) }
{
    let before = particles_of(earlier) as i128;
    let more = count as i128;
    let limits = Limits::from_to(0, allowance_of(terms.version()).particles);
    check_within(alloc, address, before + more, limits)
}

// how many particles a species has, with which there aren't too many
fn read_count(
    alloc: Global,
    address: Address<'_>,
    terms: Terms,
    earlier: &[Species],
    fill: &Fill,
) -> Result<u32, WalkStop>
    requires { particles_of earlier.now ≤ (allowance_of terms.version).particles }
    ensures walks { WalksAs (λ (n : ℕ). n)
        (counted terms.version earlier.now (path_of address.entry) fill.now)
        result }
    ensures count { IfOk result (λ n. n ≡ filled_count earlier.now fill.now) }
    ensures few { IfOk result (λ n. particles_of earlier.now + n
        ≤ (allowance_of terms.version).particles) }
{
    let count = fill.count(earlier);
    check_particles(alloc, address, terms, earlier, count)?;
    Ok(count as u32)
}

// the species that the table at an address is, after earlier ones
fn species_in(
    alloc: Global,
    address: Address<'_>,
    path: &str,
    table: &Table,
    terms: Terms,
    earlier: &[Species],
) -> Result<Species, WalkStop>
    requires path { path_of address ≡ path.now }
    requires heads { AreHeads (allowance_of terms.version).particles (map head_of earlier.now) }
    ensures walks { WalksAs (λ (s : SpeciesView). s)
        (species_in terms earlier.now path.now (table_view table.now)) result }
    ensures limits { IfOk result (λ s. IsNext terms earlier.now s) }
{
    let name = need_name(alloc, path, table, earlier)?;
    let kind = read_kind(alloc, path, table)?;
    let fill = read_fill(alloc, path, table, terms, earlier, kind.charge)?;
    let count = read_count(alloc, address, terms, earlier, &fill)?;
    Ok(Species {
        name,
        kind,
        count,
        fill,
    })
}

// the species at an address, after earlier ones
fn read_species(
    alloc: Global,
    address: Address<'_>,
    value: &Value,
    terms: Terms,
    earlier: &[Species],
) -> Result<Species, WalkStop>
    requires { AreHeads (allowance_of terms.version).particles (map head_of earlier.now) }
    ensures walks { WalksAs (λ (s : SpeciesView). s)
        (one_species terms earlier.now (path_of address.entry) (view value.now)) result }
    ensures limits { IfOk result (λ s. IsNext terms earlier.now s) }
{
    let path = address.path(alloc)?;
    let keys = species_keys(terms.version());
    let table = read_table(alloc, address, path.as_str(), keys, value)?;
    species_in(alloc, address, path.as_str(), table, terms, earlier)
}

// the species at an address, one by one
fn read_each_species(
    alloc: Global,
    address: Address<'_>,
    items: &Array,
    terms: Terms,
) -> Result<Vec<Species>, WalkStop>
    requires whole { address.row ≡ None }
    requires plain { address.column ≡ None }
    requires few { length items.now.items ≤ most_species }
    ensures walks { WalksAs (λ ss. ss.items)
        (each (one_species terms) (path_of address.entry) [] (array_view items.now)) result }
    ensures heads { IfOk result (λ ss. AreHeads (allowance_of terms.version).particles
        (map head_of ss.items)) }
    ensures filled { IfOk result (λ ss. AreFilled terms ss.items) }
{
    let mut all = Vec::new(alloc);
    for i in 0..items.len() {
        let species = read_species(alloc, address.element(i), &items[i], terms, all.as_slice())?;
        all.push(species)?;
    }
    Ok(all)
}

// the array of species
fn read_all_species(alloc: Global, value: &Value, terms: Terms) -> Result<SpeciesList, WalkStop>
    ensures walks { WalksAs (λ (ss : List SpeciesView). ss)
        (species_list terms (codes "species") (view value.now)) result }
    ensures heads { IfOk result (λ ss. AreHeads (allowance_of terms.version).particles
        (map head_of ss)) }
    ensures filled { IfOk result (λ ss. AreFilled terms ss) }
{
    let address = Address::new("", "species");
    let items = read_elements(alloc, address, value)?;
    check_within(
        alloc,
        address,
        items.len() as i128,
        Limits::new(0, MAX_SPECIES as i64),
    )?;
    let species = read_each_species(alloc, address, items, terms)?;
    Ok(SpeciesList::from_vec(species))
}

/// The species of a deck, none where it has no key `species`.
pub(crate) fn optional_species(
    alloc: Global,
    table: &Table,
    terms: Terms,
) -> Result<SpeciesList, WalkStop>
    ensures walks { WalksAs (λ (ss : List SpeciesView). ss)
        (optional [] (species_list terms) (codes "species") [] (table_view table.now)) result }
    ensures heads { IfOk result (λ ss. AreHeads (allowance_of terms.version).particles
        (map head_of ss)) }
    ensures filled { IfOk result (λ ss. AreFilled terms ss) }
{
    match find_value("species", table) {
        Some(value) => read_all_species(alloc, value, terms),
        None => Ok(SpeciesList::from_vec(Vec::new(alloc))),
    }
}
