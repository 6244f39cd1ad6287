//! What fills a species: the tables `lattice`, `random`, `pair` and `displace` beside the array `points`.

ghost use Rattle.std.specs.Prelude.{◌≡◌, ◌<◌, ◌≤◌, ℕ, neg_ℤ, None, codes, position, bytes_eq, length, IfOk, OnOk};
ghost use Rattle.toml.specs.View.{view, table_view};
ghost use Rattle.pic_num.specs.Limits.{most_species, allowance_of};
ghost use Rattle.pic_walk.specs.Path.{key_at, path_of};
ghost use Rattle.pic_walk.specs.declared.displacement.Displacement.{Displacement as DisplacementView};
ghost use Rattle.pic_walk.specs.declared.draw.Draw.{Draw as DrawView};
ghost use Rattle.pic_walk.specs.declared.sites.Sites.{Sites as SitesView};
ghost use Rattle.pic_walk.specs.Displacement.{IsDisplacement};
ghost use Rattle.pic_walk.specs.Draw.{IsDraw};
ghost use Rattle.pic_walk.specs.Sites.{AreSites};
ghost use Rattle.pic_walk.specs.Walk.{WalksAs, need};
ghost use Rattle.pic_deck.specs.declared.species.Fill.{Fill as FillView};
ghost use Rattle.pic_deck.specs.Fill.{lattice, random, species_number, pair, opposite, displaced, at_sites, at_random, in_pairs, beside_others, species_fill};
ghost use Rattle.pic_deck.specs.Species.{IsFill, IsOpposite, species_at};

use crate::species::{Fill, Species};
use pic_num::allowance_of;
use pic_walk::{
    Address, Displacement, Draw, FillKind, Limits, Sites, Terms, WalkStop, check_within,
    find_fill_kind, need_whole, needed_value, read_displacement, read_draw, read_points,
    read_sites, read_table, read_text,
};
use std::alloc::Global;
use toml::{Table, Value};

// the sites of a lattice
fn read_lattice(
    alloc: Global,
    address: Address<'_>,
    value: &Value,
    terms: Terms,
) -> Result<Sites, WalkStop>
    ensures walks { WalksAs (λ (s : SitesView). s)
        (lattice terms (path_of address.entry) (view value.now)) result }
    ensures limits { IfOk result (λ s. AreSites terms s) }
{
    let path = address.path(alloc)?;
    let keys = ["first", "gap", "count", "v"];
    let table = read_table(alloc, address, path.as_str(), &keys, value)?;
    read_sites(alloc, path.as_str(), table, terms)
}

// how many particles at random places, and how they are drawn
fn read_random(
    alloc: Global,
    address: Address<'_>,
    value: &Value,
    terms: Terms,
) -> Result<(u32, Draw), WalkStop>
    ensures walks { WalksAs (λ (r : ℕ × DrawView). r)
        (random terms (path_of address.entry) (view value.now)) result }
    ensures count { IfOk result (λ r. r.0 ≤ (allowance_of terms.version).particles) }
    ensures draw { IfOk result (λ r. IsDraw terms.grid.side r.1) }
{
    let path = address.path(alloc)?;
    let keys = ["count", "seed", "stream", "drift", "spread"];
    let table = read_table(alloc, address, path.as_str(), &keys, value)?;
    let limits = Limits::from_to(0, allowance_of(terms.version()).particles);
    let count = need_whole(alloc, path.as_str(), "count", table, limits)?;
    let draw = read_draw(alloc, path.as_str(), table, terms.cells())?;
    Ok((count, draw))
}

// the number of the species of this name
fn number_of(species: &[Species], text: &str) -> Option<usize>
    ensures { result ≡ position (λ o. bytes_eq o.name text.now) species.now }
{
    let name = text.as_bytes();
    species.iter().position(|one| one.name.as_slice() == name)
}

// the number of the earlier species that is named at an address
fn read_species_number(
    alloc: Global,
    address: Address<'_>,
    value: &Value,
    earlier: &[Species],
) -> Result<usize, WalkStop>
    ensures walks { WalksAs (λ (n : ℕ). n)
        (species_number earlier.now (path_of address.entry) (view value.now)) result }
    ensures below { IfOk result (λ n. n < length earlier.now) }
{
    let text = read_text(alloc, address, value)?;
    match number_of(earlier, text) {
        Some(number) => Ok(number),
        None => Err(address.name_fault(alloc)),
    }
}

fn need_species_number(
    alloc: Global,
    path: &str,
    table: &Table,
    earlier: &[Species],
) -> Result<usize, WalkStop>
    ensures walks { WalksAs (λ (n : ℕ). n)
        (need (species_number earlier.now) (codes "of") path.now (table_view table.now)) result }
    ensures below { IfOk result (λ n. n < length earlier.now) }
{
    let value = needed_value(alloc, path, "of", table)?;
    read_species_number(alloc, Address::new(path, "of"), value, earlier)
}

// the earlier species where whose particles others stand, and how their velocities are drawn
fn read_pair(
    alloc: Global,
    address: Address<'_>,
    value: &Value,
    terms: Terms,
    earlier: &[Species],
) -> Result<(u32, Draw), WalkStop>
    requires { length earlier.now ≤ most_species }
    ensures walks { WalksAs (λ (r : ℕ × DrawView). r)
        (pair terms earlier.now (path_of address.entry) (view value.now)) result }
    ensures below { IfOk result (λ r. r.0 < length earlier.now) }
    ensures draw { IfOk result (λ r. IsDraw terms.grid.side r.1) }
{
    let path = address.path(alloc)?;
    let keys = ["of", "seed", "stream", "drift", "spread"];
    let table = read_table(alloc, address, path.as_str(), &keys, value)?;
    let number = need_species_number(alloc, path.as_str(), table, earlier)?;
    let draw = read_draw(alloc, path.as_str(), table, terms.cells())?;
    Ok((number as u32, draw))
}

// refuses the charge of the species at a path unless it is minus that of another one
fn check_opposite(alloc: Global, path: &str, other: &Species, charge: i32) -> Result<(), WalkStop>
    ensures walks { WalksAs (λ _. charge) (opposite path.now other.now.kind.charge charge) result }
    ensures is { OnOk result (charge ≡ neg_ℤ other.now.kind.charge) }
{
    let wanted = -i64::from(other.kind.charge);
    let address = Address::new(path, "charge");
    check_within(
        alloc,
        address,
        i128::from(charge),
        Limits::new(wanted, wanted),
    )
}

// the earlier species beside whose particles those of the species at a path stand, and how far
fn read_displaced(
    alloc: Global,
    path: &str,
    value: &Value,
    terms: Terms,
    earlier: &[Species],
    charge: i32,
) -> Result<(u32, Displacement), WalkStop>
    requires { length earlier.now ≤ most_species }
    ensures walks { WalksAs (λ (r : ℕ × DisplacementView). r)
        (displaced terms earlier.now path.now charge (key_at path.now (codes "displace"))
        (view value.now)) result }
    ensures below { IfOk result (λ r. r.0 < length earlier.now) }
    ensures opposite { IfOk result (λ r.
        charge ≡ neg_ℤ (species_at earlier.now r.0).kind.charge) }
    ensures limits { IfOk result (λ r. IsDisplacement terms.grid.side r.1) }
{
    let address = Address::new(path, "displace");
    let own = address.path(alloc)?;
    let table = read_table(alloc, address, own.as_str(), &["of", "by", "v"], value)?;
    let number = need_species_number(alloc, own.as_str(), table, earlier)?;
    check_opposite(alloc, path, &earlier[number], charge)?;
    let displacement = read_displacement(alloc, own.as_str(), table, terms.cells())?;
    Ok((number as u32, displacement))
}

fn at_sites(sites: Sites) -> Fill
    ensures { result ≡ at_sites sites }
{
    let Sites {
        first,
        gap,
        count,
        v,
    } = sites;
    Fill::Lattice {
        first,
        gap,
        count,
        v,
    }
}

fn at_random(random: (u32, Draw)) -> Fill
    ensures { result ≡ at_random random }
{
    let (count, draw) = random;
    let Draw {
        seed,
        stream,
        drift,
        spread,
    } = draw;
    Fill::Random {
        count,
        seed,
        stream,
        drift,
        spread,
    }
}

fn in_pairs(pair: (u32, Draw)) -> Fill
    ensures { result ≡ in_pairs pair }
{
    let (of, draw) = pair;
    let Draw {
        seed,
        stream,
        drift,
        spread,
    } = draw;
    Fill::Pair {
        of,
        seed,
        stream,
        drift,
        spread,
    }
}

fn beside_others(displaced: (u32, Displacement)) -> Fill
    ensures { result ≡ beside_others displaced }
{
    let (of, Displacement { by, v }) = displaced;
    Fill::Displace { of, by, v }
}

/// What fills the species that the table at a path is, which has a charge, after earlier ones.
pub(crate) fn read_fill(
    alloc: Global,
    path: &str,
    table: &Table,
    terms: Terms,
    earlier: &[Species],
    charge: i32,
) -> Result<Fill, WalkStop>
    requires { length earlier.now ≤ most_species }
    ensures walks { WalksAs (λ (f : FillView). f)
        (species_fill terms earlier.now path.now charge (table_view table.now)) result }
    ensures limits { IfOk result (λ f. IsFill terms earlier.now f) }
    ensures opposite { IfOk result (λ f. IsOpposite earlier.now charge f) }
{
    let source = find_fill_kind(alloc, path, table, terms.version())?;
    let value = needed_value(alloc, path, source.key(), table)?;
    let address = Address::new(path, source.key());
    match source {
        FillKind::Points => Ok(Fill::Points(read_points(alloc, address, value, terms.cells())?)),
        FillKind::Lattice => Ok(at_sites(read_lattice(alloc, address, value, terms)?)),
        FillKind::Random => Ok(at_random(read_random(alloc, address, value, terms)?)),
        FillKind::Pair => Ok(in_pairs(read_pair(alloc, address, value, terms, earlier)?)),
        FillKind::Displace => {
            let displaced = read_displaced(alloc, path, value, terms, earlier, charge)?;
            Ok(beside_others(displaced))
        }
    }
}
