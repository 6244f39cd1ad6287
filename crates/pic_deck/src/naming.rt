//! The names of species.

ghost use Rattle.std.specs.Prelude.{◌≡◌, ℕ, List, codes, IfOk};
ghost use Rattle.toml.specs.View.{view, table_view};
ghost use Rattle.pic_walk.specs.Path.{path_of};
ghost use Rattle.pic_walk.specs.Walk.{WalksAs, need};
ghost use Rattle.pic_deck.specs.Species.{IsNewName, is_name, is_taken, is_new_name};
ghost use Rattle.pic_deck.specs.Keys.{species_name};

use crate::species::Species;
use pic_grid::Name;
use pic_num::{MAX_LETTERS, are_name_bytes};
use pic_walk::{Address, WalkStop, needed_value, read_text};
use std::alloc::Global;
use toml::{Table, Value};

// whether a text is a name
#[tactic(auto, unfolding(crate::specs::Species::is_name))]
fn is_name(text: &str) -> bool
    ensures { result ≡ is_name text.now }
{
    let bytes = text.as_bytes();
    (1 <= bytes.len() && bytes.len() <= MAX_LETTERS) && are_name_bytes(bytes)
}

// whether a species has this name
fn is_taken(species: &[Species], text: &str) -> bool
    ensures { result ≡ is_taken species.now text.now }
{
    let name = text.as_bytes();
    species.iter().any(|one| one.name.as_slice() == name)
}

// whether a text is a name that none of these species has
#[tactic(auto, unfolding(crate::specs::Species::is_new_name))]
fn is_new_name(species: &[Species], text: &str) -> bool
    ensures { result ≡ is_new_name species.now text.now }
{
    is_name(text) && !is_taken(species, text)
}

// the name at an address, which no earlier species has
fn read_name(
    alloc: Global,
    address: Address<'_>,
    value: &Value,
    earlier: &[Species],
) -> Result<Name, WalkStop>
    ensures walks { WalksAs (λ (s : List ℕ). s)
        (species_name earlier.now (path_of address.entry) (view value.now)) result }
    ensures limits { IfOk result (λ s. IsNewName earlier.now s) }
{
    let text = read_text(alloc, address, value)?;
    if is_new_name(earlier, text) {
        let bytes = Vec::from_slice(alloc, text.as_bytes())?;
        Ok(Name::from_vec(bytes))
    } else {
        Err(address.name_fault(alloc))
    }
}

/// The name of the species in the table at a path, which no earlier species has.
pub(crate) fn need_name(
    alloc: Global,
    path: &str,
    table: &Table,
    earlier: &[Species],
) -> Result<Name, WalkStop>
    ensures walks { WalksAs (λ (s : List ℕ). s)
        (need (species_name earlier.now) (codes "name") path.now (table_view table.now)) result }
    ensures limits { IfOk result (λ s. IsNewName earlier.now s) }
{
    let value = needed_value(alloc, path, "name", table)?;
    read_name(alloc, Address::new(path, "name"), value, earlier)
}
