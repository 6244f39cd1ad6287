//! The deck that some bytes are.

ghost use Rattle.std.specs.Prelude.{◌≡◌, ◌↔◌, ◌<◌, Some, Err, [], codes, IfOk, IfErr};
ghost use Rattle.toml.specs.Data.{get_member};
ghost use Rattle.toml.specs.View.{table_view};
ghost use Rattle.pic_walk.specs.Walk.{WalksAs, listed};
ghost use Rattle.pic_deck.specs.declared.refusal.Refusal.TheVariants.{Text};
ghost use Rattle.pic_deck.specs.Deck.{DeckView};
ghost use Rattle.pic_deck.specs.Keys.{says_first, deck_keys, deck};
ghost use Rattle.pic_deck.specs.Reading.{document, walk, too_long, IsNoText};
ghost use Rattle.pic_deck.specs.Refusal.{IsRefusal, IsTextFault, ReadsAs};

use crate::deck::Deck;
use crate::device_reader::read_devices;
use crate::fields::optional_fields;
use crate::forces::check_forces;
use crate::refusal::{DeckFault, Refusal};
use crate::species_reader::{optional_species, particles_of};
use pic_settings::read_settings;
use pic_walk::{Address, Limits, MAX_BYTES, Terms, WalkStop, check_keys, find_value};
use std::alloc::Global;
use toml::Table;

const KEYS_1: [&str; 6] = ["version", "grid", "run", "scale", "field", "species"];

const KEYS: [&str; 8] = [
    "version", "grid", "run", "scale", "field", "species", "drive", "probe",
];

// whether a table says that it is a deck of version 1
fn says_first(table: &Table) -> bool
    ensures { result ≡ says_first (get_member (codes "version") (table_view table.now)) }
{
    match find_value("version", table) {
        Some(value) => value.as_integer() == Some(1),
        None => false,
    }
}

fn check_deck_keys(alloc: Global, table: &Table) -> Result<(), WalkStop>
    ensures { WalksAs (λ _. table_view table.now)
        (listed (deck_keys (table_view table.now)) [] (table_view table.now)) result }
{
    if says_first(table) {
        check_keys(alloc, "", &KEYS_1, table)
    } else {
        check_keys(alloc, "", &KEYS, table)
    }
}

// the table that some bytes are
fn read_document(alloc: Global, bytes: &[u8]) -> Result<Table, DeckFault>
    ensures ok { IfOk result (λ t. document bytes.now ≡ Some (table_view t)) }
    ensures refused { IfErr result (λ e. IsTextFault (document bytes.now) e) }
{
    match toml::table_from_slice(alloc, bytes) {
        Ok(table) => Ok(table),
        Err(fault) => {
            if fault.is_memory() {
                Err(DeckFault::NoMemory)
            } else {
                Err(DeckFault::Refused(Refusal::Text))
            }
        }
    }
}

// the deck that a table is
fn deck_of(alloc: Global, table: &Table) -> Result<Deck, WalkStop>
    ensures { WalksAs (λ (d : DeckView). d) (deck (table_view table.now)) result }
{
    check_deck_keys(alloc, table)?;
    let settings = read_settings(alloc, table)?;
    let terms = Terms::new(settings.version, settings.cells);
    let field = optional_fields(alloc, table, settings.cells)?;
    let species = optional_species(alloc, table, terms)?;
    let devices = read_devices(alloc, table, terms, particles_of(species.as_slice()))?;
    check_forces(alloc, &settings, &field)?;
    Ok(Deck::new(settings, field, species, devices))
}

// that there are too many bytes
fn size_fault(alloc: Global, size: usize) -> DeckFault
    ensures { IsRefusal (too_long size) result }
{
    let limits = Limits::new(0, MAX_BYTES as i64);
    DeckFault::from(Address::new("", "deck").limit_fault(alloc, size as i128, limits))
}

/// The deck that some bytes are.
///
/// # Errors
/// `Refused`, with the one refusal that the walk of them meets first, or `NoMemory`.
#[tactic(auto, using(crate::proofs::ReadingLaws::text_exactly))]
pub fn read_deck(alloc: Global, bytes: &[u8]) -> Result<Deck, DeckFault>
    ensures walks { ReadsAs (walk bytes.now) result }
    ensures text { (walk bytes.now ≡ Err Text) ↔ IsNoText bytes.now }
{
    if bytes.len() > MAX_BYTES {
        return Err(size_fault(alloc, bytes.len()));
    }
    let table = read_document(alloc, bytes)?;
    Ok(deck_of(alloc, &table)?)
}
