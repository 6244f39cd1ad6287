//! A deck.

ghost use Rattle.std.specs.Prelude.{◌≡◌};
ghost use Rattle.pic_num.specs.Space.{triple, spot};
ghost use Rattle.pic_grid.specs.Lattice.{field_of};
ghost use Rattle.pic_deck.specs.Deck.{IsWithinLimits, deck_grid, deck_terms, initial_e, initial_b};
ghost use Rattle.pic_deck.specs.Species.{particles_of};

use crate::fields::InitialFields;
use crate::filling::fill;
use crate::species::{Species, SpeciesList};
use crate::species_reader::particles_of;
use pic_devices::{Devices, Probes};
use pic_grid::{Cells, Lattice, Loop};
use pic_num::Scales;
use pic_settings::Settings;
use pic_walk::{Row, Terms};
use std::marker::Model;

/// A deck: all that it says is within the limits of its keys, no value of a field that it begins with
/// is above 2^84 in size, and no force value above 2^44.
#[derive(Debug, Drop)]
pub struct Deck {
    settings: Settings,
    field: InitialFields,
    species: SpeciesList,
    devices: Devices,
}

impl Model for Deck {
    ghost use Rattle.pic_deck.specs.Deck.{DeckView, deck_view, IsWithinLimits};

    ghost Value = { DeckView };

    ghost view = { λ a. deck_view a.settings a.field a.species a.devices };

    ghost invariant = { λ a. IsWithinLimits (deck_view a.settings a.field a.species a.devices) };
}

impl Deck {
    ghost use Rattle.pic_deck.specs.Deck.{deck_view};

    /// The deck of these parts, which are within their limits.
    pub fn new(
        settings: Settings,
        field: InitialFields,
        species: SpeciesList,
        devices: Devices,
    ) -> Deck
        requires { IsWithinLimits (deck_view settings field species devices) }
        ensures { result ≡ deck_view settings field species devices }
    {
        Deck {
            settings,
            field,
            species,
            devices,
        }
    }

    /// The version of the deck's form.
    pub fn version(&self) -> u32
        ensures value { result ≡ self.now.version }
        ensures limits { IsWithinLimits self.now }
    {
        self.settings.version
    }

    /// What the deck's limits go by: its version, and its cells.
    pub fn terms(&self) -> Terms
        ensures value { result ≡ deck_terms self.now }
        ensures limits { IsWithinLimits self.now }
    {
        Terms::new(self.settings.version, self.settings.cells)
    }

    /// How many cells the grid has on each axis, and the side of a cell.
    pub fn cells(&self) -> Cells
        ensures value { result ≡ deck_grid self.now }
        ensures limits { IsWithinLimits self.now }
    {
        self.settings.cells
    }

    /// Into how many tiles the grid is cut on each axis.
    pub fn tiles(&self) -> [u32; 3]
        ensures value { triple result ≡ self.now.tiles }
        ensures limits { IsWithinLimits self.now }
    {
        self.settings.tiles
    }

    /// How many steps the run has.
    pub fn steps(&self) -> u32
        ensures value { result ≡ self.now.steps }
        ensures limits { IsWithinLimits self.now }
    {
        self.settings.steps
    }

    /// After how many steps a frame is due.
    pub fn every(&self) -> u32
        ensures value { result ≡ self.now.every }
        ensures limits { IsWithinLimits self.now }
    {
        self.settings.every
    }

    /// The filter of the current: 0 for none, 1 for the binomial one.
    pub fn filter(&self) -> u32
        ensures value { result ≡ self.now.filter }
        ensures limits { IsWithinLimits self.now }
    {
        self.settings.filter
    }

    /// The multipliers of the fields.
    pub fn scales(&self) -> Scales
        ensures value { result ≡ self.now.scales }
        ensures limits { IsWithinLimits self.now }
    {
        self.settings.scales
    }

    /// The uniform part of E.
    pub fn e(&self) -> [i64; 3]
        ensures value { spot result ≡ self.now.e }
        ensures limits { IsWithinLimits self.now }
    {
        self.field.e
    }

    /// The uniform part of B.
    pub fn b(&self) -> [i64; 3]
        ensures value { spot result ≡ self.now.b }
        ensures limits { IsWithinLimits self.now }
    {
        self.field.b
    }

    /// The rows that are added to E.
    pub fn edges(&self) -> &[Row]
        ensures value { result.now ≡ self.now.edges }
        ensures limits { IsWithinLimits self.now }
    {
        self.field.edges.as_slice()
    }

    /// The rows that are added to B.
    pub fn faces(&self) -> &[Row]
        ensures value { result.now ≡ self.now.faces }
        ensures limits { IsWithinLimits self.now }
    {
        self.field.faces.as_slice()
    }

    /// The species.
    pub fn species(&self) -> &[Species]
        ensures value { result.now ≡ self.now.species }
        ensures limits { IsWithinLimits self.now }
    {
        self.species.as_slice()
    }

    /// The loops that drive the run.
    pub fn loops(&self) -> &[Loop]
        ensures value { result.now ≡ self.now.loops }
        ensures limits { IsWithinLimits self.now }
    {
        self.devices.loops.as_slice()
    }

    /// The probes that watch the run.
    pub fn probes(&self) -> &Probes
        ensures value { result.now ≡ self.now.probes }
        ensures limits { IsWithinLimits self.now }
    {
        &self.devices.probes
    }

    /// How many particles the species have, no more than the deck's version allows.
    pub fn particles(&self) -> usize
        ensures value { result ≡ particles_of self.now.species }
        ensures limits { IsWithinLimits self.now }
    {
        particles_of(self.species.as_slice())
    }

    /// Makes two lattices of the deck's cells, whatever they held, the E and B that it begins with.
    /// It takes no memory.
    pub fn initial(&self, e: &mut Lattice, b: &mut Lattice)
        requires e_cells { e.old.cells ≡ self.now.cells }
        requires b_cells { b.old.cells ≡ self.now.cells }
        ensures e { e.new ≡ field_of e.old.side self.now.cells e.old.parts (initial_e self.now) }
        ensures b { b.new ≡ field_of b.old.side self.now.cells b.old.parts (initial_b self.now) }
    {
        fill(self.field.e, self.field.edges.as_slice(), e);
        fill(self.field.b, self.field.faces.as_slice(), b);
    }
}
