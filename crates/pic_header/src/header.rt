//! The header of a dump.

ghost use Rattle.std.specs.Prelude.{◌≡◌, ◌*◌, ◌≤◌, All, length};
ghost use Rattle.pic_block.specs.Cells.{IsCells};
ghost use Rattle.pic_header.specs.Header.{HeaderView, header_with, with_steps, upgraded, HasLimits, HasMultipliers, AreMultipliers, IsHeader};
ghost use Rattle.pic_num.specs.Limits.{most_loops, most_wave};
ghost use Rattle.pic_header.specs.Limits.{most_steps};
ghost use Rattle.pic_header.specs.HeaderText.{header_bytes};
ghost use Rattle.pic_header.specs.HeaderFields.{header_length, header_most, loop_most, loops_length};

use crate::head::{Head, Heads};
use crate::heading::{FRONT_BYTES, HEAD_BYTES, form_length, loop_length};
use crate::keeping::{keep_kind, keep_scales};
use pic_grid::{Cells, Loop, Loops};
use pic_num::Scales;
use std::marker::Model;

/// The version that a header is upgraded to.
const NEW_VERSION: u32 = 2;

/// The header of a dump: its version, the numbers of cells and the side of a cell, the number of
/// steps, after how many steps a frame is due, the filter of the current, the four multipliers, the
/// species, and the driven loops.
///
/// `allowance_of` of `pic_num` says what the version allows of cells, their side, particles and loops.
/// There are at most 1000000 steps, a frame is due after 1 to 1000000 of them, and the species are at
/// most 16, with names of their own. So a dump's reader refuses no number of it.
#[derive(Debug, Drop)]
pub struct Header {
    settings: HeaderSettings,
    species: Heads,
    loops: Loops,
}

/// What a header says beside its species and loops.
#[derive(Clone, Copy, Debug)]
pub struct HeaderSettings {
    pub version: u32,
    pub cells: Cells,
    pub steps: u32,
    pub every: u32,
    pub filter: u32,
    pub scales: Scales,
}

impl Model for Header {
    ghost Value = { HeaderView };

    ghost view = { λ h. header_with h.settings h.species h.loops };

    ghost invariant = { λ h. IsHeader (header_with h.settings h.species h.loops) };
}

impl Header {
    /// The header of numbers, species and loops within the limits.
    pub fn new(settings: HeaderSettings, species: Heads, loops: Loops) -> Header
        requires { HasLimits (header_with settings species loops) }
        ensures { result ≡ header_with settings species loops }
    {
        keep_cells(settings.cells);
        keep_scales(&settings.scales);
        let species = keep_species(species);
        let loops = keep_loops(loops);
        Header {
            settings,
            species,
            loops,
        }
    }

    /// The same header with another number of steps.
    pub fn with_steps(self, steps: u32) -> Header
        requires { steps ≤ most_steps }
        ensures { result ≡ with_steps steps self }
    {
        let settings = HeaderSettings {
            steps,
            ..self.settings
        };
        Header { settings, ..self }
    }

    /// The same header in version 2.
    pub fn upgraded(self) -> Header
        ensures { result ≡ upgraded self }
    {
        let settings = HeaderSettings {
            version: NEW_VERSION,
            ..self.settings
        };
        Header { settings, ..self }
    }

    /// The version of its dump.
    pub fn version(&self) -> u32
        ensures value { result ≡ self.now.version }
        ensures limits { IsHeader self.now }
    {
        self.settings.version
    }

    /// The numbers of cells and the side of a cell.
    pub fn cells(&self) -> Cells
        ensures value { result.n ≡ self.now.cells }
        ensures side { result.side ≡ self.now.side }
    {
        self.settings.cells
    }

    /// The number of steps.
    pub fn steps(&self) -> u32
        ensures value { result ≡ self.now.steps }
        ensures limits { IsHeader self.now }
    {
        self.settings.steps
    }

    /// After how many steps a frame is due.
    pub fn every(&self) -> u32
        ensures value { result ≡ self.now.every }
        ensures limits { IsHeader self.now }
    {
        self.settings.every
    }

    /// The filter of the current: 0 for none, 1 for the binomial one.
    pub fn filter(&self) -> u32
        ensures value { result ≡ self.now.filter }
        ensures limits { IsHeader self.now }
    {
        self.settings.filter
    }

    /// The four multipliers.
    pub fn scales(&self) -> Scales
        ensures { result ≡ self.now.scales }
    {
        self.settings.scales
    }

    /// The species.
    pub fn species(&self) -> &Heads
        ensures value { result.now ≡ self.now.species }
        ensures limits { IsHeader self.now }
    {
        &self.species
    }

    /// The driven loops.
    pub fn loops(&self) -> &Loops
        ensures value { result.now ≡ self.now.loops }
        ensures limits { IsHeader self.now }
    {
        &self.loops
    }

    /// How many bytes its text has.
    pub fn length(&self) -> u64
        ensures value { result ≡ header_length self.now }
        ensures text { length (header_bytes self.now) ≡ header_length self.now }
        ensures most { header_length self.now ≤ header_most }
    {
        let species = self.species.as_slice().len() as u64;
        let loops = loops_length(self.loops.as_slice());
        FRONT_BYTES + form_length(self.settings.version) + HEAD_BYTES * species + loops
    }
}

// How many bytes loops have.
fn loops_length(loops: &[Loop]) -> u64
    requires few { length loops.now ≤ most_loops }
    requires waves { All (λ l. length l.wave ≤ most_wave) loops.now }
    ensures value { result ≡ loops_length loops.now }
    ensures most { result ≤ loop_most * length loops.now }
{
    let mut bytes = 0u64;
    for one in loops {
        bytes += loop_length(one);
    }
    bytes
}

// What the types of cells and multipliers keep, as facts. None of these changes anything.

fn keep_cells(cells: Cells)
    ensures { IsCells cells.n }
{
    let _numbers = cells.numbers();
}

fn keep_species(species: Heads) -> Heads
    ensures same { result ≡ species }
    ensures kinds { All (λ h. HasMultipliers h.kind) species }
{
    keep_kinds(species.as_slice());
    species
}

fn keep_kinds(heads: &[Head])
    ensures { All (λ h. HasMultipliers h.kind) heads.now }
{
    for head in heads {
        keep_kind(head.kind);
    }
}

fn keep_loops(loops: Loops) -> Loops
    ensures same { result ≡ loops }
    ensures cells { All (λ l. length l.cell ≡ 3) loops }
{
    keep_cells_of(loops.as_slice());
    loops
}

fn keep_cells_of(loops: &[Loop])
    ensures { All (λ l. length l.cell ≡ 3) loops.now }
{
    for one in loops {
        keep_cell(one.cell);
    }
}

fn keep_cell(cell: [u32; 3])
    ensures { length cell ≡ 3 }
{
    let _numbers = cell;
}
