//! What the frames and the end record of a dump depend on, of its header.

ghost use Rattle.std.specs.Prelude.{◌≡◌, ◌<◌, ◌≤◌, length, map, sum, IfOk};
ghost use Rattle.pic_num.specs.Limits.{most_particles};
ghost use Rattle.pic_record.specs.Layout.{LayoutView, IsLayout, layout_of, species_of};

use pic_grid::Cells;
use pic_header::Header;
use pic_num::{Kind, NoMemory, Scales};
use std::alloc::Global;
use std::marker::Model;

/// The numbers of cells and their side, the steps, after how many of them a frame is due, the filter of
/// the current, the multipliers, and the kinds and the numbers of particles of the species.
#[derive(Debug, Drop)]
pub struct Layout {
    cells: Cells,
    steps: u32,
    every: u32,
    filter: u32,
    scales: Scales,
    kinds: Vec<Kind>,
    counts: Vec<u32>,
}

impl Model for Layout {
    ghost use Rattle.pic_record.specs.Layout.{LayoutView, IsLayout, layout_with};

    ghost Value = { LayoutView };

    ghost view = { λ l. layout_with l.cells l.steps l.every l.filter l.scales
        l.kinds.items l.counts.items };

    ghost invariant = { λ l. IsLayout
        (layout_with l.cells l.steps l.every l.filter l.scales l.kinds.items l.counts.items) };
}

impl Layout {
    /// What a header says.
    pub fn of_header(alloc: Global, header: &Header) -> Result<Layout, NoMemory>
        ensures { IfOk result (λ l. l ≡ layout_of header.now) }
    {
        let heads = header.species().as_slice();
        let mut kinds = Vec::new(alloc);
        let mut counts = Vec::new(alloc);
        for head in heads {
            kinds.push(head.kind)?;
            counts.push(head.count)?;
        }
        Ok(Layout {
            cells: header.cells(),
            steps: header.steps(),
            every: header.every(),
            filter: header.filter(),
            scales: header.scales(),
            kinds,
            counts,
        })
    }

    pub fn cells(&self) -> Cells
        ensures value { result.n ≡ self.now.cells }
        ensures side { result.side ≡ self.now.side }
        ensures limits { IsLayout self.now }
    {
        self.cells
    }

    pub fn steps(&self) -> u32
        ensures value { result ≡ self.now.steps }
        ensures limits { IsLayout self.now }
    {
        self.steps
    }

    pub fn every(&self) -> u32
        ensures value { result ≡ self.now.every }
        ensures limits { IsLayout self.now }
    {
        self.every
    }

    /// The filter of the current: 0 for none, 1 for the binomial one.
    pub fn filter(&self) -> u32
        ensures value { result ≡ self.now.filter }
        ensures limits { IsLayout self.now }
    {
        self.filter
    }

    /// The side of a cell, in sub-cells.
    pub fn side(&self) -> u32
        ensures value { result ≡ self.now.side }
        ensures limits { IsLayout self.now }
    {
        self.cells.sub().side()
    }

    pub fn scales(&self) -> &Scales
        ensures value { result.now ≡ self.now.scales }
        ensures limits { IsLayout self.now }
    {
        &self.scales
    }

    pub fn kinds(&self) -> &[Kind]
        ensures value { result.now ≡ self.now.kinds }
        ensures limits { IsLayout self.now }
    {
        self.kinds.as_slice()
    }

    pub fn counts(&self) -> &[u32]
        ensures value { result.now ≡ self.now.counts }
        ensures limits { IsLayout self.now }
    {
        self.counts.as_slice()
    }

    /// How many particles there are.
    pub fn particles(&self) -> u32
        ensures value { result ≡ sum self.now.counts }
        ensures most { result ≤ most_particles }
    {
        self.counts.iter().sum::<u32>()
    }
}

/// The species of a particle, by the numbers of particles of the species.
pub fn species_at(counts: &[u32], index: u32) -> u8
    requires few { length counts.now ≤ 16 }
    requires below { index < sum counts.now }
    ensures value { result ≡ species_of counts.now index }
    ensures below { result < length counts.now }
{
    let mut left = index;
    for (species, count) in counts.iter().enumerate() {
        if left < *count {
            return species as u8;
        }
        left -= *count;
    }
    0
}
