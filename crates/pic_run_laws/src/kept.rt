//! What the type of a deck keeps, as facts. None of these functions changes anything.

ghost use Rattle.std.specs.Prelude.{◌≡◌, Ok, All, length, OnOk};
ghost use Rattle.pic_deck.specs.Deck.{DeckView};
ghost use Rattle.pic_deck.specs.Reading.{walk};
ghost use Rattle.pic_header.specs.Header.{HasMultipliers};
ghost use Rattle.pic_run_laws.specs.KeptDecks.{IsSixfold, IsByThrees, IsKeptDeck};

use pic_deck::{Deck, DeckFault, Fill, Point6, Species, read_deck};
use pic_dump::{keep_kind, keep_scales};
use pic_grid::Loop;
use pic_num::NoMemory;
use std::alloc::Global;

/// Every deck is one as its type keeps it: it meets the condition of the laws of runs.
pub fn keep_deck(deck: &Deck)
    ensures { IsKeptDeck deck.now }
{
    keep_scales(&deck.scales());
    keep_kinds(deck.species());
    keep_fills(deck.species());
    keep_loops(deck.loops());
}

/// The deck that some bytes are, where they are one, is as its type keeps it; or memory is wanting.
pub fn keep_read(alloc: Global, bytes: &[u8]) -> Result<(), NoMemory>
    ensures { OnOk result ((d : DeckView) → walk bytes.now ≡ Ok d → IsKeptDeck d) }
{
    match read_deck(alloc, bytes) {
        Ok(deck) => {
            keep_deck(&deck);
            Ok(())
        }
        Err(DeckFault::Refused(_)) => Ok(()),
        Err(DeckFault::NoMemory) => Err(NoMemory),
    }
}

fn keep_kinds(species: &[Species])
    ensures { All (λ s. HasMultipliers s.kind) species.now }
{
    for one in species {
        keep_kind(one.kind);
    }
}

fn keep_point(point: Point6)
    ensures { IsSixfold point }
{
    let _place = point.x;
    let _speed = point.v;
}

fn keep_points(points: &[Point6])
    ensures { All IsSixfold points.now }
{
    for point in points {
        keep_point(*point);
    }
}

fn keep_velocity(v: [i32; 3])
    ensures { length v ≡ 3 }
{}

fn keep_fill(fill: &Fill)
    ensures { IsByThrees fill.now }
{
    match fill {
        Fill::Points(points) => keep_points(points.as_slice()),
        Fill::Lattice { v, .. } => keep_velocity(*v),
        Fill::Random { .. } | Fill::Pair { .. } => (),
        Fill::Displace { v, .. } => keep_velocity(*v),
    }
}

fn keep_cell(cell: [u32; 3])
    ensures { length cell ≡ 3 }
{
    let _numbers = cell;
}

fn keep_loops(loops: &[Loop])
    ensures { All (λ l. length l.cell ≡ 3) loops.now }
{
    for one in loops {
        keep_cell(one.cell);
    }
}

fn keep_fills(species: &[Species])
    ensures { All (λ s. IsByThrees s.fill) species.now }
{
    for one in species {
        keep_fill(&one.fill);
    }
}
