//! The header of the dump of a run.

ghost use Rattle.std.specs.Prelude.{◌≡◌, map, IfOk};
ghost use Rattle.pic_deck.specs.Species.{head_of};
ghost use Rattle.pic_run.specs.RunHeader.{header_of};

use pic_deck::{Deck, Species};
use pic_dump::{Head, Header, HeaderSettings, Heads};
use pic_grid::{Name, copy_loops};
use pic_num::NoMemory;
use std::alloc::Global;

/// The header of the dump of a deck's run.
pub fn header_of(alloc: Global, deck: &Deck) -> Result<Header, NoMemory>
    ensures { IfOk result (λ header. header ≡ header_of deck.now) }
{
    let heads = heads_of(alloc, deck.species())?;
    let settings = HeaderSettings {
        version: deck.version(),
        cells: deck.cells(),
        steps: deck.steps(),
        every: deck.every(),
        filter: deck.filter(),
        scales: deck.scales(),
    };
    let loops = copy_loops(alloc, deck.loops())?;
    Ok(Header::new(settings, Heads::from_vec(heads), loops))
}

// What the header says of each species.
fn heads_of(alloc: Global, species: &[Species]) -> Result<Vec<Head>, NoMemory>
    ensures { IfOk result (λ heads. heads.items ≡ map head_of species.now) }
{
    let mut heads = Vec::new(alloc);
    for one in species {
        heads.push(head_of(alloc, one)?)?;
    }
    Ok(heads)
}

// What the header says of a species.
fn head_of(alloc: Global, species: &Species) -> Result<Head, NoMemory>
    ensures { IfOk result (λ head. head ≡ head_of species.now) }
{
    let name = Vec::from_slice(alloc, species.name.as_slice())?;
    Ok(Head {
        name: Name::from_vec(name),
        kind: species.kind,
        count: species.count,
    })
}
