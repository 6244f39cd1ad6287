//! What a run begins with: its fields and particles, before Gauss's law is tested.

ghost use Rattle.std.specs.Prelude.{◌≡◌, pos, ◌*◌, replicate, IfOk};
ghost use Rattle.pic_block.specs.Cells.{count_of};
ghost use Rattle.pic_deck.specs.Deck.{deck_grid};
ghost use Rattle.pic_step.specs.SerialRun.{kinds_of};
ghost use Rattle.pic_tile.specs.Tiling.{cells_of, grid_of_tiling, tiles_of};
ghost use Rattle.pic_step.specs.Kept.{IsCut};

use pic_deck::Deck;
use pic_grid::{Lattice, Snapshot, copy_loops};
use pic_num::{NoMemory, Particle};
use pic_tile::{Kinds, Setup, TileMap};
use std::alloc::Global;

/// What a run begins with: what stays in it, after how many steps it begins, E, B and the particles.
/// Its type keeps no more than theirs do: whether Gauss's law holds has to be tested. A state begins
/// with fields that have a part for each layer of z.
#[derive(Drop)]
pub struct Start {
    pub setup: Setup,
    pub step: u32,
    pub e: Lattice,
    pub b: Lattice,
    pub particles: Vec<Particle>,
}

impl Start {
    ghost use Rattle.pic_step.specs.Kept.{AreCut};
    ghost use Rattle.pic_step.specs.SerialRun.{start_of};
    ghost use Rattle.pic_step.specs.Start.{begun, world_in_frame};

    /// What a deck's run begins with before a species is displaced, with these particles.
    pub fn new(alloc: Global, deck: &Deck, particles: Vec<Particle>) -> Result<Start, NoMemory>
        ensures map { IfOk result
            (λ start. start.setup.map ≡ tiles_of (deck_grid deck.now) deck.now.tiles) }
        ensures cut { IfOk result (λ start. AreCut start.setup.map start.e start.b) }
        ensures start { IfOk result (λ start. begun start ≡ start_of deck.now particles.items) }
    {
        let setup = setup_of(alloc, deck)?;
        let mut e = layered_lattice(alloc, &setup.map)?;
        let mut b = layered_lattice(alloc, &setup.map)?;
        deck.initial(&mut e, &mut b);
        Ok(Start {
            setup,
            step: 0,
            e,
            b,
            particles,
        })
    }

    /// What a run goes on with after so many steps, from a snapshot of as many cells.
    pub fn from_frame(
        alloc: Global,
        setup: &Setup,
        step: u32,
        frame: &Snapshot,
    ) -> Result<Start, NoMemory>
        requires e_cells { frame.now.e.cells ≡ cells_of setup.now.map }
        requires b_cells { frame.now.b.cells ≡ cells_of setup.now.map }
        ensures map { IfOk result (λ start. start.setup.map ≡ setup.now.map) }
        ensures cut { IfOk result (λ start. AreCut start.setup.map start.e start.b) }
        ensures start { IfOk result (λ start.
            begun start ≡ world_in_frame setup.now step frame.now) }
    {
        let kinds = setup.kinds.copy(alloc)?;
        let mut e = layered_lattice(alloc, &setup.map)?;
        e.copy_from(&frame.e);
        let mut b = layered_lattice(alloc, &setup.map)?;
        b.copy_from(&frame.b);
        let particles = Vec::from_slice(alloc, frame.particles.as_slice())?;
        Ok(Start {
            setup: Setup {
                map: setup.map,
                filter: setup.filter,
                loops: copy_loops(alloc, setup.loops.as_slice())?,
                scales: setup.scales,
                kinds,
            },
            step,
            e,
            b,
            particles,
        })
    }
}

/// A lattice on the cells of a map, with a part for each layer of z. It is 0 everywhere.
pub(crate) fn layered_lattice(alloc: Global, map: &TileMap) -> Result<Lattice, NoMemory>
    ensures cut { IfOk result (IsCut map.now) }
    ensures zero { IfOk result (λ l.
        l.values ≡ replicate (3 * count_of (cells_of map.now)) (pos 0)) }
{
    let cells = map.cells();
    let [_, _, nz] = cells.numbers();
    Lattice::new(alloc, cells, [1, 1, nz])
}

// what stays in a deck's run
fn setup_of(alloc: Global, deck: &Deck) -> Result<Setup, NoMemory>
    ensures map { IfOk result
        (λ setup. setup.map ≡ tiles_of (deck_grid deck.now) deck.now.tiles) }
    ensures cells { IfOk result (λ setup. grid_of_tiling setup.map ≡ deck_grid deck.now) }
    ensures filter { IfOk result (λ setup. setup.filter ≡ deck.now.filter) }
    ensures loops { IfOk result (λ setup. setup.loops ≡ deck.now.loops) }
    ensures scales { IfOk result (λ setup. setup.scales ≡ deck.now.scales) }
    ensures kinds { IfOk result (λ setup. setup.kinds ≡ kinds_of deck.now) }
{
    let kinds = kinds_of(alloc, deck)?;
    let loops = copy_loops(alloc, deck.loops())?;
    Ok(Setup {
        map: TileMap::new(deck.cells(), deck.tiles()),
        filter: deck.filter(),
        loops,
        scales: deck.scales(),
        kinds,
    })
}

// what the particles of each species of a deck have in common
fn kinds_of(alloc: Global, deck: &Deck) -> Result<Kinds, NoMemory>
    ensures { IfOk result (λ kinds. kinds ≡ kinds_of deck.now) }
{
    let mut kinds = Vec::new(alloc);
    for species in deck.species() {
        kinds.push(species.kind)?;
    }
    Ok(Kinds::from_vec(kinds))
}
