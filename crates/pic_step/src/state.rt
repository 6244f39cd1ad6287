//! The state of a run: what its type keeps, how it begins, and what it shows.

ghost use Rattle.std.specs.Prelude.{◌≡◌, ◌<◌, ◌≤◌, [], All, IfOk, length};
ghost use Rattle.pic_num.specs.Limits.{most_steps};

use crate::looking::{copy_places, write_each};
use crate::plasma::Plasma;
use crate::start::Start;
use crate::write::write_tiles;
use pic_deck::Deck;
use pic_devices::Probes;
use pic_grid::{Cells, Lattice, Loop, Loops, Snapshot};
use pic_num::{Kind, NoMemory, Particle, Scales};
use pic_sort::sort;
use pic_tile::{Setup, Tile, TileMap};
use std::alloc::Global;
use std::marker::Model;

/// The state of a run, after a number of steps that it knows. Its type keeps the limits, that the
/// particles have the identities 0, 1, .. in order, and Gauss's law at every node. The particles are
/// kept in tiles, and the fields have a part for each layer of z; contracts see a list in the order of
/// identities, the values of fields in the order of places, the map of the tiles, and the identities
/// of the particles that it follows.
#[derive(Drop)]
pub struct State {
    pub(crate) step: u32,
    pub(crate) loops: Loops,
    pub(crate) scales: Scales,
    pub(crate) e: Lattice,
    pub(crate) b: Lattice,
    pub(crate) plasma: Plasma,
}

impl Model for State {
    ghost use Rattle.pic_step.specs.StateView.{StateView};
    ghost use Rattle.pic_step.specs.Kept.{IsKept, seen};
    ghost use Rattle.pic_step.specs.Tracers.{identities};

    ghost Value = { StateView };

    ghost view = { λ s. record {
      world = seen s.step s.loops s.scales s.e s.b s.plasma;
      map = s.plasma.frame.map;
      followed = identities s.plasma.tracers.items;
    } };

    ghost invariant = { λ s. IsKept s.step s.loops s.scales s.e s.b s.plasma };
}

impl State {
    ghost use Rattle.pic_deck.specs.Deck.{deck_grid};
    ghost use Rattle.pic_devices.specs.Probes.{AreProbes};
    ghost use Rattle.pic_tile.specs.InOrder.{AreOrdered};
    ghost use Rattle.pic_tile.specs.Tiling.{cells_of, tiles_of};
    ghost use Rattle.pic_step.specs.Kept.{AreCut};
    ghost use Rattle.pic_step.specs.SerialRun.{start_of};
    ghost use Rattle.pic_step.specs.Shown.{Shows};
    ghost use Rattle.pic_step.specs.Sound.{IsSound};
    ghost use Rattle.pic_step.specs.Start.{begun, world_in_frame};
    ghost use Rattle.pic_step.specs.Tiled.{AreTilesOf};

    /// The state that a deck without displaced species begins with, with these particles. None is followed.
    pub fn new(alloc: Global, deck: &Deck, particles: &[Particle]) -> Result<State, NoMemory>
        requires { IsSound (start_of deck.now particles.now) }
        ensures world { IfOk result (λ s. s.world ≡ start_of deck.now particles.now) }
        ensures map { IfOk result (λ s. s.map ≡ tiles_of (deck_grid deck.now) deck.now.tiles) }
        ensures followed { IfOk result (λ s. s.followed ≡ []) }
    {
        let particles = Vec::from_slice(alloc, particles)?;
        State::begin(alloc, Start::new(alloc, deck, particles)?)
    }

    /// The first state of a run that begins so. The fields, which have a part for each layer of z, and
    /// the particles are moved into it. No particle is followed.
    pub fn begin(alloc: Global, start: Start) -> Result<State, NoMemory>
        requires sound { IsSound (begun start) }
        requires cut { AreCut start.setup.map start.e start.b }
        ensures world { IfOk result (λ s. s.world ≡ begun start) }
        ensures map { IfOk result (λ s. s.map ≡ start.setup.map) }
        ensures followed { IfOk result (λ s. s.followed ≡ []) }
    {
        State::begin_following(alloc, start, &[])
    }

    /// The same, where the particles with these identities are followed.
    pub fn begin_following(alloc: Global, start: Start, ids: &[u32]) -> Result<State, NoMemory>
        requires sound { IsSound (begun start) }
        requires cut { AreCut start.setup.map start.e start.b }
        requires ids { All (λ id. id < length start.particles.items) ids.now }
        ensures world { IfOk result (λ s. s.world ≡ begun start) }
        ensures map { IfOk result (λ s. s.map ≡ start.setup.map) }
        ensures followed { IfOk result (λ s. s.followed ≡ ids.now) }
    {
        let Start {
            setup,
            step,
            e,
            b,
            particles,
        } = start;
        let Setup {
            map,
            filter,
            loops,
            scales,
            kinds,
        } = setup;
        let _map = map.tiles();
        let plasma = Plasma::new(alloc, map, filter, kinds, particles.as_slice(), ids)?;
        Ok(State {
            step,
            loops,
            scales,
            e,
            b,
            plasma,
        })
    }

    /// The state after so many steps that stands in a snapshot of as many cells, under what stays in
    /// its run. Its fields and particles are those of the snapshot, the fields cut into layers of z and
    /// the particles into the tiles of the map; no particle is followed.
    pub fn from_frame(
        alloc: Global,
        setup: &Setup,
        step: u32,
        frame: &Snapshot,
    ) -> Result<State, NoMemory>
        requires e_cells { frame.now.e.cells ≡ cells_of setup.now.map }
        requires b_cells { frame.now.b.cells ≡ cells_of setup.now.map }
        requires sound { IsSound (world_in_frame setup.now step frame.now) }
        ensures world { IfOk result (λ s. s.world ≡ world_in_frame setup.now step frame.now) }
        ensures map { IfOk result (λ s. s.map ≡ setup.now.map) }
        ensures followed { IfOk result (λ s. s.followed ≡ []) }
    {
        State::begin(alloc, Start::from_frame(alloc, setup, step, frame)?)
    }

    /// After how many steps it is.
    pub fn step_number(&self) -> u32
        ensures value { result ≡ self.now.world.step }
        ensures most { result ≤ most_steps }
    {
        self.step
    }

    /// The numbers of cells and their side.
    pub fn cells(&self) -> Cells
        ensures value { result.n ≡ self.now.world.cells }
        ensures side { result.side ≡ self.now.world.side }
        ensures sound { IsSound self.now.world }
    {
        let frame = &self.plasma.frame;
        frame.map().cells()
    }

    /// The filter of the current: 0 for none, 1 for the binomial one.
    pub fn filter(&self) -> u32
        ensures { result ≡ self.now.world.filter }
    {
        match &self.plasma.smooth {
            None => 0,
            Some(_) => 1,
        }
    }

    /// The loops that drive the run.
    pub fn loops(&self) -> &[Loop]
        ensures { result.now ≡ self.now.world.loops }
    {
        self.loops.as_slice()
    }

    /// The multipliers.
    pub fn scales(&self) -> Scales
        ensures { result ≡ self.now.world.scales }
    {
        self.scales
    }

    /// What the particles of each species have in common.
    pub fn kinds(&self) -> &[Kind]
        ensures { result.now ≡ self.now.world.kinds }
    {
        self.plasma.frame.kinds()
    }

    /// How many particles there are.
    pub fn count(&self) -> u32
        ensures { result ≡ length self.now.world.particles }
    {
        self.plasma.count
    }

    /// The map of the state's cells, and its tiles in the order of their numbers: each has the
    /// particles whose cells are its own, and each particle is in one of them. A step leaves it
    /// so, however many workers push.
    pub fn tiles(&self) -> (&TileMap, &[Tile])
        ensures map { result.0.now ≡ self.now.map }
        ensures tiles { AreTilesOf self.now.world self.now.map result.1.now }
    {
        let map = self.plasma.frame.map();
        let _tiles = map.tiles();
        (map, self.plasma.tiles.as_slice())
    }

    /// Fills a snapshot of as many cells and particles: the fields, whose side and parts stay those of
    /// the snapshot, and the particles in the order of their identities. It takes no memory.
    pub fn fill(&self, to: &mut Snapshot)
        requires e_cells { to.old.e.cells ≡ self.now.world.cells }
        requires b_cells { to.old.b.cells ≡ self.now.world.cells }
        requires count { length to.old.particles.items ≡ length self.now.world.particles }
        ensures sound { IsSound self.now.world }
        ensures e { to.new.e ≡ record to.old.e { values = self.now.world.e } }
        ensures b { to.new.b ≡ record to.old.b { values = self.now.world.b } }
        ensures particles { to.new.particles.items ≡ self.now.world.particles }
    {
        let map = self.plasma.frame.map();
        let _tiles = map.tiles();
        to.e.copy_from(&self.e);
        to.b.copy_from(&self.b);
        write_tiles(&self.plasma.tiles, &mut to.particles);
    }

    /// Sorts the particles in memory: those of a tile come to lie side by side, as when the run began, so
    /// that its pushes read memory in order. The state stays as it is. It uses the particles of a snapshot
    /// of as many as room: what these were is lost. It takes no memory.
    pub fn sort(&mut self, room: &mut Snapshot)
        requires { length room.old.particles.items ≡ length self.old.world.particles }
        ensures state { self.new ≡ self.old }
        ensures e { room.new.e ≡ room.old.e }
        ensures b { room.new.b ≡ room.old.b }
        ensures count { length room.new.particles.items ≡ length room.old.particles.items }
    {
        let plasma = &mut self.plasma;
        let map = *plasma.frame.map();
        let _tiles = map.tiles();
        sort(
            &map,
            &mut plasma.tiles,
            &mut room.particles,
            &mut plasma.shelves,
        );
    }

    /// Shows in a snapshot of as many cells and particles what probes see: the fields at their places,
    /// and the particles that they follow, which the state follows too. The snapshot keeps its shape, and
    /// it takes no memory.
    pub fn look(&self, probes: &Probes, to: &mut Snapshot)
        requires probes { let w = self.now.world in
            AreProbes w.cells (length w.particles) probes.now }
        requires followed { self.now.followed ≡ probes.now.ids }
        requires e_cells { to.old.e.cells ≡ self.now.world.cells }
        requires b_cells { to.old.b.cells ≡ self.now.world.cells }
        requires count { length to.old.particles.items ≡ length self.now.world.particles }
        requires ordered { AreOrdered to.old.particles.items }
        ensures shows { Shows probes.now to.new self.now.world }
        ensures e { to.new.e ≡ record to.old.e { values = to.new.e.values } }
        ensures b { to.new.b ≡ record to.old.b { values = to.new.b.values } }
        ensures count { length to.new.particles.items ≡ length self.now.world.particles }
        ensures ordered { AreOrdered to.new.particles.items }
    {
        let places = probes.places.as_slice();
        copy_places(&self.e, places, &mut to.e);
        copy_places(&self.b, places, &mut to.b);
        write_each(&self.plasma.tracers, &mut to.particles);
    }
}
