//! The particles of a state in tiles, and what their push works with.

ghost use Rattle.std.specs.Prelude.{◌≡◌, ◌<◌, ◌≤◌, length, IfOk, IfSome};
ghost use Rattle.std.specs.List.{All};
ghost use Rattle.pic_num.specs.Limits.{most_filter, most_particles, most_value};
ghost use Rattle.pic_num.specs.Space.{triple};
ghost use Rattle.pic_grid.specs.Hat.{IsInBox};
ghost use Rattle.pic_grid.specs.Lattice.{EachAtMost, value_at};
ghost use Rattle.pic_grid.specs.Parts.{layered};
ghost use Rattle.pic_filter.specs.Smoothing.{filtered, filter_in};
ghost use Rattle.pic_field.specs.FieldPhases.{full_of, no_drive, most_raised};
ghost use Rattle.pic_tile.specs.CoreState.{all_particles};
ghost use Rattle.pic_tile.specs.InOrder.{AreOrdered};
ghost use Rattle.pic_tile.specs.Tiling.{cells_of};
ghost use Rattle.pic_advance.specs.Current.{LiesOn};
ghost use Rattle.pic_advance.specs.Phases.{Advances};
ghost use Rattle.pic_step.specs.TileFlux.{flux_in};
ghost use Rattle.pic_step.specs.Tracers.{IsOf, identities};
ghost use Rattle.pic_step.specs.Plasma.{HasFlux, IsPlasma};

use crate::start::layered_lattice;
use crate::tile_flux::{spare_blocks, swap_each_flux};
use crate::tracers::tracers_of;
use pic_advance::{Current, drive_e};
use pic_block::Block;
use pic_core::Scratch;
use pic_grid::{Lattice, Phase, Stop};
use pic_num::{NoMemory, Particle, Scales};
use pic_sort::Shelves;
use pic_team::Team;
use pic_tile::{Frame, Kinds, Tile, TileMap, cut};
use std::alloc::Global;
use std::thread::Threads;

/// The particles of a state in tiles, so many in all, and what their push works with: the frame, the
/// room in which one worker's tiles receive parcels, a block for each tile, which stands in it
/// while its flux is elsewhere, and where the current is filtered a lattice for that. Beside them the
/// particles that the run follows stand once more, so that none is looked for in the tiles, and there are
/// shelves, on which the nodes of particles are sorted. All this memory is taken once; the board of two
/// or more workers is made anew in each step.
#[derive(Drop)]
pub struct Plasma {
    pub frame: Frame,
    pub tiles: Vec<Tile>,
    pub spare: Vec<Block>,
    pub room: Scratch,
    pub smooth: Option<Lattice>,
    pub tracers: Vec<Particle>,
    pub shelves: Shelves,
    pub count: u32,
}

impl Plasma {
    /// These particles, of these kinds, cut into the tiles of a map, whose current is filtered so. Their
    /// positions lie in the box. Those with these identities are followed.
    pub fn new(
        alloc: Global,
        map: TileMap,
        filter: u32,
        kinds: Kinds,
        particles: &[Particle],
        ids: &[u32],
    ) -> Result<Plasma, NoMemory>
        requires inside { All (λ p. IsInBox map.side (cells_of map) (triple p.x)) particles.now }
        requires few { length particles.now ≤ most_particles }
        requires filter { filter ≤ most_filter }
        requires ordered { AreOrdered particles.now }
        requires ids { All (λ id. id < length particles.now) ids.now }
        ensures map { IfOk result (λ p. p.frame.map ≡ map) }
        ensures filter { IfOk result (λ p. filter_in p.smooth ≡ filter) }
        ensures kinds { IfOk result (λ p. p.frame.kinds ≡ kinds) }
        ensures plasma { IfOk result (IsPlasma particles.now) }
        ensures tracers { IfOk result (λ p. All (IsOf particles.now) p.tracers.items) }
        ensures followed { IfOk result (λ p. identities p.tracers.items ≡ ids.now) }
    {
        let tiles = cut(alloc, &map, particles)?;
        let spare = spare_blocks(alloc, tiles.len())?;
        let room = Scratch::new(alloc, map)?;
        let frame = frame_for(alloc, map, kinds)?;
        let smooth = smooth_for(alloc, map, filter)?;
        let tracers = tracers_of(alloc, ids, particles)?;
        let shelves = Shelves::new(alloc, particles.len(), map.cells_of_tile())?;
        Ok(Plasma {
            frame,
            tiles,
            spare,
            room,
            smooth,
            tracers,
            shelves,
            count: particles.len() as u32,
        })
    }

    /// A step of E by the current that the push left. Each tile's finished block of flux moves out of
    /// it, the lot is the lattice of the current, and the spent blocks move back: the tiles are left
    /// without flux, ready for the next push, also where the answer is a stop. The values of E may be
    /// those that the current of loops was added to.
    pub fn advance_e<H: Threads + Sync, G>(
        self,
        team: &Team<H, G>,
        scales: &Scales,
        b: &Lattice,
        e: Lattice,
    ) -> (Result<Lattice, Stop>, Plasma)
        requires flux { HasFlux self }
        requires b_cells { b.now.cells ≡ cells_of self.frame.map }
        requires e_cells { e.cells ≡ cells_of self.frame.map }
        requires b_small { EachAtMost most_value b.now }
        requires e_small { EachAtMost most_raised e }
        ensures fields { Advances Phase.Electric scales.now.e_force b.now.side b.now.cells e.parts
            (λ a p. full_of scales.now b.now no_drive a p (value_at e a p)
            (filtered (filter_in self.smooth) b.now.cells
            (flux_in self.frame.map self.tiles.items a) p))
            result.0 }
        ensures frame { result.1.frame ≡ self.frame }
        ensures filter { filter_in result.1.smooth ≡ filter_in self.smooth }
        ensures tracers { result.1.tracers ≡ self.tracers }
        ensures particles { all_particles result.1.tiles.items ≡ all_particles self.tiles.items }
        ensures plasma { IsPlasma (all_particles self.tiles.items) result.1 }
    {
        let Plasma {
            frame,
            mut tiles,
            mut spare,
            room,
            smooth,
            tracers,
            shelves,
            count,
        } = self;
        let map = frame.map();
        let cells = map.cells();
        let parts = map.tiles();
        swap_each_flux(&mut tiles, &mut spare);
        let flux = Lattice::of_blocks(cells, parts, spare);
        let (e, spent) = drive_e(team, scales, b, Current { flux, smooth }, e);
        let Current { flux, smooth } = spent;
        let mut spare = flux.into_blocks();
        swap_each_flux(&mut tiles, &mut spare);
        let plasma = Plasma {
            frame,
            tiles,
            spare,
            room,
            smooth,
            tracers,
            shelves,
            count,
        };
        (e, plasma)
    }
}

/// A lattice with a part for each tile, as the current has, where that is filtered.
fn smooth_for(alloc: Global, map: TileMap, filter: u32) -> Result<Option<Lattice>, NoMemory>
    requires { filter ≤ most_filter }
    ensures filter { IfOk result (λ smooth. filter_in smooth ≡ filter) }
    ensures lies { IfOk result (λ smooth. IfSome smooth (LiesOn (cells_of map) map.tiles)) }
{
    if filter == 0 {
        return Ok(None);
    }
    let smooth = Lattice::new(alloc, map.cells(), map.tiles())?;
    Ok(Some(smooth))
}

/// A frame without forces, on lattices with a part for each layer of z: in these a gather finds its
/// places soonest, and workers share the layers out.
fn frame_for(alloc: Global, map: TileMap, kinds: Kinds) -> Result<Frame, NoMemory>
    ensures map { IfOk result (λ f. f.map ≡ map) }
    ensures kinds { IfOk result (λ f. f.kinds ≡ kinds) }
    ensures parts { IfOk result (λ f. f.force_e.parts ≡ layered (cells_of map)) }
{
    let force_e = layered_lattice(alloc, &map)?;
    let force_b = layered_lattice(alloc, &map)?;
    Ok(Frame::new(map, kinds, force_e, force_b))
}
