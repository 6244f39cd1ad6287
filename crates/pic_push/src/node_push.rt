//! The push of one particle of a tile.

ghost use Rattle.std.specs.Prelude.{◌≡◌, ◌∷◌, IfSome, IsTrue, Ok, Some};
ghost use Rattle.pic_num.specs.Space.{triple, spot};
ghost use Rattle.pic_boris.specs.Pushes.{shift_of, IsInLimits};
ghost use Rattle.pic_chain.specs.Links.{particle_of};
ghost use Rattle.pic_grid.specs.declared.stop.Stop.TheVariants.{Push};
ghost use Rattle.pic_gather.specs.Weak.{IsWeak};
ghost use Rattle.pic_grid.specs.PushPhase.{push_of, CanShare};
ghost use Rattle.pic_tile.specs.StopOf.{lesser};
ghost use Rattle.pic_tile.specs.Directions.{here};
ghost use Rattle.pic_tile.specs.Frame.{felt_in};
ghost use Rattle.pic_tile.specs.Layers.{lowest_cell};
ghost use Rattle.pic_tile.specs.Tiling.{cells_of};
ghost use Rattle.pic_tile.specs.Pushed.{IsOfTile};
ghost use Rattle.pic_push.specs.Sends.{HasHeadroom, HasParcels, Sends, SendsOut};

use crate::feeling::feel;
use crate::leading::{advance, advance_within, lead};
use crate::lone_push::feel_alone;
use crate::reach::{is_here, way_to};
use crate::sending::{path_of, send_flux};
use crate::stop_order::lesser;
use pic_block::Zone;
use pic_boris::{Halt, Moved};
use pic_chain::Node;
use pic_grid::Stop;
use pic_num::Particle;
use pic_tile::{Frame, Parcel, Tile};

/// The number of the way of most particles, whose push is narrow.
const NARROW: u32 = 0;

/// The number of the way of all others.
const WIDE: u32 = 1;

/// A particle's new velocity and its move in a frame, where `weak` says that all force values are
/// weak and the numbers of its push are small; else `None`, which says nothing.
#[inline(always)]
fn feel_in(frame: &Frame, weak: bool, particle: &Particle) -> Option<Moved>
    requires weak_e { IsTrue weak → IsWeak frame.now.force_e }
    requires weak_b { IsTrue weak → IsWeak frame.now.force_b }
    requires can { let m = frame.now.map in
        CanShare m.side (cells_of m) frame.now.kinds particle.now }
    ensures pushed { let w = felt_in frame.now in
        IfSome result (λ m. push_of w particle.now ≡ Ok (shift_of m)) }
    ensures limits { IfSome result (IsInLimits frame.now.map.side) }
{
    if !weak {
        return None;
    }
    let sub = frame.cells().sub();
    feel(
        sub,
        frame.kinds(),
        frame.force_e(),
        frame.force_b(),
        particle,
    )
}

/// Moves a particle that doesn't halt: its flux goes into all parcels of its tile, and it into that
/// of the direction in which it leads. Most stay in their tile.
#[inline(always)]
fn follow<const WAY: u32>(
    frame: &Frame,
    zone: Zone,
    node: Box<Node>,
    by: &Moved,
    tile: &mut Tile,
    own: &mut Parcel,
)
    requires of { IsOfTile frame.now.map frame.now.kinds tile.old.number (particle_of node.value) }
    requires low { spot zone.low ≡ lowest_cell frame.now.map tile.old.number }
    requires size { triple zone.size ≡ frame.now.map.size }
    requires open { HasParcels (spot zone.low) (triple zone.size) tile.old }
    requires room { HasHeadroom (spot zone.low) (triple zone.size) here own.old }
    requires push { push_of (felt_in frame.now) (particle_of node.value) ≡ Ok (shift_of by.now) }
    requires limits { IsInLimits frame.now.map.side by.now }
    ensures own { let w = felt_in frame.now in
        Sends w frame.now.map (particle_of node.value) here own.old own.new }
    ensures others { let w = felt_in frame.now in
        SendsOut w frame.now.map (particle_of node.value) tile.old tile.new }
{
    let path = path_of(frame, &node.particle(), by);
    let stays = send_flux::<WAY>(&path, zone, tile, own);
    let end = path.end();
    let (sub, cells) = (frame.cells().sub(), frame.cells());
    let mut node = node;
    frame.sound();
    if is_here(zone, end, stays) {
        advance_within(sub, cells, by, &mut node);
        own.chain.push(node);
        return;
    }
    advance(sub, cells, by, &mut node);
    lead(way_to(zone, end), node, tile, own);
}

/// Leaves a particle that halts in its tile as it was.
fn stay(node: Box<Node>, halt: Halt, own: &mut Parcel)
    ensures { let x = particle_of node.value in
        own.new ≡ record own.old {
          chain = x ∷ own.old.chain;
          stop = lesser own.old.stop (Some (Push x.id halt.what halt.axis halt.value));
        } }
{
    let stop = Stop::Push {
        id: node.particle().id,
        what: halt.what,
        axis: halt.axis,
        value: halt.value,
    };
    own.stop = lesser(own.stop, Some(stop));
    own.chain.push(node);
}

/// Pushes the particle of a node of a tile, as `push_node` does, whatever the force values and the
/// size of the numbers of its push. It stands apart from the push of most particles, and finds the
/// tile's zone by itself, so that none is kept for it.
#[inline(never)]
fn push_node_wide(frame: &Frame, node: Box<Node>, tile: &mut Tile, own: &mut Parcel)
    requires of { IsOfTile frame.now.map frame.now.kinds tile.old.number (particle_of node.value) }
    requires open { let m = frame.now.map in
        HasParcels (lowest_cell m tile.old.number) m.size tile.old }
    requires room { let m = frame.now.map in
        HasHeadroom (lowest_cell m tile.old.number) m.size here own.old }
    ensures own { let w = felt_in frame.now in
        Sends w frame.now.map (particle_of node.value) here own.old own.new }
    ensures others { let w = felt_in frame.now in
        SendsOut w frame.now.map (particle_of node.value) tile.old tile.new }
{
    let zone = own.flux.zone();
    match feel_alone(frame, &node.particle()) {
        Ok(by) => follow::<WIDE>(frame, zone, node, &by, tile, own),
        Err(halt) => stay(node, halt, own),
    }
}

/// Pushes the particle of a node of a tile, of which the parcel of no step is held apart; `weak`
/// says that all force values are weak. They mostly are, and the numbers of most pushes are small.
pub(crate) fn push_node(
    frame: &Frame,
    weak: bool,
    zone: Zone,
    node: Box<Node>,
    tile: &mut Tile,
    own: &mut Parcel,
)
    requires weak_e { IsTrue weak → IsWeak frame.now.force_e }
    requires weak_b { IsTrue weak → IsWeak frame.now.force_b }
    requires of { IsOfTile frame.now.map frame.now.kinds tile.old.number (particle_of node.value) }
    requires low { spot zone.low ≡ lowest_cell frame.now.map tile.old.number }
    requires size { triple zone.size ≡ frame.now.map.size }
    requires open { HasParcels (spot zone.low) (triple zone.size) tile.old }
    requires room { HasHeadroom (spot zone.low) (triple zone.size) here own.old }
    ensures own { let w = felt_in frame.now in
        Sends w frame.now.map (particle_of node.value) here own.old own.new }
    ensures others { let w = felt_in frame.now in
        SendsOut w frame.now.map (particle_of node.value) tile.old tile.new }
{
    match feel_in(frame, weak, &node.particle()) {
        Some(by) => follow::<NARROW>(frame, zone, node, &by, tile, own),
        None => push_node_wide(frame, node, tile, own),
    }
}
