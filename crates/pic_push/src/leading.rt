//! Particles that go from parcel to parcel by their nodes.

ghost use Rattle.std.specs.Prelude.{◌≡◌, ◌∷◌, IsSome, Some, None};
ghost use Rattle.pic_chain.specs.Links.{particle_of};
ghost use Rattle.pic_grid.specs.Hat.{IsInBox};
ghost use Rattle.pic_grid.specs.PushPhase.{moved};
ghost use Rattle.pic_num.specs.Push.{plus};
ghost use Rattle.pic_num.specs.Space.{triple, spot, unwrapped};
ghost use Rattle.pic_boris.specs.Pushes.{shift_of};
ghost use Rattle.pic_tile.specs.declared.parcel.Parcel.{Parcel};
ghost use Rattle.pic_tile.specs.Directions.{here};
ghost use Rattle.pic_tile.specs.Tile.{parcel_at, Replaced};
ghost use Rattle.pic_push.specs.Paths.{StaysInBox};
ghost use Rattle.pic_push.specs.Sends.{received, Receives};

use crate::moves::{moved, moved_within};
use pic_boris::Moved;
use pic_chain::Node;
use pic_grid::Cells;
use pic_num::Sub;
use pic_tile::{Dir, Parcel, Tile};

/// Moves a node's particle, wrapped into the box.
#[inline(always)]
#[tactic(auto, unfolding(pic_grid::specs::PushPhase::moved))]
pub(crate) fn advance(sub: Sub, cells: Cells, by: &Moved, node: &mut Node)
    requires { IsInBox sub cells.n (triple (particle_of node.old).x) }
    ensures { particle_of node.new ≡ moved sub cells.n (particle_of node.old) (shift_of by.now) }
{
    let after = moved(sub, cells, &node.particle(), by);
    node.set(after.x, after.v);
}

/// Moves a node's particle that stays in the box, where nothing has to be wrapped.
#[inline(always)]
#[tactic(auto, unfolding(pic_grid::specs::PushPhase::moved))]
pub(crate) fn advance_within(sub: Sub, cells: Cells, by: &Moved, node: &mut Node)
    requires from { IsInBox sub cells.n (triple (particle_of node.old).x) }
    requires to { let x = (particle_of node.old).x in
        StaysInBox sub cells.n (plus (unwrapped (triple x)) (spot by.now.d)) }
    ensures { particle_of node.new ≡ moved sub cells.n (particle_of node.old) (shift_of by.now) }
{
    let after = moved_within(sub, cells, &node.particle(), by);
    node.set(after.x, after.v);
}

/// Puts a node into a tile's parcel of a direction.
fn put_node(dir: Dir, node: Box<Node>, tile: &mut Tile)
    requires { IsSome (parcel_at tile.old dir) }
    ensures { (p : Parcel) → parcel_at tile.old dir ≡ Some p
        → Replaced tile.old tile.new dir (record p { chain = particle_of node.value ∷ p.chain }) }
{
    match tile.take_parcel(dir) {
        Some(mut parcel) => {
            parcel.chain.push(node);
            tile.put_parcel(parcel);
        }
        None => unreachable!(),
    }
}

/// Puts a node into the parcel of a direction, of which that of no step is held apart.
pub(crate) fn lead(dir: Dir, node: Box<Node>, tile: &mut Tile, own: &mut Parcel)
    requires apart { parcel_at tile.old here ≡ None }
    requires whole { (dir ≡ here → ⊥) → IsSome (parcel_at tile.old dir) }
    ensures own { own.new ≡ received (particle_of node.value) dir here own.old }
    ensures others { Receives (particle_of node.value) dir tile.old tile.new }
{
    if dir.number() == Dir::HERE.number() {
        own.chain.push(node);
        return;
    }
    put_node(dir, node, tile);
}
