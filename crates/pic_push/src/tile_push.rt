//! The push of a tile.

ghost use Rattle.std.specs.Prelude.{◌≡◌, ◌≤◌, length, All};
ghost use Rattle.pic_num.specs.Limits.{most_particles};
ghost use Rattle.pic_tile.specs.Directions.{here};
ghost use Rattle.pic_tile.specs.Frame.{felt_in};
ghost use Rattle.pic_tile.specs.Parcels.{IsFresh};
ghost use Rattle.pic_tile.specs.Tile.{chain_at};
ghost use Rattle.pic_tile.specs.Pushed.{IsOfTile, IsPushed};
ghost use Rattle.pic_push.specs.HeldApart.{IsHeldApart, IsSentOut};

use crate::feeling::has_weak_forces;
use crate::node_push::push_node;
use pic_tile::{Dir, Frame, Parcel, Tile};

/// Pushes every particle of a tile whose parcel of no step, which has them, is held apart.
fn push_chain(frame: &Frame, tile: &mut Tile, own: &mut Parcel)
    requires opened { IsHeldApart frame.now.map own.old tile.old }
    requires few { length own.old.chain ≤ most_particles }
    requires particles { let f = frame.now in
        All (IsOfTile f.map f.kinds tile.old.number) own.old.chain }
    ensures { let w = felt_in frame.now in
        IsSentOut w frame.now.map own.old.chain tile.old.number own.new tile.new }
{
    let _side = frame.cells().sub().side();
    let weak = has_weak_forces(frame);
    let zone = own.flux.zone();
    let mut rest = own.chain.take();
    while let Some(node) = rest.pop() {
        push_node(frame, weak, zone, node, tile, own);
    }
}

/// Pushes every particle of a tile by the force values at its position: one that moves goes by its
/// node into the parcel of the direction in which it leads, one that halts stays as it was in that
/// of no step, where the stop of the least identity stands afterwards. The parcel of each direction
/// has the flux that the tile's particles send through its layers, in twelfths of a charge times a
/// cubic sub-cell, unwrapped. The tile is fresh, and its particles are of the frame's kinds and lie
/// in it. It takes no memory.
pub fn push_tile(frame: &Frame, tile: &mut Tile)
    requires fresh { IsFresh frame.now.map tile.old }
    requires few { length (chain_at tile.old here) ≤ most_particles }
    requires particles { let f = frame.now in
        All (IsOfTile f.map f.kinds tile.old.number) (chain_at tile.old here) }
    ensures number { tile.new.number ≡ tile.old.number }
    ensures pushed { IsPushed (felt_in frame.now) frame.now.map (chain_at tile.old here) tile.new }
{
    tile.in_place();
    match tile.take_parcel(Dir::HERE) {
        Some(mut own) => {
            push_chain(frame, tile, &mut own);
            tile.put_parcel(own);
        }
        None => unreachable!(),
    }
}
