//! All events of a push of all tiles, as one worker lets them come.

ghost use Rattle.std.specs.Prelude.{◌≡◌, ◌+◌, ◌*◌, ◌<◌, false};
ghost use Rattle.pic_tile.specs.CoreState.{AreAllShut, Stands, tile_count, slot_of};
ghost use Rattle.pic_tile.specs.Directions.{directions};
ghost use Rattle.pic_tile.specs.Tiling.{neighbour_of};
ghost use Rattle.pic_core.specs.Events.{Ran};
ghost use Rattle.pic_core.specs.InTurn.{IsAt, IsFinishing, finishing, in_turn, merging};
ghost use Rattle.pic_core.specs.InTurn.{merging_at, posting, tiling, up_to};
ghost use Rattle.pic_core.specs.AtStart.{HasNotBegun};

use crate::allowed::are_all_marked;
use crate::around::neighbours;
use crate::machine::Core;
use pic_gate::{Gate, Point};
use pic_tile::Dir;

impl Core {
    /// Merges the parcel of the next direction into the tile to which a tile has posted; that of no
    /// step is merged.
    fn merge_next(&mut self, tile: u32, dir: Dir, to: u32, number: u32)
        requires tile { tile < tile_count self.old }
        requires dir { dir < directions }
        requires to { to ≡ neighbour_of self.old.frame.map.tiles tile dir }
        requires number { number < directions }
        requires at { IsFinishing tile dir (up_to number) self.old }
        ensures at { IsFinishing tile dir (up_to (number + 1)) self.new }
        ensures ran { Ran self.old (merging_at to number) self.new }
    {
        if number == Dir::HERE.number() {
            return;
        }
        self.stands();
        self.merge(to, Dir::of(number));
        self.stands();
    }

    /// Merges the parcels of all directions but that of no step, which is merged, into the tile to
    /// which a tile has posted.
    fn merge_others(&mut self, tile: u32, dir: Dir, to: u32)
        requires tile { tile < tile_count self.old }
        requires dir { dir < directions }
        requires to { to ≡ neighbour_of self.old.frame.map.tiles tile dir }
        requires at { IsFinishing tile dir (up_to 0) self.old }
        ensures at { IsFinishing tile dir (up_to directions) self.new }
        ensures ran { Ran self.old (merging to directions) self.new }
        ensures stands { Stands self.new }
    {
        for number in 0..Dir::COUNT {
            self.merge_next(tile, dir, to, number);
        }
        self.stands();
    }

    /// Merges all parcels into the tile to which a tile has posted, and shuts it.
    fn finish_tile(&mut self, tile: u32, dir: Dir, to: u32)
        requires tile { tile < tile_count self.old }
        requires dir { dir < directions }
        requires to { to ≡ neighbour_of self.old.frame.map.tiles tile dir }
        requires at { IsFinishing tile dir (λ _. false) self.old }
        ensures at { IsAt (tile + 1) (slot_of tile dir + 1) (slot_of tile dir + 1) self.new }
        ensures ran { Ran self.old (finishing to) self.new }
    {
        self.stands();
        self.merge(to, Dir::HERE);
        self.stands();
        self.merge_others(tile, dir, to);
        self.shut(to);
        self.stands();
    }

    /// Posts the next parcel, and finishes its tile where it is the last that leads there.
    fn post_next<G: Gate>(&mut self, tile: u32, dir: Dir, to: u32, gate: &G)
        requires tile { tile < tile_count self.old }
        requires dir { dir < directions }
        requires to { to ≡ neighbour_of self.old.frame.map.tiles tile dir }
        requires below { to < tile_count self.old }
        requires at { IsAt (tile + 1) (slot_of tile dir) (slot_of tile dir) self.old }
        ensures at { IsAt (tile + 1) (slot_of tile dir + 1) (slot_of tile dir + 1) self.new }
        ensures ran { Ran self.old (posting self.old.frame.map tile dir) self.new }
    {
        self.stands();
        self.post(tile, dir, to);
        self.stands();
        gate.pass(0, Point::Posted);
        if are_all_marked(&self.posted, to) {
            self.finish_tile(tile, dir, to);
        }
    }

    /// Claims the next tile and posts its parcels.
    fn run_tile<G: Gate>(&mut self, tile: u32, gate: &G)
        requires tile { tile < tile_count self.old }
        requires at { IsAt tile (tile * directions) (tile * directions) self.old }
        ensures at { IsAt (tile + 1) ((tile + 1) * directions) ((tile + 1) * directions) self.new }
        ensures ran { Ran self.old (tiling self.old.frame.map tile) self.new }
    {
        let to = neighbours(self.frame.map(), tile);
        self.stands();
        self.claim(tile);
        self.stands();
        gate.pass(0, Point::Claimed);
        for number in 0..Dir::COUNT {
            self.post_next(tile, Dir::of(number), to[number as usize], gate);
        }
    }

    /// Lets all events come from the first on, as one worker does: tile by tile it claims and posts
    /// the parcels by direction, and as soon as all that lead to a tile are posted it merges them,
    /// that of no step first, and shuts the tile. As worker 0 it passes the gate after each claim and
    /// each post. It takes no memory.
    pub fn run_in_turn<G: Gate>(&mut self, gate: &G)
        requires { HasNotBegun self.old }
        ensures ran { Ran self.old (in_turn self.old.frame.map) self.new }
        ensures finished { AreAllShut self.new }
    {
        for tile in 0..self.count() {
            self.run_tile(tile, gate);
        }
    }
}
