//! Which events can come.

ghost use Rattle.std.specs.Prelude.{◌≡◌, ◌↔◌, ◌+◌, ◌*◌, ◌≤◌, ℕ, ◌<◌, IsTrue, length, true};
ghost use Rattle.pic_tile.specs.CoreEvents.{CanClaim, CanPost, CanMerge, CanShut};
ghost use Rattle.pic_tile.specs.CoreState.{mark, slot_of};
ghost use Rattle.pic_tile.specs.Directions.{directions};
ghost use Rattle.pic_tile.specs.Receiving.{AreAllDone};
ghost use Rattle.pic_tile.specs.Tiling.{neighbour_of};
ghost use Rattle.pic_core.specs.Events.{Allowed};

use crate::event::Event;
use crate::machine::Core;
use pic_tile::Dir;

/// Where the parcel of a direction to a tile has its place.
pub(crate) fn slot(tile: u32, dir: Dir) -> usize
    ensures value { result ≡ slot_of tile dir }
    ensures dir { dir < directions }
{
    tile as usize * Dir::COUNT as usize + dir.number() as usize
}

/// Whether the marks of all parcels to a tile are set.
pub(crate) fn are_all_marked(marks: &[bool], tile: u32) -> bool
    requires { tile * directions + directions ≤ length marks.now }
    ensures { IsTrue result ↔ AreAllDone (λ d. mark marks.now (slot_of tile d)) }
{
    let first = tile as usize * Dir::COUNT as usize;
    for d in 0..Dir::COUNT as usize {
        if !marks[first + d] {
            return false;
        }
    }
    true
}

impl Core {
    fn may_claim(&self, tile: u32) -> bool
        ensures { IsTrue result ↔ CanClaim self.now tile }
    {
        tile < self.count() && !self.claimed[tile as usize]
    }

    fn may_post(&self, tile: u32, dir: Dir) -> bool
        ensures { IsTrue result ↔ CanPost self.now tile dir }
    {
        if tile >= self.count() || !self.claimed[tile as usize] {
            return false;
        }
        let to = self.frame.map().neighbour(tile, dir);
        !self.posted[slot(to, dir)]
    }

    fn may_merge(&self, tile: u32, dir: Dir) -> bool
        ensures { IsTrue result ↔ CanMerge self.now tile dir }
    {
        if tile >= self.count() {
            return false;
        }
        if !are_all_marked(&self.posted, tile) {
            return false;
        }
        if self.merged[slot(tile, dir)] {
            return false;
        }
        dir == Dir::HERE || self.merged[slot(tile, Dir::HERE)]
    }

    fn may_shut(&self, tile: u32) -> bool
        ensures { IsTrue result ↔ CanShut self.now tile }
    {
        tile < self.count() && are_all_marked(&self.merged, tile) && !self.shut[tile as usize]
    }

    /// Whether an event can come.
    pub(crate) fn allows(&self, event: &Event) -> bool
        ensures { IsTrue result ↔ Allowed self.now event.now }
    {
        match *event {
            Event::Claim(tile) => self.may_claim(tile),
            Event::Post(tile, dir) => self.may_post(tile, dir),
            Event::Merge(tile, dir) => self.may_merge(tile, dir),
            Event::Shut(tile) => self.may_shut(tile),
        }
    }
}
