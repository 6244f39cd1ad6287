//! What an event changes.

ghost use Rattle.std.specs.Prelude.{◌≡◌, ◌<◌, ◌↔◌, IsOk, MatchResult};
ghost use Rattle.pic_tile.specs.CoreEvents.{CanClaim, CanPost, CanMerge, CanShut};
ghost use Rattle.pic_tile.specs.CoreEvents.{Claims, Merges, after_post, after_shut};
ghost use Rattle.pic_tile.specs.CoreState.{HasCensus, Stands, tile_count};
ghost use Rattle.pic_tile.specs.Tiling.{neighbour_of};
ghost use Rattle.pic_core.specs.Events.{Allowed, Applied};

use crate::allowed::slot;
use crate::event::{Event, NotAllowed};
use crate::machine::Core;
use pic_merge::{merge, shut};
use pic_push::push_tile;
use pic_tile::Dir;

impl Core {
    /// Claims a tile, and pushes its particles.
    pub(crate) fn claim(&mut self, tile: u32)
        requires { CanClaim self.old tile }
        ensures { Claims self.old tile self.new }
    {
        push_tile(&self.frame, &mut self.tiles[tile as usize]);
        self.claimed[tile as usize] = true;
    }

    /// Posts the parcel of a direction to the tile that it leads to.
    pub(crate) fn post(&mut self, tile: u32, dir: Dir, to: u32)
        requires can { CanPost self.old tile dir }
        requires to { to ≡ neighbour_of self.old.frame.map.tiles tile dir }
        requires below { to < tile_count self.old }
        ensures { self.new ≡ after_post self.old tile dir }
    {
        let slot = slot(to, dir);
        let parcel = self.tiles[tile as usize].take_parcel(dir);
        self.mail[slot] = parcel;
        self.posted[slot] = true;
    }

    /// Finds the tile that a parcel leads to, and posts it there.
    fn find_and_post(&mut self, tile: u32, dir: Dir)
        requires { CanPost self.old tile dir }
        ensures { self.new ≡ after_post self.old tile dir }
    {
        let to = self.frame.map().neighbour(tile, dir);
        self.post(tile, dir, to);
    }

    /// Merges the parcel of a direction into the tile that it was posted to.
    pub(crate) fn merge(&mut self, tile: u32, dir: Dir)
        requires { CanMerge self.old tile dir }
        ensures { Merges self.old tile dir self.new }
    {
        let slot = slot(tile, dir);
        match self.mail[slot].take() {
            Some(parcel) => merge(&mut self.received[tile as usize], parcel),
            None => unreachable!(),
        }
        self.merged[slot] = true;
    }

    /// Shuts a tile.
    pub(crate) fn shut(&mut self, tile: u32)
        requires { CanShut self.old tile }
        ensures { self.new ≡ after_shut self.old tile }
    {
        shut(&mut self.received[tile as usize]);
        self.shut[tile as usize] = true;
    }

    /// What an event changes that is allowed.
    pub(crate) fn perform(&mut self, event: Event)
        requires { Allowed self.old event }
        ensures { Applied self.old event self.new }
    {
        match event {
            Event::Claim(tile) => self.claim(tile),
            Event::Post(tile, dir) => self.find_and_post(tile, dir),
            Event::Merge(tile, dir) => self.merge(tile, dir),
            Event::Shut(tile) => self.shut(tile),
        }
    }

    /// Lets an event come. It takes no memory.
    ///
    /// # Errors
    /// `NotAllowed` exactly where the event can't come in this state. Nothing is changed then.
    pub fn apply(&mut self, event: Event) -> Result<(), NotAllowed>
        ensures when { IsOk result ↔ Allowed self.old event }
        ensures then { MatchResult result (λ _. Applied self.old event self.new)
            (λ e. (e ≡ record { 0 = event }) × (self.new ≡ self.old)) }
        ensures stands { Stands self.new }
        ensures census { HasCensus self.new }
    {
        self.stands();
        if !self.allows(&event) {
            return Err(NotAllowed(event));
        }
        self.perform(event);
        self.stands();
        Ok(())
    }
}
