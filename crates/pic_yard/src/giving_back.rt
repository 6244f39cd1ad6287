//! The parcels of a tile are received, and the finished tile is given back.

ghost use Rattle.std.specs.Prelude.{◌≡◌, ℕ, ◌<◌, ◌≤◌, Some};
ghost use Rattle.pic_grid.specs.Tiles.{most_tiles};
ghost use Rattle.pic_tile.specs.Directions.{directions};
ghost use Rattle.pic_yard.specs.Contents.{IsShut, from_of};
ghost use Rattle.pic_yard.specs.Members.{In};
ghost use Rattle.pic_yard.specs.Returns.{IsPutHome, TellsBack, boxes_on, shed};
ghost use Rattle.pic_yard.specs.Steps.{gave_back};
ghost use Rattle.pic_yard.specs.Yards.{AreReceived, IsReceived, IsSentBy, KeepsMail, MailWaits};
ghost use Rattle.pic_yard.specs.Yards.{Serves, mail_of, opening_of, view_of};

use crate::claim::Right;
use crate::fronts::{bring, exchange};
use crate::slot_content::SlotContent;
use crate::slot_numbers::{SLOTS, home, mailbox};
use crate::view::View;
use crate::yard::{Seat, Yard};
use atomic_table::Play;
use pic_tile::{Dir, ParcelBox, Tile};

/// A tile that is given back.
pub struct GiveBack;

impl Play<Option<SlotContent>, View> for GiveBack {
    ghost then = { λ step old n new. TellsBack step.word old new };
}

/// The mailboxes of a tile come first among the slots of a seat. It has no effect when it runs.
fn stack(seat: &mut Seat, tile: u32)
    requires few { tile ≤ most_tiles }
    requires received { AreReceived seat.old tile }
    ensures table { seat.new.table_id ≡ seat.old.table_id }
    ensures slots { seat.new.me
        ≡ (seat.old.me.0, boxes_on tile directions (shed tile directions seat.old.me.1)) }
{
    for number in 0..Dir::COUNT {
        bring(seat, mailbox(tile, Dir::of(number)));
    }
}

impl Yard {
    /// Lays a finished tile into its home slot.
    fn put_home(&self, seat: &mut Seat, number: u32, tile: Tile)
        requires serves { Serves self.now seat.old }
        requires right { In number (view_of seat.old).rights }
        requires received { AreReceived seat.old number }
        requires finished { IsShut (opening_of self.now) number tile }
        ensures { IsPutHome (opening_of self.now) seat.old seat.new number }
    {
        stack(seat, number);
        self.exchange_tile(seat, home(number), Some(tile));
    }

    /// The parcel of a direction that was posted to the tile of a right and is not yet received.
    pub fn receive(&self, seat: &mut Seat, right: &mut Right, dir: Dir) -> ParcelBox
        requires serves { Serves self.now seat.old }
        requires right { In right.old (view_of seat.old).rights }
        requires waits { MailWaits (opening_of self.now) seat.old right.old dir }
        ensures serves { Serves self.now seat.new }
        ensures parcel { let o = opening_of self.now in
            IsSentBy o (from_of o right.old dir) dir (Some result) }
        ensures right { right.new ≡ right.old }
        ensures view { view_of seat.new ≡ view_of seat.old }
        ensures received { IsReceived seat.new right.old dir }
        ensures others { (r d : ℕ) → d < directions
            → ((r ≡ right.old) × (d ≡ dir) → ⊥)
            → mail_of seat.new r d ≡ mail_of seat.old r d }
    {
        match exchange(&self.table.shared, seat, mailbox(right.number, dir), None) {
            Some(SlotContent::Parcel(parcel)) => parcel,
            Some(SlotContent::Tile(_)) => unreachable!(),
            None => unreachable!(),
        }
    }

    /// Gives back the tile of a right, all whose parcels are received and merged into it.
    pub fn give_back(&self, seat: &mut Seat, right: Right, tile: Tile)
        requires serves { Serves self.now seat.old }
        requires right { In right (view_of seat.old).rights }
        requires received { AreReceived seat.old right }
        requires finished { IsShut (opening_of self.now) right tile }
        ensures serves { Serves self.now seat.new }
        ensures view { view_of seat.new ≡ gave_back right (view_of seat.old) }
        ensures kept { KeepsMail (view_of seat.new) seat.old seat.new }
    {
        self.put_home(seat, right.number, tile);
        self.table
            .shared
            .store::<GiveBack>(seat, right.number as usize + 1, SLOTS as u64);
    }
}
