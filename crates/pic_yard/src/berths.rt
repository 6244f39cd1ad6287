//! A tile is laid into its place, or taken out of it.

ghost use Rattle.std.specs.Prelude.{◌≡◌, ◌∷◌, Some};
ghost use mathlib.Core.Option.{some};
ghost use Rattle.pic_yard.specs.Fronts.{drop_slot, seek};
ghost use Rattle.pic_yard.specs.Contents.{HasPlace};
ghost use Rattle.pic_yard.specs.declared.slot_content.SlotContent.TheVariants as holds;

use crate::fronts::exchange;
use crate::slot_content::SlotContent;
use crate::yard::{Seat, Yard};
use pic_tile::Tile;

impl Yard {
    /// Lays a tile, or none, into the place that lies with the seat in a home slot, and answers
    /// what lay there.
    pub(crate) fn exchange_tile(
        &self,
        seat: &mut Seat,
        slot: usize,
        tile: Option<Tile>,
    ) -> Option<Tile>
        requires own { seat.old.table_id ≡ self.now.table_id }
        requires place { HasPlace slot seat.old.me.1 }
        ensures table { seat.new.table_id ≡ seat.old.table_id }
        ensures lay { seek slot seat.old.me.1 ≡ some (Some (holds.Tile result)) }
        ensures lies { seat.new.me
            ≡ (seat.old.me.0, (slot, Some (holds.Tile tile)) ∷ drop_slot slot seat.old.me.1) }
    {
        match exchange(&self.table.shared, seat, slot, None) {
            Some(SlotContent::Tile(mut berth)) => {
                let was = berth.replace(tile);
                exchange(
                    &self.table.shared,
                    seat,
                    slot,
                    Some(SlotContent::Tile(berth)),
                );
                was
            }
            Some(SlotContent::Parcel(_)) => unreachable!(),
            None => unreachable!(),
        }
    }
}
