//! One slot of a seat comes first.

ghost use Rattle.std.specs.Prelude.{◌≡◌, ◌∷◌};
ghost use mathlib.Core.Option.{some};
ghost use Rattle.pic_yard.specs.Fronts.{IsHeld, drop_slot, seek, to_front};

use atomic_table::{Seat, Shared, TableRule};

/// The given slot comes first among those that the seat holds, if it holds it. It has no effect
/// when it runs: the order of a seat's slots stands in contracts alone.
pub(crate) fn bring<S, V>(seat: &mut Seat<S, V>, slot: usize)
    ensures table { seat.new.table_id ≡ seat.old.table_id }
    ensures id { seat.new.id ≡ seat.old.id }
    ensures slots { seat.new.me ≡ (seat.old.me.0, to_front slot seat.old.me.1) }
{}

/// Puts a value into a slot that the seat holds, wherever that comes among its slots, and answers
/// what lay there.
pub(crate) fn exchange<S, V, K, P: TableRule<S, V, K>>(
    table: &Shared<S, V, K, P>,
    seat: &mut Seat<S, V>,
    slot: usize,
    new: S,
) -> S
    requires own { seat.old.table_id ≡ table.now.table_id }
    requires held { IsHeld slot seat.old.me.1 }
    ensures table { seat.new.table_id ≡ seat.old.table_id }
    ensures id { seat.new.id ≡ seat.old.id }
    ensures lay { seek slot seat.old.me.1 ≡ some result }
    ensures lies { seat.new.me ≡ (seat.old.me.0, (slot, new) ∷ drop_slot slot seat.old.me.1) }
{
    bring(seat, slot);
    table.exchange(seat, slot, new)
}
