//! Lists of a document whose length has limits of its own.

ghost use Rattle.std.specs.Prelude.{◌≡◌, List, pos, length, IfOk};
ghost use Rattle.pic_walk.specs.Path.{path_of};
ghost use Rattle.pic_walk.specs.Limits.{MeetsLimits};
ghost use Rattle.pic_walk.specs.Walk.{WalksAs};
ghost use Rattle.pic_devices.specs.Lists.{counted};

use pic_num::Listed;
use pic_walk::{Address, Limits, WalkStop, check_within};
use std::alloc::Global;

/// These items as a list, of which there are as many at an address as the limits allow.
pub(crate) fn counted<T: Drop>(
    alloc: Global,
    address: Address<'_>,
    items: Vec<T>,
    limits: Limits,
) -> Result<Listed<T>, WalkStop>
    ensures walks { WalksAs (λ (xs : List T). xs)
        (counted limits (path_of address.entry) items.items) result }
    ensures same { IfOk result (λ xs. xs ≡ items.items) }
    ensures bounds { IfOk result (λ xs. MeetsLimits limits (pos (length xs))) }
{
    check_within(alloc, address, items.len() as i128, limits)?;
    Ok(Listed::from_vec(items))
}
