//! Laws of particles in any order, and of tiles. Each is the contract of a function that does
//! nothing.

ghost use Rattle.pic_tile.specs.Held.{FreshTilesHoldTheList};
ghost use Rattle.pic_tile.specs.InOrder.{AnyOrderIsTheList, CensusIsPutInOrder, WrittenIsInOrder};
ghost use Rattle.pic_tile.specs.InOrder.{CensusIsARearrangement, SameIsARearrangement};
ghost use Rattle.pic_tile.specs.LeastOfTiles.{LeastOfTilesIsFound};
ghost use Rattle.pic_tile.specs.StopOf.{LeastStopInAnyOrder};

/// A list in the order of identities is found again from its particles in any order.
pub fn any_order_is_the_list()
    ensures { AnyOrderIsTheList }
{}

/// Particles of a census, put in order, are the same, and their identities are 0, 1, .., n - 1.
pub fn census_is_put_in_order()
    ensures { CensusIsPutInOrder }
{}

/// Particles of a census, each written at the place of its identity, make the list in order.
pub fn written_is_in_order()
    ensures { WrittenIsInOrder }
{}

/// Two lists have the same particles in any order exactly where one is a rearrangement of the
/// other.
pub fn same_is_a_rearrangement()
    ensures { SameIsARearrangement }
{}

/// The census says that the identities of n particles are a rearrangement of 0, 1, .., n - 1.
pub fn census_is_a_rearrangement()
    ensures { CensusIsARearrangement }
{}

/// The stop of a push is found from the particles in any order.
pub fn least_stop_in_any_order()
    ensures { LeastStopInAnyOrder }
{}

/// The tiles into which a list is cut have its particles, each once.
pub fn fresh_tiles_hold_the_list()
    ensures { FreshTilesHoldTheList }
{}

/// What is found of the stops of tiles: none exactly where no tile has one; else that of some tile,
/// and no tile has one of a lesser identity.
pub fn law_of_the_least_of_tiles()
    ensures { LeastOfTilesIsFound }
{}
