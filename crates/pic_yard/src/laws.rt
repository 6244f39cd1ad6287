//! Laws of the board's rule. Each is the contract of a function that does nothing.

ghost use Rattle.pic_yard.specs.Census.{ATileIsItsParcels, TheRuleKeepsTheCensus};
ghost use Rattle.pic_yard.specs.Laws.{ABoardBeginsWithTheRule, DrawsKeepTheRule, PostsKeepTheRule};
ghost use Rattle.pic_yard.specs.Laws.{ReturnsKeepTheRule, SplitsKeepTheRule, JoinsKeepTheRule};
ghost use Rattle.pic_yard.specs.Laws.{TheLastSeatEndsAll};

/// A board begins with its rule.
pub fn a_board_begins_with_the_rule()
    ensures { ABoardBeginsWithTheRule }
{}

/// A draw from the ticket keeps the rule of the board: a tile is claimed by the one seat that drew
/// it.
pub fn draws_keep_the_rule()
    ensures { DrawsKeepTheRule }
{}

/// A post keeps the rule of the board, and the last to a tile, and no other, gives the right to it.
pub fn posts_keep_the_rule()
    ensures { PostsKeepTheRule }
{}

/// Giving back a finished tile keeps the rule of the board.
pub fn returns_keep_the_rule()
    ensures { ReturnsKeepTheRule }
{}

/// The making of a seat keeps the rule of the board.
pub fn splits_keep_the_rule()
    ensures { SplitsKeepTheRule }
{}

/// The taking in of a seat keeps the rule of the board.
pub fn joins_keep_the_rule()
    ensures { JoinsKeepTheRule }
{}

/// The one seat that is left and has nothing to do finds all tiles finished.
pub fn the_last_seat_ends_all()
    ensures { TheLastSeatEndsAll }
{}

/// Between any two steps, of whichever seats, the particles in all slots and with all seats are
/// those of the start, each once.
pub fn the_rule_keeps_the_census()
    ensures { TheRuleKeepsTheCensus }
{}

/// A tile has at the start the identities of the parcels that its push makes of it: a claim holds
/// the same before its push and after.
pub fn a_tile_is_its_parcels()
    ensures { ATileIsItsParcels }
{}
