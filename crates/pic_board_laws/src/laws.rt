//! The board stands for the core of events, step by step, and each number is drawn once.

ghost use Rattle.pic_board_laws.specs.Histories.{EachNumberIsDrawnOnce, EachStateEndsAHistory};
ghost use Rattle.pic_board_laws.specs.Histories.{NoTwoSeatsClaimOneTile};
ghost use Rattle.pic_board_laws.specs.Laws.{SlotsAreNoEvents, TheBoardBeginsAsTheCore};
ghost use Rattle.pic_board_laws.specs.Laws.{TheBoardEndsAsTheCore, TheBoardGoesOnAsTheCore};
ghost use Rattle.pic_board_laws.specs.Laws.{TheBoardRunsAsTheCore, TheBoardStandsForTheCore};

/// For every state of words, slots and views that meets the board's rule there is a state of the
/// core that it stands for, to which events lead from the core's start. The claimed tiles are those
/// below the ticket. A parcel is posted exactly where its sender is claimed and no live view owes
/// it. All parcels of a tile are merged, and it is shut, exactly where its arrival word is 28. Each
/// parcel is in one place, with what the push of its tile sends.
pub fn the_board_stands_for_the_core()
    ensures { TheBoardStandsForTheCore }
{}

/// At its start the board stands for the core before its first event.
pub fn the_board_begins_as_the_core()
    ensures { TheBoardBeginsAsTheCore }
{}

/// Each step of the board takes the core on by its events, each of them allowed when it comes: a
/// draw claims the tile of its number, or is no event past the last tile; an arrival posts a
/// parcel; giving back a tile merges its own parcel, then the other 26, and shuts it. The making
/// and the taking in of a seat are no events.
pub fn the_board_goes_on_as_the_core()
    ensures { TheBoardGoesOnAsTheCore }
{}

/// What seats put into their slots and take out of them is no event: the state of the core stays.
pub fn slots_are_no_events()
    ensures { SlotsAreNoEvents }
{}

/// That a state ends a history of such steps is kept, as the rule of the board is, by each draw,
/// post and return of a tile, and by the making and the taking in of a seat, whatever the other
/// seats do in between, with what each tells its seat.
pub fn each_state_ends_a_history()
    ensures { EachStateEndsAHistory }
{}

/// Whichever steps follow one another, in whatever order the seats take them, they are one list of
/// events of the core, each of them allowed when it comes.
pub fn the_board_runs_as_the_core()
    ensures { TheBoardRunsAsTheCore }
{}

/// Where the board is over, all tiles of the core that it stands for are shut.
pub fn the_board_ends_as_the_core()
    ensures { TheBoardEndsAsTheCore }
{}

/// Whichever steps follow one another, and whichever seats take them, no number is drawn twice.
pub fn each_number_is_drawn_once()
    ensures { EachNumberIsDrawnOnce }
{}

/// Between any two steps the last draw of each live view is below the ticket, and no two of them
/// owe parcels of one tile.
pub fn no_two_seats_claim_one_tile()
    ensures { NoTwoSeatsClaimOneTile }
{}
