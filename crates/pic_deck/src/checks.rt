//! Whether the steps and the tiles of a run that no deck says are such as a deck's.

ghost use Rattle.std.specs.Prelude.{◌≤◌, OkIff};
ghost use Rattle.pic_num.specs.Limits.{most_steps};
ghost use Rattle.pic_num.specs.Space.{triple};
ghost use Rattle.pic_grid.specs.Tiles.{AreTiles};
ghost use Rattle.pic_settings.specs.Keys.{steps_fit};
ghost use Rattle.pic_settings.specs.Tiles.{tiles_fit};
ghost use Rattle.pic_deck.specs.Reading.{as_read};
ghost use Rattle.pic_deck.specs.Refusal.{ReadsAs};

use crate::refusal::DeckFault;
use pic_grid::Cells;
use std::alloc::Global;

/// Refuses the steps of a run that goes on behind `least` steps, where they are fewer or too many, as
/// a deck with such a `run.steps` is refused.
///
/// # Errors
/// `Refused`, with the limit that is passed, or `NoMemory`, only in place of a refusal.
pub fn check_steps(alloc: Global, least: u32, steps: u32) -> Result<(), DeckFault>
    ensures walks { ReadsAs (as_read (steps_fit least steps)) result }
    ensures exactly { OkIff result ((least ≤ steps) × (steps ≤ most_steps)) tt }
{
    Ok(pic_settings::check_steps(alloc, least, steps)?)
}

/// Refuses tiles that a grid of these cells can't be cut into, as a deck with this `grid.tiles` is
/// refused.
///
/// # Errors
/// `Refused`, with the limit that is passed first, or `NoMemory`, only in place of a refusal.
pub fn check_tiles(alloc: Global, cells: Cells, tiles: [u32; 3]) -> Result<(), DeckFault>
    ensures walks { ReadsAs (as_read (tiles_fit cells.n tiles)) result }
    ensures exactly { OkIff result (AreTiles cells.n (triple tiles)) tt }
{
    Ok(pic_settings::check_tiles(alloc, cells.numbers(), tiles)?)
}
