//! The end of a push of all tiles.

ghost use Rattle.std.specs.Prelude.{◌≡◌, ◌↔◌, ◌<◌, ℕ, IsTrue};
ghost use Rattle.pic_block.specs.Block.{AllAtMost};
ghost use Rattle.pic_grid.specs.Traces.{most_flux};
ghost use Rattle.pic_tile.specs.CoreState.{AreAllShut, tile_count, all_particles};
ghost use Rattle.pic_tile.specs.Directions.{here};
ghost use Rattle.pic_tile.specs.Exchanged.{AreExchanged};
ghost use Rattle.pic_tile.specs.Frame.{felt_in};
ghost use Rattle.pic_tile.specs.Tile.{flux_at, tile_in};
ghost use Rattle.pic_core.specs.AtStart.{IsScratch};

use crate::machine::Core;
use crate::scratch::{Scratch, make_bare, unmark};
use pic_tile::{Frame, Tile};

impl Core {
    /// Whether all tiles are shut.
    pub fn finished(&self) -> bool
        ensures { IsTrue result ↔ AreAllShut self.now }
    {
        for tile in 0..self.count() as usize {
            if !self.shut[tile] {
                return false;
            }
        }
        true
    }

    /// The frame, and the tiles in the order of their numbers, when all are shut: they have what
    /// the push phase of the list leaves that they stood for at the start. It takes no memory.
    pub fn close(self) -> (Frame, Vec<Tile>)
        requires { AreAllShut self }
        ensures frame { result.0 ≡ self.frame }
        ensures tiles { result.1.items ≡ self.received }
        ensures exchanged { AreExchanged (felt_in self.frame) self.frame.map
            (all_particles self.opening) result.1.items }
    {
        let (frame, tiles, _room) = self.close_with_scratch();
        (frame, tiles)
    }

    /// The same, and the scratch memory in which the core worked, ready for the next. The flux of
    /// each tile is within the bound of a push.
    pub fn close_with_scratch(self) -> (Frame, Vec<Tile>, Scratch)
        requires { AreAllShut self }
        ensures frame { result.0 ≡ self.frame }
        ensures tiles { result.1.items ≡ self.received }
        ensures scratch { IsScratch self.frame.map result.2 }
        ensures exchanged { AreExchanged (felt_in self.frame) self.frame.map
            (all_particles self.opening) result.1.items }
        ensures bound { (r : ℕ) → r < tile_count self
            → AllAtMost most_flux (flux_at (tile_in result.1.items r) here) }
    {
        let count = self.count();
        let Core {
            frame,
            opening: _,
            mut tiles,
            mail,
            received,
            mut claimed,
            mut posted,
            mut merged,
            mut shut,
        } = self;
        make_bare(&mut tiles, count);
        unmark(&mut claimed);
        unmark(&mut posted);
        unmark(&mut merged);
        unmark(&mut shut);
        let scratch = Scratch {
            bare: tiles,
            mail,
            claimed,
            posted,
            merged,
            shut,
        };
        (frame, received, scratch)
    }
}
