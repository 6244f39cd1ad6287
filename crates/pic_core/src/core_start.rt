//! The start of a push of all tiles.

ghost use Rattle.std.specs.Prelude.{IfOk};
ghost use Rattle.pic_tile.specs.CoreState.{HasCensus, IsOpening};
ghost use Rattle.pic_core.specs.AtStart.{HasNotBegun, IsAtStart, IsScratch};

use crate::machine::Core;
use crate::scratch::Scratch;
use pic_num::NoMemory;
use pic_tile::{Frame, Tile};
use std::alloc::Global;
use std::snapshot::Snapshot;

impl Core {
    /// The push of these tiles in a frame, before the first event, as `begin` makes it in scratch
    /// memory of its own. This call alone takes memory.
    ///
    /// # Errors
    /// `NoMemory` where memory is refused; the frame and the tiles are given up then.
    pub fn new(alloc: Global, frame: Frame, tiles: Vec<Tile>) -> Result<Core, NoMemory>
        requires { IsOpening frame tiles.items }
        ensures opened { IfOk result (IsAtStart frame tiles.items) }
        ensures not_begun { IfOk result HasNotBegun }
        ensures census { IfOk result HasCensus }
    {
        let scratch = Scratch::new(alloc, *frame.map())?;
        Ok(Core::begin(frame, tiles, scratch))
    }

    /// The push of these tiles in a frame, before the first event, in scratch memory for them. They
    /// are all tiles of the frame's map in order, before their push, and stand for a list of
    /// particles within the limits, whose identities are 0, 1, .. in order. It takes no memory.
    pub fn begin(frame: Frame, tiles: Vec<Tile>, scratch: Scratch) -> Core
        requires opening { IsOpening frame tiles.items }
        requires scratch { IsScratch frame.map scratch }
        ensures opened { IsAtStart frame tiles.items result }
        ensures not_begun { HasNotBegun result }
        ensures census { HasCensus result }
    {
        frame.sound();
        let Scratch {
            bare,
            mail,
            claimed,
            posted,
            merged,
            shut,
        } = scratch;
        let core = Core {
            frame,
            opening: Snapshot::of(&tiles),
            tiles,
            mail,
            received: bare,
            claimed,
            posted,
            merged,
            shut,
        };
        core.stands();
        core
    }
}
