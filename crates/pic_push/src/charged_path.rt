//! The path of a charged particle.

ghost use Rattle.std.specs.Prelude.{◌≡◌};
ghost use Rattle.pic_num.specs.Space.{spot};
ghost use Rattle.pic_push.specs.Paths.{IsPath, path_end};

use pic_num::{Sub, unwrapped};
use pic_split::{cell, end_of};

/// The path of a charged particle in one step: from a position by a move, in sub-cells, of which a
/// cell's side has `sub`.
#[derive(Clone, Copy)]
pub(crate) struct Path {
    pub sub: Sub,
    pub from: [u32; 3],
    pub by: [i32; 3],
    pub charge: i32,
}

impl Path {
    /// The cell of its end, which isn't wrapped.
    #[inline(always)]
    pub(crate) fn end(&self) -> [i32; 3]
        requires { IsPath self.now }
        ensures { spot result ≡ path_end self.now }
    {
        let _side = self.sub.side();
        cell(self.sub, end_of(unwrapped(self.from), self.by))
    }
}
