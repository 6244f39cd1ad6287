//! What the limits of a deck go by.

ghost use Rattle.std.specs.Prelude.{◌≡◌};

use pic_grid::Cells;
use std::marker::Model;

/// What the limits of a deck go by: its version, and the cells of its grid with their side.
#[derive(Clone, Copy, Debug)]
pub struct Terms {
    version: u32,
    cells: Cells,
}

impl Model for Terms {
    ghost use Rattle.pic_walk.specs.Terms.{TermsView};

    ghost Value = { TermsView };

    ghost view = { λ t. record { version = t.version; grid = t.cells } };

    ghost inverse = { λ t. record { version = t.version; cells = t.grid } };
}

impl Terms {
    /// The terms of a deck of this version and this grid.
    pub fn new(version: u32, cells: Cells) -> Terms
        ensures { result ≡ record { version = version; grid = cells } }
    {
        Terms { version, cells }
    }

    /// The version.
    pub fn version(self) -> u32
        ensures { result ≡ self.version }
    {
        self.version
    }

    /// The cells of the grid.
    pub fn cells(self) -> Cells
        ensures { result ≡ self.grid }
    {
        self.cells
    }
}
