//! What cuts a call off.

ghost use Rattle.std.specs.Prelude.{◌≡◌};
ghost use Rattle.pic_report.specs.declared.cut.Cut.TheVariants as cut;

use pic_io::Side;

/// What cuts a call off: it puts nothing more.
#[derive(Clone, Copy, Debug, PartialEq, Eq)]
pub enum Cut {
    /// A put failed on this side.
    Write(Side),
    /// Memory was refused.
    NoMemory,
}

impl From<Side> for Cut {
    ghost from_gives = { λ side result. result ≡ cut.Write side };

    fn from(side: Side) -> Cut {
        Cut::Write(side)
    }
}

impl From<pic_num::NoMemory> for Cut {
    ghost from_gives = { λ _ result. result ≡ cut.NoMemory };

    fn from(_refused: pic_num::NoMemory) -> Cut {
        Cut::NoMemory
    }
}
