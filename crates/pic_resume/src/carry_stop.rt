//! Why a dump isn't carried on.

ghost use Rattle.std.specs.Prelude.{◌≡◌};
ghost use Rattle.pic_resume.specs.CarryStops.{stop_of_head, stop_of_read, stop_of_deck};
ghost use Rattle.pic_resume.specs.declared.carry_stop.CarryStop.TheVariants.{WriteFault, NoMemory};

use pic_charge::Break;
use pic_deck::{DeckFault, Refusal};
use pic_dump::{HeadStop, ReadStop};
use pic_io::Side;

/// Why a dump wasn't carried on.
#[derive(Debug, Drop)]
pub enum CarryStop {
    /// A read of the source failed.
    ReadFault,
    /// The first fault of the bytes: its cause, and at which place from the start of the input.
    BadDump { place: u64, cause: u8 },
    /// The steps or the tiles that were asked for aren't within the limits that the header gives.
    Refused(Refusal),
    /// The first frame, counted from 0, in which Gauss's law fails, and the least node where it does.
    Broken { frame: u32, at: Break },
    /// A write failed, on this side.
    WriteFault(Side),
    /// Want of memory, before the first write.
    NoMemory,
}

impl From<ReadStop> for CarryStop {
    ghost from_gives = { λ stop e. e ≡ stop_of_read stop };

    fn from(stop: ReadStop) -> CarryStop {
        match stop {
            ReadStop::ReadFault => CarryStop::ReadFault,
            ReadStop::BadDump { place, cause } => CarryStop::BadDump { place, cause },
        }
    }
}

impl From<HeadStop> for CarryStop {
    ghost from_gives = { λ stop e. e ≡ stop_of_head stop };

    fn from(stop: HeadStop) -> CarryStop {
        match stop {
            HeadStop::Read(stop) => CarryStop::from(stop),
            HeadStop::NoMemory => CarryStop::NoMemory,
        }
    }
}

impl From<DeckFault> for CarryStop {
    ghost from_gives = { λ fault e. e ≡ stop_of_deck fault };

    fn from(fault: DeckFault) -> CarryStop {
        match fault {
            DeckFault::Refused(refusal) => CarryStop::Refused(refusal),
            DeckFault::NoMemory => CarryStop::NoMemory,
        }
    }
}

impl From<Side> for CarryStop {
    ghost from_gives = { λ side e. e ≡ WriteFault side };

    fn from(side: Side) -> CarryStop {
        CarryStop::WriteFault(side)
    }
}

impl From<pic_num::NoMemory> for CarryStop {
    ghost from_gives = { λ _ e. e ≡ NoMemory };

    fn from(_refused: pic_num::NoMemory) -> CarryStop {
        CarryStop::NoMemory
    }
}
