//! Why a dump isn't upgraded.

ghost use Rattle.std.specs.Prelude.{◌≡◌};
ghost use Rattle.pic_dump.specs.UpgradeStops.{stop_of_head, stop_of_read};
ghost use Rattle.pic_dump.specs.declared.upgrade_stop.UpgradeStop.TheVariants.{WriteFault, NoMemory};

use pic_fields::ReadStop;
use pic_header::HeadStop;
use pic_io::Failed;
use std::error::Error;
use std::fmt;

/// Why a dump wasn't upgraded.
#[derive(Clone, Copy, Debug, PartialEq, Eq)]
pub enum UpgradeStop {
    /// A read of the source failed.
    ReadFault,
    /// The first fault of the bytes: its cause, and at which place from the start of the input.
    BadDump { place: u64, cause: u8 },
    /// A write failed.
    WriteFault,
    /// Want of memory, before the first write.
    NoMemory,
}

impl fmt::Display for UpgradeStop {
    fn fmt<W: fmt::Write>(&self, f: &mut fmt::Formatter<W>) -> fmt::Result {
        match self {
            UpgradeStop::ReadFault => write!(f, "read fault"),
            UpgradeStop::BadDump { place, cause } => write!(f, "bad dump {place} {cause}"),
            UpgradeStop::WriteFault => write!(f, "write fault"),
            UpgradeStop::NoMemory => write!(f, "out of memory"),
        }
    }
}

impl Error for UpgradeStop {}

impl From<ReadStop> for UpgradeStop {
    ghost from_gives = { λ stop e. e ≡ stop_of_read stop };

    fn from(stop: ReadStop) -> UpgradeStop {
        match stop {
            ReadStop::ReadFault => UpgradeStop::ReadFault,
            ReadStop::BadDump { place, cause } => UpgradeStop::BadDump { place, cause },
        }
    }
}

impl From<HeadStop> for UpgradeStop {
    ghost from_gives = { λ stop e. e ≡ stop_of_head stop };

    fn from(stop: HeadStop) -> UpgradeStop {
        match stop {
            HeadStop::Read(stop) => UpgradeStop::from(stop),
            HeadStop::NoMemory => UpgradeStop::NoMemory,
        }
    }
}

impl From<Failed> for UpgradeStop {
    ghost from_gives = { λ _ e. e ≡ WriteFault };

    fn from(_failed: Failed) -> UpgradeStop {
        UpgradeStop::WriteFault
    }
}

impl From<pic_num::NoMemory> for UpgradeStop {
    ghost from_gives = { λ _ e. e ≡ NoMemory };

    fn from(_refused: pic_num::NoMemory) -> UpgradeStop {
        UpgradeStop::NoMemory
    }
}
