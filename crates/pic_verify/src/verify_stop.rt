//! Why a dump isn't verified.

ghost use Rattle.std.specs.Prelude.{◌≡◌};
ghost use Rattle.pic_verify.specs.Stops.{stop_of_head, stop_of_read};
ghost use Rattle.pic_verify.specs.declared.verify_stop.VerifyStop.TheVariants.{NoMemory};

use pic_charge::Break;
use pic_dump::{HeadStop, ReadStop};
use std::error::Error;
use std::fmt;

/// Why a dump wasn't verified.
#[derive(Clone, Copy, Debug, PartialEq, Eq)]
pub enum VerifyStop {
    /// A read of the source failed.
    ReadFault,
    /// The first fault of the bytes: its cause, and at which place from the start of the input.
    BadDump { place: u64, cause: u8 },
    /// The first frame, counted from 0, in which Gauss's law fails, and the least node where it does.
    Broken { frame: u32, at: Break },
    /// Want of memory, before the first frame.
    NoMemory,
}

impl fmt::Display for VerifyStop {
    fn fmt<W: fmt::Write>(&self, f: &mut fmt::Formatter<W>) -> fmt::Result {
        match self {
            VerifyStop::ReadFault => write!(f, "read fault"),
            VerifyStop::BadDump { place, cause } => write!(f, "bad dump {place} {cause}"),
            VerifyStop::Broken { frame, at } => {
                let Break { node, div, rho } = at;
                let [x, y, z] = node;
                write!(
                    f,
                    "broken frame {frame} node {x} {y} {z} div {div} rho {rho}"
                )
            }
            VerifyStop::NoMemory => write!(f, "out of memory"),
        }
    }
}

impl Error for VerifyStop {}

impl From<ReadStop> for VerifyStop {
    ghost from_gives = { λ stop e. e ≡ stop_of_read stop };

    fn from(stop: ReadStop) -> VerifyStop {
        match stop {
            ReadStop::ReadFault => VerifyStop::ReadFault,
            ReadStop::BadDump { place, cause } => VerifyStop::BadDump { place, cause },
        }
    }
}

impl From<HeadStop> for VerifyStop {
    ghost from_gives = { λ stop e. e ≡ stop_of_head stop };

    fn from(stop: HeadStop) -> VerifyStop {
        match stop {
            HeadStop::Read(stop) => VerifyStop::from(stop),
            HeadStop::NoMemory => VerifyStop::NoMemory,
        }
    }
}

impl From<pic_num::NoMemory> for VerifyStop {
    ghost from_gives = { λ _ e. e ≡ NoMemory };

    fn from(_refused: pic_num::NoMemory) -> VerifyStop {
        VerifyStop::NoMemory
    }
}
