//! Why a header can't be read.

ghost use Rattle.std.specs.Prelude.{◌≡◌};
ghost use Rattle.pic_header.specs.declared.head_stop.HeadStop.TheVariants.{Read, NoMemory};

use pic_fields::ReadStop;
use std::alloc::{AllocError, AllocFailed};
use std::error::Error;
use std::fmt;

/// Why the header of a dump wasn't answered.
#[derive(Clone, Copy, Debug, PartialEq, Eq)]
pub enum HeadStop {
    /// A read failed, or the bytes aren't a header.
    Read(ReadStop),
    /// Want of memory for the species or the loops.
    NoMemory,
}

impl fmt::Display for HeadStop {
    fn fmt<W: fmt::Write>(&self, f: &mut fmt::Formatter<W>) -> fmt::Result {
        match self {
            HeadStop::Read(stop) => write!(f, "{stop}"),
            HeadStop::NoMemory => write!(f, "out of memory"),
        }
    }
}

impl Error for HeadStop {}

impl From<ReadStop> for HeadStop {
    ghost from_gives = { λ stop e. e ≡ Read stop };

    fn from(stop: ReadStop) -> HeadStop {
        HeadStop::Read(stop)
    }
}

impl From<pic_num::NoMemory> for HeadStop {
    ghost from_gives = { λ _ e. e ≡ NoMemory };

    fn from(_refused: pic_num::NoMemory) -> HeadStop {
        HeadStop::NoMemory
    }
}

impl From<AllocError> for HeadStop {
    ghost from_gives = { λ _ e. e ≡ NoMemory };

    fn from(_refused: AllocError) -> HeadStop {
        HeadStop::NoMemory
    }
}

impl<T: Drop> From<AllocFailed<T>> for HeadStop {
    ghost from_gives = { λ _ e. e ≡ NoMemory };

    fn from(_refused: AllocFailed<T>) -> HeadStop {
        HeadStop::NoMemory
    }
}
