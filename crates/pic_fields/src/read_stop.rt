//! Why reading stopped.

use std::error::Error;
use std::fmt;

/// Why a reader stopped: a read failed, or the bytes aren't of the format.
#[derive(Clone, Copy, Debug, PartialEq, Eq)]
pub enum ReadStop {
    /// A read of the source failed.
    ReadFault,
    /// The first fault of the bytes: its cause, and at which place from the start of the input.
    BadDump { place: u64, cause: u8 },
}

impl fmt::Display for ReadStop {
    fn fmt<W: fmt::Write>(&self, f: &mut fmt::Formatter<W>) -> fmt::Result {
        match self {
            ReadStop::ReadFault => write!(f, "read fault"),
            ReadStop::BadDump { place, cause } => write!(f, "bad dump {place} {cause}"),
        }
    }
}

impl Error for ReadStop {}
