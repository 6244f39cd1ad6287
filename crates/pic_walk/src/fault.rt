//! Why a walk ends: the first fault that it meets, or want of memory.

ghost use Rattle.std.specs.Prelude.{◌≡◌};
ghost use Rattle.pic_walk.specs.declared.fault.WalkStop.TheVariants.{NoMemory};

use crate::key_path::KeyPath;
use std::alloc::{AllocError, AllocFailed};

/// What is wrong with a document, and at which path: the first fault that a walk meets.
#[derive(Debug, Drop)]
pub enum Fault {
    /// A table has a key that isn't listed for it.
    Unknown {
        path: KeyPath,
    },
    /// A needed key isn't there.
    Missing {
        path: KeyPath,
    },
    /// A value isn't of the kind that its key wants.
    Kind {
        path: KeyPath,
    },
    /// A number isn't in `low..=high`.
    Limit {
        path: KeyPath,
        value: i128,
        low: i128,
        high: i128,
    },
    /// A text isn't a name that may stand there.
    Name {
        path: KeyPath,
    },
}

/// Why a walk stops early: a fault, or want of memory, which says nothing of the document.
#[derive(Debug, Drop)]
pub enum WalkStop {
    Found(Fault),
    NoMemory,
}

impl From<AllocError> for WalkStop {
    ghost from_gives = { λ _ e. e ≡ NoMemory };

    fn from(_refused: AllocError) -> WalkStop {
        WalkStop::NoMemory
    }
}

impl<T: Drop> From<AllocFailed<T>> for WalkStop {
    ghost from_gives = { λ _ e. e ≡ NoMemory };

    fn from(_refused: AllocFailed<T>) -> WalkStop {
        WalkStop::NoMemory
    }
}

impl From<pic_num::NoMemory> for WalkStop {
    ghost from_gives = { λ _ e. e ≡ NoMemory };

    fn from(_refused: pic_num::NoMemory) -> WalkStop {
        WalkStop::NoMemory
    }
}
