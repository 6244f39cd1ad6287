//! What a command line asks for, and why it is none.

ghost use Rattle.std.specs.Prelude.{◌≡◌};
ghost use Rattle.pic_line.specs.declared.asked.LineFault.TheVariants.{NoMemory};

use std::alloc::AllocError;

/// What the words ask for.
#[derive(Clone, Copy, Debug, PartialEq, Eq)]
pub enum Command {
    /// Reads the deck and says whether it can be run.
    Check,
    /// Runs the deck, on so many workers, 1 to 64.
    Run {
        workers: u32,
    },
    /// Reads a dump and holds it against Gauss's law.
    Verify,
    /// Runs the demonstration of this seed, on so many workers, 1 to 64.
    Demo {
        seed: u32,
        workers: u32,
    },
    /// Reads a dump and writes it in the spelling of version 2.
    Upgrade,
    /// Reads a dump and goes on to so many steps in all, 0 to 1000000, on so many workers, 1 to 64, and
    /// on so many tiles along each axis, 1 to 64.
    Resume {
        steps: u32,
        workers: u32,
        tiles: [u32; 3],
    },
    /// Runs the deck and shows what its probes see of each state, on so many workers, 1 to 64.
    Probe {
        workers: u32,
    },
}

/// Why a line has no command.
#[derive(Clone, Copy, Debug, PartialEq, Eq)]
pub enum LineFault {
    /// The words are no command.
    Usage,
    /// Memory was refused.
    NoMemory,
}

impl From<AllocError> for LineFault {
    ghost from_gives = { λ _ fault. fault ≡ NoMemory };

    fn from(_refused: AllocError) -> LineFault {
        LineFault::NoMemory
    }
}
