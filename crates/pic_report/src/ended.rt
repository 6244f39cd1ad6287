//! How a call of `pic` ended, and the exit status of that.

ghost use Rattle.std.specs.Prelude.{◌≡◌};
ghost use Rattle.pic_report.specs.Ended.{status_of, ended_of};

use crate::cut::Cut;
use pic_charge::Break;
use pic_deck::Refusal;
use pic_grid::Stop;
use pic_io::Side;

/// How a call of `pic` ended.
#[derive(Debug, Drop)]
pub enum Ended {
    /// The run reached the deck's last step.
    Done { steps: u32 },
    /// The deck can be run; it has so many particles.
    Checked { particles: u32 },
    /// So many frames of a dump are good, and it was read to its end.
    Verified { frames: u32 },
    /// So many frames of a dump were put in the spelling of version 2, and it was read to its end.
    Upgraded { frames: u32 },
    /// The run stopped in a step.
    Stopped { step: u32, stop: Stop },
    /// The words are no command.
    Usage,
    /// The deck was refused.
    Refused(Refusal),
    /// The deck's E and its charge don't meet Gauss's law; this is the least node where it fails.
    Gauss(Break),
    /// A read failed.
    ReadFault,
    /// A write failed on this side.
    WriteFault(Side),
    /// Memory was refused.
    NoMemory,
    /// The bytes leave the format of a dump at this place, for this cause.
    BadDump { place: u64, cause: u8 },
    /// The first frame of a dump, counted from 0, that doesn't meet Gauss's law; this is the least node
    /// where it fails.
    Broken { frame: u32, at: Break },
}

impl Ended {
    /// The exit status of the program.
    pub fn status(&self) -> u8
        ensures { result ≡ status_of self.now }
    {
        match self {
            Ended::Done { .. }
            | Ended::Checked { .. }
            | Ended::Verified { .. }
            | Ended::Upgraded { .. } => 0,
            Ended::Stopped { .. } => 1,
            Ended::Usage => 2,
            Ended::Refused(_) | Ended::Gauss(_) => 3,
            Ended::ReadFault => 4,
            Ended::WriteFault(_) => 5,
            Ended::NoMemory => 6,
            Ended::BadDump { .. } => 7,
            Ended::Broken { .. } => 8,
        }
    }
}

/// The end of a call that came to an answer, or was cut off.
pub fn ended_of(finish: Result<Ended, Cut>) -> Ended
    ensures { result ≡ ended_of finish }
{
    match finish {
        Ok(answer) => answer,
        Err(Cut::Write(side)) => Ended::WriteFault(side),
        Err(Cut::NoMemory) => Ended::NoMemory,
    }
}
