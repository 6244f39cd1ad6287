//! The early ends of a call: those that its words, a read, its deck or its dump bring.

ghost use Rattle.std.specs.Prelude.{◌≡◌};
ghost use Rattle.pic_io.specs.Sinks.{WritesLine};
ghost use Rattle.pic_report.specs.Early.{ended_early};
ghost use Rattle.pic_report.specs.Lines.{early_line};

use crate::ended::Ended;
use crate::lines::{
    line_of_bad_dump, line_of_break, line_of_broken, line_of_read_fault, line_of_usage,
};
use crate::refusing::put_refusal;
use crate::writing::put_line;
use pic_charge::Break;
use pic_deck::Refusal;
use pic_io::{Side, Sink};

/// An end that a call's words, a read, its deck or its dump bring, before the command is done; only
/// `upgrade` and `resume` may have put anything by then. Each has a line of its own, on the report.
#[derive(Debug, Drop)]
pub enum Early {
    /// The words are no command.
    Usage,
    /// A read failed.
    ReadFault,
    /// The deck was refused.
    Refused(Refusal),
    /// The deck's E and its charge don't meet Gauss's law; this is the least node where it fails.
    Gauss(Break),
    /// The bytes leave the format of a dump at this place, for this cause.
    BadDump { place: u64, cause: u8 },
    /// The first frame of a dump, counted from 0, that doesn't meet Gauss's law, and the least node.
    Broken { frame: u32, at: Break },
}

/// Puts the line of an early end on the report.
pub fn put_early<R: Sink>(report: &mut R, early: &Early) -> Result<(), Side>
    ensures { WritesLine (R.told report.old) (R.told report.new)
        (early_line (ended_early early.now)) result }
{
    match early {
        Early::Usage => put_line(report, line_of_usage()),
        Early::ReadFault => put_line(report, line_of_read_fault()),
        Early::Refused(refusal) => put_refusal(report, refusal),
        Early::Gauss(at) => put_line(report, line_of_break(*at).bytes()),
        Early::BadDump { place, cause } => {
            put_line(report, line_of_bad_dump(*place, *cause).bytes())
        }
        Early::Broken { frame, at } => put_line(report, line_of_broken(*frame, *at).bytes()),
    }
}

/// The answer of an early end.
pub fn ended_early(early: Early) -> Ended
    ensures { result ≡ ended_early early }
{
    match early {
        Early::Usage => Ended::Usage,
        Early::ReadFault => Ended::ReadFault,
        Early::Refused(refusal) => Ended::Refused(refusal),
        Early::Gauss(at) => Ended::Gauss(at),
        Early::BadDump { place, cause } => Ended::BadDump { place, cause },
        Early::Broken { frame, at } => Ended::Broken { frame, at },
    }
}
