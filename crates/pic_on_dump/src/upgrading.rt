//! The command `upgrade`: a dump put again in the spelling of version 2.

ghost use Rattle.std.specs.Prelude.{[]};
ghost use Rattle.pic_io.specs.Told.{Told};
ghost use Rattle.pic_io.specs.Sinks.{sinks, WritesLine};
ghost use Rattle.pic_report.specs.declared.ended.Ended.TheVariants.{Upgraded};
ghost use Rattle.pic_report.specs.Ended.{ended_of};
ghost use Rattle.pic_report.specs.Lines.{upgraded_line};
ghost use Rattle.pic_report.specs.Finishes.{Announces};
ghost use Rattle.pic_report.specs.Manner.{Performs};
ghost use Rattle.pic_on_dump.specs.Upgrade.{upgrade_outcome, upgrading};

use pic_dump::UpgradeStop;
use pic_io::{Side, Sink, Source};
use pic_open::{StageStop, end_early};
use pic_report::{Cut, Early, Ended, line_of_upgraded, put_line};
use std::alloc::Global;

/// Puts the dump that the source gives on `out`, in the spelling of version 2, record by record: the
/// number of its frames goes to `report`.
pub fn upgrade<S: Source, O: Sink, R: Sink>(
    alloc: Global,
    source: &mut S,
    out: &mut O,
    report: &mut R,
) -> Result<Ended, Cut>
    ensures { Performs upgrading (S.told source.old) (S.told source.new)
        (sinks (O.told out.old) (R.told report.old))
        (sinks (O.told out.new) (R.told report.new)) (ended_of result) }
{
    match pic_dump::upgrade(alloc, source, out) {
        Ok(frames) => end_whole(report, frames),
        Err(UpgradeStop::ReadFault) => end_early(report, StageStop::Answer(Early::ReadFault)),
        Err(UpgradeStop::BadDump { place, cause }) => {
            end_early(report, StageStop::Answer(Early::BadDump { place, cause }))
        }
        Err(UpgradeStop::WriteFault) => Err(Cut::Write(Side::Out)),
        Err(UpgradeStop::NoMemory) => Err(Cut::NoMemory),
    }
}

// Ends a call that put a whole dump: by its line on the report.
fn end_whole<R: Sink>(report: &mut R, frames: u32) -> Result<Ended, Cut>
    ensures { (o : Told) → Announces (upgrade_outcome [] (Upgraded frames))
        (sinks o (R.told report.old)) (sinks o (R.told report.new)) result }
{
    put_frames(report, frames)?;
    Ok(Ended::Upgraded { frames })
}

// The number of frames on the report.
fn put_frames<R: Sink>(report: &mut R, frames: u32) -> Result<(), Side>
    ensures { WritesLine (R.told report.old) (R.told report.new) (upgraded_line frames) result }
{
    put_line(report, line_of_upgraded(frames).bytes())
}
