//! The command `verify`: whether a dump is of the format and meets Gauss's law.

ghost use Rattle.std.specs.Prelude.{◌≡◌, Ok};
ghost use Rattle.pic_on_dump.specs.Stops.{stop_of_verify};
ghost use Rattle.pic_io.specs.Told.{Told};
ghost use Rattle.pic_io.specs.Sinks.{sinks};
ghost use Rattle.pic_report.specs.Ended.{ended_of};
ghost use Rattle.pic_on_dump.specs.Verdict.{verdict_outcome};
ghost use Rattle.pic_report.specs.Finishes.{Announces};
ghost use Rattle.pic_report.specs.Manner.{Performs};
ghost use Rattle.pic_on_dump.specs.Verify.{verifying};

use pic_io::{Sink, Source};
use pic_open::{StageStop, end_early};
use pic_report::{Cut, Early, Ended, line_of_verified, put_out};
use pic_verify::VerifyStop;
use std::alloc::Global;

/// Verifies the dump that the source gives: the number of its frames goes to `out`.
pub fn verify<S: Source, O: Sink, R: Sink>(
    alloc: Global,
    source: &mut S,
    out: &mut O,
    report: &mut R,
) -> Result<Ended, Cut>
    ensures { Performs verifying (S.told source.old) (S.told source.new)
        (sinks (O.told out.old) (R.told report.old))
        (sinks (O.told out.new) (R.told report.new)) (ended_of result) }
{
    match pic_verify::verify(alloc, source) {
        Ok(frames) => put_frames(out, frames),
        Err(stop) => end_early(report, stage_stop_of(stop)),
    }
}

// What ends the stage that verifies a dump.
fn stage_stop_of(stop: VerifyStop) -> StageStop
    ensures { result ≡ stop_of_verify stop }
{
    match stop {
        VerifyStop::ReadFault => StageStop::Answer(Early::ReadFault),
        VerifyStop::BadDump { place, cause } => StageStop::Answer(Early::BadDump { place, cause }),
        VerifyStop::Broken { frame, at } => StageStop::Answer(Early::Broken { frame, at }),
        VerifyStop::NoMemory => StageStop::NoMemory,
    }
}

// The number of frames on out.
fn put_frames<O: Sink>(out: &mut O, frames: u32) -> Result<Ended, Cut>
    ensures { (r : Told) → Announces (verdict_outcome (Ok frames))
        (sinks (O.told out.old) r) (sinks (O.told out.new) r) result }
{
    put_out(out, line_of_verified(frames).bytes())?;
    Ok(Ended::Verified { frames })
}
