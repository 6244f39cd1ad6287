//! The command `check`: whether a deck can be run.

ghost use Rattle.std.specs.Prelude.{◌≡◌, length};
ghost use Rattle.pic_io.specs.Told.{Told};
ghost use Rattle.pic_io.specs.Sinks.{sinks};
ghost use Rattle.pic_deck.specs.Deck.{DeckView};
ghost use Rattle.pic_load.specs.Loading.{loaded};
ghost use Rattle.pic_report.specs.Ended.{ended_of};
ghost use Rattle.pic_run.specs.DeckOutcome.{check_outcome};
ghost use Rattle.pic_report.specs.Leaves.{LeavesNothing};
ghost use Rattle.pic_report.specs.Finishes.{Finishes};
ghost use Rattle.pic_report.specs.Manner.{Performs};
ghost use Rattle.pic_run.specs.Check.{checking};

use pic_io::{Sink, Source};
use pic_open::{end_early, open};
use pic_report::{Cut, Ended, line_of_check, put_out};
use std::alloc::Global;

/// Checks the deck that the source gives: the number of its particles goes to `out`.
pub fn check<S: Source, O: Sink, R: Sink>(
    alloc: Global,
    source: &mut S,
    out: &mut O,
    report: &mut R,
) -> Result<Ended, Cut>
    ensures { Performs checking (S.told source.old) (S.told source.new)
        (sinks (O.told out.old) (R.told report.old))
        (sinks (O.told out.new) (R.told report.new)) (ended_of result) }
{
    match open(alloc, source) {
        Ok(opened) => put_count(out, opened.start.particles.len() as u32),
        Err(stop) => end_early(report, stop),
    }
}

// The number of particles on out.
fn put_count<O: Sink>(out: &mut O, particles: u32) -> Result<Ended, Cut>
    ensures { (d : DeckView) (r : Told) → length (loaded d) ≡ particles
        → Finishes LeavesNothing (check_outcome d)
        (sinks (O.told out.old) r) (sinks (O.told out.new) r) result }
{
    put_out(out, line_of_check(particles).bytes())?;
    Ok(Ended::Checked { particles })
}
