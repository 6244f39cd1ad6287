//! The top call: the command of the words, performed.

ghost use Rattle.std.specs.Prelude.{map, string_bytes};
ghost use Rattle.pic_io.specs.Sinks.{sinks};
ghost use Rattle.pic_line.specs.CommandLine.{command_of};
ghost use Rattle.pic_report.specs.Ended.{ended_of};
ghost use Rattle.pic_report.specs.Manner.{call, Performs};
ghost use Rattle.pic_run.specs.Commands.{manner_of};
ghost use Rattle.pic_run.specs.Ends.{Ends, IsComplete, Means, Reads};

use crate::check::check;
use crate::probing::probe;
use crate::running::run;
use crate::showing::demo;
use pic_gate::Gate;
use pic_io::{Sink, Source};
use pic_line::{Command, LineFault, command};
use pic_on_dump::{Further, resume, upgrade, verify};
use pic_open::{StageStop, end_early};
use pic_report::{Cut, Early, Ended, ended_of};
use pic_states::Threading;
use std::alloc::Global;
use std::thread::Threads;

/// The top call: performs the command of the words (those after the program's name), on the deck or
/// the dump that the source gives. The result goes to `out`, and the lines for the reader to `report`.
/// A run's particles are pushed on as many threads as the words have workers; each step passes the
/// gate. Whatever the number and the gate, the result is that of the serial scheme.
///
/// `ends` says it all: what the call answers and what it puts on its sinks is the outcome of the
/// words and of what the source gave. The other clauses follow from it.
pub fn pic<H: Threads + Sync, S: Source, O: Sink, R: Sink, G: Gate + Sync>(
    rt: &H,
    alloc: Global,
    words: &[String],
    source: &mut S,
    out: &mut O,
    report: &mut R,
    gate: &G,
) -> Ended
    // where the source and the sinks tell their bytes and none of them failed
    ensures complete { IsComplete
        (call (map string_bytes words.now) (S.told source.old) (S.told source.new)
        (sinks (O.told out.old) (R.told report.old))
        (sinks (O.told out.new) (R.told report.new))) result }

    // in every case
    ensures ends { Ends
        (call (map string_bytes words.now) (S.told source.old) (S.told source.new)
        (sinks (O.told out.old) (R.told report.old))
        (sinks (O.told out.new) (R.told report.new))) result }

    // what was taken of the source, and what the answer means, as the command says
    ensures taken { Reads
        (call (map string_bytes words.now) (S.told source.old) (S.told source.new)
        (sinks (O.told out.old) (R.told report.old))
        (sinks (O.told out.new) (R.told report.new))) }
    ensures means { Means
        (call (map string_bytes words.now) (S.told source.old) (S.told source.new)
        (sinks (O.told out.old) (R.told report.old))
        (sinks (O.told out.new) (R.told report.new))) result }
{
    ended_of(perform(Threading { rt, gate }, alloc, words, source, out, report))
}

// Performs the command of the words.
fn perform<H: Threads + Sync, S: Source, O: Sink, R: Sink, G: Gate + Sync>(
    threading: Threading<'_, H, G>,
    alloc: Global,
    words: &[String],
    source: &mut S,
    out: &mut O,
    report: &mut R,
) -> Result<Ended, Cut>
    ensures { Performs (manner_of (command_of (map string_bytes words.now)))
        (S.told source.old) (S.told source.new)
        (sinks (O.told out.old) (R.told report.old))
        (sinks (O.told out.new) (R.told report.new)) (ended_of result) }
{
    match command(alloc, words) {
        Ok(Command::Check) => check(alloc, source, out, report),
        Ok(Command::Run { workers }) => run(threading, alloc, source, out, report, workers),
        Ok(Command::Verify) => verify(alloc, source, out, report),
        Ok(Command::Demo { seed, workers }) => demo(threading, alloc, seed, out, report, workers),
        Ok(Command::Upgrade) => upgrade(alloc, source, out, report),
        Ok(
            Command::Resume {
                steps,
                workers,
                tiles,
            },
        ) => {
            let further = Further {
                steps,
                workers,
                tiles,
            };
            resume(threading, alloc, source, out, report, further)
        }
        Ok(Command::Probe { workers }) => probe(threading, alloc, source, out, report, workers),
        Err(LineFault::Usage) => end_early(report, StageStop::Answer(Early::Usage)),
        Err(LineFault::NoMemory) => Err(Cut::NoMemory),
    }
}
