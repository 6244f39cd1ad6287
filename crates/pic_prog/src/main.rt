//! The program `pic`: its words and the three standard streams, handed to the top call.
#![tactic(auto)]

ghost use Rattle.std.specs.Prelude.{◌≡◌, None, map, drop, string_bytes, IfOk};
ghost use Rattle.std.specs.Process.{exit_status};
ghost use Rattle.pic_line.specs.CommandLine.{command_of};
ghost use Rattle.pic_io.specs.Sinks.{sinks};
ghost use Rattle.pic_prog.specs.Status.{EndsWith};
ghost use Rattle.pic_report.specs.Ended.{status_of};
ghost use Rattle.pic_report.specs.Manner.{call};

use pic_gate::Open;
use pic_io::{Sink, Source, StdSink, StdSource};
use pic_run::{Ended, pic};
use std::alloc::{AllocError, Global};
use std::process::ExitCode;
use std::rt::Env;
use std::thread::Threads;
use std::{env, io};

fn main(rt: HostRuntime) -> ExitCode {
    let mut source = StdSource::new(rt.stdin());
    let mut out = StdSink::new(rt.stdout());
    let mut report = StdSink::new(rt.stderr());
    match arguments(&rt) {
        Ok(all) => status(&rt, rt.alloc(), &all, &mut source, &mut out, &mut report),
        Err(_) => code_of(&Ended::NoMemory),
    }
}

// The exit status of the top call on the words behind the first, over this source and these sinks.
fn status<H: Threads + Sync, S: Source, O: Sink, R: Sink>(
    rt: &H,
    alloc: Global,
    all: &[String],
    source: &mut S,
    out: &mut O,
    report: &mut R,
) -> ExitCode
    ensures { EndsWith
        (call (map string_bytes (drop 1 all.now)) (S.told source.old) (S.told source.new)
        (sinks (O.told out.old) (R.told report.old))
        (sinks (O.told out.new) (R.told report.new))) (exit_status result) }
{
    let ended = pic(rt, alloc, after_name(all), source, out, report, &Open);
    code_of(&ended)
}

// The program's name and the words after it. Where one isn't text, they are none of a command.
fn arguments<R: Env + AllocGlobal>(rt: &R) -> io::Result<Vec<String>> {
    match env::args(rt) {
        Ok(all) => Ok(all.collect(rt.alloc())?),
        Err(fault) if fault.kind() == io::ErrorKind::InvalidData => Ok(no_command(rt.alloc())?),
        Err(fault) => Err(fault),
    }
}

// A name and a word that are no command.
fn no_command(alloc: Global) -> Result<Vec<String>, AllocError>
    ensures { IfOk result (λ all. command_of (map string_bytes (drop 1 all.items)) ≡ None) }
{
    let mut all = Vec::new(alloc);
    all.push(String::new(alloc))?;
    all.push("\u{fffd}".to_string(alloc)?)?;
    Ok(all)
}

// The words after the program's name.
fn after_name(all: &[String]) -> &[String]
    ensures { result.now ≡ drop 1 all.now }
{
    match all {
        [_name, words @ ..] => words,
        [] => &[],
    }
}

fn code_of(ended: &Ended) -> ExitCode
    ensures { exit_status result ≡ status_of ended.now }
{
    ExitCode::from(ended.status())
}
