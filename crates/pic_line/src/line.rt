//! The words of a command line, read.

ghost use Rattle.std.specs.Prelude.{◌≡◌, None, Some, ◌∷◌, codes, map, string_bytes, option_and_then, IfOk, IfErr};
ghost use Rattle.clap.specs.Words.{found_of, rows_of, one_of, subcommand_rows_of};
ghost use Rattle.pic_line.specs.CommandLine.{command_of, command_from, command_named, HasWorkers, workers_in, seed_in};
ghost use Rattle.pic_line.specs.CommandLine.{steps_in, tiles_in, few_in, demo_of, resume_of, all_three, number_in, kept};

use crate::app::pic;
use crate::asked::{Command, LineFault};
use clap::ArgMatches;
use clap::error::ErrorKind;
use std::alloc::{AllocError, Global};

const MIN_FEW: u32 = 1;

const MAX_FEW: u32 = 1 << 6;

const MIN_SEED: u32 = 0;

const MAX_SEED: u32 = u32::MAX;

const MIN_STEPS: u32 = 0;

const MAX_STEPS: u32 = 1000000;

/// The command of the words after the program's name, with 1 to 64 workers where it has any. `Usage`
/// comes exactly where they are none, but for want of memory.
pub fn command(alloc: Global, words: &[String]) -> Result<Command, LineFault>
    ensures ok { IfOk result (λ found. command_of (map string_bytes words.now) ≡ Some found) }
    ensures usage { IfErr result
        (λ fault. fault ≡ LineFault.Usage → command_of (map string_bytes words.now) ≡ None) }
    ensures workers { IfOk result HasWorkers }
{
    let app = pic(alloc)?;
    let line = named(alloc, words)?;
    match app.try_get_matches_from(line.as_slice()) {
        Ok(matches) => match command_from(&matches) {
            Some(found) => Ok(found),
            None => Err(LineFault::Usage),
        },
        Err(error) => match error.kind() {
            ErrorKind::OutOfMemory => Err(LineFault::NoMemory),
            _ => Err(LineFault::Usage),
        },
    }
}

// The words behind the program's name.
fn named<'a>(alloc: Global, words: &'a [String]) -> Result<Vec<&'a str>, AllocError>
    ensures { IfOk result (λ line. map (λ word. word.now) line.items
        ≡ codes "pic" ∷ map string_bytes words.entry.now) }
{
    let mut line = Vec::new(alloc);
    line.push("pic")?;
    for word in words {
        line.push(word.as_str())?;
    }
    Ok(line)
}

// The command of what `clap` found.
fn command_from(matches: &ArgMatches<'_>) -> Option<Command>
    ensures { result ≡ command_from (subcommand_rows_of matches.now) }
{
    match matches.subcommand() {
        None => Some(Command::Check),
        Some((name, found)) => command_named(name, found),
    }
}

// The command of a subcommand.
fn command_named(name: &str, found: &ArgMatches<'_>) -> Option<Command>
    ensures { result ≡ command_named name.now (rows_of (found_of found.now)) }
{
    if name == "check" {
        Some(Command::Check)
    } else if name == "run" {
        workers_in(found).map(|workers| Command::Run { workers })
    } else if name == "verify" {
        Some(Command::Verify)
    } else if name == "demo" {
        demo_of(seed_in(found), workers_in(found))
    } else if name == "upgrade" {
        Some(Command::Upgrade)
    } else if name == "resume" {
        resume_of(steps_in(found), workers_in(found), tiles_in(found))
    } else if name == "probe" {
        workers_in(found).map(|workers| Command::Probe { workers })
    } else {
        None
    }
}

fn demo_of(seed: Option<u32>, workers: Option<u32>) -> Option<Command>
    ensures { result ≡ demo_of seed workers }
{
    match (seed, workers) {
        (Some(seed), Some(workers)) => Some(Command::Demo { seed, workers }),
        _ => None,
    }
}

fn resume_of(steps: Option<u32>, workers: Option<u32>, tiles: Option<[u32; 3]>) -> Option<Command>
    ensures { result ≡ resume_of steps workers tiles }
{
    match (steps, workers, tiles) {
        (Some(steps), Some(workers), Some(tiles)) => Some(Command::Resume {
            steps,
            workers,
            tiles,
        }),
        _ => None,
    }
}

// The number of workers.
fn workers_in(found: &ArgMatches<'_>) -> Option<u32>
    ensures { result ≡ workers_in (rows_of (found_of found.now)) }
{
    few_in(found, "workers")
}

// The seed.
fn seed_in(found: &ArgMatches<'_>) -> Option<u32>
    ensures { result ≡ seed_in (rows_of (found_of found.now)) }
{
    number_in(found, "SEED", MIN_SEED, MAX_SEED)
}

// The number of steps in all.
fn steps_in(found: &ArgMatches<'_>) -> Option<u32>
    ensures { result ≡ steps_in (rows_of (found_of found.now)) }
{
    number_in(found, "steps", MIN_STEPS, MAX_STEPS)
}

// The numbers of tiles along the axes.
fn tiles_in(found: &ArgMatches<'_>) -> Option<[u32; 3]>
    ensures { result ≡ tiles_in (rows_of (found_of found.now)) }
{
    let x = few_in(found, "tiles-x");
    let y = few_in(found, "tiles-y");
    let z = few_in(found, "tiles-z");
    all_three(x, y, z)
}

fn all_three(x: Option<u32>, y: Option<u32>, z: Option<u32>) -> Option<[u32; 3]>
    ensures { result ≡ all_three x y z }
{
    match (x, y, z) {
        (Some(x), Some(y), Some(z)) => Some([x, y, z]),
        _ => None,
    }
}

// A number of 1 to 64.
fn few_in(found: &ArgMatches<'_>, name: &str) -> Option<u32>
    ensures { result ≡ few_in name.now (rows_of (found_of found.now)) }
{
    number_in(found, name, MIN_FEW, MAX_FEW)
}

// The number of an argument, where it is one from low to high.
fn number_in(found: &ArgMatches<'_>, name: &str, low: u32, high: u32) -> Option<u32>
    ensures { result ≡ option_and_then (number_in low high)
        (one_of name.now (rows_of (found_of found.now))) }
{
    kept(low, high, found.get_one::<u32>(name))
}

fn kept(low: u32, high: u32, number: Option<u32>) -> Option<u32>
    ensures { result ≡ kept low high number }
{
    match number {
        Some(n) if n >= low && n <= high => Some(n),
        Some(_) | None => None,
    }
}
