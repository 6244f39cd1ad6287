//! The command line as a command of `clap`.

ghost use Rattle.std.specs.Prelude.{◌≡◌, false, IfOk};
ghost use Rattle.clap.specs.Words.{app_of, rule_of};
ghost use Rattle.clap.specs.declared.builder.command.Command.TheViews.{out-Command};
ghost use Rattle.pic_line.specs.CommandLine.{pic_app, first_three_app, first_five_app, working_app};
ghost use Rattle.pic_line.specs.CommandLine.{demo_app, resume_app, few_rule, seed_rule, steps_rule};

use clap::Arg;
use std::alloc::{AllocError, Global};

/// The command `pic` with its subcommands.
pub fn pic<'a>(alloc: Global) -> Result<clap::Command<'a>, AllocError>
    ensures { IfOk result (λ app. app_of app ≡ pic_app) }
{
    let five = first_five(alloc)?;
    let six = five.subcommand(resume(alloc)?)?;
    let all = six.subcommand(working(alloc, "probe")?)?;
    Ok(all)
}

// The command with the subcommands up to `upgrade`.
fn first_five<'a>(alloc: Global) -> Result<clap::Command<'a>, AllocError>
    ensures { IfOk result (λ app. app_of app ≡ first_five_app) }
{
    let three = first_three(alloc)?;
    let four = three.subcommand(demo(alloc)?)?;
    let five = four.subcommand(clap::Command::new(alloc, "upgrade"))?;
    Ok(five)
}

// The command with `check`, `run` and `verify`.
fn first_three<'a>(alloc: Global) -> Result<clap::Command<'a>, AllocError>
    ensures { IfOk result (λ app. app_of app ≡ first_three_app) }
{
    let one = clap::Command::new(alloc, "pic").subcommand(clap::Command::new(alloc, "check"))?;
    let two = one.subcommand(working(alloc, "run")?)?;
    let three = two.subcommand(clap::Command::new(alloc, "verify"))?;
    Ok(three)
}

// The subcommand `demo`.
fn demo<'a>(alloc: Global) -> Result<clap::Command<'a>, AllocError>
    ensures app { IfOk result (λ app. app_of app ≡ demo_app) }
    ensures own { IfOk result (λ app. (out-Command app).has_globals ≡ false) }
{
    let seeded = clap::Command::new(alloc, "demo").arg(seed(alloc))?;
    let demo = seeded.arg(few(alloc, "workers"))?;
    Ok(demo)
}

// A subcommand of this name that takes a number of workers alone.
fn working<'a>(alloc: Global, name: &'a str) -> Result<clap::Command<'a>, AllocError>
    ensures app { IfOk result (λ app. app_of app ≡ working_app name.entry.now) }
    ensures own { IfOk result (λ app. (out-Command app).has_globals ≡ false) }
{
    let named = clap::Command::new(alloc, name);
    let all = named.arg(few(alloc, "workers"))?;
    Ok(all)
}

// The subcommand `resume`.
fn resume<'a>(alloc: Global) -> Result<clap::Command<'a>, AllocError>
    ensures app { IfOk result (λ app. app_of app ≡ resume_app) }
    ensures own { IfOk result (λ app. (out-Command app).has_globals ≡ false) }
{
    let named = clap::Command::new(alloc, "resume");
    let one = named.arg(steps(alloc))?;
    let two = one.arg(few(alloc, "workers"))?;
    let three = two.arg(few(alloc, "tiles-x"))?;
    let four = three.arg(few(alloc, "tiles-y"))?;
    let all = four.arg(few(alloc, "tiles-z"))?;
    Ok(all)
}

// An option `--NAME N` of 1 to 64, and 1 where it is absent.
fn few<'a>(alloc: Global, name: &'a str) -> Arg<'a>
    ensures rule { rule_of result ≡ few_rule name.entry.now }
    ensures own { result.global ≡ false }
{
    Arg::new(alloc, name)
        .long(name)
        .value_parser(clap::value_parser!(u32).range(1..=64))
        .default_value("1")
}

// The word `SEED`.
fn seed<'a>(alloc: Global) -> Arg<'a>
    ensures rule { rule_of result ≡ seed_rule }
    ensures own { result.global ≡ false }
{
    Arg::new(alloc, "SEED")
        .value_parser(clap::value_parser!(u32).range(0..=4294967295))
        .required(true)
}

// The option `--steps`.
fn steps<'a>(alloc: Global) -> Arg<'a>
    ensures rule { rule_of result ≡ steps_rule }
    ensures own { result.global ≡ false }
{
    Arg::new(alloc, "steps")
        .long("steps")
        .value_parser(clap::value_parser!(u32).range(0..=1000000))
        .required(true)
}
