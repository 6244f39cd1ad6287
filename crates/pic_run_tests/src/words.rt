//! Lines that `clap` takes, and lines that it doesn't.

use pic_line::{Command, LineFault, command};
use pic_trial::owned;

const SEVEN: Command = Command::Demo {
    seed: 7,
    workers: 1,
};

const RESUME: Command = Command::Resume {
    steps: 7,
    workers: 1,
    tiles: [1; 3],
};

const RESUME_FAR: Command = Command::Resume {
    steps: 1000000,
    workers: 64,
    tiles: [64, 2, 3],
};

const COMMANDS: [(&[&str], Command); 21] = [
    (&[], Command::Check),
    (&["--"], Command::Check),
    (&["check"], Command::Check),
    (&["run"], Command::Run { workers: 1 }),
    (&["run", "--"], Command::Run { workers: 1 }),
    (&["run", "--workers", "64"], Command::Run { workers: 64 }),
    (&["run", "--workers=3"], Command::Run { workers: 3 }),
    (&["run", "--workers", "+3"], Command::Run { workers: 3 }),
    (&["run", "--workers", "003"], Command::Run { workers: 3 }),
    (&["verify"], Command::Verify),
    (&["upgrade"], Command::Upgrade),
    (&["resume", "--steps", "7"], RESUME),
    (&["resume", "--steps=007", "--tiles-z=1"], RESUME),
    (
        &[
            "resume",
            "--tiles-z",
            "3",
            "--workers",
            "64",
            "--tiles-x",
            "64",
            "--steps",
            "1000000",
            "--tiles-y",
            "2",
        ],
        RESUME_FAR,
    ),
    (&["probe"], Command::Probe { workers: 1 }),
    (
        &["probe", "--workers", "64"],
        Command::Probe { workers: 64 },
    ),
    (&["probe", "--workers=003"], Command::Probe { workers: 3 }),
    (&["demo", "7"], SEVEN),
    (&["demo", "--", "7"], SEVEN),
    (
        &["demo", "--", "-0"],
        Command::Demo {
            seed: 0,
            workers: 1,
        },
    ),
    (
        &["demo", "--workers", "2", "4294967295"],
        Command::Demo {
            seed: 4294967295,
            workers: 2,
        },
    ),
];

const USAGES: [&[&str]; 32] = [
    &["go"],
    &[""],
    &["help"],
    &["--help"],
    &["run", "-h"],
    &["check", "x"],
    &["verify", "x"],
    &["upgrade", "x"],
    &["run", "--workers"],
    &["run", "--workers", "0"],
    &["run", "--workers", "65"],
    &["run", "--workers", "-1"],
    &["run", "--workers", "2", "--workers", "2"],
    &["run", "--steps", "7"],
    &["run", "--tiles-x", "2"],
    &["resume"],
    &["resume", "7"],
    &["resume", "--steps"],
    &["resume", "--steps", "1000001"],
    &["resume", "--steps", "-1"],
    &["resume", "--steps", "7", "--steps", "7"],
    &["resume", "--steps", "7", "--workers", "65"],
    &["resume", "--steps", "7", "--tiles-x", "0"],
    &["resume", "--steps", "7", "--tiles-z", "65"],
    &["resume", "--steps", "7", "--tiles", "2"],
    &["probe", "7"],
    &["probe", "--workers", "65"],
    &["probe", "--steps", "7"],
    &["probes"],
    &["demo"],
    &["demo", "4294967296"],
    &["demo", "7", "8"],
];

#[test]
fn lines_with_a_command(rt: HostRuntime) {
    for (texts, wanted) in &COMMANDS {
        let found = command(rt.alloc(), &owned(rt.alloc(), texts).expect(&rt, "memory"));
        assert_eq!(rt; found, Ok(*wanted), "{texts:?}");
    }
}

#[test]
fn lines_without_a_command(rt: HostRuntime) {
    for texts in &USAGES {
        let found = command(rt.alloc(), &owned(rt.alloc(), texts).expect(&rt, "memory"));
        assert_eq!(rt; found, Err(LineFault::Usage), "{texts:?}");
    }
}
