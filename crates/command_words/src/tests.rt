use crate::{Mode, Options, Source, read_options};
use replay_io::Words;
use std::alloc::Global;
use std::process::Abort;
use std::test::Fail;

/// Reads the words of a line, in which one space stands between each two. An empty line has one empty word.
fn read(alloc: Global, line: &str) -> Result<Option<Options>, Fail> {
    let mut words = Words::new(alloc);
    for word in line.split(' ') {
        words.push(word)?;
    }
    Ok(read_options(alloc, &words)?)
}

/// The numbers of options: the budget, the quantum and the size of memory.
type Numbers = (u64, u32, u32);

/// What they are where no option is given.
const DEFAULTS: Numbers = (1_000_000, 4, 4_194_304);

/// The words are accepted with two names, a mode and these numbers.
fn names(
    rt: &impl Abort,
    alloc: Global,
    line: &str,
    (image, journal): (&str, &str),
    mode: Mode,
    (budget, quantum, memory): Numbers,
) -> Result<(), Fail> {
    let wanted = Options {
        source: Source::Files {
            image: String::from_str(alloc, image)?,
            journal: String::from_str(alloc, journal)?,
        },
        budget,
        quantum,
        memory,
        mode,
    };
    assert_eq!(rt; read(alloc, line)?, Some(wanted), "{line}");
    Ok(())
}

/// The words are accepted with a seed and these numbers.
fn seed(
    rt: &impl Abort,
    alloc: Global,
    line: &str,
    seed: u64,
    (budget, quantum, memory): Numbers,
) -> Result<(), Fail> {
    let wanted = Options {
        source: Source::Seed(seed),
        budget,
        quantum,
        memory,
        mode: Mode::Trace,
    };
    assert_eq!(rt; read(alloc, line)?, Some(wanted), "{line}");
    Ok(())
}

/// Each of the lines is refused.
fn refused(rt: &impl Abort, alloc: Global, lines: &[&str]) -> Result<(), Fail> {
    for line in lines {
        assert_eq!(rt; read(alloc, line)?, None, "{line}");
    }
    Ok(())
}

#[test]
fn two_names(rt: HostRuntime) -> Result<(), Fail> {
    let alloc = rt.alloc();
    names(&rt, alloc, "a b", ("a", "b"), Mode::Trace, DEFAULTS)?;
    names(&rt, alloc, "b a", ("b", "a"), Mode::Trace, DEFAULTS)?;
    names(&rt, alloc, "été a=b", ("été", "a=b"), Mode::Trace, DEFAULTS)?;
    // a hyphen alone is a name, and so is an empty word
    names(&rt, alloc, "- a", ("-", "a"), Mode::Trace, DEFAULTS)?;
    names(&rt, alloc, "a ", ("a", ""), Mode::Trace, DEFAULTS)?;
    refused(&rt, alloc, &["", "a", "a b c", "--plain", "a --plain"])?;
    assert_eq!(rt; read_options(alloc, &Words::new(alloc))?, None);
    Ok(())
}

#[test]
fn each_option(rt: HostRuntime) -> Result<(), Fail> {
    let alloc = rt.alloc();
    let ab = ("a", "b");
    names(&rt, alloc, "a b --plain", ab, Mode::Plain, DEFAULTS)?;
    names(&rt, alloc, "--plain a b", ab, Mode::Plain, DEFAULTS)?;
    let budget = (5, 4, 4_194_304);
    names(&rt, alloc, "a b --budget 5", ab, Mode::Trace, budget)?;
    names(&rt, alloc, "a b --budget=5", ab, Mode::Trace, budget)?;
    names(&rt, alloc, "a --budget 5 b", ab, Mode::Trace, budget)?;
    let quantum = (1_000_000, 5, 4_194_304);
    names(&rt, alloc, "a b --quantum 5", ab, Mode::Trace, quantum)?;
    let memory = (1_000_000, 4, 65_536);
    names(&rt, alloc, "a b --mem 65536", ab, Mode::Trace, memory)?;
    let all = "--mem 131072 a --quantum=9 --plain b --budget 7";
    names(&rt, alloc, all, ab, Mode::Plain, (7, 9, 131_072))
}

#[test]
fn words_after_a_mark(rt: HostRuntime) -> Result<(), Fail> {
    let alloc = rt.alloc();
    names(&rt, alloc, "-- a b", ("a", "b"), Mode::Trace, DEFAULTS)?;
    names(&rt, alloc, "a -- b", ("a", "b"), Mode::Trace, DEFAULTS)?;
    names(
        &rt,
        alloc,
        "-- --plain -x",
        ("--plain", "-x"),
        Mode::Trace,
        DEFAULTS,
    )?;
    names(&rt, alloc, "-- -- --", ("--", "--"), Mode::Trace, DEFAULTS)?;
    names(
        &rt,
        alloc,
        "--plain -- a b",
        ("a", "b"),
        Mode::Plain,
        DEFAULTS,
    )?;
    refused(
        &rt,
        alloc,
        &["--", "a --", "a b -- --plain", "--gen 5 -- a"],
    )
}

#[test]
fn seeds(rt: HostRuntime) -> Result<(), Fail> {
    let alloc = rt.alloc();
    seed(&rt, alloc, "--gen 0", 0, DEFAULTS)?;
    seed(&rt, alloc, "--gen=7", 7, DEFAULTS)?;
    seed(&rt, alloc, "--gen 18446744073709551615", u64::MAX, DEFAULTS)?;
    let all = "--budget 0 --gen 3 --mem 67108864 --quantum 1000";
    seed(&rt, alloc, all, 3, (0, 1000, 67_108_864))?;
    refused(
        &rt,
        alloc,
        &[
            "--gen",
            "--gen=",
            "--gen x",
            "--gen 00",
            "--gen 18446744073709551616",
            "--gen 100000000000000000000000000000000000000000",
            "--gen 5 a",
            "--gen 5 a b",
            "a b --gen 5",
            "--gen 5 --plain",
            "--plain --gen 5",
        ],
    )
}

#[test]
fn limits(rt: HostRuntime) -> Result<(), Fail> {
    let alloc = rt.alloc();
    let ab = ("a", "b");
    let least = "a b --budget 0 --quantum 1 --mem 65536";
    names(&rt, alloc, least, ab, Mode::Trace, (0, 1, 65_536))?;
    let most = "a b --budget 1000000000 --quantum 1000 --mem 67108864";
    names(
        &rt,
        alloc,
        most,
        ab,
        Mode::Trace,
        (1_000_000_000, 1000, 67_108_864),
    )?;
    refused(
        &rt,
        alloc,
        &[
            "a b --budget 1000000001",
            "a b --budget 18446744073709551616",
            "a b --quantum 0",
            "a b --quantum 1001",
            "a b --quantum 4294967297",
            "a b --mem 0",
            "a b --mem 4096",
            "a b --mem 61440",
            "a b --mem 65537",
            "a b --mem 67112960",
            "a b --mem 4294967296",
        ],
    )
}

#[test]
fn values_are_decimal(rt: HostRuntime) -> Result<(), Fail> {
    refused(
        &rt,
        rt.alloc(),
        &[
            "a b --budget",
            "a b --budget=",
            "a b --budget ",
            "a b --budget 05",
            "a b --budget 00",
            "a b --budget +5",
            "a b --budget -5",
            "a b --budget=-5",
            "a b --budget 5x",
            "a b --budget 0x5",
            "a b --budget 1_000",
            "a b --budget=5=",
            "a b --budget ٥",
            "a b --quantum 04",
            "a b --mem 065536",
        ],
    )
}

#[test]
fn what_the_command_refuses(rt: HostRuntime) -> Result<(), Fail> {
    refused(
        &rt,
        rt.alloc(),
        &[
            // a repeat
            "a b --plain --plain",
            "a b --budget 5 --budget 5",
            "a b --mem=65536 --mem=65536",
            "--gen 5 --gen 5",
            // a request for help, and a version that it has not
            "--help",
            "-h",
            "a b --help",
            "a b -h",
            "--version",
            "-V",
            "a b --version",
            // the steps of the exit path are not told yet
            "a b --steps",
            "a b --plain --steps",
            // no name of an option, or half of one
            "a b --other",
            "a b --pla",
            "a b -p",
            "a b -",
            "a -x",
            "-x a b",
            "a b --Plain",
            // a flag has no value, and an option needs one
            "a b --plain=true",
            "a b --plain=",
            "a b --budget --plain",
            "a b --budget -- 5",
        ],
    )
}
