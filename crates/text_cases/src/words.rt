use command_words::{Form, form};
use std::alloc::Global;
use std::process::Abort;
use std::test::Fail;
use stop_schedule::Params;

/// The words of a line, each two of which a space parts.
fn words_of(alloc: Global, line: &str) -> Result<Vec<String>, Fail> {
    let mut words = Vec::new(alloc);
    for word in line.split(' ') {
        words.push(String::from_str(alloc, word)?)?;
    }
    Ok(words)
}

/// The words of a line have this form, or none.
fn means(rt: &impl Abort, alloc: Global, line: &str, expected: &Option<Form>) -> Result<(), Fail> {
    let words = words_of(alloc, line)?;
    match form(alloc, words.as_slice()) {
        Ok(found) => {
            assert_eq!(rt; found, *expected, "{line}");
            Ok(())
        }
        Err(error) => Err(error.into()),
    }
}

fn are_refused(rt: &impl Abort, alloc: Global, lines: &[&str]) -> Result<(), Fail> {
    for line in lines {
        means(rt, alloc, line, &None)?;
    }
    Ok(())
}

/// The form `run` of these names.
fn run<'a>(
    [graph, fleet, stream]: [&'a str; 3],
    params: Params,
    window: Option<u32>,
    proof: bool,
) -> Option<Form<'a>> {
    Some(Form::Run {
        graph,
        fleet,
        stream,
        params,
        window,
        proof,
    })
}

/// The form `audit` of `g`, `f` and `j`.
fn audit(params: Params) -> Option<Form<'static>> {
    Some(Form::Audit {
        graph: "g",
        fleet: "f",
        journal: "j",
        params,
    })
}

/// The form `live` of `g`, `f` and `s`, with the usual parameters.
fn live(workers: u32) -> Option<Form<'static>> {
    Some(Form::Live {
        graph: "g",
        fleet: "f",
        stream: "s",
        params: Params::usual(),
        workers,
    })
}

const NAMES: &[(&str, [&str; 3])] = &[
    ("run g f s", ["g", "f", "s"]),
    ("run -- g f s", ["g", "f", "s"]),
    ("run g -- --stop --", ["g", "--stop", "--"]),
    ("run - -- -x -", ["-", "-x", "-"]),
    ("run   s", ["", "", "s"]),
    ("run é = -- ", ["é", "=", ""]),
];

#[test]
fn names(rt: HostRuntime) -> Result<(), Fail> {
    for (line, names) in NAMES {
        let expected = run(*names, Params::usual(), None, false);
        means(&rt, rt.alloc(), line, &expected)?;
    }
    Ok(())
}

const STOPS: &[(&str, u64)] = &[
    ("run --stop 7 g f s", 7),
    ("run g --stop 7 f s", 7),
    ("run g f --stop=7 s", 7),
    ("run g f s --stop 7", 7),
    ("run --stop 7 -- g f s", 7),
    ("run g f s --stop 0", 0),
    ("run g f s --stop 0065536", 65536),
];

#[test]
fn stops(rt: HostRuntime) -> Result<(), Fail> {
    for (line, stop) in STOPS {
        let params = Params::new(*stop, 20, 2, 1, 10, 1, 1).ok_or("in range")?;
        let expected = run(["g", "f", "s"], params, None, false);
        means(&rt, rt.alloc(), line, &expected)?;
    }
    Ok(())
}

const PLACES: &[&str] = &[
    "run g f",
    "run g f s t",
    "run g f s -- t",
    "run g f --",
    "run g f s --stop --",
];

#[test]
fn refused_places(rt: HostRuntime) -> Result<(), Fail> {
    are_refused(&rt, rt.alloc(), PLACES)
}

/// What begins with a dash, `=`, and options that are given twice or that the mode lacks.
const DASHES: &[&str] = &[
    "run g f s --stop",
    "run --stop g f s",
    "run g f s --stop -1",
    "run g f s --stop=-1",
    "run g f s --stop -",
    "run g f s --stop=-",
    "run g f s --stop=",
    "run g f s --stop ",
    "run g f s --stop=1=2",
    "run g f s --=7",
    "run g f s --st 7",
    "run g f s --stops 7",
    "run g f s --Stop 7",
    "run g f -s",
    "run g f -é",
    "run g f ---",
    "run g f s --é",
    "run g f s -h",
    "run g f s --help",
    "run g f s --version",
    "run g f s --stop 7 --stop 7",
    "run --stop=7 g f s --stop 7",
    "run g f s --stop --stop 7",
    "run g f s --proof --proof",
    "run g f s --proof=true",
    "run g f s --proof=",
    "run g f s --proof true",
    "run g f s --workers 2",
    "audit g f j --proof",
    "audit g f j --window 2",
    "live g f s --window 2",
    "walk g 1 2 --stop 7",
    "gen 1 --stop 7",
];

#[test]
fn refused_dashes(rt: HostRuntime) -> Result<(), Fail> {
    are_refused(&rt, rt.alloc(), DASHES)
}

const RANGES: &[&str] = &[
    "run g f s --stop 65537",
    "run g f s --stop +7",
    "run g f s --stop 7x",
    "run g f s --stop 18446744073709551616",
    "audit g f j --wait 65537",
    "audit g f j --trip-num 65537 --trip-den 65536",
    "audit g f j --trip-den 65537",
    "audit g f j --trip-den 0 --trip-num 0",
    "audit g f j --trip-add 65537",
    "audit g f j --wait-weight 65537",
    "audit g f j --trip-weight 65537",
    "audit g f j --trip-num 17",
    "audit g f j --trip-num 49 --trip-den 3",
    "run g f s --window 0",
    "run g f s --window 4097",
    "live g f s --workers 0",
    "live g f s --workers 65",
];

#[test]
fn refused_ranges(rt: HostRuntime) -> Result<(), Fail> {
    are_refused(&rt, rt.alloc(), RANGES)
}

/// Lines of `audit`, with the numbers of their parameters.
const RATES: &[(&str, [u64; 7])] = &[
    (
        "audit --stop 1 --wait 2 --trip-num 48 --trip-den 3 --trip-add 5 \
         --wait-weight 6 --trip-weight 7 g f j",
        [1, 2, 48, 3, 5, 6, 7],
    ),
    (
        "audit --stop 0 --wait 0 --trip-num 0 --trip-den 1 --trip-add 0 \
         --wait-weight 0 --trip-weight 0 g f j",
        [0, 0, 0, 1, 0, 0, 0],
    ),
    (
        "audit --wait 65536 --trip-num=65536 --trip-den=65536 --trip-add 65536 \
         --wait-weight 65536 --trip-weight=65536 g f j",
        [2, 65536, 65536, 65536, 65536, 65536, 65536],
    ),
];

#[test]
fn rates(rt: HostRuntime) -> Result<(), Fail> {
    for (line, numbers) in RATES {
        let [stop, wait, num, den, add, wait_weight, trip_weight] = *numbers;
        let params = Params::new(stop, wait, num, den, add, wait_weight, trip_weight);
        let expected = audit(params.ok_or("in range")?);
        means(&rt, rt.alloc(), line, &expected)?;
    }
    Ok(())
}

const WINDOWS: &[(&str, Option<u32>, bool)] = &[
    ("run g f s --window 1", Some(1), false),
    ("run --proof g f s --window=4096", Some(4096), true),
    ("run g f s --proof", None, true),
];

#[test]
fn windows(rt: HostRuntime) -> Result<(), Fail> {
    for (line, window, proof) in WINDOWS {
        let expected = run(["g", "f", "s"], Params::usual(), *window, *proof);
        means(&rt, rt.alloc(), line, &expected)?;
    }
    Ok(())
}

const LIVES: &[(&str, u32)] = &[
    ("live g f s", 2),
    ("live g f s --workers 1", 1),
    ("live g --workers=64 f s", 64),
];

#[test]
fn lives(rt: HostRuntime) -> Result<(), Fail> {
    for (line, workers) in LIVES {
        means(&rt, rt.alloc(), line, &live(*workers))?;
    }
    Ok(())
}

const CITIES: &[(&str, u64)] = &[
    ("gen 0", 0),
    ("gen -- 18446744073709551615", 18446744073709551615),
];

#[test]
fn walks_and_cities(rt: HostRuntime) -> Result<(), Fail> {
    let (graph, from, to) = ("g", 0, 4294967295);
    let walk = Some(Form::Walk { graph, from, to });
    means(&rt, rt.alloc(), "walk g 0 4294967295", &walk)?;
    for (line, number) in CITIES {
        let number = *number;
        means(&rt, rt.alloc(), line, &Some(Form::Gen { number }))?;
    }
    Ok(())
}

/// Other numbers of the modes, and words that are no mode.
const MODES: &[&str] = &[
    "walk g 0 4294967296",
    "walk g 4294967296 0",
    "walk g 0 x",
    "walk g -- 0 -1",
    "walk g 0",
    "gen 18446744073709551616",
    "gen",
    "gen 1 2",
    "gen ",
    "",
    "ride g f s",
    "Run g f s",
    "--stop 7 run g f s",
    "help run",
];

#[test]
fn refused_modes(rt: HostRuntime) -> Result<(), Fail> {
    are_refused(&rt, rt.alloc(), MODES)
}

#[test]
fn no_word_is_refused(rt: HostRuntime) -> Result<(), Fail> {
    match form(rt.alloc(), &[]) {
        Ok(found) => {
            assert!(rt; found.is_none());
            Ok(())
        }
        Err(error) => Err(error.into()),
    }
}
