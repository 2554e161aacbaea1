ghost use Rattle.std.specs.Prelude.{◌≡◌, Bool, IfOk, IfSome, None, Ok, codes, drop, map};
ghost use Rattle.std.specs.String.{string_bytes};
ghost use Rattle.clap.specs.Words.{first_value, found_of};
ghost use Rattle.command_words.specs.Commands.{HasNoMode, form_of};
ghost use Rattle.command_words.specs.Reading.{HasFlag, audit_by, audit_in, gen_by, gen_in, live_by, live_in, run_by, run_in, walk_by, walk_in};
ghost use Rattle.command_words.specs.Shown.{Shows};

use crate::forms::Form;
use crate::words;
use clap::ArgMatches;
use ride_base::{NoMemory, number};
use std::alloc::Global;

/// What the words of a command line ask for, without the program's own name. None where they are no command line, for which no memory
/// is wanted where the first word begins no form. After an error nothing is left but the words, and it says nothing of them.
pub fn form<'a>(alloc: Global, words: &'a [String]) -> Result<Option<Form<'a>>, NoMemory>
    ensures shows { IfOk result (Shows (form_of (map string_bytes words.entry.now))) }
    ensures none { HasNoMode (map string_bytes words.entry.now) → result ≡ Ok None }
{
    let Some(mode) = words.first() else {
        return Ok(None);
    };
    match mode.as_str() {
        "run" => run(alloc, words),
        "audit" => audit(alloc, words),
        "walk" => walk(alloc, words),
        "gen" => city(alloc, words),
        "live" => live(alloc, words),
        _ => Ok(None),
    }
}

fn run<'a>(alloc: Global, words: &'a [String]) -> Result<Option<Form<'a>>, NoMemory>
    ensures { IfOk result (Shows (run_in (drop 1 (map string_bytes words.entry.now)))) }
{
    let base = words::command(alloc, &["graph", "fleet", "stream"], &words::PARAMETERS)?;
    let optioned = words::with_options(alloc, base, &["window"])?;
    let command = words::with_flags(alloc, optioned, &["proof"])?;
    match words::matches(command, words) {
        Ok(matches) => Ok(run_of(&matches)),
        Err(error) => Err(error),
    }
}

/// The form of the matches, and none exactly where there are none or their values are out of their ranges.
fn run_of<'a>(matches: &Option<ArgMatches<'a>>) -> Option<Form<'a>>
    ensures some { IfSome matches.now (λ m. (proof : Bool)
        → HasFlag (found_of m) (codes "proof") proof
        → Shows (run_by (first_value (found_of m)) proof) result) }
    ensures none { matches.now ≡ None → result ≡ None }
{
    let Some(matches) = matches else { return None };
    let graph = matches.get_str("graph")?;
    let fleet = matches.get_str("fleet")?;
    let stream = matches.get_str("stream")?;
    let params = words::params(matches)?;
    let window = words::optional_number(matches, "window", 1, 4096)?;
    Some(Form::Run {
        graph,
        fleet,
        stream,
        params,
        window,
        proof: matches.get_flag("proof"),
    })
}

fn audit<'a>(alloc: Global, words: &'a [String]) -> Result<Option<Form<'a>>, NoMemory>
    ensures { IfOk result (Shows (audit_in (drop 1 (map string_bytes words.entry.now)))) }
{
    let command = words::command(alloc, &["graph", "fleet", "journal"], &words::PARAMETERS)?;
    match words::matches(command, words) {
        Ok(matches) => Ok(audit_of(&matches)),
        Err(error) => Err(error),
    }
}

/// The form of the matches, and none exactly where there are none or their values are out of their ranges.
fn audit_of<'a>(matches: &Option<ArgMatches<'a>>) -> Option<Form<'a>>
    ensures some { IfSome matches.now (λ m. Shows (audit_by (first_value (found_of m))) result) }
    ensures none { matches.now ≡ None → result ≡ None }
{
    let Some(matches) = matches else { return None };
    let graph = matches.get_str("graph")?;
    let fleet = matches.get_str("fleet")?;
    let journal = matches.get_str("journal")?;
    let params = words::params(matches)?;
    Some(Form::Audit {
        graph,
        fleet,
        journal,
        params,
    })
}

fn walk<'a>(alloc: Global, words: &'a [String]) -> Result<Option<Form<'a>>, NoMemory>
    ensures { IfOk result (Shows (walk_in (drop 1 (map string_bytes words.entry.now)))) }
{
    let command = words::command(alloc, &["graph", "from", "to"], &[])?;
    match words::matches(command, words) {
        Ok(matches) => Ok(walk_of(&matches)),
        Err(error) => Err(error),
    }
}

/// The form of the matches, and none exactly where there are none or their values are out of their ranges.
fn walk_of<'a>(matches: &Option<ArgMatches<'a>>) -> Option<Form<'a>>
    ensures some { IfSome matches.now (λ m. Shows (walk_by (first_value (found_of m))) result) }
    ensures none { matches.now ≡ None → result ≡ None }
{
    let Some(matches) = matches else { return None };
    let graph = matches.get_str("graph")?;
    let from = matches.get_str("from")?;
    let to = matches.get_str("to")?;
    let from = words::small_number_within(from, 0, u32::MAX)?;
    let to = words::small_number_within(to, 0, u32::MAX)?;
    Some(Form::Walk { graph, from, to })
}

fn city<'a>(alloc: Global, words: &'a [String]) -> Result<Option<Form<'a>>, NoMemory>
    ensures { IfOk result (Shows (gen_in (drop 1 (map string_bytes words.entry.now)))) }
{
    let command = words::command(alloc, &["number"], &[])?;
    match words::matches(command, words) {
        Ok(matches) => Ok(city_of(&matches)),
        Err(error) => Err(error),
    }
}

/// The form of the matches, and none exactly where there are none or their values are out of their ranges.
fn city_of<'a>(matches: &Option<ArgMatches<'a>>) -> Option<Form<'a>>
    ensures some { IfSome matches.now (λ m. Shows (gen_by (first_value (found_of m))) result) }
    ensures none { matches.now ≡ None → result ≡ None }
{
    let Some(matches) = matches else { return None };
    let text = matches.get_str("number")?;
    let number = number(text.as_bytes(), u64::MAX)?;
    Some(Form::Gen { number })
}

fn live<'a>(alloc: Global, words: &'a [String]) -> Result<Option<Form<'a>>, NoMemory>
    ensures { IfOk result (Shows (live_in (drop 1 (map string_bytes words.entry.now)))) }
{
    let base = words::command(alloc, &["graph", "fleet", "stream"], &words::PARAMETERS)?;
    let command = words::with_options(alloc, base, &["workers"])?;
    match words::matches(command, words) {
        Ok(matches) => Ok(live_of(&matches)),
        Err(error) => Err(error),
    }
}

/// The form of the matches, and none exactly where there are none or their values are out of their ranges.
fn live_of<'a>(matches: &Option<ArgMatches<'a>>) -> Option<Form<'a>>
    ensures some { IfSome matches.now (λ m. Shows (live_by (first_value (found_of m))) result) }
    ensures none { matches.now ≡ None → result ≡ None }
{
    let Some(matches) = matches else { return None };
    let graph = matches.get_str("graph")?;
    let fleet = matches.get_str("fleet")?;
    let stream = matches.get_str("stream")?;
    let params = words::params(matches)?;
    let workers = words::small_number_of_option(matches, "workers", 1, 64, 2)?;
    Some(Form::Live {
        graph,
        fleet,
        stream,
        params,
        workers,
    })
}
