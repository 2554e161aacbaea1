ghost use Rattle.std.specs.Prelude.{◌≡◌, [], IfOk, IsErr, IsOk, true, map, option_map};
ghost use Rattle.std.specs.String.{string_bytes};
ghost use Rattle.clap.specs.Words.{app_of, first_value, found_of, is_simple_and_free, rows_of};
ghost use Rattle.command_words.specs.Commands.{number_or, optional_within, rates_from, within};
ghost use Rattle.command_words.specs.Reading.{answer_of, app_for, flag_rule, name_rule, value_rule, with_rules};

use clap::error::ErrorKind;
use clap::{Arg, ArgAction, ArgMatches, Command};
use ride_base::{NoMemory, number};
use std::alloc::{AllocError, Global};
use stop_schedule::Params;

/// The options of the parameters.
pub const PARAMETERS: [&str; 7] = [
    "stop",
    "wait",
    "trip-num",
    "trip-den",
    "trip-add",
    "wait-weight",
    "trip-weight",
];

/// The command that takes these names in their order, and these options with a value. It has no help, and nothing is required.
pub fn command<'a>(
    alloc: Global,
    names: &[&'a str],
    valued: &[&'a str],
) -> Result<Command<'a>, NoMemory>
    ensures { IfOk result (λ c. app_of c
        ≡ app_for (map (λ s. s.now) names.now) (map (λ s. s.now) valued.now) []) }
{
    let bare = Command::new(alloc, "vaugrenis").disable_help_flag(true);
    let named = with_names(alloc, bare, names)?;
    with_options(alloc, named, valued)
}

/// The command with further names.
fn with_names<'a>(
    alloc: Global,
    mut command: Command<'a>,
    names: &[&'a str],
) -> Result<Command<'a>, NoMemory>
    ensures { IfOk result (λ c. app_of c
        ≡ with_rules (app_of command.entry) (map (λ s. name_rule s.now) names.now)) }
{
    for name in names {
        command = command.arg(Arg::new(alloc, name).action(ArgAction::Set))?;
    }
    Ok(command)
}

/// The command with further options that have a value, each at most once.
pub fn with_options<'a>(
    alloc: Global,
    mut command: Command<'a>,
    names: &[&'a str],
) -> Result<Command<'a>, NoMemory>
    ensures { IfOk result (λ c. app_of c
        ≡ with_rules (app_of command.entry) (map (λ s. value_rule s.now) names.now)) }
{
    for name in names {
        command = command.arg(Arg::new(alloc, name).long(name).action(ArgAction::Set))?;
    }
    Ok(command)
}

/// The command with further options without a value, each at most once.
pub fn with_flags<'a>(
    alloc: Global,
    mut command: Command<'a>,
    names: &[&'a str],
) -> Result<Command<'a>, NoMemory>
    ensures { IfOk result (λ c. app_of c
        ≡ with_rules (app_of command.entry) (map (λ s. flag_rule s.now) names.now)) }
{
    for name in names {
        command = command.arg(Arg::new(alloc, name).long(name).action(ArgAction::SetTrue))?;
    }
    Ok(command)
}

/// What clap finds in the words, the first of which it passes over. None where the command doesn't take them.
pub fn matches<'a>(
    command: Command<'a>,
    words: &'a [String],
) -> Result<Option<ArgMatches<'a>>, NoMemory>
    requires { is_simple_and_free (app_of command) ≡ true }
    ensures { IfOk result (λ r. option_map (λ m. rows_of (found_of m)) r
        ≡ answer_of (app_of command.entry) (map string_bytes words.entry.now)) }
{
    match command.try_get_matches_from(words) {
        Ok(matches) => Ok(Some(matches)),
        Err(error) => match refused(error.kind()) {
            Ok(()) => Ok(None),
            Err(error) => Err(error),
        },
    }
}

/// What a fault of clap's comes to: want of memory is handed on, and at any other fault the words are no form.
fn refused(kind: ErrorKind) -> Result<(), NoMemory>
    ensures memory { kind ≡ ErrorKind.OutOfMemory → IsErr result }
    ensures other { (kind ≡ ErrorKind.OutOfMemory → ⊥) → IsOk result }
{
    match kind {
        ErrorKind::OutOfMemory => Err(AllocError),
        _ => Ok(()),
    }
}

/// The number that a text spells, where it is from the least to the most.
pub fn number_within(text: &str, least: u64, most: u64) -> Option<u64>
    ensures { result ≡ within least most text.now }
{
    let found = number(text.as_bytes(), most)?;
    if least <= found { Some(found) } else { None }
}

/// The number of an option, or another where it isn't given. None where its value is no number from the least to the most.
pub fn number_of_option(
    matches: &ArgMatches,
    option: &str,
    least: u64,
    most: u64,
    other: u64,
) -> Option<u64>
    ensures { result ≡ number_or least most other (first_value (found_of matches.now) option.now) }
{
    match matches.get_str(option) {
        Some(text) => number_within(text, least, most),
        None => Some(other),
    }
}

/// The parameters of a command, each that isn't given as usual. None where one is no number or out of its range.
pub fn params(matches: &ArgMatches) -> Option<Params>
    ensures { result ≡ rates_from (first_value (found_of matches.now)) }
{
    let stop = number_of_option(matches, "stop", 0, 65536, 2)?;
    let wait = number_of_option(matches, "wait", 0, 65536, 20)?;
    let trip_num = number_of_option(matches, "trip-num", 0, 65536, 2)?;
    let trip_den = number_of_option(matches, "trip-den", 1, 65536, 1)?;
    let trip_add = number_of_option(matches, "trip-add", 0, 65536, 10)?;
    let wait_weight = number_of_option(matches, "wait-weight", 0, 65536, 1)?;
    let trip_weight = number_of_option(matches, "trip-weight", 0, 65536, 1)?;
    Params::new(
        stop,
        wait,
        trip_num,
        trip_den,
        trip_add,
        wait_weight,
        trip_weight,
    )
}

/// The number that a text spells, where it is from the least to the most.
pub fn small_number_within(text: &str, least: u32, most: u32) -> Option<u32>
    ensures { result ≡ within least most text.now }
{
    let found = number_within(text, u64::from(least), u64::from(most))?;
    Some(found as u32)
}

/// The number of an option, or another where it isn't given. None where its value is no number from the least to the most.
pub fn small_number_of_option(
    matches: &ArgMatches,
    option: &str,
    least: u32,
    most: u32,
    other: u32,
) -> Option<u32>
    ensures { result ≡ number_or least most other (first_value (found_of matches.now) option.now) }
{
    match matches.get_str(option) {
        Some(text) => small_number_within(text, least, most),
        None => Some(other),
    }
}

/// The number of an option that may be left out. None where its value is no number from the least to the most.
pub fn optional_number(
    matches: &ArgMatches,
    option: &str,
    least: u32,
    most: u32,
) -> Option<Option<u32>>
    ensures { result ≡ optional_within least most (first_value (found_of matches.now) option.now) }
{
    match matches.get_str(option) {
        Some(text) => {
            let found = small_number_within(text, least, most)?;
            Some(Some(found))
        }
        None => Some(None),
    }
}
