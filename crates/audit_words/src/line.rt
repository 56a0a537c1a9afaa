//! The form of the command line, for `clap`, and what its matches hold.

ghost use Rattle.std.specs.Prelude.{◌≡◌, IfOk, false, map, option_map};
ghost use Rattle.clap.specs.Words.{all_of, first_of, app_of, found_of, rows_of, rule_of};
ghost use Rattle.audit_words.specs.Line.{bench_options, settings_options, command_line, entries_of, option_rule};
ghost use Rattle.audit_words.specs.Line.{with_options, is_among, gives_only};

use crate::Word;
use clap::error::ErrorKind;
use clap::{Arg, ArgAction, ArgMatches, Command};
use stale_model::Memory;
use std::alloc::{AllocError, Global};

/// The options of a run of the store: first the number of workers, and then those that say its settings.
pub(crate) fn bench_options<'a>() -> [&'a str; 10]
    ensures { map (λ name. name.now) result ≡ bench_options }
{
    [
        "workers",
        "clients",
        "replicas",
        "calls",
        "keys",
        "read-quorum",
        "write-quorum",
        "writes",
        "seed",
        "shards",
    ]
}

// An option with a value.
fn option<'a>(alloc: Global, name: &'a str) -> Arg<'a>
    ensures rule { rule_of result ≡ option_rule name.entry.now }
    ensures local { result.global ≡ false }
{
    Arg::new(alloc, name).long(name)
}

// The command with these options too, in their order.
fn with_options<'a>(
    alloc: Global,
    command: Command<'a>,
    names: &[&'a str],
) -> Result<Command<'a>, AllocError>
    ensures { IfOk result (λ made. app_of made
        ≡ with_options (map (λ name. name.now) names.now) (app_of command.entry)) }
{
    let mut made = command;
    for name in names {
        made = made.arg(option(alloc, name))?;
    }
    Ok(made)
}

/// The command line: a mode, its arguments, and the options.
pub(crate) fn command_line<'a>(alloc: Global) -> Result<Command<'a>, AllocError>
    ensures { IfOk result (λ command. app_of command ≡ command_line) }
{
    let mode = Arg::new(alloc, "mode").required(true);
    let args = Arg::new(alloc, "args").action(ArgAction::Append);
    let command = Command::new(alloc, "audit_program").no_binary_name(true);
    let command = command.arg(mode)?;
    let command = command.arg(args)?;
    let command = command.arg(option(alloc, "cert"))?;
    with_options(alloc, command, &bench_options())
}

/// What the command line takes the words for; nothing where it does not take them.
pub(crate) fn matches_of<'a>(
    alloc: Global,
    words: &'a [Word],
) -> Result<Option<ArgMatches<'a>>, Memory>
    ensures { IfOk result (λ matches. option_map (λ matches. rows_of (found_of matches)) matches
        ≡ entries_of words.now) }
{
    let Ok(command) = command_line(alloc) else {
        return Err(Memory);
    };
    match command.try_get_matches_from(words) {
        Ok(matches) => Ok(Some(matches)),
        Err(error) if error.kind() == ErrorKind::OutOfMemory => Err(Memory),
        Err(_) => Ok(None),
    }
}

/// The value of an argument.
pub(crate) fn value_in<'a>(matches: &ArgMatches<'a>, id: &str) -> Option<&'a str>
    ensures { option_map (λ text. text.now) result
        ≡ first_of id.now (rows_of (found_of matches.now)) }
{
    matches.get_str(id)
}

/// The values of an argument, of all its uses.
pub(crate) fn values_in<'a, 'm>(matches: &'m ArgMatches<'a>, id: &str) -> Option<&'m [&'a str]>
    ensures { option_map (λ texts. map (λ text. text.now) texts.now) result
        ≡ all_of id.now (rows_of (found_of matches.now)) }
{
    matches.get_raw(id)
}

// Whether this is the mode, the arguments or one of these options.
fn is_among<'a>(options: &[&'a str], id: &'a str) -> bool
    ensures { result ≡ is_among (map (λ option. option.now) options.now) id.entry.now }
{
    match id {
        "mode" | "args" => true,
        _ => options.contains(&id),
    }
}

/// Whether no options but these are given.
pub(crate) fn gives_only<'a>(matches: &ArgMatches<'a>, options: &[&'a str]) -> bool
    ensures { result ≡ gives_only (map (λ option. option.now) options.now)
        (rows_of (found_of matches.now)) }
{
    for id in matches.ids() {
        if !is_among(options, id) {
            return false;
        }
    }
    true
}

/// Whether no options but those that say the settings of a run are given.
pub(crate) fn gives_settings_only(matches: &ArgMatches) -> bool
    ensures { result ≡ gives_only settings_options (rows_of (found_of matches.now)) }
{
    gives_only(matches, &bench_options()[1..])
}
