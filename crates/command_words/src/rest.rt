//! The words behind a command's name, read by clap.
ghost use Rattle.std.specs.Prelude.{◌≡◌, [], IfOk, MatchOption, Some, map, unwrap_or};
ghost use Rattle.std.specs.Option.{option_map, option_to_list};
ghost use Rattle.clap.specs.Matches.{found_of};
ghost use Rattle.clap.specs.Walk.{rows_of};
ghost use Rattle.clap.specs.Simple.{app_of, matches_of};
ghost use Rattle.clap.specs.Kinds.{FailsBy};
ghost use Rattle.clap.specs.Faults.{fault_of};
ghost use Rattle.command_words.specs.Words.{rest_of, texts_of};
ghost use Rattle.command_words.specs.Matches.{rest_app, rest_shown, HasNoNumber};

use clap::error::ErrorKind;
use clap::{Arg, ArgAction, ArgMatches, Command, Error};
use std::alloc::{AllocError, Global};

/// The id of the plain words.
const PLAIN: &str = "plain";

/// The id of the number of workers, and the name of its option.
const WORKERS: &str = "workers";

/// The words behind a command's name, and `None` where clap refuses them: they are then no rest of a command, or one
/// with no number of workers. Clap takes no `--`, no other option and no second value as that number.
pub(crate) fn read_rest(
    alloc: Global,
    words: &[String],
) -> Result<Option<ArgMatches<'_>>, AllocError>
    ensures { IfOk result (λ found. MatchOption found
        (HasNoNumber (rest_of (texts_of words.now)))
        (λ rest. rest_of (texts_of words.now) ≡ Some (rest_shown rest))) }
{
    match parse_rest(alloc, words) {
        Ok(rest) => Ok(Some(rest)),
        Err(error) => match error.kind() {
            ErrorKind::OutOfMemory => Err(AllocError),
            _ => Ok(None),
        },
    }
}

/// The plain words among them, and `None` where there are none.
pub(crate) fn plain_words<'m, 'a>(rest: &'m ArgMatches<'a>) -> Option<&'m [&'a str]>
    ensures { unwrap_or (option_map (λ words. map (λ word. word.now) words.now) result) [] ≡ (rest_shown rest.now).plain }
{
    rest.get_raw(PLAIN)
}

/// The word that is given for the number of workers.
pub(crate) fn workers_word<'a>(rest: &ArgMatches<'a>) -> Option<&'a str>
    ensures { option_to_list (option_map (λ word. word.now) result) ≡ (rest_shown rest.now).workers }
{
    rest.get_str(WORKERS)
}

/// What clap finds in the words.
fn parse_rest(alloc: Global, words: &[String]) -> Result<ArgMatches<'_>, Error>
    ensures rows { IfOk result (λ rest. rows_of (found_of rest) ≡ matches_of rest_app (texts_of words.now)) }
    ensures fault { FailsBy (fault_of rest_app (texts_of words.now)) result }
{
    rest_command(alloc)?.try_get_matches_from(words)
}

/// What clap is told of the words: any number of plain ones, and `--workers N` once at most.
fn rest_command<'a>(alloc: Global) -> Result<Command<'a>, AllocError>
    ensures { IfOk result (λ command. app_of command ≡ rest_app) }
{
    let workers = Arg::new(alloc, WORKERS)
        .long(WORKERS)
        .action(ArgAction::Set);
    Command::new(alloc, "dejavu")
        .no_binary_name(true)
        .disable_help_flag(true)
        .disable_version_flag(true)
        .arg(workers)?
        .arg(Arg::new(alloc, PLAIN).action(ArgAction::Append))
}
