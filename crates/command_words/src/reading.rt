//! The reading of words.
ghost use Rattle.std.specs.Prelude.{◌≡◌, ◌∷◌, [], ℕ, List, Some, IfOk, IfSome};
ghost use Rattle.std.specs.Option.{option_map};
ghost use Rattle.command_words.specs.Words.{command_of, record_of, migrate_of, walk_of, select_of, rerun_of, explain_of, carry_of, order_of, certify_of, check_of, gen_of};
ghost use Rattle.command_words.specs.Words.{two_plain, three_plain, plain_alone, two_alone, three_alone, three_with, explain_with, rest_of, texts_of};
ghost use Rattle.command_words.specs.Matches.{rest_shown};
ghost use Rattle.command_words.specs.Shown.{command_shown, HasNumbers, AreWorkers};

use crate::command::{Command, Files};
use crate::numbers::{number_in, workers_of};
use crate::rest::{plain_words, read_rest, workers_word};
use clap::ArgMatches;
use std::alloc::{AllocError, Global};
use test_suite::is_test_name;

/// How many seeds there are, from 0 on.
const SEEDS: u32 = 65_536;

/// How many sizes there are, from 1 on.
const SIZES: u32 = 400;

/// The command that the words are, and `None` where they are none. An `Err` is want of memory.
///
/// The first word is the command's name, and plain words follow it:
///
/// - `record SOURCE SUITE`
/// - `migrate OLD HISTORY`
/// - `walk OLD NEW`
/// - `select OLD NEW HISTORY`
/// - `rerun OLD NEW HISTORY`
/// - `explain OLD NEW HISTORY TEST`
/// - `carry OLD NEW HISTORY`
/// - `order OLD NEW HISTORY`
/// - `certify OLD NEW`
/// - `check OLD NEW CERTIFICATE`
/// - `gen SEED SIZE`
///
/// `TEST` is the name of a test (rule S4), `SEED` and `SIZE` are decimal numbers from 0 to 65,535 and from 1 to 400.
/// `record`, `rerun`, `carry` and `order` also take `--workers N` or `--workers=N`, anywhere before a word `--`: once at
/// most, with N from 1 to 64; where it isn't given there is one worker. No number has a sign or a leading zero. The first
/// `--` is left out, and each word behind it is plain; the word `-` is always plain.
///
/// The words are no command where the first is no such name or lacks, where there are fewer or more plain ones or one isn't
/// as said, where there is another option, or where `--workers` stands behind another command, stands twice or has no such
/// number.
pub fn read_words(alloc: Global, words: &[String]) -> Result<Option<Command<'_>>, AllocError>
    ensures command { IfOk result (λ found. option_map command_shown found ≡ command_of (texts_of words.now)) }
    ensures numbers { IfOk result (λ found. IfSome found HasNumbers) }
{
    let Some((name, more)) = words.split_first() else {
        return Ok(None);
    };
    let Some(rest) = read_rest(alloc, more)? else {
        return Ok(None);
    };
    Ok(command_by(name.as_str(), &rest))
}

/// The command with this name, by what is read of the words behind it.
fn command_by<'a>(name: &str, rest: &ArgMatches<'a>) -> Option<Command<'a>>
    ensures command { (more : List (List ℕ)) → rest_of more ≡ Some (rest_shown rest.now)
        → option_map command_shown result ≡ command_of (name.now ∷ more) }
    ensures numbers { IfSome result HasNumbers }
{
    match name {
        "record" => record_words(rest),
        "migrate" => migrate_words(rest),
        "walk" => walk_words(rest),
        "select" => select_words(rest),
        "rerun" => rerun_words(rest),
        "explain" => explain_words(rest),
        "carry" => carry_words(rest),
        "order" => order_words(rest),
        "certify" => certify_words(rest),
        "check" => check_words(rest),
        "gen" => gen_words(rest),
        _ => None,
    }
}

/// `record` with the words behind it: `SOURCE SUITE [--workers N]`.
fn record_words<'a>(rest: &ArgMatches<'a>) -> Option<Command<'a>>
    ensures command { option_map command_shown result ≡ record_of (rest_shown rest.now) }
    ensures numbers { IfSome result HasNumbers }
{
    let workers = workers_of(workers_word(rest))?;
    let (source, suite) = two_plain(rest)?;
    Some(Command::Record {
        source,
        suite,
        workers,
    })
}

/// `migrate` with the words behind it: `OLD HISTORY`.
fn migrate_words<'a>(rest: &ArgMatches<'a>) -> Option<Command<'a>>
    ensures command { option_map command_shown result ≡ migrate_of (rest_shown rest.now) }
    ensures numbers { IfSome result HasNumbers }
{
    let (old, history) = two_alone(rest)?;
    Some(Command::Migrate { old, history })
}

/// `walk` with the words behind it: `OLD NEW`.
fn walk_words<'a>(rest: &ArgMatches<'a>) -> Option<Command<'a>>
    ensures command { option_map command_shown result ≡ walk_of (rest_shown rest.now) }
    ensures numbers { IfSome result HasNumbers }
{
    let (old, new) = two_alone(rest)?;
    Some(Command::Walk { old, new })
}

/// `select` with the words behind it: `OLD NEW HISTORY`.
fn select_words<'a>(rest: &ArgMatches<'a>) -> Option<Command<'a>>
    ensures command { option_map command_shown result ≡ select_of (rest_shown rest.now) }
    ensures numbers { IfSome result HasNumbers }
{
    let (old, new, history) = three_alone(rest)?;
    Some(Command::Select(Files { old, new, history }))
}

/// `rerun` with the words behind it: `OLD NEW HISTORY [--workers N]`.
fn rerun_words<'a>(rest: &ArgMatches<'a>) -> Option<Command<'a>>
    ensures command { option_map command_shown result ≡ rerun_of (rest_shown rest.now) }
    ensures numbers { IfSome result HasNumbers }
{
    let (files, workers) = three_with(rest)?;
    Some(Command::Rerun { files, workers })
}

/// `explain` with the words behind it: `OLD NEW HISTORY TEST`.
fn explain_words<'a>(rest: &ArgMatches<'a>) -> Option<Command<'a>>
    ensures command { option_map command_shown result ≡ explain_of (rest_shown rest.now) }
    ensures numbers { IfSome result HasNumbers }
{
    let alone = without_workers(rest)?;
    match plain_words(alone)? {
        [old, new, history, test] => explain_test(Files { old, new, history }, test),
        _ => None,
    }
}

/// The same, if the last word can name a test.
fn explain_test<'a>(files: Files<'a>, test: &'a str) -> Option<Command<'a>>
    ensures command { option_map command_shown result ≡ explain_with (files.entry.old.now ∷ files.entry.new.now ∷ files.entry.history.now ∷ test.now ∷ []) }
    ensures numbers { IfSome result HasNumbers }
{
    if is_test_name(test.as_bytes()) {
        Some(Command::Explain { files, test })
    } else {
        None
    }
}

/// `carry` with the words behind it: `OLD NEW HISTORY [--workers N]`.
fn carry_words<'a>(rest: &ArgMatches<'a>) -> Option<Command<'a>>
    ensures command { option_map command_shown result ≡ carry_of (rest_shown rest.now) }
    ensures numbers { IfSome result HasNumbers }
{
    let (files, workers) = three_with(rest)?;
    Some(Command::Carry { files, workers })
}

/// `order` with the words behind it: `OLD NEW HISTORY [--workers N]`.
fn order_words<'a>(rest: &ArgMatches<'a>) -> Option<Command<'a>>
    ensures command { option_map command_shown result ≡ order_of (rest_shown rest.now) }
    ensures numbers { IfSome result HasNumbers }
{
    let (files, workers) = three_with(rest)?;
    Some(Command::Order { files, workers })
}

/// `certify` with the words behind it: `OLD NEW`.
fn certify_words<'a>(rest: &ArgMatches<'a>) -> Option<Command<'a>>
    ensures command { option_map command_shown result ≡ certify_of (rest_shown rest.now) }
    ensures numbers { IfSome result HasNumbers }
{
    let (old, new) = two_alone(rest)?;
    Some(Command::Certify { old, new })
}

/// `check` with the words behind it: `OLD NEW CERTIFICATE`.
fn check_words<'a>(rest: &ArgMatches<'a>) -> Option<Command<'a>>
    ensures command { option_map command_shown result ≡ check_of (rest_shown rest.now) }
    ensures numbers { IfSome result HasNumbers }
{
    let (old, new, certificate) = three_alone(rest)?;
    Some(Command::Check {
        old,
        new,
        certificate,
    })
}

/// `gen` with the words behind it: `SEED SIZE`.
fn gen_words<'a>(rest: &ArgMatches<'a>) -> Option<Command<'a>>
    ensures command { option_map command_shown result ≡ gen_of (rest_shown rest.now) }
    ensures numbers { IfSome result HasNumbers }
{
    let (seed, size) = two_alone(rest)?;
    let seed = number_in(seed.as_bytes(), 0, SEEDS)?;
    let size = number_in(size.as_bytes(), 1, SIZES)?;
    Some(Command::Gen { seed, size })
}

/// The plain words, where they are two and no word is given for a number of workers.
fn two_alone<'a>(rest: &ArgMatches<'a>) -> Option<(&'a str, &'a str)>
    ensures { option_map (λ files. (files.0.now, files.1.now)) result ≡ two_alone (rest_shown rest.now) }
{
    two_plain(without_workers(rest)?)
}

/// The plain words, where they are three and no word is given for a number of workers.
fn three_alone<'a>(rest: &ArgMatches<'a>) -> Option<(&'a str, &'a str, &'a str)>
    ensures { option_map (λ files. (files.0.now, files.1.now, files.2.now)) result ≡ three_alone (rest_shown rest.now) }
{
    three_plain(without_workers(rest)?)
}

/// The plain words, where they are three, with the number of workers.
fn three_with<'a>(rest: &ArgMatches<'a>) -> Option<(Files<'a>, usize)>
    ensures words { option_map (λ found. (found.0.old.now, found.0.new.now, found.0.history.now, found.1)) result ≡ three_with (rest_shown rest.now) }
    ensures numbers { IfSome result (λ found. AreWorkers found.1) }
{
    let workers = workers_of(workers_word(rest))?;
    let (old, new, history) = three_plain(rest)?;
    Some((Files { old, new, history }, workers))
}

/// The words that are read, where none is given for a number of workers.
fn without_workers<'m, 'a>(rest: &'m ArgMatches<'a>) -> Option<&'m ArgMatches<'a>>
    ensures { option_map (λ alone. (rest_shown alone.now).plain) result ≡ plain_alone (rest_shown rest.now) }
{
    match workers_word(rest) {
        None => Some(rest),
        Some(_) => None,
    }
}

/// The plain words, where they are two.
fn two_plain<'a>(rest: &ArgMatches<'a>) -> Option<(&'a str, &'a str)>
    ensures { option_map (λ files. (files.0.now, files.1.now)) result ≡ two_plain (rest_shown rest.now).plain }
{
    match plain_words(rest)? {
        [first, second] => Some((first, second)),
        _ => None,
    }
}

/// The plain words, where they are three.
fn three_plain<'a>(rest: &ArgMatches<'a>) -> Option<(&'a str, &'a str, &'a str)>
    ensures { option_map (λ files. (files.0.now, files.1.now, files.2.now)) result ≡ three_plain (rest_shown rest.now).plain }
{
    match plain_words(rest)? {
        [first, second, third] => Some((first, second, third)),
        _ => None,
    }
}
