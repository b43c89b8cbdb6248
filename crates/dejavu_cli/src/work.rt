//! What the words ask for.
ghost use Rattle.std.specs.Prelude.{◌≡◌, MatchResult, Some};
ghost use Rattle.dv_outside.specs.Outside.{NeverFalls};
ghost use Rattle.command_files.specs.Files.{Sees};
ghost use Rattle.command_words.specs.Words.{command_of, texts_of};
ghost use Rattle.command_words.specs.Shown.{command_shown, HasNumbers};
ghost use Rattle.dejavu_cli.specs.Texts.{HasTextOf};
ghost use Rattle.dejavu_cli.specs.Causes.{HasCause, HasCauseOf};

use crate::answer::{Answer, whole};
use crate::with_history::{carry, explain, order, rerun, select};
use crate::with_source::{migrate, record};
use crate::with_versions::{certify, check, walk};
use command_files::Runner;
use command_refusals::Refusal;
use command_runs::generated_text;
use command_words::{Command, read_words};
use dv_outside::{Gate, Shelf};
use std::alloc::Global;
use std::thread::Threads;

/// The answer to the command that the words are, before anything is written.
pub(crate) fn work<R: Threads + Sync, S: Shelf, G: Gate>(
    rt: &R,
    alloc: Global,
    words: &[String],
    shelf: &mut S,
    gate: &G,
) -> Result<Answer, Refusal>
    ensures answer { Sees (S.answers shelf.old) (S.answers shelf.new) (λ seen. MatchResult result
        (λ answer. HasTextOf (command_of (texts_of words.now)) seen answer.end answer.text.items)
        (HasCause (command_of (texts_of words.now)) seen)) }
    ensures counts { NeverFalls (S.faults shelf.old) (S.faults shelf.new) }
    ensures same { S.files shelf.new ≡ S.files shelf.old }
{
    match read_words(alloc, words)? {
        Some(command) => answer_to(rt, alloc, command, shelf, gate),
        None => Err(Refusal::Usage),
    }
}

/// The answer to a command.
fn answer_to<R: Threads + Sync, S: Shelf, G: Gate>(
    rt: &R,
    alloc: Global,
    command: Command<'_>,
    shelf: &mut S,
    gate: &G,
) -> Result<Answer, Refusal>
    requires { HasNumbers command }
    ensures answer { Sees (S.answers shelf.old) (S.answers shelf.new) (λ seen. MatchResult result
        (λ answer. HasTextOf (Some (command_shown command.entry)) seen answer.end answer.text.items)
        (HasCauseOf (command_shown command.entry) seen)) }
    ensures counts { NeverFalls (S.faults shelf.old) (S.faults shelf.new) }
    ensures same { S.files shelf.new ≡ S.files shelf.old }
{
    match command {
        Command::Record {
            source,
            suite,
            workers,
        } => whole(record(alloc, source, suite, shelf, Runner { rt, workers, gate })),
        Command::Migrate { old, history } => whole(migrate(alloc, old, history, shelf)),
        Command::Walk { old, new } => whole(walk(alloc, old, new, shelf)),
        Command::Select(files) => whole(select(alloc, files, shelf)),
        Command::Rerun { files, workers } => {
            rerun(alloc, files, shelf, Runner { rt, workers, gate })
        }
        Command::Explain { files, test } => whole(explain(alloc, files, test, shelf)),
        Command::Carry { files, workers } => {
            whole(carry(alloc, files, shelf, Runner { rt, workers, gate }))
        }
        Command::Order { files, workers } => {
            whole(order(alloc, files, shelf, Runner { rt, workers, gate }))
        }
        Command::Certify { old, new } => whole(certify(alloc, old, new, shelf)),
        Command::Check {
            old,
            new,
            certificate,
        } => check(alloc, old, new, certificate, shelf),
        Command::Gen { seed, size } => {
            let workers = 1;
            whole(generated_text(alloc, seed, size, Runner { rt, workers, gate }))
        }
    }
}
