//! Commands on two versions and a history of the old one.
ghost use Rattle.std.specs.Prelude.{◌≡◌, ◌<◌, ◌≤◌, MatchResult, Some};
ghost use Rattle.dv_outside.specs.Outside.{NeverFalls};
ghost use Rattle.command_files.specs.Files.{AreOpened, AreOpenCause, Sees};
ghost use Rattle.command_words.specs.Words.{select_files, rerun_files, explain_files, carry_files, order_files};
ghost use Rattle.dejavu_cli.specs.Texts.{HasTextOf};
ghost use Rattle.dejavu_cli.specs.Causes.{HasCauseOf};
ghost use Rattle.dejavu_cli.specs.declared.answer.End.TheVariants.{Whole};

use crate::answer::Answer;
use crate::rerun::rerun_answer;
use command_files::{FILE_AND_ONE, OpenedVersions, Runner, open_versions};
use command_histories::{carried_text, ordered_text};
use command_refusals::Refusal;
use command_runs::{explanation, selection_text};
use command_words::Files;
use dv_outside::{Gate, Shelf};
use std::alloc::Global;
use std::thread::Threads;

/// Both versions, and the bytes of the history.
fn open_files<S: Shelf>(
    alloc: Global,
    files: Files<'_>,
    shelf: &mut S,
) -> Result<OpenedVersions, Refusal>
    ensures opened { Sees (S.answers shelf.old) (S.answers shelf.new) (λ seen. MatchResult result
        (AreOpened files.entry.old.now files.entry.new.now files.entry.history.now 134217729 seen)
        (AreOpenCause files.entry.old.now files.entry.new.now files.entry.history.now 134217729 seen)) }
    ensures counts { NeverFalls (S.faults shelf.old) (S.faults shelf.new) }
    ensures same { S.files shelf.new ≡ S.files shelf.old }
{
    open_versions(
        alloc,
        files.old,
        files.new,
        files.history,
        FILE_AND_ONE,
        shelf,
    )
}

/// The text of `select`.
pub(crate) fn select<S: Shelf>(
    alloc: Global,
    files: Files<'_>,
    shelf: &mut S,
) -> Result<Vec<u8>, Refusal>
    ensures answer { Sees (S.answers shelf.old) (S.answers shelf.new) (λ seen. MatchResult result
        (λ text. HasTextOf (Some (select_files files.entry.old.now files.entry.new.now files.entry.history.now)) seen Whole text.items)
        (HasCauseOf (select_files files.entry.old.now files.entry.new.now files.entry.history.now) seen)) }
    ensures counts { NeverFalls (S.faults shelf.old) (S.faults shelf.new) }
    ensures same { S.files shelf.new ≡ S.files shelf.old }
{
    let opened = open_files(alloc, files, shelf)?;
    selection_text(alloc, &opened.versions, &opened.bytes)
}

/// The answer of `rerun`.
pub(crate) fn rerun<R: Threads + Sync, S: Shelf, G: Gate>(
    alloc: Global,
    files: Files<'_>,
    shelf: &mut S,
    runner: Runner<'_, R, G>,
) -> Result<Answer, Refusal>
    requires some { 0 < runner.workers }
    requires few { runner.workers ≤ 64 }
    ensures answer { Sees (S.answers shelf.old) (S.answers shelf.new) (λ seen. MatchResult result
        (λ answer. HasTextOf (Some (rerun_files files.entry.old.now files.entry.new.now files.entry.history.now runner.entry.workers)) seen answer.end answer.text.items)
        (HasCauseOf (rerun_files files.entry.old.now files.entry.new.now files.entry.history.now runner.entry.workers) seen)) }
    ensures counts { NeverFalls (S.faults shelf.old) (S.faults shelf.new) }
    ensures same { S.files shelf.new ≡ S.files shelf.old }
{
    let opened = open_files(alloc, files, shelf)?;
    rerun_answer(alloc, &opened.versions, &opened.bytes, runner)
}

/// The text of `explain`.
pub(crate) fn explain<S: Shelf>(
    alloc: Global,
    files: Files<'_>,
    test: &str,
    shelf: &mut S,
) -> Result<Vec<u8>, Refusal>
    ensures answer { Sees (S.answers shelf.old) (S.answers shelf.new) (λ seen. MatchResult result
        (λ text. HasTextOf (Some (explain_files files.entry.old.now files.entry.new.now files.entry.history.now test.now)) seen Whole text.items)
        (HasCauseOf (explain_files files.entry.old.now files.entry.new.now files.entry.history.now test.now) seen)) }
    ensures counts { NeverFalls (S.faults shelf.old) (S.faults shelf.new) }
    ensures same { S.files shelf.new ≡ S.files shelf.old }
{
    let opened = open_files(alloc, files, shelf)?;
    explanation(alloc, &opened.versions, &opened.bytes, test)
}

/// The text of `carry`.
pub(crate) fn carry<R: Threads + Sync, S: Shelf, G: Gate>(
    alloc: Global,
    files: Files<'_>,
    shelf: &mut S,
    runner: Runner<'_, R, G>,
) -> Result<Vec<u8>, Refusal>
    requires some { 0 < runner.workers }
    requires few { runner.workers ≤ 64 }
    ensures answer { Sees (S.answers shelf.old) (S.answers shelf.new) (λ seen. MatchResult result
        (λ text. HasTextOf (Some (carry_files files.entry.old.now files.entry.new.now files.entry.history.now runner.entry.workers)) seen Whole text.items)
        (HasCauseOf (carry_files files.entry.old.now files.entry.new.now files.entry.history.now runner.entry.workers) seen)) }
    ensures counts { NeverFalls (S.faults shelf.old) (S.faults shelf.new) }
    ensures same { S.files shelf.new ≡ S.files shelf.old }
{
    let opened = open_files(alloc, files, shelf)?;
    carried_text(alloc, &opened.versions, &opened.bytes, runner)
}

/// The text of `order`.
pub(crate) fn order<R: Threads + Sync, S: Shelf, G: Gate>(
    alloc: Global,
    files: Files<'_>,
    shelf: &mut S,
    runner: Runner<'_, R, G>,
) -> Result<Vec<u8>, Refusal>
    requires some { 0 < runner.workers }
    requires few { runner.workers ≤ 64 }
    ensures answer { Sees (S.answers shelf.old) (S.answers shelf.new) (λ seen. MatchResult result
        (λ text. HasTextOf (Some (order_files files.entry.old.now files.entry.new.now files.entry.history.now runner.entry.workers)) seen Whole text.items)
        (HasCauseOf (order_files files.entry.old.now files.entry.new.now files.entry.history.now runner.entry.workers) seen)) }
    ensures counts { NeverFalls (S.faults shelf.old) (S.faults shelf.new) }
    ensures same { S.files shelf.new ≡ S.files shelf.old }
{
    let opened = open_files(alloc, files, shelf)?;
    ordered_text(alloc, &opened.versions, &opened.bytes, runner)
}
