//! Commands on a source and a second file.
ghost use Rattle.std.specs.Prelude.{◌≡◌, ◌<◌, ◌≤◌, MatchResult, Some};
ghost use Rattle.dv_outside.specs.Outside.{NeverFalls};
ghost use Rattle.command_files.specs.Files.{Sees};
ghost use Rattle.command_words.specs.Words.{record_files, migrate_files};
ghost use Rattle.dejavu_cli.specs.Texts.{HasTextOf};
ghost use Rattle.dejavu_cli.specs.Causes.{HasCauseOf};
ghost use Rattle.dejavu_cli.specs.declared.answer.End.TheVariants.{Whole};

use command_files::{FILE_AND_ONE, Runner, SUITE_AND_ONE, open_source};
use command_histories::migrated_text;
use command_refusals::{Refusal, Role};
use command_runs::record_text;
use dv_outside::{Gate, Shelf};
use std::alloc::Global;
use std::thread::Threads;

/// The text of `record`.
pub(crate) fn record<R: Threads + Sync, S: Shelf, G: Gate>(
    alloc: Global,
    source_name: &str,
    suite_name: &str,
    shelf: &mut S,
    runner: Runner<'_, R, G>,
) -> Result<Vec<u8>, Refusal>
    requires some { 0 < runner.workers }
    requires few { runner.workers ≤ 64 }
    ensures answer { Sees (S.answers shelf.old) (S.answers shelf.new) (λ seen. MatchResult result
        (λ text. HasTextOf (Some (record_files source_name.now suite_name.now runner.entry.workers)) seen Whole text.items)
        (HasCauseOf (record_files source_name.now suite_name.now runner.entry.workers) seen)) }
    ensures counts { NeverFalls (S.faults shelf.old) (S.faults shelf.new) }
    ensures same { S.files shelf.new ≡ S.files shelf.old }
{
    let opened = open_source(
        alloc,
        Role::Source,
        source_name,
        suite_name,
        SUITE_AND_ONE,
        shelf,
    )?;
    record_text(
        alloc,
        &opened.source,
        &opened.program,
        &opened.bytes,
        runner,
    )
}

/// The text of `migrate`.
pub(crate) fn migrate<S: Shelf>(
    alloc: Global,
    old_name: &str,
    history_name: &str,
    shelf: &mut S,
) -> Result<Vec<u8>, Refusal>
    ensures answer { Sees (S.answers shelf.old) (S.answers shelf.new) (λ seen. MatchResult result
        (λ text. HasTextOf (Some (migrate_files old_name.now history_name.now)) seen Whole text.items)
        (HasCauseOf (migrate_files old_name.now history_name.now) seen)) }
    ensures counts { NeverFalls (S.faults shelf.old) (S.faults shelf.new) }
    ensures same { S.files shelf.new ≡ S.files shelf.old }
{
    let opened = open_source(
        alloc,
        Role::Old,
        old_name,
        history_name,
        FILE_AND_ONE,
        shelf,
    )?;
    migrated_text(alloc, &opened.source, &opened.program, &opened.bytes)
}
