//! Commands on two versions, and on two versions with a certificate.
ghost use Rattle.std.specs.Prelude.{◌≡◌, MatchResult, Some};
ghost use Rattle.dv_outside.specs.Outside.{NeverFalls};
ghost use Rattle.command_files.specs.Files.{Sees};
ghost use Rattle.command_words.specs.Words.{walk_files, certify_files, check_files};
ghost use Rattle.dejavu_cli.specs.Texts.{HasTextOf, end_of_check};
ghost use Rattle.dejavu_cli.specs.Causes.{HasCauseOf};
ghost use Rattle.dejavu_cli.specs.declared.answer.End.TheVariants.{Whole};

use crate::answer::{Answer, End};
use command_claims::{certified_text, checked_text};
use command_files::{FILE_AND_ONE, open_versions, read_versions};
use command_refusals::Refusal;
use command_runs::report;
use dv_outside::Shelf;
use std::alloc::Global;

/// The text of `walk`.
pub(crate) fn walk<S: Shelf>(
    alloc: Global,
    old_name: &str,
    new_name: &str,
    shelf: &mut S,
) -> Result<Vec<u8>, Refusal>
    ensures answer { Sees (S.answers shelf.old) (S.answers shelf.new) (λ seen. MatchResult result
        (λ text. HasTextOf (Some (walk_files old_name.now new_name.now)) seen Whole text.items)
        (HasCauseOf (walk_files old_name.now new_name.now) seen)) }
    ensures counts { NeverFalls (S.faults shelf.old) (S.faults shelf.new) }
    ensures same { S.files shelf.new ≡ S.files shelf.old }
{
    let versions = read_versions(alloc, old_name, new_name, shelf)?;
    Ok(report(alloc, &versions)?)
}

/// The text of `certify`.
pub(crate) fn certify<S: Shelf>(
    alloc: Global,
    old_name: &str,
    new_name: &str,
    shelf: &mut S,
) -> Result<Vec<u8>, Refusal>
    ensures answer { Sees (S.answers shelf.old) (S.answers shelf.new) (λ seen. MatchResult result
        (λ text. HasTextOf (Some (certify_files old_name.now new_name.now)) seen Whole text.items)
        (HasCauseOf (certify_files old_name.now new_name.now) seen)) }
    ensures counts { NeverFalls (S.faults shelf.old) (S.faults shelf.new) }
    ensures same { S.files shelf.new ≡ S.files shelf.old }
{
    let versions = read_versions(alloc, old_name, new_name, shelf)?;
    certified_text(alloc, &versions)
}

/// The answer of `check`.
pub(crate) fn check<S: Shelf>(
    alloc: Global,
    old_name: &str,
    new_name: &str,
    certificate_name: &str,
    shelf: &mut S,
) -> Result<Answer, Refusal>
    ensures answer { Sees (S.answers shelf.old) (S.answers shelf.new) (λ seen. MatchResult result
        (λ answer. HasTextOf (Some (check_files old_name.now new_name.now certificate_name.now)) seen answer.end answer.text.items)
        (HasCauseOf (check_files old_name.now new_name.now certificate_name.now) seen)) }
    ensures counts { NeverFalls (S.faults shelf.old) (S.faults shelf.new) }
    ensures same { S.files shelf.new ≡ S.files shelf.old }
{
    let opened = open_versions(
        alloc,
        old_name,
        new_name,
        certificate_name,
        FILE_AND_ONE,
        shelf,
    )?;
    let checked = checked_text(alloc, &opened.versions, &opened.bytes)?;
    Ok(Answer {
        end: check_end(checked.closed),
        text: checked.text,
    })
}

/// How `check` ends, by whether the claim is closed.
fn check_end(closed: bool) -> End
    ensures { result ≡ end_of_check closed }
{
    if closed { End::Whole } else { End::Open }
}
