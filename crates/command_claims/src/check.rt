//! The check of a claim, whoever made it.
ghost use Rattle.std.specs.Prelude.{◌≡◌, MatchResult};
ghost use Rattle.csub_semantics.specs.Syntax.{ProgramTree, program_tree};
ghost use Rattle.command_files.specs.Steps.{AreGraphs};
ghost use Rattle.command_claims.specs.Checked.{IsCertificateFile, IsChecked, IsCheckCause, is_closed};

use crate::told::verdict_text;
use command_files::{Graphs, Versions, build_graphs};
use command_refusals::{Refusal, certificate_cause};
use std::alloc::Global;
use walk_cert::laws::closed_claim;
use walk_cert::{Certificate, Verdict, check, read_certificate};

/// What is told of a claim.
#[derive(Drop)]
pub struct Checked {
    /// The line that tells it.
    pub text: Vec<u8>,
    /// Whether the claim is closed.
    pub closed: bool,
}

/// What is told of the claim in a certificate's bytes, for two versions.
pub fn checked_text(alloc: Global, versions: &Versions, bytes: &[u8]) -> Result<Checked, Refusal>
    ensures { MatchResult result
        (λ checked. IsChecked versions.now.source.items versions.now.new_source.items bytes.now (program_tree versions.now.old) (program_tree versions.now.new) checked.closed checked.text.items)
        (IsCheckCause versions.now.source.items versions.now.new_source.items bytes.now (program_tree versions.now.old) (program_tree versions.now.new)) }
{
    // What a closed claim is good for.
    closed_claim();
    let graphs = build_graphs(alloc, versions)?;
    let certificate = read_claim(alloc, versions, &graphs, bytes)?;
    let verdict = check(alloc, &graphs.old, &graphs.new, &certificate)?;
    let text = verdict_text(alloc, &graphs.old, &certificate, verdict)?;
    Ok(Checked {
        text,
        closed: is_closed(verdict),
    })
}

/// The certificate in these bytes, for two versions and their graphs.
fn read_claim(
    alloc: Global,
    versions: &Versions,
    graphs: &Graphs,
    bytes: &[u8],
) -> Result<Certificate, Refusal>
    ensures { (P P' : ProgramTree) → AreGraphs P P' graphs.now → MatchResult result
        (IsCertificateFile versions.now.source.items versions.now.new_source.items bytes.now P P')
        (IsCheckCause versions.now.source.items versions.now.new_source.items bytes.now P P') }
{
    match read_certificate(
        alloc,
        bytes,
        &versions.source,
        &versions.new_source,
        &graphs.old,
        &graphs.new,
    ) {
        Ok(certificate) => Ok(certificate),
        Err(error) => match certificate_cause(error) {
            None => Err(Refusal::Memory),
            Some(cause) => Err(Refusal::Certificate(cause)),
        },
    }
}

/// Whether a verdict is that the claim is closed.
fn is_closed(verdict: Verdict) -> bool
    ensures { result ≡ is_closed verdict }
{
    matches!(verdict, Verdict::Closed)
}
