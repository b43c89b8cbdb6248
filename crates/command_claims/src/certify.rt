//! The claim of a walk.
ghost use Rattle.std.specs.Prelude.{MatchResult};
ghost use Rattle.csub_semantics.specs.Syntax.{program_tree};
ghost use Rattle.command_refusals.specs.declared.refusal.Product.TheVariants as product;
ghost use Rattle.command_files.specs.Steps.{IsMade, IsTooMuchCause};
ghost use Rattle.command_claims.specs.Certified.{IsCertifiedText};

use command_files::{Versions, build_graphs, walk_of};
use command_refusals::{Product, Refusal};
use std::alloc::Global;
use walk_cert::{CertificateTextError, certificate_of, write_certificate};

/// The text of the certificate of two versions: the digests of both sources, the dangerous edges, and the reached pairs.
pub fn certified_text(alloc: Global, versions: &Versions) -> Result<Vec<u8>, Refusal>
    ensures { MatchResult result
        (λ text. IsMade (IsCertifiedText versions.now.source.items versions.now.new_source.items (program_tree versions.now.old) (program_tree versions.now.new)) text.items)
        (IsTooMuchCause product.Certificate (IsCertifiedText versions.now.source.items versions.now.new_source.items (program_tree versions.now.old) (program_tree versions.now.new))) }
{
    let graphs = build_graphs(alloc, versions)?;
    let walked = walk_of(alloc, &graphs.old, &graphs.new)?;
    let certificate = certificate_of(
        alloc,
        &graphs.old,
        &graphs.new,
        &walked,
        &versions.source,
        &versions.new_source,
    )?;
    match write_certificate(alloc, &certificate) {
        Ok(text) => Ok(text),
        Err(CertificateTextError::TooLong(count)) => {
            Err(Refusal::TooMuch(Product::Certificate, count))
        }
        Err(CertificateTextError::Memory) => Err(Refusal::Memory),
    }
}
