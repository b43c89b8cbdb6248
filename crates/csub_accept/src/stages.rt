//! The stages of a source: its length, its tokens and its unit, its program.
ghost use Rattle.std.specs.Prelude.{◌≡◌, IfErr, IfOk, MatchResult};
ghost use Rattle.csub_semantics.specs.Syntax.{ProgramTree, program_tree};
ghost use Rattle.csub_answers.specs.Accepted.{Accepted, HasCause, TellsWithin};
ghost use Rattle.csub_answers.specs.declared.error.SourceError.TheVariants.{Memory};

use crate::resolver::resolve;
use csub_answers::{ResolveError, SourceError, tokens_of, unit_of};
use csub_core::Program;
use std::alloc::Global;

/// The most bytes of a source.
const MOST_BYTES: usize = 1_048_576;

/// The program of an accepted source. It takes time in proportion to the source, to the cells of its objects of file scope and to
/// the types that are compared.
///
/// # Errors
///
/// `TooLong` where the source has more than 1,048,576 bytes; else `Lex` where it can't be cut into tokens; else `Syntax` where
/// they spell no unit of at most the depth 256; else `Meaning` where it breaks a rule; else `Limit` where it passes a limit.
/// `Memory` where memory was wanted.
pub fn accept(alloc: Global, source: &[u8]) -> Result<Program, SourceError>
    // The source is accepted, with this program.
    ensures program { IfOk result (λ program. Accepted source.now (program_tree program)) }
    // It has no other, and an accepted source gets it, or memory was wanted.
    ensures only { (P : ProgramTree) → Accepted source.now P → MatchResult result (λ program. program_tree program ≡ P) (λ error. error ≡ Memory) }
    // Where each error comes.
    ensures cause { IfErr result (HasCause source.now) }
    // The place that it tells lies in the source, or at its end.
    ensures place { IfErr result (TellsWithin source.now) }
{
    if source.len() > MOST_BYTES {
        return Err(SourceError::TooLong(source.len()));
    }
    let tokens = tokens_of(alloc, source)?;
    let unit = unit_of(alloc, source, tokens.as_slice())?;
    match resolve(alloc, &unit) {
        Ok(program) => Ok(program),
        Err(ResolveError::Meaning(rule, span)) => Err(SourceError::Meaning(rule, span)),
        Err(ResolveError::Limit(number, count)) => Err(SourceError::Limit(number, count)),
        Err(ResolveError::Memory) => Err(SourceError::Memory),
    }
}
