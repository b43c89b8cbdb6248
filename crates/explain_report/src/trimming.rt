//! A part of a walk's facts that rests on nothing outside it.
ghost use Rattle.std.specs.Prelude.{ℕ, ◌<◌, ◌^◌, Contains, IfOk, length};
ghost use Rattle.csub_semantics.specs.Syntax.{ProgramTree};
ghost use Rattle.dual_walk.specs.Books.{AreReasoned};
ghost use Rattle.explain_report.specs.Trims.{RestOnEarlier, IsTrimmed};

use crate::part::{Part, part_of};
use call_walk::Fact;
use std::alloc::{AllocError, Global};

/// The wanted facts and those on which they rest, in their order, with the reasons renumbered. It goes twice over the facts, and
/// takes memory for a flag and a number for each of them beside those that it keeps. An `Err` is want of memory.
pub fn trim(alloc: Global, facts: &[Fact], wanted: &[u32]) -> Result<Vec<Fact>, AllocError>
    requires earlier { RestOnEarlier facts.now }
    requires few { length facts.now < 2 ^ 32 }
    requires wanted { (i : ℕ) → Contains wanted.now i → i < length facts.now }
    ensures trimmed { IfOk result (λ kept. IsTrimmed facts.now wanted.now kept.items) }
    // A part of a book is a book.
    ensures book { (P P' : ProgramTree) → AreReasoned P P' facts.now → IfOk result (λ kept. AreReasoned P P' kept.items) }
{
    let Part {
        facts: kept,
        table: _,
    } = part_of(alloc, facts, wanted)?;
    Ok(kept)
}
