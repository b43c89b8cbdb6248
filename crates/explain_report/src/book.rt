//! The book of the facts that show that an edge is dangerous.
ghost use Rattle.std.specs.Prelude.{◌≡◌, ◌<◌, ◌^◌, IfOk, IfSome, length, slice_index};
ghost use Rattle.std.specs.Option.{option_map};
ghost use Rattle.csub_semantics.specs.Syntax.{ProgramTree};
ghost use Rattle.csub_semantics.specs.Flows.{Edge};
ghost use Rattle.explain_report.specs.Trims.{RestOnEarlier};
ghost use Rattle.dual_walk.specs.Books.{AreReasoned};
ghost use Rattle.explain_report.specs.Dangers.{IsShown, Argues};

use crate::part::{Part, part_of};
use crate::shown::Shown;
use call_walk::Fact;
use std::alloc::{AllocError, Global};

/// Facts that show that an edge is dangerous, with those on which they rest.
#[derive(Drop)]
pub struct Book {
    /// The facts.
    pub facts: Vec<Fact>,
    /// The places of those that show the danger.
    pub shown: Shown,
}

/// The facts that show that an edge is dangerous, and those on which they rest. An `Err` is want of memory.
pub fn book_of(alloc: Global, facts: &[Fact], shown: Shown) -> Result<Book, AllocError>
    requires earlier { RestOnEarlier facts.now }
    requires few { length facts.now < 2 ^ 32 }
    requires place { shown.place < length facts.now }
    requires back { IfSome shown.back (λ place. place < length facts.now) }
    ensures { IfOk result (λ book. (P P' : ProgramTree) (edge : Edge) → AreReasoned P P' facts.now → IsShown P P' facts.now edge shown → Argues P P' book.facts.items edge book.shown) }
{
    let back = shown.back.unwrap_or(shown.place);
    let Part { facts: kept, table } = part_of(alloc, facts, &[shown.place, back])?;
    let shown = moved(shown, &table);
    Ok(Book { facts: kept, shown })
}

/// The places in a part, by the table of the part.
fn moved(shown: Shown, table: &[u32]) -> Shown
    requires place { shown.place < length table.now }
    requires back { IfSome shown.back (λ place. place < length table.now) }
    ensures { result ≡ record { place = slice_index table.now shown.place; back = option_map (slice_index table.now) shown.back } }
{
    let back = match shown.back {
        Some(place) => Some(table[place as usize]),
        None => None,
    };
    Shown {
        place: table[shown.place as usize],
        back,
    }
}
