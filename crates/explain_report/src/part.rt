//! A part of a list of facts, with the places that they have in it.
ghost use Rattle.std.specs.Prelude.{ℕ, All, ◌≡◌, ◌<◌, ◌^◌, Contains, IfOk, length};
ghost use Rattle.explain_report.specs.Trims.{named_places, RestOnEarlier};
ghost use Rattle.explain_report.specs.Marks.{AreClosed, marked_places};
ghost use Rattle.explain_report.specs.Parts.{IsPartAt, IsPartOf, renumbered};

use crate::marks::mark;
use call_walk::{Fact, Why};
use std::alloc::{AllocError, Global};

/// A part of a list of facts.
#[derive(Drop)]
pub struct Part {
    /// The facts of the part, with reasons that name places in it.
    pub facts: Vec<Fact>,
    /// By each place of the list, the place in the part of the fact there, if it is in the part.
    pub table: Vec<u32>,
}

/// The wanted facts, and those on which they rest. An `Err` is want of memory.
pub fn part_of(alloc: Global, facts: &[Fact], wanted: &[u32]) -> Result<Part, AllocError>
    requires earlier { RestOnEarlier facts.now }
    requires few { length facts.now < 2 ^ 32 }
    requires wanted { (i : ℕ) → Contains wanted.now i → i < length facts.now }
    ensures { IfOk result (IsPartOf facts.now wanted.now) }
{
    let marks = mark(alloc, facts, wanted)?;
    keep(alloc, facts, &marks)
}

/// The marked facts. An `Err` is want of memory.
fn keep(alloc: Global, facts: &[Fact], marks: &[bool]) -> Result<Part, AllocError>
    requires long { length marks.now ≡ length facts.now }
    requires few { length facts.now < 2 ^ 32 }
    requires closed { AreClosed facts.now marks.now }
    ensures { IfOk result (IsPartAt facts.now (marked_places marks.now (length facts.now))) }
{
    let mut kept = Vec::new(alloc);
    let mut table = vec![in alloc; 0; facts.len()]?;
    for (place, fact) in facts.iter().enumerate() {
        if marks[place] {
            let at = kept.len() as u32;
            kept.push(moved(*fact, &table))?;
            table[place] = at;
        }
    }
    Ok(Part { facts: kept, table })
}

/// A fact whose reason names places of a part.
fn moved(fact: Fact, table: &[u32]) -> Fact
    requires { All (λ i. i < length table.now) (named_places fact.why) }
    ensures { result ≡ record fact { why = renumbered table.now fact.why } }
{
    let why = match fact.why {
        Why::Start => Why::Start,
        Why::Step(from, edge) => Why::Step(table[from as usize], edge),
        Why::Call(from) => Why::Call(table[from as usize]),
        Why::Over(from, back) => Why::Over(table[from as usize], table[back as usize]),
    };
    Fact { why, ..fact }
}
