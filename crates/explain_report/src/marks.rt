//! Which facts a part needs: the wanted ones, and those on which they rest.
ghost use Rattle.std.specs.Prelude.{ℕ, All, ◌≡◌, ◌<◌, ◌↔◌, Contains, IfOk, IsTrue, List, length};
ghost use Rattle.edge_trace.specs.Rows.{has};
ghost use Rattle.explain_report.specs.Trims.{named_places, RestOnEarlier};
ghost use Rattle.explain_report.specs.Marks.{AddsMarks, AreMarked};

use call_walk::{Fact, Why};
use std::alloc::{AllocError, Global};

/// A mark for each fact that is needed. An `Err` is want of memory.
pub fn mark(alloc: Global, facts: &[Fact], wanted: &[u32]) -> Result<Vec<bool>, AllocError>
    requires earlier { RestOnEarlier facts.now }
    requires wanted { (i : ℕ) → Contains wanted.now i → i < length facts.now }
    ensures { IfOk result (λ marks. AreMarked facts.now wanted.now marks.items) }
{
    let mut marks = vec![in alloc; false; facts.len()]?;
    mark_wanted(&mut marks, wanted);
    mark_rest(facts, &mut marks);
    Ok(marks)
}

/// Marks these places.
fn mark_wanted(marks: &mut [bool], wanted: &[u32])
    requires { All (λ i. i < length marks.old) wanted.now }
    ensures { AddsMarks marks.old marks.new wanted.now }
{
    for place in wanted {
        marks[*place as usize] = true;
    }
}

/// Marks what the marked facts rest on. A reason names facts before its own, so that the last are looked at first.
fn mark_rest(facts: &[Fact], marks: &mut [bool])
    requires earlier { RestOnEarlier facts.now }
    requires long { length marks.old ≡ length facts.now }
    ensures { (wanted : List ℕ) → ((i : ℕ) → IsTrue (has marks.old i) ↔ Contains wanted i) → AreMarked facts.now wanted marks.new }
{
    for place in (0..facts.len()).rev() {
        if marks[place] {
            mark_named(marks, facts[place].why);
        }
    }
}

/// Marks the places that a reason names.
fn mark_named(marks: &mut [bool], why: Why)
    requires { All (λ i. i < length marks.old) (named_places why) }
    ensures { AddsMarks marks.old marks.new (named_places why) }
{
    match why {
        Why::Start => {}
        Why::Step(from, _) | Why::Call(from) => marks[from as usize] = true,
        Why::Over(from, back) => {
            marks[from as usize] = true;
            marks[back as usize] = true;
        }
    }
}
