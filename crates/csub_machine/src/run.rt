//! A run, turn by turn, with the edges that it crossed.
ghost use Rattle.std.specs.Prelude.{◌≡◌, ◌≤◌, ◌<◌, ◌+◌, IfOk, IsSome, IfNone, List, [], length};
ghost use Rattle.csub_semantics.specs.Flows.{Edge, edge_list};
ghost use Rattle.csub_semantics.specs.Runs.{crossing};
ghost use Rattle.flow_graph.specs.Graph.{IsGraphOf};
ghost use Rattle.csub_semantics.specs.Syntax.{program_tree};
ghost use Rattle.csub_machine.specs.Moments.{IsRunningAt, status_at};
ghost use Rattle.csub_machine.specs.Crossed.{crossed_row, edge_of};
ghost use Rattle.csub_flat.specs.Copies.{IsFlatOf};
ghost use Rattle.csub_machine.specs.Standings.{IsOfProgram, IsAt, moment_at};

use crate::frames::{Frame, Frames};
use crate::turn::{Turn, take_turn};
use csub_core::Program;
use csub_flat::{FlatProgram, first_slots};
use csub_semantics::Status;
use csub_slots::{Store, make_store};
use edge_trace::EdgeRow;
use flow_graph::Graph;
use program_laws::never_lost;
use std::alloc::{AllocError, Global};

/// A run of a program.
#[derive(Drop)]
pub struct Run {
    /// Where it stands.
    pub frames: Frames,
    /// Its input, its output and its slots.
    pub store: Store,
    /// The edges that it crossed.
    pub crossed: EdgeRow,
    /// How many turns it did.
    pub turns: u32,
    /// How many turns were asked for; more than it did, where it had ended before.
    pub done: u32,
    /// Whether it goes on.
    pub going: bool,
}

/// How many frames a run may have.
const MOST_FRAMES: usize = 256;

/// The frames at the beginning of a run whose globals have so many slots, with room for all that a run may have. An `Err`
/// is want of memory.
fn begin_frames(alloc: Global, globals: u32) -> Result<Frames, AllocError>
    ensures top { IfOk result (λ frames. frames.top ≡ record { point = 0; result = None; base = globals }) }
    ensures below { IfOk result (λ frames. frames.below.items ≡ []) }
{
    // The entry of `#start` has the number 0, and its frame stands behind the globals.
    let top = Frame {
        point: 0,
        result: None,
        base: globals,
    };
    let below = Vec::with_capacity(alloc, MOST_FRAMES)?;
    Ok(Frames { top, below })
}

/// A run at its beginning, with all memory that it takes. An `Err` is want of memory.
pub fn begin(
    alloc: Global,
    program: &Program,
    graph: &Graph,
    flat: &FlatProgram,
    input: &[u8],
) -> Result<Run, AllocError>
    requires graph { IsGraphOf graph.now (program_tree program.now) }
    requires copies { IsFlatOf (program_tree program.now) flat.now }
    ensures at { IfOk result (IsAt (program_tree program.now)) }
    ensures input { IfOk result (λ run. run.store.input.items ≡ input.now) }
    ensures done { IfOk result (λ run. run.done ≡ 0) }
    ensures sizes { IfOk result (λ run. run.store.sizes ≡ flat.now.sizes) }
{
    let frames = begin_frames(alloc, flat.sizes.globals)?;
    let first = first_slots(program);
    let store = make_store(alloc, flat.sizes, program.globals(), first, input)?;
    Ok(Run {
        frames,
        store,
        crossed: EdgeRow::new(alloc, graph.edges())?,
        turns: 0,
        done: 0,
        going: true,
    })
}

/// The edge with a number, if there is one, is crossed.
#[inline(always)]
fn cross(program: &Program, graph: &Graph, crossed: &mut EdgeRow, edge: Option<u32>)
    requires graph { IsGraphOf graph.now (program_tree program.now) }
    requires edge { IsOfProgram (program_tree program.now) edge }
    requires row { length crossed.old ≡ length (edge_list (program_tree program.now)) }
    ensures { (es : List Edge) → crossed.old ≡ crossed_row (program_tree program.now) es → crossed.new ≡ crossed_row (program_tree program.now) (crossing (edge_of (program_tree program.now) edge) es) }
{
    if let Some(number) = edge {
        crossed.set(number);
    }
}

/// One turn.
#[inline(always)]
pub fn advance(
    program: &Program,
    graph: &Graph,
    flat: &FlatProgram,
    run: &mut Run,
) -> Option<Status>
    requires graph { IsGraphOf graph.now (program_tree program.now) }
    requires copies { IsFlatOf (program_tree program.now) flat.now }
    requires sizes { run.old.store.sizes ≡ flat.now.sizes }
    requires at { IsAt (program_tree program.now) run.old }
    requires running { IsRunningAt (moment_at (program_tree program.now) run.old) }
    requires few { run.old.done < 10000000 }
    ensures at { IsAt (program_tree program.now) run.new }
    ensures input { run.new.store.input.items ≡ run.old.store.input.items }
    ensures sizes { run.new.store.sizes ≡ flat.now.sizes }
    ensures done { run.new.done ≡ run.old.done + 1 }
    ensures onward { IfNone result (IsRunningAt (moment_at (program_tree program.now) run.new)) }
    ensures status { result ≡ status_at (moment_at (program_tree program.now) run.new) }
{
    never_lost();
    match take_turn(program, graph, flat, &mut run.frames, &mut run.store) {
        Turn::Goes(edge) => {
            cross(program, graph, &mut run.crossed, edge);
            run.turns += 1;
            run.done += 1;
            None
        }
        Turn::Stops(status) => {
            run.going = false;
            run.turns += 1;
            run.done += 1;
            Some(status)
        }
        Turn::Lost => unreachable!(),
    }
}

/// Turns up to a budget, or to the end of the run, whose status is given.
pub fn advance_to(
    program: &Program,
    graph: &Graph,
    flat: &FlatProgram,
    run: &mut Run,
    budget: u32,
) -> Option<Status>
    requires graph { IsGraphOf graph.now (program_tree program.now) }
    requires copies { IsFlatOf (program_tree program.now) flat.now }
    requires sizes { run.old.store.sizes ≡ flat.now.sizes }
    requires at { IsAt (program_tree program.now) run.old }
    requires running { IsRunningAt (moment_at (program_tree program.now) run.old) }
    requires fresh { run.old.done ≡ 0 }
    requires few { budget ≤ 10000000 }
    ensures at { IsAt (program_tree program.now) run.new }
    ensures input { run.new.store.input.items ≡ run.old.store.input.items }
    ensures sizes { run.new.store.sizes ≡ flat.now.sizes }
    ensures within { run.new.done ≤ budget }
    ensures whole { IfNone result (run.new.done ≡ budget) }
    ensures onward { IfNone result (IsRunningAt (moment_at (program_tree program.now) run.new)) }
    ensures status { result ≡ status_at (moment_at (program_tree program.now) run.new) }
{
    for _turn in 0..budget {
        if let Some(status) = advance(program, graph, flat, run) {
            return Some(status);
        }
    }
    None
}

/// More turns are asked for of a run that has ended, and nothing changes.
pub fn settle(program: &Program, run: &mut Run, done: u32)
    requires at { IsAt (program_tree program.now) run.old }
    requires ended { IsSome (status_at (moment_at (program_tree program.now) run.old)) }
    requires later { run.old.done ≤ done }
    ensures at { IsAt (program_tree program.now) run.new }
    ensures input { run.new.store.input.items ≡ run.old.store.input.items }
    ensures sizes { run.new.store.sizes ≡ run.old.store.sizes }
    ensures done { run.new.done ≡ done }
{
    run.done = done;
}
