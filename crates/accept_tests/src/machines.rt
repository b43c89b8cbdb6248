//! Machines by themselves: turn by turn, and two over one flat copy.
ghost use Rattle.csub_semantics.specs.Syntax.{program_tree};
ghost use Rattle.csub_flat.specs.Copies.{IsFlatOf};
ghost use Rattle.flow_graph.specs.Graph.{IsGraphOf};

use crate::sources::program_of;
use csub_core::{Program, Status};
use csub_flat::{FlatProgram, flatten_program};
use csub_machine::Machine;
use flow_graph::Graph;
use std::alloc::{AllocError, Global};
use std::process::Abort;
use std::test::Fail;

// The entry and the call of `#start`, the entry of `main`, its statement, which writes, and its exit; then the exit of
// `#start`.
#[test]
fn turns_are_taken_one_by_one(rt: HostRuntime) -> Result<(), Fail> {
    let alloc = rt.alloc();
    let program = program_of(alloc, "int main(void) { putchar(66); }")?;
    let graph = Graph::build(alloc, &program)?;
    let mut machine = Machine::new(alloc, &program, &graph, b"")?;
    assert!(rt; machine.turn().is_none());
    assert!(rt; machine.turn().is_none());
    assert!(rt; machine.turn().is_none());
    assert!(rt; machine.output().is_empty());
    assert!(rt; machine.turn().is_none());
    assert!(rt; machine.output() == b"B".as_slice());
    assert!(rt; machine.turn().is_none());
    assert_eq!(rt; machine.turn(), Some(Status::Exit(0)));
    assert_eq!(rt; machine.turns(), 6);
    Ok(())
}

/// Whether two machines over one flat copy of a program run apart from each other, which read A and B.
fn run_apart(
    alloc: Global,
    program: &Program,
    graph: &Graph,
    flat: &FlatProgram,
) -> Result<bool, AllocError>
    requires graph { IsGraphOf graph.now (program_tree program.now) }
    requires copies { IsFlatOf (program_tree program.now) flat.now }
{
    let mut first = Machine::over(alloc, program, graph, flat, b"A")?;
    let mut second = Machine::over(alloc, program, graph, flat, b"B")?;
    let both = [first.run(100), second.run(100)];
    let wrote = first.output() == b"B".as_slice() && second.output() == b"C".as_slice();
    Ok(wrote && both == [Status::Exit(0), Status::Exit(0)])
}

/// The same over the flat copy of a program.
fn run_over_one_copy(alloc: Global, program: &Program) -> Result<bool, AllocError> {
    let graph = Graph::build(alloc, program)?;
    let flat = flatten_program(alloc, program, &graph)?;
    run_apart(alloc, program, &graph, &flat)
}

#[test]
fn machines_share_a_flat_copy(rt: HostRuntime) -> Result<(), Fail> {
    let source = "int main(void) { putchar(getchar() + 1); return 0; }";
    let program = program_of(rt.alloc(), source)?;
    assert!(rt; run_over_one_copy(rt.alloc(), &program)?);
    Ok(())
}
