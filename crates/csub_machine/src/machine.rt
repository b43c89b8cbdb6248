//! The machine.
use crate::flat::{Flat, copy_in};
use crate::run::{Run, advance, advance_to, begin, settle};
use csub_core::Program;
use csub_flat::{FlatProgram, flatten_program};
use csub_semantics::Status;
use edge_trace::EdgeRow;
use flow_graph::Graph;
use std::alloc::{AllocError, Global};
use std::marker::Model;

/// A run of a valid program on an input, with a copy of that input and a flat copy of the program's labels. No calls but
/// `new` and `over` take memory.
#[derive(Drop)]
pub struct Machine<'a> {
    program: &'a Program,
    graph: &'a Graph,
    flat: Flat<'a>,
    run: Run,
}

impl<'a> Model for Machine<'a> {
    ghost use Rattle.std.specs.Prelude.{◌≡◌};
    ghost use Rattle.std.specs.Coded.{codes};
    ghost use Rattle.csub_objects.specs.Codes.{type_code, members_code};
    ghost use Rattle.csub_semantics.specs.contracts.expression.Place as place;
    ghost use Rattle.csub_semantics.specs.contracts.expression.RExpr as expr;
    ghost use Rattle.csub_semantics.specs.contracts.label.RInit as init;
    ghost use Rattle.csub_semantics.specs.contracts.function.RStmt as stmt;
    ghost use Rattle.csub_flat.specs.contracts.flat.FlatPlace as flat_place;
    ghost use Rattle.csub_flat.specs.contracts.flat.FlatExpr as flat_expr;
    ghost use Rattle.flow_graph.specs.Graph.{IsGraphOf};
    ghost use Rattle.csub_semantics.specs.Syntax.{program_tree};
    ghost use Rattle.csub_machine.specs.Moments.{Seen};
    ghost use Rattle.csub_flat.specs.Copies.{IsFlatOf};
    ghost use Rattle.csub_machine.specs.Flat.{flat_of};
    ghost use Rattle.csub_machine.specs.Standings.{IsAt};

    ghost Value = { Seen };

    ghost coded = { Prim.hlevel (codes, type_code, members_code, place.the_row.coded, expr.the_row.coded, init.the_row.coded, stmt.the_row.coded, flat_place.the_row.coded, flat_expr.the_row.coded) };

    ghost view = { λ m. record { program = m.program.now; input = m.run.store.input.items; done = m.run.done } };

    ghost invariant = { λ m. IsGraphOf m.graph.now (program_tree m.program.now) × IsAt (program_tree m.program.now) m.run × IsFlatOf (program_tree m.program.now) (flat_of m.flat) × (m.run.store.sizes ≡ (flat_of m.flat).sizes) };
}

impl<'a> Machine<'a> {
    ghost use Rattle.std.specs.Prelude.{ℕ, ◌≡◌, ◌<◌, ◌≤◌, ◌+◌, ◌↔◌, Some, length, IsTrue, IfOk, IsSome, IfNone};
    ghost use Rattle.edge_trace.specs.Rows.{has};
    ghost use Rattle.csub_semantics.specs.Syntax.{program_tree};
    ghost use Rattle.csub_semantics.specs.Flows.{flow_of, edge_list};
    ghost use Rattle.csub_semantics.specs.Numbers.{IsCrossed};
    ghost use Rattle.csub_semantics.specs.Runs.{run_of};
    ghost use Rattle.flow_graph.specs.Graph.{IsGraphOf};
    ghost use Rattle.csub_flat.specs.Copies.{IsFlatOf};
    ghost use Rattle.csub_machine.specs.Moments.{IsRunning, status_of, moment_of, output_of, turns_of, crossed_of, results_of};

    /// A machine at the beginning of its run, with a flat copy of the program of its own. An `Err` is want of memory.
    pub fn new(
        alloc: Global,
        program: &'a Program,
        graph: &'a Graph,
        input: &[u8],
    ) -> Result<Machine<'a>, AllocError>
        requires graph { IsGraphOf graph.now (program_tree program.now) }
        requires short { length input.now ≤ 16384 }
        ensures { IfOk result (λ machine. machine ≡ record { program = program.now; input = input.now; done = 0 }) }
    {
        let flat = flatten_program(alloc, program, graph)?;
        let run = begin(alloc, program, graph, &flat, input)?;
        Ok(Machine {
            program,
            graph,
            flat: Flat::Own(flat),
            run,
        })
    }

    /// The same over a flat copy of the program, which several machines may share. An `Err` is want of memory.
    pub fn over(
        alloc: Global,
        program: &'a Program,
        graph: &'a Graph,
        flat: &'a FlatProgram,
        input: &[u8],
    ) -> Result<Machine<'a>, AllocError>
        requires graph { IsGraphOf graph.now (program_tree program.now) }
        requires copies { IsFlatOf (program_tree program.now) flat.now }
        requires short { length input.now ≤ 16384 }
        ensures { IfOk result (λ machine. machine ≡ record { program = program.now; input = input.now; done = 0 }) }
    {
        let run = begin(alloc, program, graph, flat, input)?;
        Ok(Machine {
            program,
            graph,
            flat: Flat::Shared(flat),
            run,
        })
    }

    /// One turn, which acts on one point and answers the status exactly where the run ends with it.
    pub fn turn(&mut self) -> Option<Status>
        requires running { IsRunning self.old }
        requires few { self.old.done < 10000000 }
        ensures done { self.new ≡ record self.old { done = self.old.done + 1 } }
        ensures onward { IfNone result (IsRunning self.new) }
        ensures status { result ≡ status_of self.new }
    {
        advance(self.program, self.graph, copy_in(&self.flat), &mut self.run)
    }

    /// A whole run within a budget of turns: its status, and with it the output, the turns and the crossed edges that
    /// the machine shows from then on.
    pub fn run(&mut self, budget: u32) -> Status
        requires fresh { self.old.done ≡ 0 }
        requires few { budget ≤ 10000000 }
        ensures done { self.new ≡ record self.old { done = budget } }
        ensures results { run_of (flow_of (program_tree self.old.program)) self.old.input budget ≡ Some (results_of result self.new) }
    {
        match self.go_on(budget) {
            Some(status) => {
                self.settle(budget);
                status
            }
            None => Status::Turns,
        }
    }

    /// Turns up to a budget, or to the end of the run, whose status is given.
    fn go_on(&mut self, budget: u32) -> Option<Status>
        requires fresh { self.old.done ≡ 0 }
        requires few { budget ≤ 10000000 }
        ensures seen { self.new ≡ record self.old { done = self.new.done } }
        ensures within { self.new.done ≤ budget }
        ensures whole { IfNone result (self.new.done ≡ budget) }
        ensures onward { IfNone result (IsRunning self.new) }
        ensures status { result ≡ status_of self.new }
    {
        advance_to(
            self.program,
            self.graph,
            copy_in(&self.flat),
            &mut self.run,
            budget,
        )
    }

    /// More turns are asked for after the end of the run, and nothing changes.
    fn settle(&mut self, done: u32)
        requires ended { IsSome (status_of self.old) }
        requires later { self.old.done ≤ done }
        ensures { self.new ≡ record self.old { done = done } }
    {
        settle(self.program, &mut self.run, done);
    }

    /// What the run has written.
    pub fn output(&self) -> &[u8]
        ensures { result.now ≡ output_of (moment_of self.now) }
    {
        self.run.store.output.as_slice()
    }

    /// How many turns the run has done: those that were asked for, or those up to its end.
    pub fn turns(&self) -> u32
        ensures { result ≡ turns_of self.now.done (moment_of self.now) }
    {
        self.run.turns
    }

    /// The edges that the run has crossed, by their numbers; the bound of the row is the number of the program's edges.
    pub fn crossed(&self) -> &EdgeRow
        ensures edges { length result.now ≡ length (edge_list (program_tree self.now.program)) }
        ensures crossed { (e : ℕ) → IsTrue (has result.now e) ↔ IsCrossed (program_tree self.now.program) (crossed_of (moment_of self.now)) e }
    {
        &self.run.crossed
    }
}
