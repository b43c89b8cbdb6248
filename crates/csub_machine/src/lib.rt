//! Runs of valid programs, turn by turn, over numbered slots.
//!
//! A [`Machine`] runs a program on an input as the definitions of `csub_semantics` say (`specs/Memory`, `Evaluation`,
//! `Cells`, `Acts` and `Runs` there). What is promised stands in the contracts of its calls:
//!
//! - [`Machine::new`] takes all memory that a run needs. [`Machine::over`] is the same over a flat copy of the program that
//!   several machines share, as `suite_run` makes them. No other call takes memory.
//! - [`Machine::run`]: the status that it answers, and the output, the turns and the crossed edges that the machine
//!   shows from then on, are the results of the run within the budget (`run_of`).
//! - [`Machine::turn`]: one turn leads from one moment of the run (`after`) to the next, and answers a status exactly
//!   where the run ends.
//! - [`Machine::output`], [`Machine::turns`], [`Machine::crossed`]: what the machine shows is that of its moment.
//!
//! `specs/Moments` has the words of these contracts. Of the modules, [`turn`] does the act of a point by `csub_slots` and
//! moves the [`frames`] over the [`ways`]; [`run`] adds the crossed edges and the count.
#![tactic(auto)]

mod flat;
mod frames;
pub mod machine;
mod run;
mod turn;
mod ways;

pub use machine::Machine;
