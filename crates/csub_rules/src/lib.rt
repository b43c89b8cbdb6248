//! The rules of the language on expressions, constants, declared names, parameters, initialisers, statements, bodies of
//! functions, items and whole sources, as definitions over the trees of `csub_tree`, and their laws.
//!
//! For each of these `specs/` says twice which rule is broken: `Broken*` has a constructor for each rule and for each place,
//! and `*Faults`, `Uses`, `Declarators`, `Params`, `Initialisers`, `Locals`, `CaseLabels`, `Labels`, `Bodies`, `Files`, `Objects`,
//! `Structs`, `Enums`, `Heads`, `Items` and `Units` compute the fault that is told, which is the one that stands first in the
//! source, and of those at one place the one of the least rule. What is promised, in the contracts of [`laws`]: a fault is a
//! broken rule, no rule is broken before it, and where there is no fault, no rule is broken and what was looked at can be
//! resolved (`Fine*`). `ExprSorts` says what an expression is (a place of a type, a value of a kind), and `Constants` what a
//! constant expression gives; `Here` is what a statement sees, and `Past` what is declared behind one; `Files` and those behind
//! it say what is declared behind each item.
//!
//! [`callee_of`] says what a called name is, the functions of [`kind`] which kinds numbers have, [`is_reserved`] whether a name is
//! one of the library's, and [`first_bytes`] where a word stands. No call has an answer for want of memory.
//!
//! Proofs above cite, of an expression, `proofs/LawsSound` (its fault is a broken rule), `LawsLeast` (no rule is broken before
//! it), `LawsFine` (without one it can be resolved), `LawsServed` (what has a sort and lacks nothing is what is asked for),
//! `LawsCalls` (what is known of a call by its arguments) and `LawsUses` (what stands by itself, and enum constants); of a
//! statement, `LawsStmts` and `LawsFineStmts`; of declarations, `LawsSlots` (declared names), `LawsParams`, `LawsInits`
//! (initialisers), `LawsLocals` (declarations in blocks) and `LawsSizes` (the limits of types as truth values); of what is looked
//! for in a whole body, `LawsCases` (the labels of a `switch`) and `LawsBodies` (names that stand twice); of each kind of item,
//! `LawsNames` (names and tags of file scope), `LawsObjects`, `LawsStructs`, `LawsEnums` and `LawsHeads` (declared functions), and
//! of any item, `LawsItems`; of a whole source, `LawsUnits`, and `LawsFineItems` (without a fault it can be resolved); and
//! `LawsEarlier`, which of two faults is the earlier.
#![tactic(auto)]

pub mod callee;
pub mod fault;
pub mod kind;
pub mod laws;
pub mod library;
mod words;

pub use callee::{Callee, callee_of};
pub use fault::{Fault, earlier, fault_if};
pub use kind::{named_kind, number_literal_kind};
pub use library::is_reserved;
pub use words::first_bytes;
