//! What sources that break no rule stand for, as definitions: the resolved program of each.
//!
//! `specs/` says it in this order: the tokens that points are named by (`Positions`), the pieces of formats (`Printed`),
//! expressions as places, values and the calls before them (`Values`), initialisers (`Contents`), statements (`Lines`),
//! functions, objects of file scope and programs (`Programs`). Each is a total function of a tree and of what is declared
//! where it stands, so a source stands for one program; where a rule is broken they mean nothing. Which rules there are
//! stands in `csub_rules`.
//!
//! Proofs above cite `proofs/LawsExits`: what a whole statement is, as far as `exit` goes.
#![tactic(auto)]
