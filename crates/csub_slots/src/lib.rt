//! Acts of flat labels over numbered slots, which take no memory.
//!
//! The slots of the globals come first, and behind them frame upon frame, the lowest first (`specs/Layout`); a store of
//! slots is like one of named cells where each cell is held in its slot (`specs/Like`). What is promised of the code:
//!
//! - [`make_store`] takes the memory of a whole run, in whose slots the globals have their initial contents
//!   (`specs/Begins`); no other call here takes any.
//! - [`act::eval_effect`], [`act::eval_test`], [`act::eval_answer`]: what an expression gives for the frame whose slots begin
//!   at a base, by the definitions of `csub_semantics`, over the memory of slots (`specs/Memory`).
//! - [`act::initialise`], [`act::enter_call`], [`act::leave_function`], [`act::end_with`]: what other labels do, which is the
//!   outcome of `specs/Acts`, with the store that is left.
//! - [`act::put_result`]: a result goes into the slot of the call's temporary.
//!
//! A slot may refer to an array, as that of an array parameter does: it says where the array begins and how many elements
//! it has. The array is among the globals, or in the frame of the slot or one below it, so that it is there as long as the
//! slot is (`Refers` of `specs/Layout`).
//!
//! Proofs above cite `proofs/LawsActs`: the act of a flat copy is like the act of its label over named cells, where the
//! globals are valid and no more slots are live than can be referred to;
//! `proofs/LawsFrames`: how frames come and go, and where results go; `proofs/LawsBegins`: the slots at the beginning of a
//! run stand for its first cells; and `proofs/LawsBounds`: what bounds frames, arguments, values of a `printf` and slots.
#![tactic(auto)]

pub mod act;
mod begin;
mod direct;
mod eval;
mod init;
mod output;
mod registers;
mod slot;
mod spot;
mod store;

pub use begin::make_store;
pub use slot::Slot;
pub use store::Store;
