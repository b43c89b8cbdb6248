//! What the top call does where the shelf tells its files and the output its bytes, as those in memory do.
//!
//! The contract of `dejavu_cli::dejavu` speaks of what came of the files and of what the output took. By the laws of shelves
//! and outputs these are the told files and the written bytes: so [`dejavu_told`] has a contract that speaks of them.
#![tactic(auto)]

ghost use Rattle.std.specs.Prelude.{◌≡◌, ◌≤◌, ℕ, List, None};
ghost use Rattle.dv_outside.specs.Outside.{Rose, NeverFalls};
ghost use Rattle.command_words.specs.Words.{texts_of, command_of};
ghost use Rattle.told_answers.specs.Answers.{Decides, Says, IsHeadline};
ghost use Rattle.told_answers.specs.Complete.{IsComplete};
ghost use Rattle.dejavu_cli.specs.declared.answer.End.TheVariants as ends;

use dejavu_cli::{Status8, dejavu};
use dv_outside::{Gate, Shelf, Sink};
use std::alloc::Global;
use std::thread::Threads;

/// The top call: what it answers and writes by the files that are told.
pub fn dejavu_told<R: Threads + Sync, S: Shelf, K: Sink, G: Gate>(
    rt: &R,
    alloc: Global,
    words: &[String],
    shelf: &mut S,
    out: &mut K,
    gate: &G,
) -> Status8
    // What is written is decided by the words and the files, and each answer has its cause.
    ensures answer { (status : Status8) × (text : List ℕ)
        × Decides (texts_of words.now) (S.files shelf.old) (S.faults shelf.old) (S.faults shelf.new) status text
        × Says (K.written out.old) (K.written out.new) (K.faults out.old) (K.faults out.new) status text result }

    // Done says that the command's text was written, where the written bytes are told. This and the clauses up to `complete`
    // follow from the first one, and say what a caller asks of it.
    ensures headline { result ≡ Status8.Done → IsHeadline (texts_of words.now) (S.files shelf.old) (K.written out.old) (K.written out.new) ends.Whole }
    // So does Differs, and a test that ran again differs.
    ensures differs { result ≡ Status8.Differs → IsHeadline (texts_of words.now) (S.files shelf.old) (K.written out.old) (K.written out.new) ends.Differs }
    // So does Open, and the claim isn't closed.
    ensures open { result ≡ Status8.Open → IsHeadline (texts_of words.now) (S.files shelf.old) (K.written out.old) (K.written out.new) ends.Open }
    ensures usage { result ≡ Status8.Usage → command_of (texts_of words.now) ≡ None }
    ensures write_fault { result ≡ Status8.WriteFault → Rose (K.faults out.old) (K.faults out.new) }
    // Where nothing stands in its way it is done.
    ensures complete { IsComplete (texts_of words.now) (S.files shelf.old) (S.faults shelf.old) (S.faults shelf.new) (K.faults out.old) (K.faults out.new) result }
    // The files stay as they are, and faults are only counted up.
    ensures same { S.files shelf.new ≡ S.files shelf.old }
    ensures counts { NeverFalls (S.faults shelf.old) (S.faults shelf.new) }
    ensures out_counts { K.faults out.old ≤ K.faults out.new }
{
    dejavu(rt, alloc, words, shelf, out, gate)
}
