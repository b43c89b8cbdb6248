//! The top call of the program: it takes the words, the files and the output, and answers a status.
//!
//! What is promised stands in the contract of [`dejavu`], over every shelf and output: what is written is decided by the words
//! and by what came of the files that they name (`specs/Texts`, `specs/Answers`), and each answer has its cause
//! (`specs/Causes`). What `record`, `walk`, `select`, `rerun`, `explain` and `gen` write stands in `command_runs`, what
//! `migrate`, `carry` and `order` make of a history in `command_histories`, the claims of `certify` and `check` in
//! `command_claims`.
#![tactic(auto)]

ghost use Rattle.std.specs.Prelude.{◌≡◌, ◌≤◌, ℕ, List, None};
ghost use Rattle.dv_outside.specs.Outside.{Rose, NeverFalls};
ghost use Rattle.command_words.specs.Words.{texts_of, command_of};
ghost use Rattle.command_files.specs.Files.{Sees};
ghost use Rattle.dejavu_cli.specs.Answers.{Decides, Says, Refuses, IsHeadline};
ghost use Rattle.dejavu_cli.specs.Complete.{IsComplete};
ghost use Rattle.dejavu_cli.specs.declared.answer.End.TheVariants as ends;

mod answer;
mod rerun;
mod status;
mod with_history;
mod with_source;
mod with_versions;
mod work;

use crate::answer::Answer;
use crate::status::{done_as, refusal_status};
use crate::work::work;
pub use answer::End;
use command_refusals::{MEMORY_LINE, Refusal, refusal_text};
use dv_outside::{Gate, Shelf, Sink, write_whole};
pub use status::Status8;
use std::alloc::Global;
use std::thread::Threads;

/// Does what the words say: the text of the command is made whole, and then written to the output.
///
/// Commands:
/// - `record SOURCE SUITE` writes the history of an accepted source and a suite; with `--workers N`, N from 1 to 64, so many
///   threads run the tests, and the history is the same.
/// - `walk OLD NEW` reads two accepted sources, and writes a line for each dangerous edge, `edge E F L:C EXIT`; then
///   `dangerous K of N` and `pairs P`.
/// - `select OLD NEW HISTORY` reads two accepted sources and a history of OLD, and writes a line for each test in order,
///   `run NAME edge E` where its recorded run crossed a dangerous edge, E the least number of these, and `left NAME` where it
///   crossed none; then `selected K of N`.
/// - `rerun OLD NEW HISTORY`, with or without `--workers N`, runs the selected tests on NEW, and writes a line for each test in
///   order, `left NAME`, `same NAME`, or `differs NAME` and what differs from its entry; then `differ K of N`. The answer is
///   Differs where a test differs.
/// - `explain OLD NEW HISTORY TEST` writes the line that `select` writes for the test, and where it is selected how a walk
///   reaches the edge in both versions and that they part there.
/// - `migrate OLD HISTORY` reads an accepted source and a history of it in version 2 of the format, and writes it in version 3.
/// - `carry OLD NEW HISTORY`, with or without `--workers N`, writes the history of NEW: an entry stays, with the images of its
///   edges, where its test is left and each of its edges has one image; the tests of all others run on NEW.
/// - `order OLD NEW HISTORY`, with or without `--workers N`, writes the selected tests in the order in which they add the most
///   edges, a line `NAME adds GAIN` for each, and then `ordered K of N`.
/// - `certify OLD NEW` writes the certificate of the walk: the digests of both sources, the dangerous edges and the reached
///   pairs of points.
/// - `check OLD NEW CERTIFICATE` reads a certificate of both sources, whoever made it, and writes
///   `closed pairs P dangerous K` where its claim is closed, and else its first break, as `open ..`; then the answer is Open.
/// - `gen SEED SIZE` makes a pair of sources and a suite (crate `dv_gen`), and writes how many points, edges and tests they
///   have, how many edges are dangerous, how many tests are selected, and how many of these differ.
///
/// Before a worker makes the machine of a test it calls the gate with the test's place in the list of tests that run; for
/// `order`, before it counts the edges of a test, with the test's place in the history.
///
/// Where the command can't be done its refusal line is written in place of the text, and nothing else; the status says
/// why. An earlier cause hides a later one, in the order of the words, each file, the work, the write. Nothing is
/// written before all is known, and no memory is taken from then on.
pub fn dejavu<R: Threads + Sync, S: Shelf, K: Sink, G: Gate>(
    rt: &R,
    alloc: Global,
    words: &[String],
    shelf: &mut S,
    out: &mut K,
    gate: &G,
) -> Status8
    // What is written is decided by the words and what came of the files, over every shelf and output, and each answer has its
    // cause.
    ensures answer { Sees (S.answers shelf.old) (S.answers shelf.new) (λ seen. (status : Status8) × (text : List ℕ)
        × Decides (texts_of words.now) seen status text
        × Says (K.taken out.old) (K.taken out.new) (K.faults out.old) (K.faults out.new) status text result) }

    // Done says that the output took the command's text. This and the clauses up to `complete` follow from the first one, and
    // say what a caller asks of it.
    ensures headline { result ≡ Status8.Done → IsHeadline (texts_of words.now) (S.answers shelf.old) (S.answers shelf.new) (K.taken out.old) (K.taken out.new) ends.Whole }
    // So does Differs, and a test that ran again differs.
    ensures differs { result ≡ Status8.Differs → IsHeadline (texts_of words.now) (S.answers shelf.old) (S.answers shelf.new) (K.taken out.old) (K.taken out.new) ends.Differs }
    // So does Open, and the claim isn't closed.
    ensures open { result ≡ Status8.Open → IsHeadline (texts_of words.now) (S.answers shelf.old) (S.answers shelf.new) (K.taken out.old) (K.taken out.new) ends.Open }
    ensures usage { result ≡ Status8.Usage → command_of (texts_of words.now) ≡ None }
    ensures write_fault { result ≡ Status8.WriteFault → Rose (K.faults out.old) (K.faults out.new) }
    // Where nothing stands in its way it is done.
    ensures complete { IsComplete (texts_of words.now) (S.answers shelf.old) (S.answers shelf.new) (K.faults out.old) (K.faults out.new) result }
    // The files stay as they are, and faults are only counted up.
    ensures same { S.files shelf.new ≡ S.files shelf.old }
    ensures counts { NeverFalls (S.faults shelf.old) (S.faults shelf.new) }
    ensures out_counts { K.faults out.old ≤ K.faults out.new }
{
    match work(rt, alloc, words, shelf, gate) {
        Ok(Answer { text, end }) => say(out, done_as(end), &text),
        Err(refusal) => refuse(alloc, out, &refusal),
    }
}

/// Writes the line of a refusal; where there is no memory for it, the line for want of memory.
fn refuse<K: Sink>(alloc: Global, out: &mut K, refusal: &Refusal) -> Status8
    ensures refuses { Refuses (K.taken out.old) (K.taken out.new) (K.faults out.old) (K.faults out.new) refusal.now result }
    ensures counts { K.faults out.old ≤ K.faults out.new }
{
    match refusal_text(alloc, refusal) {
        Ok(line) => say(out, refusal_status(refusal), &line),
        Err(_) => say(out, Status8::Memory, MEMORY_LINE),
    }
}

/// Writes the text, and answers the status, or that the write failed.
fn say<K: Sink>(out: &mut K, status: Status8, text: &[u8]) -> Status8
    ensures says { Says (K.taken out.old) (K.taken out.new) (K.faults out.old) (K.faults out.new) status text.now result }
    ensures counts { K.faults out.old ≤ K.faults out.new }
{
    match write_whole(out, text) {
        Ok(()) => status,
        Err(_) => Status8::WriteFault,
    }
}
