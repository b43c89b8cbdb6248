//! The work of the program: a source is read, its points and edges are listed, and the text is written.
ghost use Rattle.std.specs.Prelude.{◌≡◌, ◌≤◌, ℕ, List, MatchResult, Some};
ghost use Rattle.std.specs.Option.{option_map};
ghost use Rattle.dv_outside.specs.Outside.{NeverFalls};
ghost use Rattle.command_files.specs.Files.{Sees};
ghost use Rattle.points.specs.Words.{is_option, source_name, texts_of};
ghost use Rattle.points.specs.Answers.{Decides, HasCause, IsListing, Refuses, Says};

use crate::status::{Ended, ended_of};
use command_files::{SOURCE_AND_ONE, fetch_file, read_source};
use command_refusals::{MEMORY_LINE, Refusal, Role, refusal_text};
use dv_outside::{Shelf, Sink, write_whole};
use flow_graph::Graph;
use points_report::points_text;
use std::alloc::Global;

/// Does what the words say. Where they name an accepted source, the text that lists its points and edges is made whole, and then
/// written to the output; where it can't be made, the line of the refusal is written in its place. Where they name no source,
/// nothing is written.
pub fn list_points<S: Shelf, K: Sink>(
    alloc: Global,
    words: &[String],
    shelf: &mut S,
    out: &mut K,
) -> Ended
    // What is written is decided by the words and what came of the source, over every shelf and output, and each answer has its
    // cause.
    ensures answer { Sees (S.answers shelf.old) (S.answers shelf.new) (λ seen. (ended : Ended) × (text : List ℕ)
        × Decides (source_name (texts_of words.now)) seen ended text
        × Says (K.taken out.old) (K.taken out.new) (K.faults out.old) (K.faults out.new) ended text result) }
    // The files stay as they are, and faults are only counted up.
    ensures same { S.files shelf.new ≡ S.files shelf.old }
    ensures counts { NeverFalls (S.faults shelf.old) (S.faults shelf.new) }
    ensures out_counts { K.faults out.old ≤ K.faults out.new }
{
    match source_name(words) {
        Some(name) => list_source(alloc, name, shelf, out),
        None => Ended::Usage,
    }
}

/// The name of the source that the words give.
fn source_name(words: &[String]) -> Option<&str>
    ensures { option_map (λ name. name.now) result ≡ source_name (texts_of words.now) }
{
    match words {
        [word] if !is_option(word.as_bytes()) => Some(word.as_str()),
        _ => None,
    }
}

/// Whether a word is an option.
fn is_option(word: &[u8]) -> bool
    ensures { result ≡ is_option word.now }
{
    match word {
        [first, _, ..] => *first == b'-',
        _ => false,
    }
}

/// Lists the points and edges of the source in a file.
fn list_source<S: Shelf, K: Sink>(alloc: Global, name: &str, shelf: &mut S, out: &mut K) -> Ended
    ensures answer { Sees (S.answers shelf.old) (S.answers shelf.new) (λ seen. (ended : Ended) × (text : List ℕ)
        × Decides (Some name.now) seen ended text
        × Says (K.taken out.old) (K.taken out.new) (K.faults out.old) (K.faults out.new) ended text result) }
    ensures same { S.files shelf.new ≡ S.files shelf.old }
    ensures counts { NeverFalls (S.faults shelf.old) (S.faults shelf.new) }
    ensures out_counts { K.faults out.old ≤ K.faults out.new }
{
    match listing(alloc, name, shelf) {
        Ok(text) => say(out, Ended::Done, &text),
        Err(refusal) => refuse(alloc, out, &refusal),
    }
}

/// The text that lists the points and the edges of the source in a file.
fn listing<S: Shelf>(alloc: Global, name: &str, shelf: &mut S) -> Result<Vec<u8>, Refusal>
    ensures answer { Sees (S.answers shelf.old) (S.answers shelf.new) (λ seen. MatchResult result
        (λ text. IsListing name.now seen text.items)
        (HasCause name.now seen)) }
    ensures same { S.files shelf.new ≡ S.files shelf.old }
    ensures counts { NeverFalls (S.faults shelf.old) (S.faults shelf.new) }
{
    let source = fetch_file(shelf, name, SOURCE_AND_ONE)?;
    let program = read_source(alloc, Role::Source, &source)?;
    let graph = Graph::build(alloc, &program)?;
    Ok(points_text(alloc, &graph, &source)?)
}

/// Writes the line of a refusal; where there is no memory for it, the line for want of memory.
fn refuse<K: Sink>(alloc: Global, out: &mut K, refusal: &Refusal) -> Ended
    ensures refuses { Refuses (K.taken out.old) (K.taken out.new) (K.faults out.old) (K.faults out.new) refusal.now result }
    ensures counts { K.faults out.old ≤ K.faults out.new }
{
    match refusal_text(alloc, refusal) {
        Ok(line) => say(out, ended_of(refusal), &line),
        Err(_) => say(out, Ended::Memory, MEMORY_LINE),
    }
}

/// Writes the text, and gives the answer, or that the write failed.
fn say<K: Sink>(out: &mut K, ended: Ended, text: &[u8]) -> Ended
    ensures says { Says (K.taken out.old) (K.taken out.new) (K.faults out.old) (K.faults out.new) ended text.now result }
    ensures counts { K.faults out.old ≤ K.faults out.new }
{
    match write_whole(out, text) {
        Ok(()) => ended,
        Err(_) => Ended::WriteFault,
    }
}
