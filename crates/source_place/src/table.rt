//! A table of the lines of a source, for many places in it.
ghost use Rattle.std.specs.Prelude.{ℕ, List, ◌≡◌, ◌≤◌, IfOk, length};
ghost use Rattle.csub_lex.specs.Place.{line_of};
ghost use Rattle.source_place.specs.Lines.{line_begins, IsTableOf};
ghost use Rattle.source_place.specs.Places.{place_of};

use crate::place::Place;
use csub_text::Span;
use std::alloc::{AllocError, Global};
use std::marker::Model;

/// The lines of a source, by which a place in it is found without going over the bytes before it.
#[derive(Drop)]
pub struct LineTable {
    /// Where the lines begin, rising.
    begins: Vec<u32>,
    /// The length of the source.
    end: u32,
}

impl Model for LineTable {
    ghost use Rattle.std.specs.Coded.{codes};
    ghost use Rattle.source_place.specs.Lines.{Lines, IsTable};

    ghost Value = { Lines };

    ghost coded = { Prim.hlevel codes };

    ghost view = { λ table. record { begins = table.begins.items; end = table.end } };

    ghost invariant = { λ table. IsTable (record { begins = table.begins.items; end = table.end }) };
}

impl LineTable {
    /// The table of a source. It goes once over the bytes. An `Err` is want of memory.
    pub fn new(alloc: Global, source: &[u8]) -> Result<LineTable, AllocError>
        requires { length source.now ≤ 1048576 }
        ensures { IfOk result (IsTableOf source.now) }
    {
        let begins = list_begins(alloc, source)?;
        Ok(LineTable {
            begins,
            end: source.len() as u32,
        })
    }

    /// The place of the first byte of a span in the table's source; that of the source's end where the span begins behind it. It
    /// takes a logarithm of the number of lines.
    pub fn place_of(&self, at: Span) -> Place
        ensures { (source : List ℕ) → IsTableOf source self.now → result ≡ place_of source at }
    {
        let start = at.start.min(self.end);
        let line = line_at(&self.begins, start);
        Place {
            line: line as u32,
            column: start - self.begins[line - 1] + 1,
        }
    }
}

/// Where the lines of a source begin.
fn list_begins(alloc: Global, source: &[u8]) -> Result<Vec<u32>, AllocError>
    requires { length source.now ≤ 1048576 }
    ensures { IfOk result (λ begins. begins.items ≡ line_begins source.now) }
{
    let mut begins = Vec::new(alloc);
    begins.push(0)?;
    for (place, byte) in source.iter().enumerate() {
        if *byte == b'\n' {
            begins.push(place as u32 + 1)?;
        }
    }
    Ok(begins)
}

/// How many lines begin at a place or before it: the number of its line.
fn line_at(begins: &[u32], place: u32) -> usize
    ensures { (source : List ℕ) → begins.now ≡ line_begins source → place ≤ length source → result ≡ line_of source place }
{
    begins.partition_point(|begin| *begin <= place)
}
