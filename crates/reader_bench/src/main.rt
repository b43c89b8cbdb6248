//! Counts what the reader finds in a source, for measuring how long it takes: `tokens FILE` cuts the file into tokens,
//! `unit FILE` reads the unit that they spell as well. Its tests are those of the reader as a whole: sources, and the
//! unit or the refusal that each has to give.
#![tactic(auto)]

use csub_lex::lex;
use csub_parse::parse;
use csub_tree::{Item, Unit, depth};
use std::{env, fs, io};

/// The most bytes that `lex` takes.
const MOST: usize = 1_048_576;

// The lines that stand in the bodies of functions, but not those within other lines.
fn lines(unit: &Unit) -> usize {
    let mut count: usize = 0;
    for item in &unit.items {
        if let Item::Function(_, body, _) = item {
            count = count.saturating_add(body.len());
        }
    }
    count
}

fn main(rt: HostRuntime) -> io::Result<()> {
    let alloc = rt.alloc();
    let mut words = env::args(&rt)?.skip(1);
    let (Some(what), Some(path)) = (words.next(), words.next()) else {
        println!(rt; "usage: reader_bench tokens|unit FILE")?;
        return Ok(());
    };
    let source = fs::read(&rt, path.as_str())?;
    if source.len() > MOST {
        println!(rt; "{} bytes are too many", source.len())?;
        return Ok(());
    }
    let tokens = match lex(alloc, &source) {
        Ok(tokens) => tokens,
        Err(error) => {
            println!(rt; "{error}")?;
            return Ok(());
        }
    };
    println!(rt; "{} tokens", tokens.len())?;
    if what.as_str() != "unit" {
        return Ok(());
    }
    match parse(alloc, &tokens) {
        Ok(unit) => {
            let (items, lines, depth) = (unit.items.len(), lines(&unit), depth(&unit));
            println!(rt; "{items} items, {lines} lines, depth {depth}")?;
        }
        Err(error) => println!(rt; "{error}")?,
    }
    Ok(())
}

#[cfg(test)]
mod tests;
