//! The program `points`: it lists the points and the edges of a source of C on standard output, each under the number by which
//! `dejavu` names it. It passes its words to [`list_points`](listing::list_points), over the system's files and its standard output, and ends with
//! the number of the answer. What is written stands in the contract of that call.
#![tactic(auto)]

mod listing;
mod status;

use crate::listing::list_points;
use crate::status::Ended;
use command_refusals::MEMORY_LINE;
use dv_outside::{DiskShelf, Sink, StdSink, write_whole};
use std::env;
use std::io::ErrorKind;
use std::process::ExitCode;

fn main(rt: HostRuntime) -> ExitCode {
    let alloc = rt.alloc();
    let mut shelf = DiskShelf::new(&rt, alloc);
    let mut out = StdSink::new(&rt);
    // Words that aren't text name no source.
    let words = match env::args(&rt) {
        Ok(args) => match args.skip(1).collect::<Vec<String>>(alloc) {
            Ok(words) => words,
            Err(_) => return refuse_memory(&mut out),
        },
        Err(error) if error.kind() == ErrorKind::OutOfMemory => return refuse_memory(&mut out),
        Err(_) => Vec::new(alloc),
    };
    let ended = list_points(alloc, &words, &mut shelf, &mut out);
    if ended == Ended::Usage {
        // The exit status says the same, so a line that can't be written is let go.
        let _ = eprintln!(rt; "usage: points SOURCE");
    }
    ExitCode::from(ended.number())
}

/// Writes the line for want of memory, and answers its status, or that the write failed. It takes no memory.
fn refuse_memory<K: Sink>(out: &mut K) -> ExitCode {
    let ended = match write_whole(out, MEMORY_LINE) {
        Ok(()) => Ended::Memory,
        Err(_) => Ended::WriteFault,
    };
    ExitCode::from(ended.number())
}
