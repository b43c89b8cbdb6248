//! The program: it passes its words to the top call, over the system's files and its standard output, and ends with the
//! number of the answer. What it does stands in the contract of `dejavu_cli::dejavu`.
#![tactic(auto)]

use command_refusals::MEMORY_LINE;
use dejavu_cli::{Status8, dejavu};
use dv_outside::{DiskShelf, OpenGate, Sink, StdSink, write_whole};
use std::env;
use std::io::ErrorKind;
use std::process::ExitCode;

fn main(rt: HostRuntime) -> ExitCode {
    let alloc = rt.alloc();
    let mut shelf = DiskShelf::new(&rt, alloc);
    let mut out = StdSink::new(&rt);
    // Words that aren't text are no command.
    let words = match env::args(&rt) {
        Ok(args) => match args.skip(1).collect::<Vec<String>>(alloc) {
            Ok(words) => words,
            Err(_) => return refuse_memory(&mut out),
        },
        Err(error) if error.kind() == ErrorKind::OutOfMemory => return refuse_memory(&mut out),
        Err(_) => Vec::new(alloc),
    };
    let status = dejavu(&rt, alloc, &words, &mut shelf, &mut out, &OpenGate);
    ExitCode::from(status.number())
}

/// Writes the line for want of memory, and answers its status, or that the write failed. It takes no memory.
fn refuse_memory<K: Sink>(out: &mut K) -> ExitCode {
    let status = match write_whole(out, MEMORY_LINE) {
        Ok(()) => Status8::Memory,
        Err(_) => Status8::WriteFault,
    };
    ExitCode::from(status.number())
}
