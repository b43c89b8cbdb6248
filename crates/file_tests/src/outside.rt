//! Files and outputs in memory, and gates that workers share.
ghost use Rattle.std.specs.Prelude.{◌<◌};

use dv_outside::{
    FailingShelf, FailingSink, FetchError, Gate, MemoryShelf, MemorySink, OpenGate, Shelf,
    SinkFailed, names_differ, write_whole,
};
use std::alloc::{AllocError, Global};
use std::process::Abort;
use std::sync::atomic::{AtomicU64, Ordering};
use std::test::Fail;
use std::thread::{Threads, join};

const TEXT: &[u8] = b"left A\nrun B edge 5\nselected 1 of 2\n";

fn two_files(alloc: Global) -> Result<Vec<(String, Vec<u8>)>, AllocError> {
    let mut files = Vec::new(alloc);
    for &(name, text) in &[("one.c", "int x;"), ("empty", "")] {
        let name = String::from_str(alloc, name)?;
        let bytes = text.as_bytes().to_vec(alloc)?;
        files.push((name, bytes))?;
    }
    Ok(files)
}

/// A name, how much is asked for, and what comes.
const BEGINNINGS: &[(&str, usize, &str)] = &[
    ("one.c", 100, "int x;"),
    ("one.c", 6, "int x;"),
    ("one.c", 3, "int"),
    ("one.c", 0, ""),
    ("empty", 4, ""),
];

// Whether the shelf gives as much of a file as was asked for.
fn gives_beginnings<S: Shelf>(shelf: &mut S) -> bool {
    for &(name, most, wanted) in BEGINNINGS {
        match shelf.fetch(name, most) {
            Ok(bytes) if bytes.as_slice() == wanted.as_bytes() => {}
            _ => return false,
        }
    }
    true
}

// Whether the shelf gives no file that isn't held.
fn lacks_others<S: Shelf>(shelf: &mut S) -> bool {
    for name in ["two.c", "one", "one.c ", ""] {
        if shelf.fetch(name, 4).err() != Some(FetchError::Failed) {
            return false;
        }
    }
    true
}

#[test]
fn shelves_in_memory_give_the_beginnings_of_files(rt: HostRuntime) -> Result<(), Fail> {
    let alloc = rt.alloc();
    let files = two_files(alloc)?;
    assert!(rt; names_differ(&files));
    let mut shelf = MemoryShelf::new(alloc, files);
    assert!(rt; gives_beginnings(&mut shelf) && lacks_others(&mut shelf));
    Ok(())
}

#[test]
fn shelves_that_fail_at_no_call_give_them_too(rt: HostRuntime) -> Result<(), Fail> {
    let alloc = rt.alloc();
    let mut shelf = FailingShelf::new(alloc, two_files(alloc)?, Vec::new(alloc));
    assert!(rt; gives_beginnings(&mut shelf) && lacks_others(&mut shelf));
    Ok(())
}

#[test]
fn a_name_that_stands_twice_is_seen(rt: HostRuntime) -> Result<(), Fail> {
    let alloc = rt.alloc();
    let mut files = two_files(alloc)?;
    files.push((String::from_str(alloc, "one.c")?, Vec::new(alloc)))?;
    assert!(rt; !names_differ(&files));
    Ok(())
}

#[test]
fn a_shelf_fails_at_its_second_fetch_alone(rt: HostRuntime) -> Result<(), Fail> {
    let alloc = rt.alloc();
    let mut shelf = FailingShelf::new(alloc, two_files(alloc)?, [2].to_vec(alloc)?);
    for wanted in [None, Some(FetchError::Failed), None, None] {
        assert!(rt; shelf.fetch("one.c", 9).err() == wanted);
    }
    Ok(())
}

#[test]
fn a_sink_fails_at_its_third_call_alone(rt: HostRuntime) -> Result<(), Fail> {
    let mut sink = FailingSink::new(rt.alloc(), 100, 4, 3)?;
    let failed = write_whole(&mut sink, TEXT);
    assert!(rt; failed == Err(SinkFailed) && sink.bytes() == b"left A\nr".as_slice());
    let written = write_whole(&mut sink, b"un B\n");
    assert!(rt; written == Ok(()) && sink.bytes() == b"left A\nrun B\n".as_slice());
    Ok(())
}

// A sink that takes so much at a call takes the text, and then no more.
fn sink_takes_text(rt: &impl Abort, alloc: Global, most: usize) -> Result<(), Fail>
    requires { 0 < most }
{
    let mut sink = MemorySink::new(alloc, TEXT.len(), most)?;
    let written = write_whole(&mut sink, TEXT);
    assert!(rt; written == Ok(()) && sink.bytes() == TEXT, "{most} a call");
    assert!(rt;
        write_whole(&mut sink, b"!") == Err(SinkFailed),
        "{most} a call"
    );
    Ok(())
}

#[test]
fn a_sink_takes_the_text_until_it_is_full(rt: HostRuntime) -> Result<(), Fail> {
    for most in [1, 4, 1000] {
        sink_takes_text(&rt, rt.alloc(), most)?;
    }
    Ok(())
}

#[test]
fn a_sink_that_is_too_small_has_a_beginning(rt: HostRuntime) -> Result<(), Fail> {
    let mut sink = MemorySink::new(rt.alloc(), 9, 4)?;
    let failed = write_whole(&mut sink, TEXT);
    assert!(rt; failed == Err(SinkFailed) && sink.bytes() == b"left A\nru".as_slice());
    Ok(())
}

// A gate that counts who passes.
#[derive(Drop)]
struct Turnstile {
    passed: AtomicU64,
}

impl Gate for Turnstile {
    fn enter(&self, _test: usize) {
        self.passed.fetch_add(1, Ordering::SeqCst);
    }
}

fn two_workers<R: Threads, G: Gate>(rt: &R, gate: &G) {
    join(rt, || gate.enter(0), || gate.enter(1));
}

#[test]
fn workers_share_a_gate(rt: HostRuntime) {
    let open = OpenGate;
    let copy = open;
    two_workers(&rt, &open);
    two_workers(&rt, &copy);
    let turnstile = Turnstile {
        passed: AtomicU64::new(0),
    };
    two_workers(&rt, &turnstile);
    assert!(rt; turnstile.passed.load(Ordering::SeqCst) == 2);
}
