//! What is trusted of the system: a real file, and what an output may answer.
use dv_outside::{DiskShelf, FetchError, Shelf, Sink, SinkFailed, StdSink};
use std::alloc::{AllocError, Global};
use std::cell::Cell;
use std::fmt::Display;
use std::io::Print;
use std::test::Fail;
use std::{fs, io, process};

// More than one piece, no two neighbours alike.
fn long_content(alloc: Global) -> Result<Vec<u8>, AllocError> {
    let mut content = Vec::new(alloc);
    for i in 0..10_000u32 {
        content.push((i % 251) as u8)?;
    }
    Ok(content)
}

/// How much is asked for, and how much comes.
const LIMITS: &[(usize, usize)] = &[
    (0, 0),
    (1, 1),
    (8_192, 8_192),
    (8_193, 8_193),
    (9_999, 9_999),
    (10_000, 10_000),
    (10_001, 10_000),
    (100_000, 10_000),
];

// Whether the shelf gives as much of the file of this content as was asked for.
fn gives_limits<S: Shelf>(shelf: &mut S, path: &str, content: &[u8]) -> bool {
    for &(most, wanted) in LIMITS {
        match shelf.fetch(path, most) {
            Ok(bytes) if content.get(..wanted) == Some(bytes.as_slice()) => {}
            _ => return false,
        }
    }
    true
}

#[test]
fn a_real_file_is_read_up_to_the_limit(rt: HostRuntime) -> Result<(), Fail> {
    let content = long_content(rt.alloc())?;
    let path = format!(in rt.alloc(); "file_tests-{}", process::id(rt.process()))?;
    fs::write(&rt, path.as_str(), content.as_slice())?;
    let mut shelf = DiskShelf::new(&rt, rt.alloc());
    assert!(rt; gives_limits(&mut shelf, path.as_str(), &content));
    fs::remove_file(&rt, path.as_str())?;
    assert!(rt; shelf.fetch(path.as_str(), 9).err() == Some(FetchError::Failed));
    Ok(())
}

// An output that takes three bytes, then nothing, and then fails.
#[derive(Drop)]
struct Stubborn {
    calls: Cell<u32>,
}

impl Print for Stubborn {
    fn print<D: Display + Drop>(&self, _value: D) -> io::Result<()> {
        Err(io::Error::from(io::ErrorKind::Unsupported))
    }

    fn println<D: Display + Drop>(&self, _value: D) -> io::Result<()> {
        Err(io::Error::from(io::ErrorKind::Unsupported))
    }

    fn write_all(&self, _bytes: &[u8]) -> io::Result<()> {
        Err(io::Error::from(io::ErrorKind::Unsupported))
    }

    fn write_some(&self, bytes: &[u8]) -> io::Result<usize> {
        let calls = self.calls.get();
        self.calls.set(calls.saturating_add(1));
        match calls {
            0 => Ok(bytes.len().min(3)),
            1 => Ok(0),
            _ => Err(io::Error::from(io::ErrorKind::BrokenPipe)),
        }
    }
}

#[test]
fn a_write_that_takes_nothing_is_a_fault(rt: HostRuntime) {
    let output = Stubborn {
        calls: Cell::new(0),
    };
    let mut sink = StdSink::new(&output);
    for wanted in [Ok(3), Err(SinkFailed), Err(SinkFailed)] {
        assert!(rt; sink.put(b"left A\n") == wanted);
    }
}
