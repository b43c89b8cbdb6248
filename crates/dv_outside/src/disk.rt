//! The files and the standard output of the system: nothing is told of contents, and the logs have what the system answered.
//!
//! The premise: it gives the bytes of the files that it is asked for, and keeps those that it takes. What no clause says, and is
//! read here: the file of the name is opened, the bytes are those that the reader gives, and the piece is what it has to write.
ghost use Rattle.std.specs.Prelude.{◌≡◌, ◌≢◌, ◌≤◌, ◌↔◌, length, take, IfOk, IfSome};
ghost use Rattle.std.specs.IoError.{error_kind};

use crate::log::{ByteLog, FetchLog};
use crate::shelf::{FetchError, Shelf, raise};
use crate::sink::{Sink, SinkFailed};
use std::alloc::Global;
use std::fs::File;
use std::io;
use std::io::{ErrorKind, Read};
use std::rt::Files;

/// The files of the system, by their paths.
#[derive(Drop)]
pub struct DiskShelf<'a, R> {
    rt: &'a R,
    alloc: Global,
    log: FetchLog,
}

impl<'a, R: Files> DiskShelf<'a, R> {
    ghost use Rattle.std.specs.Prelude.{◌≡◌, []};
    ghost use Rattle.dv_outside.specs.DiskShelf.{shelf_answers};

    /// A shelf that was asked nothing yet.
    pub fn new(rt: &'a R, alloc: Global) -> DiskShelf<'a, R>
        ensures { shelf_answers result ≡ [] }
    {
        DiskShelf {
            rt,
            alloc,
            log: FetchLog::new(),
        }
    }
}

/// The first `most` bytes of the file of the system with this name, or all if it has fewer.
fn read_file<R: Files>(rt: &R, alloc: Global, name: &str, most: usize) -> io::Result<Vec<u8>>
    ensures { IfOk result (λ bytes. length bytes.items ≤ most) }
{
    let file = File::open(rt, name)?;
    read_most(alloc, file, most)
}

/// The first `most` bytes that a reader gives, or all that it gives until a read gives nothing, which is its end.
///
/// No more is asked of it, and a read that is interrupted is tried again.
fn read_most<F: Read + Drop>(alloc: Global, file: F, most: usize) -> io::Result<Vec<u8>>
    ensures bound { IfOk result (λ bytes. length bytes.items ≤ most) }
    ensures bytes { IfOk result (λ bytes. IfSome (F.remaining file) (λ all. bytes.items ≡ take most all)) }
{
    let mut bytes = Vec::new(alloc);
    let mut front = file.take(most as u64);
    front.read_to_end(&mut bytes)?;
    // It is no longer. No clause of the library says so of a reader whose bytes aren't known.
    bytes.truncate(most);
    Ok(bytes)
}

/// Why an open or a read failed. A system that has no memory isn't a fault of the file.
fn cause_of(error: io::Error) -> FetchError
    ensures memory { (result ≡ FetchError.Memory) ↔ (error_kind error ≡ ErrorKind.OutOfMemory) }
    ensures fault { (result ≡ FetchError.Failed) ↔ (error_kind error ≢ ErrorKind.OutOfMemory) }
{
    match error.kind() {
        ErrorKind::OutOfMemory => FetchError::Memory,
        _ => FetchError::Failed,
    }
}

impl<'a, R: Files> Shelf for DiskShelf<'a, R> {
    ghost use Rattle.std.specs.Prelude.{◌≡◌, ◌≤◌, length, IfOk, IsErrOf};
    ghost use Rattle.dv_outside.specs.Outside.{Rose, NeverFalls, IsFetched, Answers, answered, failures};
    ghost use Rattle.dv_outside.specs.DiskShelf.{shelf_files, shelf_answers};

    ghost files = { shelf_files };

    ghost answers = { shelf_answers };

    ghost faults = { λ shelf. failures (shelf_answers shelf) };

    fn fetch(&mut self, name: &str, most: usize) -> Result<Vec<u8>, FetchError>
        ensures answers { Answers (shelf_answers self.old) (shelf_answers self.new) name.now most (answered result) }
        ensures bytes { IfOk result (λ bytes. IsFetched (shelf_files self.old) name.now most bytes.items) }
        ensures bound { IfOk result (λ bytes. length bytes.items ≤ most) }
        ensures cause { IsErrOf result FetchError.Failed → Rose (failures (shelf_answers self.old) name.now) (failures (shelf_answers self.new) name.now) }
        ensures counts { NeverFalls (failures (shelf_answers self.old)) (failures (shelf_answers self.new)) }
        ensures same { shelf_files self.new ≡ shelf_files self.old }
    {
        let answer = read_file(self.rt, self.alloc, name, most).map_err(cause_of);
        self.log = self.log.and(name.as_bytes(), most, &answer);
        answer
    }

    ghost use Rattle.std.proofs.Common.{refl, rules};

    ghost agree = { λ shelf files told. Prim.search rules };

    ghost counted = { λ shelf name. refl };
}

/// The standard output of the system.
#[derive(Drop)]
pub struct StdSink<'a, R> {
    rt: &'a R,
    faults: u64,
    log: ByteLog,
}

impl<'a, R: Print> StdSink<'a, R> {
    ghost use Rattle.std.specs.Prelude.{◌≡◌, []};
    ghost use Rattle.dv_outside.specs.StdSink.{failed_puts, taken_bytes};

    /// A sink with no fault yet.
    pub fn new(rt: &'a R) -> StdSink<'a, R>
        ensures faults { failed_puts result ≡ 0 }
        ensures taken { taken_bytes result ≡ [] }
    {
        StdSink {
            rt,
            faults: 0,
            log: ByteLog::new(),
        }
    }
}

/// One write to the standard output: how many of the bytes it took. Where it is interrupted it is tried again.
fn write_once<R: Print>(rt: &R, piece: &[u8]) -> io::Result<usize>
    ensures { IfOk result (λ n. n ≤ length piece.now) }
{
    for _ in 0..u64::MAX {
        match rt.write_some(piece) {
            Err(error) if error.kind() == ErrorKind::Interrupted => {}
            written => return written,
        }
    }
    Err(io::Error::from(ErrorKind::Interrupted))
}

impl<'a, R: Print> Sink for StdSink<'a, R> {
    ghost use Rattle.std.specs.Prelude.{◌≡◌, ◌<◌, ◌≤◌, length, take, IfOk, OnErr};
    ghost use Rattle.dv_outside.specs.Outside.{Rose, Appends, Takes, faults_after_put};
    ghost use Rattle.dv_outside.specs.StdSink.{sink_bytes, taken_bytes, failed_puts};

    ghost written = { sink_bytes };

    ghost taken = { taken_bytes };

    ghost faults = { failed_puts };

    // A write that takes nothing is a fault.
    fn put(&mut self, piece: &[u8]) -> Result<usize, SinkFailed>
        requires { 0 < length piece.now }

        // as for every sink
        ensures some { IfOk result (λ n. 0 < n) }
        ensures bound { IfOk result (λ n. n ≤ length piece.now) }
        ensures takes { IfOk result (λ n. Takes (taken_bytes self.old) (taken_bytes self.new) (take n piece.now)) }
        ensures takes_none { OnErr result (taken_bytes self.new ≡ taken_bytes self.old) }
        ensures taken { IfOk result (λ n. Appends (sink_bytes self.old) (sink_bytes self.new) (take n piece.now)) }
        ensures none_taken { OnErr result (sink_bytes self.new ≡ sink_bytes self.old) }
        ensures cause { OnErr result (Rose (failed_puts self.old) (failed_puts self.new)) }
        ensures counts { failed_puts self.old ≤ failed_puts self.new }

        // of this one
        ensures failed { failed_puts self.new ≡ faults_after_put result (failed_puts self.old) }
    {
        match write_once(self.rt, piece) {
            Ok(count) if count > 0 => {
                self.log = self.log.and(&piece[..count]);
                Ok(count)
            }
            _ => {
                self.faults = raise(self.faults);
                Err(SinkFailed)
            }
        }
    }

    ghost use Rattle.std.proofs.Common.{rules};

    ghost agree = { λ sink other bytes told. Prim.search rules };
}
