//! Sinks in memory, which tell their bytes.
ghost use Rattle.std.specs.Prelude.{◌≡◌, ◌≤◌, ◌<◌, [], length, IfOk};
ghost use Rattle.std.specs.Vec.{vec_capacity, vec_len};

use crate::shelf::raise;
use crate::sink::{Sink, SinkFailed};
use std::alloc::{AllocError, Global};

/// A sink in memory, with room for so many bytes and no more, of which one call takes at most so many.
///
/// A call with no room left is a fault, the only one. All memory is taken when the sink is made.
#[derive(Drop)]
pub struct MemorySink {
    bytes: Vec<u8>,
    room: usize,
    most: usize,
    faults: u64,
    ghost fits: { vec_len bytes ≤ room },
    ghost has_room: { room ≤ vec_capacity bytes },
    ghost takes_some: { 0 < most },
}

impl MemorySink {
    ghost use Rattle.dv_outside.specs.Outside.{raised};
    ghost use Rattle.dv_outside.specs.MemorySink.{sink_bytes, sink_room, sink_most, sink_faults, KeepsLimits};

    /// An empty sink, or an error for want of memory.
    pub fn new(alloc: Global, room: usize, most: usize) -> Result<MemorySink, AllocError>
        requires { 0 < most }
        ensures empty { IfOk result (λ sink. sink_bytes sink ≡ []) }
        ensures room { IfOk result (λ sink. sink_room sink ≡ room) }
        ensures most { IfOk result (λ sink. sink_most sink ≡ most) }
        ensures faults { IfOk result (λ sink. sink_faults sink ≡ 0) }
    {
        let bytes = Vec::with_capacity(alloc, room)?;
        Ok(MemorySink {
            bytes,
            room,
            most,
            faults: 0,
        })
    }

    /// What was written.
    pub fn bytes(&self) -> &[u8]
        ensures { result.now ≡ sink_bytes self.now }
    {
        &self.bytes
    }

    /// A fault: nothing is taken.
    fn fail(&mut self) -> SinkFailed
        ensures bytes { sink_bytes self.new ≡ sink_bytes self.old }
        ensures limits { KeepsLimits self.old self.new }
        ensures faults { sink_faults self.new ≡ raised (sink_faults self.old) }
        ensures counts { sink_faults self.old ≤ sink_faults self.new }
    {
        self.faults = raise(self.faults);
        SinkFailed
    }
}

impl Sink for MemorySink {
    ghost use Rattle.std.specs.Prelude.{◌≡◌, ◌<◌, ◌≤◌, ◌↔◌, Some, length, take, IfOk, OnErr, IsErr};
    ghost use Rattle.dv_outside.specs.Outside.{Rose, Appends, Takes, faults_after_put};
    ghost use Rattle.dv_outside.specs.MemorySink.{sink_bytes, sink_faults, room_left, bytes_taken, KeepsLimits};

    ghost written = { λ sink. Some (sink_bytes sink) };

    ghost taken = { sink_bytes };

    ghost faults = { sink_faults };

    fn put(&mut self, piece: &[u8]) -> Result<usize, SinkFailed>
        requires { 0 < length piece.now }

        // as for every sink
        ensures some { IfOk result (λ n. 0 < n) }
        ensures bound { IfOk result (λ n. n ≤ length piece.now) }
        ensures takes { IfOk result (λ n. Takes (sink_bytes self.old) (sink_bytes self.new) (take n piece.now)) }
        ensures takes_none { OnErr result (sink_bytes self.new ≡ sink_bytes self.old) }
        ensures taken { IfOk result (λ n. Appends (Some (sink_bytes self.old)) (Some (sink_bytes self.new)) (take n piece.now)) }
        ensures none_taken { OnErr result (Some (sink_bytes self.new) ≡ Some (sink_bytes self.old)) }
        ensures cause { OnErr result (Rose (sink_faults self.old) (sink_faults self.new)) }
        ensures counts { sink_faults self.old ≤ sink_faults self.new }

        // of this one
        ensures full { IsErr result ↔ (room_left self.old ≡ 0) }
        ensures count { IfOk result (λ n. n ≡ bytes_taken self.old piece.now) }
        ensures faults { sink_faults self.new ≡ faults_after_put result (sink_faults self.old) }
        ensures limits { KeepsLimits self.old self.new }
    {
        let left = self.room - self.bytes.len();
        if left == 0 {
            return Err(self.fail());
        }
        let count = piece.len().min(self.most.min(left));
        self.bytes.extend_from_slice(&piece[..count]).unwrap();
        Ok(count)
    }

    ghost use Rattle.std.proofs.Common.{refl};

    ghost agree = { λ sink other bytes told. refl };
}

/// A sink in memory as [`MemorySink`] is one, one call of which is a fault as well.
///
/// The calls are counted from 1.
#[derive(Drop)]
pub struct FailingSink {
    inner: MemorySink,
    fail_at: u32,
    calls: u64,
}

impl FailingSink {
    ghost use Rattle.dv_outside.specs.MemorySink.{sink_bytes, sink_room, sink_most, sink_faults};
    ghost use Rattle.dv_outside.specs.FailingSink.{inner_sink, failing_call, calls_made};

    /// An empty sink whose call with that number fails (none for 0), or an error for want of memory.
    pub fn new(
        alloc: Global,
        room: usize,
        most: usize,
        fail_at: u32,
    ) -> Result<FailingSink, AllocError>
        requires { 0 < most }
        ensures empty { IfOk result (λ sink. sink_bytes (inner_sink sink) ≡ []) }
        ensures room { IfOk result (λ sink. sink_room (inner_sink sink) ≡ room) }
        ensures most { IfOk result (λ sink. sink_most (inner_sink sink) ≡ most) }
        ensures faults { IfOk result (λ sink. sink_faults (inner_sink sink) ≡ 0) }
        ensures fail_at { IfOk result (λ sink. failing_call sink ≡ fail_at) }
        ensures calls { IfOk result (λ sink. calls_made sink ≡ 0) }
    {
        let inner = MemorySink::new(alloc, room, most)?;
        Ok(FailingSink {
            inner,
            fail_at,
            calls: 0,
        })
    }

    /// What was written.
    pub fn bytes(&self) -> &[u8]
        ensures { result.now ≡ sink_bytes (inner_sink self.now) }
    {
        self.inner.bytes()
    }
}

impl Sink for FailingSink {
    ghost use Rattle.std.specs.Prelude.{◌≡◌, ◌<◌, ◌≤◌, ◌↔◌, Some, length, take, IfOk, OnErr, IsErr};
    ghost use Rattle.dv_outside.specs.Outside.{Rose, Appends, Takes, raised, faults_after_put};
    ghost use Rattle.dv_outside.specs.MemorySink.{sink_bytes, sink_faults, bytes_taken, KeepsLimits};
    ghost use Rattle.dv_outside.specs.FailingSink.{inner_sink, failing_call, calls_made, FailsNext};

    ghost written = { λ sink. Some (sink_bytes (inner_sink sink)) };

    ghost taken = { λ sink. sink_bytes (inner_sink sink) };

    ghost faults = { λ sink. sink_faults (inner_sink sink) };

    fn put(&mut self, piece: &[u8]) -> Result<usize, SinkFailed>
        requires { 0 < length piece.now }

        // as for every sink
        ensures some { IfOk result (λ n. 0 < n) }
        ensures bound { IfOk result (λ n. n ≤ length piece.now) }
        ensures takes { IfOk result (λ n. Takes (sink_bytes (inner_sink self.old)) (sink_bytes (inner_sink self.new)) (take n piece.now)) }
        ensures takes_none { OnErr result (sink_bytes (inner_sink self.new) ≡ sink_bytes (inner_sink self.old)) }
        ensures taken { IfOk result (λ n. Appends (Some (sink_bytes (inner_sink self.old))) (Some (sink_bytes (inner_sink self.new))) (take n piece.now)) }
        ensures none_taken { OnErr result (Some (sink_bytes (inner_sink self.new)) ≡ Some (sink_bytes (inner_sink self.old))) }
        ensures cause { OnErr result (Rose (sink_faults (inner_sink self.old)) (sink_faults (inner_sink self.new))) }
        ensures counts { sink_faults (inner_sink self.old) ≤ sink_faults (inner_sink self.new) }

        // of this one
        ensures fails { IsErr result ↔ FailsNext self.old }
        ensures count { IfOk result (λ n. n ≡ bytes_taken (inner_sink self.old) piece.now) }
        ensures faults { sink_faults (inner_sink self.new) ≡ faults_after_put result (sink_faults (inner_sink self.old)) }
        ensures limits { KeepsLimits (inner_sink self.old) (inner_sink self.new) }
        ensures calls { calls_made self.new ≡ raised (calls_made self.old) }
        ensures fail_at { failing_call self.new ≡ failing_call self.old }
    {
        self.calls = raise(self.calls);
        if self.calls == u64::from(self.fail_at) {
            return Err(self.inner.fail());
        }
        self.inner.put(piece)
    }

    ghost use Rattle.std.proofs.Common.{refl};

    ghost agree = { λ sink other bytes told. refl };
}
