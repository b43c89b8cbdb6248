//! A place that text is written to.
ghost use Rattle.std.specs.Prelude.{◌≡◌, ◌<◌, ◌≤◌, List, ℕ, length, take, Option, Some, IfOk, OnOk, OnErr};
ghost use Rattle.dv_outside.specs.Outside.{Rose, Appends, AppendsPrefix, Takes, TakesPrefix};

use thiserror::Error;

/// A fault of a sink, which it has counted.
#[derive(Clone, Copy, Debug, PartialEq, Eq, Error)]
#[error("the text can't be written")]
pub struct SinkFailed;

/// A place that text is written to, piece by piece.
pub trait Sink {
    /// The bytes that were written, where they are told.
    ghost written: { Self → Option (List ℕ) };

    /// The bytes that it said it took, in order, whether or not those written are told.
    ghost taken: { Self → List ℕ };

    /// How often a fault was met. It never falls.
    ghost faults: { Self → ℕ };

    /// Appends at least one byte from the front of the piece, and says how many. It takes no memory.
    ///
    /// `SinkFailed` comes only where the count of faults rose, and then nothing of the piece was taken.
    fn put(&mut self, piece: &[u8]) -> Result<usize, SinkFailed>
        requires { 0 < length piece.now }
        ensures some { IfOk result (λ n. 0 < n) }
        ensures bound { IfOk result (λ n. n ≤ length piece.now) }
        ensures takes { IfOk result (λ n. Takes (taken self.old) (taken self.new) (take n piece.now)) }
        ensures takes_none { OnErr result (taken self.new ≡ taken self.old) }
        ensures taken { IfOk result (λ n. Appends (written self.old) (written self.new) (take n piece.now)) }
        ensures none_taken { OnErr result (written self.new ≡ written self.old) }
        ensures cause { OnErr result (Rose (faults self.old) (faults self.new)) }
        ensures counts { faults self.old ≤ faults self.new };

    /// Where one such sink tells its written bytes each does, and they are those that were taken.
    ghost agree: { (sink other : Self) (bytes : List ℕ) → written sink ≡ Some bytes → written other ≡ Some (taken other) };
}

/// Writes the whole text, piece by piece. It takes no memory.
///
/// `SinkFailed` comes only where the sink's count of faults rose in this call; a beginning of the text was
/// appended then.
pub fn write_whole<K: Sink>(sink: &mut K, text: &[u8]) -> Result<(), SinkFailed>
    ensures takes { OnOk result (Takes (K.taken sink.old) (K.taken sink.new) text.now) }
    ensures takes_prefix { OnErr result (TakesPrefix (K.taken sink.old) (K.taken sink.new) text.now) }
    ensures whole { OnOk result (Appends (K.written sink.old) (K.written sink.new) text.now) }
    ensures prefix { OnErr result (AppendsPrefix (K.written sink.old) (K.written sink.new) text.now) }
    ensures cause { OnErr result (Rose (K.faults sink.old) (K.faults sink.new)) }
    ensures counts { K.faults sink.old ≤ K.faults sink.new }
{
    let mut rest = text;
    while !rest.is_empty() {
        let taken = sink.put(rest)?;
        rest = &rest[taken..];
    }
    Ok(())
}
