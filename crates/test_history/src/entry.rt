//! What the run of one test gave.
ghost use Rattle.std.specs.Prelude.{◌≡◌};

use csub_semantics::Status;
use edge_trace::EdgeRow;
use std::marker::Model;
use test_suite::Test;

/// A test and what its run gave. Contracts see the five parts, the output as the list of its bytes and
/// the crossed edges as the value of their row.
pub struct Entry {
    test: Test,
    status: Status,
    turns: u32,
    output: Vec<u8>,
    crossed: EdgeRow,
}

impl Drop for Entry {
    fn drop(self) {
        let Entry {
            test: _,
            status: _,
            turns: _,
            output: _,
            crossed: _,
        } = self;
    }
}

impl Model for Entry {
    ghost use Rattle.test_history.specs.Histories.{EntryParts};

    ghost Value = { EntryParts };

    ghost view = { λ entry. record {
      test = entry.test;
      status = entry.status;
      turns = entry.turns;
      output = entry.output.items;
      crossed = entry.crossed;
    } };
}

impl Entry {
    /// The entry of these five parts.
    pub fn new(test: Test, status: Status, turns: u32, output: Vec<u8>, crossed: EdgeRow) -> Entry
        ensures { result ≡ record {
          test = test;
          status = status;
          turns = turns;
          output = output.items;
          crossed = crossed;
        } }
    {
        Entry {
            test,
            status,
            turns,
            output,
            crossed,
        }
    }

    /// The test.
    pub fn test(&self) -> &Test
        ensures { result.now ≡ self.now.test }
    {
        &self.test
    }

    /// How the run ended.
    pub fn status(&self) -> Status
        ensures { result ≡ self.now.status }
    {
        self.status
    }

    /// The number of turns that the run took.
    pub fn turns(&self) -> u32
        ensures { result ≡ self.now.turns }
    {
        self.turns
    }

    /// The bytes that the run wrote.
    pub fn output(&self) -> &[u8]
        ensures { result.now ≡ self.now.output }
    {
        self.output.as_slice()
    }

    /// The edges that the run crossed.
    pub fn crossed(&self) -> &EdgeRow
        ensures { result.now ≡ self.now.crossed }
    {
        &self.crossed
    }
}
