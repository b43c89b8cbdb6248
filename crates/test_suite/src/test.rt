//! A test of a program.
ghost use Rattle.std.specs.Prelude.{◌≡◌, IfOk};
ghost use Rattle.hex.specs.Hex.{IsBytes};

use csub_text::Text;
use std::alloc::{AllocError, Global};
use std::marker::Model;

/// A test: its name, the number of turns that its run may take, and the bytes that it reads. Contracts
/// see the three parts, the name and the input as lists.
pub struct Test {
    name: Text,
    budget: u32,
    input: Vec<u8>,
}

impl Drop for Test {
    fn drop(self) {
        let Test {
            name: _,
            budget: _,
            input: _,
        } = self;
    }
}

impl Model for Test {
    ghost use Rattle.test_suite.specs.Tests.{TestParts};

    ghost Value = { TestParts };

    ghost view = { λ test. record { name = test.name; budget = test.budget; input = test.input.items } };
}

impl Test {
    /// The test of these three parts.
    pub fn new(name: Text, budget: u32, input: Vec<u8>) -> Test
        ensures parts { result ≡ record { name = name; budget = budget; input = input.items } }
        ensures bytes { IsBytes result.input }
    {
        Test {
            name,
            budget,
            input,
        }
    }

    /// The name.
    pub fn name(&self) -> &Text
        ensures { result.now ≡ self.now.name }
    {
        &self.name
    }

    /// The number of turns that a run may take.
    pub fn budget(&self) -> u32
        ensures { result ≡ self.now.budget }
    {
        self.budget
    }

    /// The bytes that a run reads.
    pub fn input(&self) -> &[u8]
        ensures { result.now ≡ self.now.input }
    {
        self.input.as_slice()
    }
}

/// A test of the same parts. An `Err` is want of memory.
pub fn copy_test(alloc: Global, test: &Test) -> Result<Test, AllocError>
    ensures { IfOk result (λ copy. copy ≡ test.now) }
{
    let name = test.name().copy()?;
    let input = test.input().to_vec(alloc)?;
    Ok(Test::new(name, test.budget(), input))
}
