//! The order of tests whose choices say nothing of their edges, and how often waiting tests are counted. The digests and sums are
//! those of Python's hashlib.
ghost use Rattle.std.specs.Prelude.{◌<◌, ◌≤◌};

use dv_outside::Gate;
use std::alloc::Global;
use std::process::Abort;
use std::sync::atomic::{AtomicU64, Ordering};
use std::test::Fail;
use std::thread::Threads;
use test_history::read_history;
use test_order::{order, order_text};
use test_select::Choice;

/// A history of a source of no bytes and 10 edges, in which A and C crossed the same, and B two that these didn't.
const TWO_ALIKE: &str = "dejavu history 3\n\
    source e3b0c44298fc1c149afbf4c8996fb92427ae41e4649b934ca495991b7852b855\n\
    edges 10\n\
    tests 3\n\
    test A\n\
    budget 100\n\
    input 41\n\
    status exit 0\n\
    turns 8\n\
    output -\n\
    crossed 5f01\n\
    test C\n\
    budget 100\n\
    input 43\n\
    status exit 0\n\
    turns 8\n\
    output -\n\
    crossed 5f01\n\
    test B\n\
    budget 100\n\
    input 42\n\
    status exit 0\n\
    turns 8\n\
    output -\n\
    crossed af01\n\
    end 24302e6cc256f457392b0840e1d99e8f57fb18a6a691e84947afc99fc2d41a92\n";

/// The same tests, none of which crossed an edge.
const NOTHING: &str = "dejavu history 3\n\
    source e3b0c44298fc1c149afbf4c8996fb92427ae41e4649b934ca495991b7852b855\n\
    edges 10\n\
    tests 3\n\
    test A\n\
    budget 100\n\
    input 41\n\
    status exit 0\n\
    turns 8\n\
    output -\n\
    crossed 0000\n\
    test C\n\
    budget 100\n\
    input 43\n\
    status exit 0\n\
    turns 8\n\
    output -\n\
    crossed 0000\n\
    test B\n\
    budget 100\n\
    input 42\n\
    status exit 0\n\
    turns 8\n\
    output -\n\
    crossed 0000\n\
    end f18d8a0465a4303d11bb31f50532945730cd9d91deb6970acfc889a76d6f11f3\n";

// A gate that counts who passes.
#[derive(Drop)]
struct Turnstile {
    passed: AtomicU64,
}

impl Gate for Turnstile {
    fn enter(&self, _test: usize) {
        self.passed.fetch_add(1, Ordering::SeqCst);
    }
}

const SELECTED: Choice = Choice::Selected(0);

/// The text on the order of three tests, of which the last two are selected.
fn ordering<R: Threads + Sync>(
    rt: &R,
    alloc: Global,
    history: &str,
    first: Choice,
    workers: usize,
    gate: &Turnstile,
) -> Result<Vec<u8>, Fail>
    requires some { 0 < workers }
    requires few { workers ≤ 64 }
{
    let history = read_history(alloc, history.as_bytes(), b"", 10)?;
    let choices = [first, SELECTED, SELECTED];
    if history.entries().len() != choices.len() {
        return Err("not three entries")?;
    }
    let placed = order(rt, alloc, &history, &choices, workers, gate)?;
    Ok(order_text(alloc, &history, &placed)?)
}

/// So many workers write this text on the order, and count so many tests.
fn order_agrees<R: Threads + Abort + Sync>(
    rt: &R,
    alloc: Global,
    row: &(&str, Choice, &str, u64),
    workers: usize,
) -> Result<(), Fail>
    requires some { 0 < workers }
    requires few { workers ≤ 64 }
{
    let gate = Turnstile {
        passed: AtomicU64::new(0),
    };
    let text = ordering(rt, alloc, row.0, row.1, workers, &gate)?;
    assert!(rt;
        text.as_slice() == row.2.as_bytes() && gate.passed.load(Ordering::SeqCst) == row.3,
        "{workers} workers: {}",
        row.2
    );
    Ok(())
}

/// A history, the choice for A, the text, and how often waiting tests are counted: each for each place, but no more once none adds
/// an edge.
const ORDERS: &[(&str, Choice, &str, u64)] = &[
    (
        TWO_ALIKE,
        SELECTED,
        "A adds 7\nB adds 2\nC adds 0\nordered 3 of 3\n",
        6,
    ),
    (
        TWO_ALIKE,
        Choice::Left,
        "C adds 7\nB adds 2\nordered 2 of 3\n",
        3,
    ),
    (
        NOTHING,
        SELECTED,
        "A adds 0\nC adds 0\nB adds 0\nordered 3 of 3\n",
        3,
    ),
];

#[test]
fn each_waiting_test_is_counted_for_each_place(rt: HostRuntime) -> Result<(), Fail> {
    for row in ORDERS {
        for workers in [1, 2, 64] {
            order_agrees(&rt, rt.alloc(), row, workers)?;
        }
    }
    Ok(())
}
