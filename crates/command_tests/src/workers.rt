//! Any number of workers records the same history, and two of them are at work at the same time.
use crate::files::{ASSIGNED, COUNTED, TWO, answer_counted, done, files_of, recorded};
use dejavu_cli::Status8;
use dv_outside::Gate;
use sample_sources::WORD_COUNTER;
use std::alloc::Global;
use std::process::Abort;
use std::sync::atomic::{AtomicU64, Ordering};
use std::test::Fail;
use std::thread::Threads;

/// Sources and suites.
const RECORDED: &[(&str, &str)] = &[
    (WORD_COUNTER, COUNTED),
    (ASSIGNED, "dejavu suite 1\n"),
    (ASSIGNED, TWO),
];

#[test]
fn any_number_of_workers_records_the_same(rt: HostRuntime) -> Result<(), Fail> {
    for &(source, suite) in RECORDED {
        let files = [("source", source), ("suite", suite)];
        let one = done(&rt, rt.alloc(), &files, "record --workers 1 source suite")?;
        for workers in ["2", "3", "64"] {
            let words = format!(in rt.alloc(); "record --workers {workers} source suite")?;
            let more = done(&rt, rt.alloc(), &files, words.as_str())?;
            assert!(rt; one.as_str() == more.as_str(), "{workers} workers");
        }
    }
    Ok(())
}

/// A gate that counts who passes, and at which two tests look for each other. The first time that a worker comes with one of
/// them it sets the test's own mark, and then looks for the mark of the other, at most 100,000,000 times.
#[derive(Drop)]
struct Marks {
    first: usize,
    second: usize,
    first_mark: AtomicU64,
    second_mark: AtomicU64,
    passed: AtomicU64,
    seen: AtomicU64,
}

impl Marks {
    /// These tests look for each other.
    fn new(first: usize, second: usize) -> Marks {
        Marks {
            first,
            second,
            first_mark: AtomicU64::new(0),
            second_mark: AtomicU64::new(0),
            passed: AtomicU64::new(0),
            seen: AtomicU64::new(0),
        }
    }

    /// Sets the one mark and looks for the other.
    fn look(&self, own: &AtomicU64, other: &AtomicU64) {
        if own.fetch_add(1, Ordering::SeqCst) > 0 {
            return;
        }
        for _ in 0..100_000_000u64 {
            if other.load(Ordering::SeqCst) > 0 {
                self.seen.fetch_add(1, Ordering::SeqCst);
                return;
            }
        }
    }
}

impl Gate for Marks {
    fn enter(&self, test: usize) {
        self.passed.fetch_add(1, Ordering::SeqCst);
        if test == self.first {
            self.look(&self.first_mark, &self.second_mark);
        } else if test == self.second {
            self.look(&self.second_mark, &self.first_mark);
        }
    }
}

/// The words about these texts are done, both tests' marks are seen, and so many tests pass.
fn two_workers_meet<R: Threads + Abort + Sync>(
    rt: &R,
    alloc: Global,
    texts: &[(&str, &str)],
    words: &str,
    (first, second): (usize, usize),
    passed: u64,
) -> Result<(), Fail> {
    let gate = Marks::new(first, second);
    let (status, _) = answer_counted(rt, alloc, &files_of(alloc, texts)?, words, &gate)?;
    let counts = (
        gate.passed.load(Ordering::SeqCst),
        gate.seen.load(Ordering::SeqCst),
    );
    assert!(rt; status == Status8::Done && counts == (passed, 2));
    Ok(())
}

// Of two tests each worker has one; of twelve the first has those from 0 on and the second those from 6 on.
#[test]
fn two_workers_run_at_the_same_time(rt: HostRuntime) -> Result<(), Fail> {
    let words = "record source suite --workers=2";
    let files = [("source", ASSIGNED), ("suite", TWO)];
    two_workers_meet(&rt, rt.alloc(), &files, words, (0, 1), 2)?;
    let files = [("source", WORD_COUNTER), ("suite", COUNTED)];
    two_workers_meet(&rt, rt.alloc(), &files, words, (0, 6), 12)
}

const DEEP: &str =
    "int f(int n) { if (n == 0) { return 1; } return f(n - 1); } int main(void) { if (getchar() == 65) { return f(3); } return 0; }";

/// The same, with another condition in `main`.
const OTHER_CONDITION: &str =
    "int f(int n) { if (n == 0) { return 1; } return f(n - 1); } int main(void) { if (getchar() + 0 == 65) { return f(3); } return 0; }";

// Both tests are selected. Each worker counts one of them for the first place, and one counts the other test again for the
// second place.
#[test]
fn two_workers_count_at_the_same_time(rt: HostRuntime) -> Result<(), Fail> {
    let history = recorded(&rt, rt.alloc(), DEEP, TWO)?;
    let files = [
        ("old", DEEP),
        ("new", OTHER_CONDITION),
        ("history", history.as_str()),
    ];
    let words = "order old new history --workers=2";
    two_workers_meet(&rt, rt.alloc(), &files, words, (0, 1), 3)
}
