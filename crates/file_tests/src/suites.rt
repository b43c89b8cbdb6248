//! What no command shows of suites: that they are written and copied, how long one is that is too long, and that tests go between
//! threads.
use csub_text::Text;
use std::test::Fail;
use std::thread;
use test_suite::{SuiteError, Test, copy_test, read_suite, write_suite};

const TWO_TESTS: &[u8] = b"dejavu suite 1\ntest A 100 41\ntest B 100 42\n";

/// Whether a test is the second of `TWO_TESTS`.
fn is_second(test: &Test) -> bool {
    test.name().bytes() == b"B".as_slice()
        && test.budget() == 100
        && test.input() == b"B".as_slice()
}

#[test]
fn a_suite_is_written_as_it_was_read(rt: HostRuntime) -> Result<(), Fail> {
    let tests = read_suite(rt.alloc(), TWO_TESTS)?;
    assert!(rt; tests.len() == 2);
    let second = tests.last().expect(&rt, "two tests");
    let copy = copy_test(rt.alloc(), second)?;
    assert!(rt; is_second(second) && is_second(&copy));
    assert!(rt; write_suite(rt.alloc(), &tests)?.as_slice() == TWO_TESTS);
    Ok(())
}

#[test]
fn a_suite_that_is_too_long_is_told_with_its_bytes(rt: HostRuntime) -> Result<(), Fail> {
    let text = vec![in rt.alloc(); b'x'; 16_777_217]?;
    let answer = read_suite(rt.alloc(), &text).err();
    assert!(rt; answer == Some(SuiteError::TooLong(16_777_217)));
    Ok(())
}

// Workers share tests and hand them on.
#[test]
fn a_test_goes_between_threads(rt: HostRuntime) -> Result<(), Fail> {
    let alloc = rt.alloc();
    let mut tests = Vec::new(alloc);
    tests.push(Test::new(Text::new(alloc, b"A")?, 7, b"\x41".to_vec(alloc)?))?;
    tests.push(Test::new(Text::new(alloc, b"B")?, 8, b"\x42".to_vec(alloc)?))?;
    let copy_first = |_start: usize, chunk: &[Test]| -> Option<Test> {
        copy_test(alloc, chunk.first()?).ok()
    };
    let copies = thread::map_chunks(&rt, alloc, &tests, 1, &copy_first)?;
    assert!(rt; copies.len() == 2);
    assert!(rt; copies[0].as_ref().is_some_and(|test| test.budget() == 7));
    assert!(rt;
        copies[1]
            .as_ref()
            .is_some_and(|test| test.input() == b"B".as_slice())
    );
    Ok(())
}
