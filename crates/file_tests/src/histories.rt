//! What no command shows of histories: digests of any text, how long one is that is too long, and that they go between threads.
use line_text::push_hex;
use std::alloc::{AllocError, Global};
use std::process::Abort;
use std::test::Fail;
use std::thread;
use std::thread::Threads;
use test_history::{History, HistoryError, digest_of, read_history};

/// Texts and their digests, the examples of FIPS 180-4.
const DIGESTS: &[(&str, &str)] = &[
    (
        "",
        "e3b0c44298fc1c149afbf4c8996fb92427ae41e4649b934ca495991b7852b855",
    ),
    (
        "abc",
        "ba7816bf8f01cfea414140de5dae2223b00361a396177a9cb410ff61f20015ad",
    ),
];

/// The digest of a source has these digits.
fn digest_agrees(rt: &impl Abort, alloc: Global, source: &str, want: &str) -> Result<(), Fail> {
    let mut digits = Vec::new(alloc);
    push_hex(&mut digits, &digest_of(source.as_bytes()))?;
    assert!(rt; digits.as_slice() == want.as_bytes(), "{source}");
    Ok(())
}

#[test]
fn digests_are_those_of_the_standard(rt: HostRuntime) -> Result<(), Fail> {
    for &(source, want) in DIGESTS {
        digest_agrees(&rt, rt.alloc(), source, want)?;
    }
    Ok(())
}

#[test]
fn a_history_that_is_too_long_is_told_with_its_bytes(rt: HostRuntime) -> Result<(), Fail> {
    let text = vec![in rt.alloc(); b'x'; 134_217_729]?;
    let answer = read_history(rt.alloc(), &text, b"", 9).err();
    assert!(rt; answer == Some(HistoryError::TooLong(134_217_729)));
    Ok(())
}

/// For each history one of a source of no bytes without an entry, made by workers.
fn emptied<R: Threads + Sync>(
    rt: &R,
    alloc: Global,
    histories: &[History],
) -> Result<Vec<History>, AllocError> {
    thread::map_chunks(
        rt,
        alloc,
        histories,
        1,
        &|_, _chunk| History::new(digest_of(b""), 9, Vec::new(alloc)),
    )
}

#[test]
fn workers_read_and_make_histories(rt: HostRuntime) -> Result<(), Fail> {
    let mut histories = Vec::new(rt.alloc());
    histories.push(History::new(digest_of(b""), 9, Vec::new(rt.alloc())))?;
    let made = emptied(&rt, rt.alloc(), &histories)?;
    assert!(rt; made.len() == 1);
    Ok(())
}
