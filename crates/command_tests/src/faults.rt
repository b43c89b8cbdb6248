//! Faults of the files and of the output.
use crate::files::{ASSIGNED, ASSIGNED_HISTORY, OTHER_BYTE, files_of, shelf_of, text_of, words_of};
use dejavu_cli::{Status8, dejavu};
use dv_outside::{FailingShelf, FailingSink, MemorySink, OpenGate};
use std::alloc::Global;
use std::process::Abort;
use std::test::Fail;
use std::thread::Threads;

/// The files that the words name.
const FILES: &[(&str, &str)] = &[
    ("empty", "int main(void) { }"),
    ("one", "dejavu suite 1\ntest E 9 -\n"),
    ("old", ASSIGNED),
    ("new", OTHER_BYTE),
    ("history", ASSIGNED_HISTORY),
];

/// What `record` writes of the first two.
const EMPTY_HISTORY: &str =
    "dejavu history 3\nsource 24243bfac9f6afa167d0b0fe14c3ac8b5b4e34d974861164ca11dfab4601216b\nedges 3\ntests 1\ntest E\nbudget 9\ninput -\nstatus exit 0\nturns 5\noutput -\ncrossed 07\nend 04369fb62ca113b872f362f482ef8eb348e2de27dcd9acf452f498304eecfa46\n";

/// What `select` writes of the others.
const SELECTION: &str = "left A\nrun B edge 5\nselected 1 of 2\n";

/// The answer and the text of a command whose shelf fails at one call.
fn answer_with_fault<R: Threads + Sync>(
    rt: &R,
    alloc: Global,
    words: &str,
    call: u32,
) -> Result<(Status8, String), Fail> {
    let words = words_of(alloc, words)?;
    let mut shelf = FailingShelf::new(alloc, files_of(alloc, FILES)?, [call].to_vec(alloc)?);
    let mut out = MemorySink::new(alloc, 1000, 7)?;
    let status = dejavu(rt, alloc, &words, &mut shelf, &mut out, &OpenGate);
    Ok((status, text_of(alloc, out.bytes())?))
}

/// That command has this answer and this text.
fn fault_agrees<R: Threads + Abort + Sync>(
    rt: &R,
    alloc: Global,
    words: &str,
    call: u32,
    (status, text): (Status8, &str),
) -> Result<(), Fail> {
    let (got, told) = answer_with_fault(rt, alloc, words, call)?;
    assert!(rt;
        got == status && told.as_str() == text,
        "{words} gave {got:?} and {told}"
    );
    Ok(())
}

const RECORD: &str = "record empty one";

/// A selection of one test of two.
const SELECT: &str = "select old new history";

/// Words, how many files they name, and the text where no call fails.
const FILES_OF: &[(&str, u32, &str)] = &[(RECORD, 2, EMPTY_HISTORY), (SELECT, 3, SELECTION)];

#[test]
fn a_fault_at_any_of_the_files_is_a_read_fault(rt: HostRuntime) -> Result<(), Fail> {
    for &(words, files, text) in FILES_OF {
        for call in 1..=files {
            let fault = (Status8::ReadFault, "refused: read fault\n");
            fault_agrees(&rt, rt.alloc(), words, call, fault)?;
        }
        let done = (Status8::Done, text);
        fault_agrees(&rt, rt.alloc(), words, files.wrapping_add(1), done)?;
    }
    Ok(())
}

/// The answer and the text of a command whose output takes 4 bytes at a call and fails at one.
fn answer_cut<R: Threads + Sync>(
    rt: &R,
    alloc: Global,
    words: &str,
    call: u32,
) -> Result<(Status8, String), Fail> {
    let words = words_of(alloc, words)?;
    let mut shelf = shelf_of(alloc, files_of(alloc, FILES)?)?;
    let mut out = FailingSink::new(alloc, 1000, 4, call)?;
    let status = dejavu(rt, alloc, &words, &mut shelf, &mut out, &OpenGate);
    Ok((status, text_of(alloc, out.bytes())?))
}

/// The answer of that command is a fault, and this beginning of the text was taken before.
fn cut_agrees<R: Threads + Abort + Sync>(
    rt: &R,
    alloc: Global,
    words: &str,
    call: u32,
    beginning: &str,
) -> Result<(), Fail> {
    let (status, told) = answer_cut(rt, alloc, words, call)?;
    assert!(rt;
        status == Status8::WriteFault && told.as_str() == beginning,
        "{words} gave {status:?} and {told}"
    );
    Ok(())
}

/// Words, how many calls take the text of their command, and the text. The history has 240 bytes, and the selection 36.
const CALLS: &[(&str, usize, &str)] = &[(RECORD, 60, EMPTY_HISTORY), (SELECT, 9, SELECTION)];

#[test]
fn a_fault_of_the_output_at_any_call_leaves_a_beginning_of_the_text(
    rt: HostRuntime,
) -> Result<(), Fail> {
    for &(words, calls, text) in CALLS {
        let mut call: u32 = 0;
        for before in 0..calls {
            call = call.wrapping_add(1);
            let beginning = text.get(..before.wrapping_mul(4)).ok_or("no such place")?;
            cut_agrees(&rt, rt.alloc(), words, call, beginning)?;
        }
    }
    Ok(())
}

/// Words, the call that fails, and what was taken before.
const BEGINNINGS: &[(&str, u32, &str)] = &[(SELECT, 3, "left A\nr"), ("", 2, "refu")];

#[test]
fn a_fault_of_the_output_leaves_a_beginning_of_the_text_or_the_line(
    rt: HostRuntime,
) -> Result<(), Fail> {
    for &(words, call, beginning) in BEGINNINGS {
        cut_agrees(&rt, rt.alloc(), words, call, beginning)?;
    }
    Ok(())
}
