//! Files in memory, and the answer to words that name them.
use dejavu_cli::{Status8, dejavu};
use dv_outside::{Gate, MemoryShelf, MemorySink, names_differ};
use sample_sources::{CHANGED_LINE, LINE_BEFORE, WORD_COUNTER};
use std::alloc::{AllocError, Global};
use std::sync::atomic::{AtomicU64, Ordering};
use std::test::Fail;
use std::thread::Threads;

/// Files with their names.
pub type Files = Vec<(String, Vec<u8>)>;

/// A source of 9 edges, of which 5 is crossed by every test whose first byte isn't 65.
pub const ASSIGNED: &str =
    "int main(void) { int c; c = getchar(); if (c == 65) { putchar(66); } else { putchar(67); } return 0; }";

/// The same, but for what is written for another byte than 65.
pub const OTHER_BYTE: &str =
    "int main(void) { int c; c = getchar(); if (c == 65) { putchar(66); } else { putchar(68); } return 0; }";

/// The history of `ASSIGNED` and `TWO`, with digests and sum of `sha256sum`.
pub const ASSIGNED_HISTORY: &str =
    "dejavu history 3\nsource f3e7b98b7d4d95f021635d364627ee64e4acd311669841db52966ba816eaeb96\nedges 9\ntests 2\ntest A\nbudget 100\ninput 41\nstatus exit 0\nturns 9\noutput 42\ncrossed 5f01\ntest B\nbudget 100\ninput 42\nstatus exit 0\nturns 9\noutput 43\ncrossed af01\nend eac55876d49f0d1fe32a649b9e1751d299b9e79be91b030c71dd123e5014b43c\n";

/// A suite of a test that reads 65 and one that reads 66.
pub const TWO: &str = "dejavu suite 1\ntest A 100 41\ntest B 100 42\n";

/// A suite of the word counter.
pub const COUNTED: &str =
    "dejavu suite 1\ntest t01 10000 -\ntest t02 10000 61\ntest t03 10000 0a\ntest t04 10000 6120620a\ntest t05 10000 37\ntest t06 10000 6162206364\ntest t07 10000 31620a\ntest t08 10000 09\ntest t09 10000 68656c6c6f0a\ntest t10 10000 2020\ntest t11 10000 782034320a\ntest t12 10000 610a620a\n";

/// The words of a line, of which `''` is the empty one.
pub fn words_of(alloc: Global, line: &str) -> Result<Vec<String>, AllocError> {
    let mut words = Vec::new(alloc);
    if line.is_empty() {
        return Ok(words);
    }
    for word in line.split(' ') {
        let word = if word == "''" { "" } else { word };
        words.push(String::from_str(alloc, word)?)?;
    }
    Ok(words)
}

/// Files of these texts.
pub fn files_of(alloc: Global, texts: &[(&str, &str)]) -> Result<Files, AllocError> {
    let mut files = Vec::new(alloc);
    for (name, text) in texts {
        let content = text.as_bytes().to_vec(alloc)?;
        files.push((String::from_str(alloc, name)?, content))?;
    }
    Ok(files)
}

/// The same files once more.
pub fn copy_of(alloc: Global, files: &Files) -> Result<Files, AllocError> {
    let mut copy = Vec::new(alloc);
    for (name, content) in files {
        let content = content.as_slice().to_vec(alloc)?;
        copy.push((String::from_str(alloc, name.as_str())?, content))?;
    }
    Ok(copy)
}

/// A shelf of these files.
pub fn shelf_of(alloc: Global, files: Files) -> Result<MemoryShelf, Fail> {
    if names_differ(&files) {
        Ok(MemoryShelf::new(alloc, files))
    } else {
        Err("two files of one name")?
    }
}

/// The answer and the text for words that name these files, into an output that takes 7 bytes at a call. The workers pass
/// the gate.
pub fn answer_counted<R: Threads + Sync, G: Gate>(
    rt: &R,
    alloc: Global,
    files: &Files,
    words: &str,
    gate: &G,
) -> Result<(Status8, String), Fail> {
    let words = words_of(alloc, words)?;
    let mut shelf = shelf_of(alloc, copy_of(alloc, files)?)?;
    let mut out = MemorySink::new(alloc, 100_000, 7)?;
    let status = dejavu(rt, alloc, &words, &mut shelf, &mut out, gate);
    Ok((status, text_of(alloc, out.bytes())?))
}

/// The bytes of an output as a text.
pub fn text_of(alloc: Global, bytes: &[u8]) -> Result<String, Fail> {
    Ok(String::from_utf8(bytes.to_vec(alloc)?)?)
}

/// A gate that counts who passes.
#[derive(Drop)]
pub struct Counter {
    passed: AtomicU64,
}

impl Counter {
    /// Nobody has passed yet.
    pub fn new() -> Counter {
        Counter {
            passed: AtomicU64::new(0),
        }
    }

    /// How many have passed.
    pub fn count(&self) -> u64 {
        self.passed.load(Ordering::SeqCst)
    }
}

impl Gate for Counter {
    fn enter(&self, _test: usize) {
        self.passed.fetch_add(1, Ordering::SeqCst);
    }
}

/// The text of a command about these texts, which is done.
pub fn done<R: Threads + Sync>(
    rt: &R,
    alloc: Global,
    texts: &[(&str, &str)],
    words: &str,
) -> Result<String, Fail> {
    match answer_counted(rt, alloc, &files_of(alloc, texts)?, words, &Counter::new())? {
        (Status8::Done, text) => Ok(text),
        _ => Err("not done".into()),
    }
}

/// The history of a source and a suite as a text.
pub fn recorded<R: Threads + Sync>(
    rt: &R,
    alloc: Global,
    source: &str,
    suite: &str,
) -> Result<String, Fail> {
    let files = [("source", source), ("suite", suite)];
    done(rt, alloc, &files, "record source suite")
}

/// The next version of the word counter.
pub fn changed_counter(alloc: Global) -> Result<String, Fail> {
    let (before, behind) = WORD_COUNTER.split_once(LINE_BEFORE).ok_or("no such line")?;
    Ok(format!(in alloc; "{before}{LINE_BEFORE}{CHANGED_LINE}{behind}")?)
}
