//! Reading a history.
ghost use Rattle.std.specs.Prelude.{◌≡◌, ◌≤◌, ◌<◌, ◌+◌, ◌*◌, ◌++◌, ◌∷◌, [], length, map, codes, All, AllPairs, ◌≢◌, IfOk, IfErr, MatchBool, MatchResult, Contains, drop};
ghost use Rattle.std.specs.List.{flat_map};
ghost use Rattle.hex.specs.Hex.{encode_lower, IsBytes};
ghost use Rattle.sha2.specs.Sha256.{sha256};
ghost use Rattle.line_text.specs.Lines.{text_of_lines};
ghost use Rattle.test_suite.specs.Suites.{most_tests};
ghost use Rattle.test_suite.specs.Tests.{IsWithin};
ghost use Rattle.test_history.specs.Causes.{HasHistoryCause, HasNoCause, IsOnlyCause, SaysHistory};
ghost use Rattle.test_history.specs.Faults.{IsGoodEntry, IsHead, IsEntryFault, IsResultsFault, IsEndFault, IsRestRefusal, IsRefusalOf, refusal_after as refusal_after_lem};
ghost use Rattle.line_text.specs.Values.{IsDigest, value_line};
ghost use Rattle.test_history.specs.Histories.{HistoryParts, IsReadable, names_of};
ghost use Rattle.test_history.specs.HistoryTexts.{history_text, history_text_2, versioned_text, text_before_end, version_line, entry_lines, most_history_bytes};

use crate::crossed::read_crossed;
use crate::digest::digest_of;
use crate::entry::Entry;
use crate::error::HistoryError;
use crate::fault::Fault;
use crate::history::History;
use crate::values::{read_name, read_status};
use crate::version::Version;
use csub_text::Text;
use indexmap::IndexSet;
use line_text::{read_bytes_line, read_digest_line, read_number_line};
use std::alloc::{AllocError, Global};
use test_suite::Test;

const MOST_BYTES: usize = 134_217_728;

const MOST_VERSION: u64 = 999_999_999;

const MOST_EDGES: u64 = 10_000;

const MOST_TESTS: u64 = 8_192;

const MOST_BUDGET: u64 = 10_000_000;

const MOST_INPUT: usize = 16_384;

const MOST_OUTPUT: usize = 16_384;

/// Reads a history of the source `old`, whose program has `edges` edges, in version 3: exactly the texts
/// that `write_history` writes of one, as that history. Every other text is refused with the first cause
/// that holds, in the order of `HistoryError`'s variants and by the rules H1 to H14 of `specs/Rules.antt`;
/// want of memory may come at any text. It goes over the text once, and once more to take its digest.
pub fn read_history(
    alloc: Global,
    bytes: &[u8],
    old: &[u8],
    edges: u32,
) -> Result<History, HistoryError>
    ensures history { IfOk result (λ history. bytes.now ≡ history_text history) }
    ensures within { IfOk result IsReadable }
    ensures digest { IfOk result (λ history. history.digest ≡ sha256 old.now) }
    ensures edges { IfOk result (λ history. history.edges ≡ edges) }
    ensures cause { IfErr result (HasHistoryCause Version.Third bytes.now old.now edges) }
    // each refusal comes exactly where it has a cause
    ensures exact { MatchResult result (λ history. HasNoCause Version.Third bytes.now old.now edges)
        (IsOnlyCause Version.Third bytes.now old.now edges) }
    // what can be read is read back
    ensures back { (history : HistoryParts) → IsReadable history → bytes.now ≡ history_text history
        → length bytes.now ≤ most_history_bytes → history.digest ≡ sha256 old.now → history.edges ≡ edges
        → MatchResult result (λ found. found ≡ history) (λ error. error ≡ HistoryError.Memory) }
{
    read_text(alloc, Version::Third, bytes, old, edges)
}

/// Reads a history in version 2 of the format, as `read_history` does in version 3: exactly the texts that
/// `history_text_2` of `specs/HistoryTexts.antt` gives, and with the same refusals by that version's rules.
pub fn read_history_2(
    alloc: Global,
    bytes: &[u8],
    old: &[u8],
    edges: u32,
) -> Result<History, HistoryError>
    ensures history { IfOk result (λ history. bytes.now ≡ history_text_2 history) }
    ensures within { IfOk result IsReadable }
    ensures digest { IfOk result (λ history. history.digest ≡ sha256 old.now) }
    ensures edges { IfOk result (λ history. history.edges ≡ edges) }
    ensures cause { IfErr result (HasHistoryCause Version.Second bytes.now old.now edges) }
    // each refusal comes exactly where it has a cause
    ensures exact { MatchResult result (λ history. HasNoCause Version.Second bytes.now old.now edges)
        (IsOnlyCause Version.Second bytes.now old.now edges) }
    // what can be read is read back
    ensures back { (history : HistoryParts) → IsReadable history → bytes.now ≡ history_text_2 history
        → length bytes.now ≤ most_history_bytes → history.digest ≡ sha256 old.now → history.edges ≡ edges
        → MatchResult result (λ found. found ≡ history) (λ error. error ≡ HistoryError.Memory) }
{
    read_text(alloc, Version::Second, bytes, old, edges)
}

// Reads a history in a version of the format.
fn read_text(
    alloc: Global,
    version: Version,
    bytes: &[u8],
    old: &[u8],
    edges: u32,
) -> Result<History, HistoryError>
    ensures history { IfOk result (λ history. bytes.now ≡ versioned_text version history) }
    ensures within { IfOk result IsReadable }
    ensures digest { IfOk result (λ history. history.digest ≡ sha256 old.now) }
    ensures edges { IfOk result (λ history. history.edges ≡ edges) }
    ensures cause { IfErr result (HasHistoryCause version bytes.now old.now edges) }
    // each refusal comes exactly where it has a cause
    ensures exact { MatchResult result (λ history. HasNoCause version bytes.now old.now edges)
        (IsOnlyCause version bytes.now old.now edges) }
    // what can be read is read back
    ensures back { (history : HistoryParts) → IsReadable history → bytes.now ≡ versioned_text version history
        → length bytes.now ≤ most_history_bytes → history.digest ≡ sha256 old.now → history.edges ≡ edges
        → MatchResult result (λ found. found ≡ history) (λ error. error ≡ HistoryError.Memory) }
{
    if bytes.len() > MOST_BYTES {
        return Err(HistoryError::TooLong(bytes.len()));
    }
    let told = read_lines(alloc, version, bytes)?;
    let sum = digest_of(told.before_end);
    if told.sum != sum {
        return Err(HistoryError::Sum(told.sum, sum));
    }
    let digest = digest_of(old);
    if *told.history.digest() != digest {
        return Err(HistoryError::Foreign(*told.history.digest(), digest));
    }
    if told.history.edges() != edges {
        return Err(HistoryError::EdgeCount(told.history.edges(), edges));
    }
    Ok(told.history)
}

// What the lines of a text say: a history, and the digest on the line `end`.
#[derive(Drop)]
struct Told<'a> {
    history: History,
    sum: [u8; 32],
    // All that stands before the line `end`.
    before_end: &'a [u8],
}

// What the lines of a text say, if none breaks a rule.
fn read_lines(alloc: Global, version: Version, bytes: &[u8]) -> Result<Told<'_>, HistoryError>
    ensures says { IfOk result (λ told. SaysHistory version bytes.now told.history told.sum) }
    ensures before { IfOk result (λ told. told.before_end.now ≡ text_before_end version told.history) }
    ensures refusal { IfErr result (IsRefusalOf version bytes.now) }
{
    let head = read_head(version, bytes)?;
    let (entries, rest) = read_entries(alloc, version, head.rest, head.edges, head.tests)?;
    match read_end(rest) {
        Ok(sum) => Ok(Told {
            history: History::new(head.digest, head.edges, entries),
            sum,
            before_end: &bytes[..bytes.len() - rest.len()],
        }),
        Err(fault) => Err(refusal_after(4 + 7 * head.tests, fault)),
    }
}

// What the four lines before the entries say, and what follows them.
#[derive(Clone, Copy)]
struct Head<'a> {
    digest: [u8; 32],
    edges: u32,
    tests: u32,
    rest: &'a [u8],
}

fn read_head(version: Version, bytes: &[u8]) -> Result<Head<'_>, HistoryError>
    ensures head { IfOk result (λ head. IsHead version bytes.now head.digest head.edges head.tests head.rest.now) }
    ensures refusal { IfErr result (IsRefusalOf version bytes.now) }
{
    let rest = read_version(version, bytes)?;
    let Some(source) = read_digest_line(rest, b"source") else {
        return Err(HistoryError::Malformed(2, 2));
    };
    let Some((edges, rest)) = read_number_line(source.rest, b"edges", MOST_EDGES) else {
        return Err(HistoryError::Malformed(3, 3));
    };
    let Some((tests, rest)) = read_number_line(rest, b"tests", MOST_TESTS) else {
        return Err(HistoryError::Malformed(4, 4));
    };
    let digest = source.digest;
    Ok(Head {
        digest,
        edges: edges as u32,
        tests: tests as u32,
        rest,
    })
}

// What follows line 1, which says the version.
fn read_version(version: Version, bytes: &[u8]) -> Result<&[u8], HistoryError>
    ensures rest { IfOk result (λ rest. bytes.now ≡ version_line version ++ 10 ∷ rest.now) }
    ensures refusal { IfErr result (IsRefusalOf version bytes.now) }
{
    let Some((number, rest)) = read_number_line(bytes, b"dejavu history", MOST_VERSION) else {
        return Err(HistoryError::Malformed(1, 1));
    };
    if number == version.number() {
        Ok(rest)
    } else {
        Err(HistoryError::Version(number as u32))
    }
}

// The entries of so many tests, and what follows them.
fn read_entries<'a>(
    alloc: Global,
    version: Version,
    text: &'a [u8],
    edges: u32,
    tests: u32,
) -> Result<(Vec<Entry>, &'a [u8]), HistoryError>
    requires { tests ≤ most_tests }
    ensures rest { IfOk result (λ read. text.now ≡ text_of_lines (flat_map (entry_lines version) read.0.items) ++ read.1.now) }
    ensures good { IfOk result (λ read. All (IsGoodEntry edges) read.0.items) }
    ensures apart { IfOk result (λ read. AllPairs (λ name other. name ≢ other) (names_of read.0.items)) }
    ensures count { IfOk result (λ read. length read.0.items ≡ tests) }
    ensures refusal { IfErr result (IsRestRefusal version text.now edges tests) }
{
    let mut rest = text;
    let mut names: IndexSet<&[u8]> = IndexSet::new(alloc);
    let mut entries = Vec::new(alloc);
    for place in 0..tests {
        match read_entry(alloc, version, rest, edges, &mut names) {
            Ok((entry, left)) => {
                let Ok(()) = entries.push(entry) else {
                    return Err(HistoryError::Memory);
                };
                rest = left;
            }
            Err(fault) => return Err(refusal_after(4 + 7 * place, fault)),
        }
    }
    Ok((entries, rest))
}

// The refusal of a text of which so many lines are read.
fn refusal_after(lines: u32, fault: Fault) -> HistoryError
    requires { lines ≤ 65536 }
    ensures { result ≡ refusal_after_lem lines fault }
{
    match fault {
        Fault::Broken(line, rule) => HistoryError::Malformed(lines + u32::from(line), rule),
        Fault::Memory => HistoryError::Memory,
    }
}

// The entry that a text begins with, and what follows it. Its name is added to those of earlier entries.
fn read_entry<'a>(
    alloc: Global,
    version: Version,
    text: &'a [u8],
    edges: u32,
    names: &mut IndexSet<&'a [u8]>,
) -> Result<(Entry, &'a [u8]), Fault>
    ensures rest { IfOk result (λ read. text.now ≡ text_of_lines (entry_lines version read.0) ++ read.1.now) }
    ensures good { IfOk result (λ read. IsGoodEntry edges read.0) }
    ensures new { IfOk result (λ read. ¬ Contains (map (λ name. name.now) names.old.keys) read.0.test.name) }
    ensures names { IfOk result (λ read.
        map (λ name. name.now) names.new.keys ≡ map (λ name. name.now) names.old.keys ++ read.0.test.name ∷ []) }
    ensures fault { IfErr result (IsEntryFault version text.now edges (map (λ name. name.now) names.old.keys)) }
{
    let Some(name) = read_name(text) else {
        return Err(Fault::Broken(1, 5));
    };
    if !is_new(names, name.bytes)? {
        return Err(Fault::Broken(1, 6));
    }
    let Some((budget, rest)) = read_number_line(name.rest, b"budget", MOST_BUDGET) else {
        return Err(Fault::Broken(2, 7));
    };
    let Some((input, rest)) = read_bytes_line(alloc, rest, b"input", MOST_INPUT)? else {
        return Err(Fault::Broken(3, 8));
    };
    let test = Test::new(Text::new(alloc, name.bytes)?, budget as u32, input);
    read_results(alloc, version, test, rest, edges)
}

// Adds a name. False where it was there.
fn is_new<'a>(names: &mut IndexSet<&'a [u8]>, name: &'a [u8]) -> Result<bool, AllocError>
    ensures { IfOk result (λ new. MatchBool new
        ((¬ Contains (map (λ name. name.now) names.old.keys) name.now)
        × (map (λ name. name.now) names.new.keys ≡ map (λ name. name.now) names.old.keys ++ name.now ∷ []))
        (Contains (map (λ name. name.now) names.old.keys) name.now)) }
{
    let is_new = names.insert(name)?;
    Ok(is_new)
}

// The entry of a test, of which the text has the results.
fn read_results<'a>(
    alloc: Global,
    version: Version,
    test: Test,
    text: &'a [u8],
    edges: u32,
) -> Result<(Entry, &'a [u8]), Fault>
    requires within { IsWithin test }
    requires bytes { IsBytes test.input }
    ensures rest { IfOk result (λ read. text.now ≡ text_of_lines (drop 3 (entry_lines version read.0)) ++ read.1.now) }
    ensures good { IfOk result (λ read. IsGoodEntry edges read.0) }
    ensures test { IfOk result (λ read. read.0.test ≡ test) }
    ensures fault { IfErr result (IsResultsFault version text.now edges test.budget) }
{
    let Some((status, rest)) = read_status(text) else {
        return Err(Fault::Broken(4, 9));
    };
    let Some((turns, rest)) = read_number_line(rest, b"turns", u64::from(test.budget())) else {
        return Err(Fault::Broken(5, 10));
    };
    let Some((output, rest)) = read_bytes_line(alloc, rest, b"output", MOST_OUTPUT)? else {
        return Err(Fault::Broken(6, 11));
    };
    let Some((crossed, rest)) = read_crossed(alloc, version, rest, edges)? else {
        return Err(Fault::Broken(7, 12));
    };
    let entry = Entry::new(test, status, turns as u32, output, crossed);
    Ok((entry, rest))
}

// The digest on the line `end`, which is the last.
fn read_end(text: &[u8]) -> Result<[u8; 32], Fault>
    ensures digest { IfOk result IsDigest }
    ensures line { IfOk result (λ sum. text.now ≡ value_line (codes "end") (encode_lower sum) ++ 10 ∷ []) }
    ensures fault { IfErr result (IsEndFault text.now) }
{
    let Some(end) = read_digest_line(text, b"end") else {
        return Err(Fault::Broken(1, 13));
    };
    if end.rest.is_empty() {
        let sum = end.digest;
        Ok(sum)
    } else {
        Err(Fault::Broken(2, 14))
    }
}
