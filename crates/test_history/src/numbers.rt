//! The crossed edges by their numbers, as version 2 has them.
ghost use Rattle.std.specs.Prelude.{◌≡◌, ◌≢◌, ◌<◌, ◌^◌, List, Bool, length, map, IfOk, MatchBool, MatchOption, replicate, false};
ghost use Rattle.std.specs.Fmt.{decimal};
ghost use Rattle.line_text.specs.Words.{line_of_words, pieces};
ghost use Rattle.edge_trace.specs.Rows.{numbers_of};
ghost use Rattle.test_history.specs.HistoryTexts.{words_or_dash};

use edge_trace::EdgeRow;
use line_text::{cut_word, read_decimal};
use std::alloc::{AllocError, Global};

const MOST_NUMBER: u64 = 0xffff_ffff;

/// The row of the numbers that the words say: rising ones below `edges`, or none where there is a `-`
/// alone.
pub fn row_of_numbers(
    alloc: Global,
    words: &[u8],
    edges: u32,
) -> Result<Option<EdgeRow>, AllocError>
    ensures { IfOk result (λ found. MatchOption found
        ((row : List Bool) → length row ≡ edges → words.now ≢ line_of_words (words_or_dash (numbers_of row)))
        (λ row. (length row ≡ edges) × (words.now ≡ line_of_words (words_or_dash (numbers_of row))))) }
{
    let mut row = EdgeRow::new(alloc, edges)?;
    if words == b"-".as_slice() {
        return Ok(Some(row));
    }
    if set_numbers(&mut row, words) {
        Ok(Some(row))
    } else {
        Ok(None)
    }
}

// Adds the numbers of the words to an empty row. False where a word is no number, or not a greater one
// than that before it, or not one below the row's bound.
fn set_numbers(row: &mut EdgeRow, words: &[u8]) -> bool
    requires empty { row.old ≡ replicate (length row.old) false }
    requires bound { length row.old < 2 ^ 32 }
    ensures edges { length row.new ≡ length row.old }
    ensures numbers { MatchBool result
        (pieces words.now ≡ map decimal (numbers_of row.new))
        ((other : List Bool) → length other ≡ length row.old → pieces words.now ≢ map decimal (numbers_of other)) }
{
    let mut rest = words;
    let mut least = 0; // the next number must not be less
    loop {
        let Some(word) = cut_word(rest) else {
            return false;
        };
        let Some(number) = read_decimal(word.bytes, MOST_NUMBER) else {
            return false;
        };
        let number = number as u32;
        if number < least || number >= row.edges() {
            return false;
        }
        row.set(number);
        match word.rest {
            None => return true,
            Some(more) => rest = more,
        }
        least = number + 1;
    }
}
