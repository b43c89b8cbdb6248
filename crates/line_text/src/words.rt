//! The words of a line.
ghost use Rattle.std.specs.Prelude.{◌≡◌, ◌≢◌, ◌++◌, ◌∷◌, [], MatchOption, IfSome, All};
ghost use Rattle.line_text.specs.Words.{pieces, StartsWithNoWord};

use memchr::memchr;

/// The first word of a line, and what follows the space after it.
#[derive(Clone, Copy)]
pub struct Word<'a> {
    /// The word: one byte or more, and no space among them.
    pub bytes: &'a [u8],
    /// What follows the one space after the word, or `None` where the line ends with the word.
    pub rest: Option<&'a [u8]>,
}

/// Cuts the first word off a line. `None` where the line does not begin with a word: it is empty or
/// begins with a space. An empty piece between two spaces, or after the last, is no word.
pub fn cut_word(line: &[u8]) -> Option<Word<'_>>
    // the pieces of the line are the word and the pieces of the rest
    ensures pieces { MatchOption result (StartsWithNoWord line.now)
        (λ word. MatchOption word.rest (pieces line.now ≡ word.bytes.now ∷ [])
        (λ rest. pieces line.now ≡ word.bytes.now ∷ pieces rest.now)) }
    // the same of the bytes
    ensures cut { IfSome result (λ word. MatchOption word.rest (line.now ≡ word.bytes.now)
        (λ rest. line.now ≡ word.bytes.now ++ 32 ∷ rest.now)) }
    ensures word { IfSome result (λ word. (word.bytes.now ≢ []) × All (λ byte. byte ≢ 32) word.bytes.now) }
{
    match memchr(b' ', line) {
        Some(0) => None,
        Some(place) => Some(Word {
            bytes: &line[..place],
            rest: Some(&line[place + 1..]),
        }),
        None if line.is_empty() => None,
        None => Some(Word {
            bytes: line,
            rest: None,
        }),
    }
}
