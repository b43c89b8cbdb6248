//! The lines of an edge and of a pair, read off the front of a text.
ghost use Rattle.std.specs.Prelude.{◌≡◌, ◌≢◌, ◌≤◌, ◌<◌, ◌++◌, ◌∷◌, [], ℕ, MatchOption, IsTrue, ◌↔◌};
ghost use Rattle.std.specs.Fmt.{decimal};
ghost use Rattle.line_text.specs.Words.{line_of_words};
ghost use Rattle.cert_text.specs.declared.pair.Pair.{Pair};
ghost use Rattle.cert_text.specs.Certificates.{IsAfter, IsBefore, IsBelow};
ghost use Rattle.cert_text.specs.CertificateTexts.{edge_line, pair_line};
ghost use Rattle.line_text.specs.Lines.{HasLine};

use crate::bounds::Bounds;
use crate::pair::Pair;
use crate::values::read_number;
use line_text::{cut_value, cut_word, read_decimal};

/// Reads the line of an edge below `edges`, which comes after the last one that was read.
pub fn read_edge(text: &[u8], last: Option<u32>, edges: u32) -> Option<(u32, &[u8])>
    ensures { MatchOption result
        ((edge : ℕ) → edge < edges → IsAfter (λ a b. a < b) last edge → ¬ HasLine text.now 1 (edge_line edge))
        (λ read. (read.0 < edges) × IsAfter (λ a b. a < b) last read.0 × (text.now ≡ edge_line read.0 ++ 10 ∷ read.1.now)) }
{
    let (edge, rest) = read_number(text, b"edge", edges.checked_sub(1)?)?;
    if is_after(last, edge) {
        Some((edge, rest))
    } else {
        None
    }
}

// Whether a number is above the last one, if there is any.
fn is_after(last: Option<u32>, number: u32) -> bool
    ensures { IsTrue result ↔ IsAfter (λ a b. a < b) last number }
{
    match last {
        Some(last) => last < number,
        None => true,
    }
}

/// Reads the line of a pair of points below the bounds, which comes after the last one that was read.
pub fn read_pair(text: &[u8], last: Option<Pair>, bounds: Bounds) -> Option<(Pair, &[u8])>
    requires { bounds.edges ≤ 10000 }
    ensures { MatchOption result
        ((pair : Pair) → IsBelow bounds pair → IsAfter IsBefore last pair → ¬ HasLine text.now 1 (pair_line pair))
        (λ read. IsBelow bounds read.0 × IsAfter IsBefore last read.0 × (text.now ≡ pair_line read.0 ++ 10 ∷ read.1.now)) }
{
    let value = cut_value(text, b"pair")?;
    let pair = pair_of(value.bytes, bounds)?;
    if rises(last, pair) {
        Some((pair, value.rest))
    } else {
        None
    }
}

// The pair of two words.
fn pair_of(words: &[u8], bounds: Bounds) -> Option<Pair>
    ensures { MatchOption result
        ((pair : Pair) → IsBelow bounds pair → words.now ≢ line_of_words (decimal pair.old ∷ decimal pair.new ∷ []))
        (λ pair. IsBelow bounds pair × (words.now ≡ line_of_words (decimal pair.old ∷ decimal pair.new ∷ []))) }
{
    let word = cut_word(words)?;
    let old = point_of(word.bytes, bounds.old_points)?;
    let new = point_of(word.rest?, bounds.new_points)?;
    Some(Pair { old, new })
}

// The number of a point, of which there are so many.
fn point_of(word: &[u8], points: u32) -> Option<u32>
    ensures { MatchOption result
        ((point : ℕ) → point < points → word.now ≢ decimal point)
        (λ point. (point < points) × (word.now ≡ decimal point)) }
{
    let point = read_decimal(word, u64::from(points.checked_sub(1)?))?;
    Some(point as u32)
}

// Whether a pair comes after the last one, if there is any.
fn rises(last: Option<Pair>, pair: Pair) -> bool
    ensures { IsTrue result ↔ IsAfter IsBefore last pair }
{
    match last {
        Some(last) => last.old < pair.old || (last.old == pair.old && last.new < pair.new),
        None => true,
    }
}
