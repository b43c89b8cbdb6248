//! The lines of a text.
ghost use Rattle.std.specs.Prelude.{◌≡◌, ◌≢◌, ◌↔◌, ◌++◌, ◌∷◌, [], IsNone, IfSome, All, MatchBool};
ghost use Rattle.line_text.specs.Lines.{lines_of, line_with};

use memchr::memchr;

/// The first line of a text, and what follows it.
#[derive(Clone, Copy)]
pub struct Line<'a> {
    /// The line without its newline.
    pub bytes: &'a [u8],
    /// Whether a newline ends the line. Only the last line of a text can lack it.
    pub is_ended: bool,
    /// What follows the line and its newline.
    pub rest: &'a [u8],
}

/// Cuts the first line off a text. `None` exactly where the text is empty, and so has no line.
pub fn cut_line(text: &[u8]) -> Option<Line<'_>>
    ensures none { IsNone result ↔ (text.now ≡ []) }
    // the lines of the text are this one and those of the rest
    ensures lines { IfSome result (λ line.
        lines_of text.now ≡ line_with line.bytes.now line.is_ended ∷ lines_of line.rest.now) }
    // the same of the bytes
    ensures cut { IfSome result (λ line. MatchBool line.is_ended
        (text.now ≡ line.bytes.now ++ 10 ∷ line.rest.now)
        ((text.now ≡ line.bytes.now) × (line.rest.now ≡ []))) }
    ensures line { IfSome result (λ line. All (λ byte. byte ≢ 10) line.bytes.now) }
{
    if text.is_empty() {
        return None;
    }
    match memchr(b'\n', text) {
        None => Some(Line {
            bytes: text,
            is_ended: false,
            rest: &text[text.len()..],
        }),
        Some(place) => Some(Line {
            bytes: &text[..place],
            is_ended: true,
            rest: &text[place + 1..],
        }),
    }
}
