//! The word that a statement begins with.
ghost use Rattle.std.specs.Prelude.{◌≡◌};
ghost use Rattle.csub_rules.specs.Words.{first_bytes};

use csub_text::Span;

/// The first bytes of what stands at a place, as many as `count` where it has so many.
pub fn first_bytes(count: u32, span: Span) -> Span
    ensures { result ≡ first_bytes count span }
{
    Span {
        start: span.start,
        end: span.start.saturating_add(count).min(span.end),
    }
}
