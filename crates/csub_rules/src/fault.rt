//! Broken rules, and the earlier of two.
ghost use Rattle.std.specs.Prelude.{◌≡◌};
ghost use Rattle.csub_rules.specs.Faults.{fault_if, ◌or_earlier◌};

use csub_text::Span;

/// A rule that is broken at a place.
#[derive(Clone, Copy, Debug, PartialEq, Eq)]
pub struct Fault {
    /// The number of the rule, from 1 to 20.
    pub rule: u8,
    /// Where it is broken.
    pub span: Span,
}

/// The fault, where the rule is broken.
pub fn fault_if(broken: bool, rule: u8, span: Span) -> Option<Fault>
    ensures { result ≡ fault_if broken rule span }
{
    if broken {
        Some(Fault { rule, span })
    } else {
        None
    }
}

/// The fault of two that stands first in the source; of two at one place, that of the lesser rule.
pub fn earlier(first: Option<Fault>, second: Option<Fault>) -> Option<Fault>
    ensures { result ≡ first or_earlier second }
{
    match first {
        None => second,
        Some(f) => match second {
            None => Some(f),
            Some(g) => {
                let same = g.span.start == f.span.start;
                if g.span.start < f.span.start || (same && g.rule < f.rule) {
                    Some(g)
                } else {
                    Some(f)
                }
            }
        },
    }
}
