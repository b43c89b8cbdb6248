//! Whether a pair stands in a rising list.
ghost use Rattle.std.specs.Prelude.{◌≡◌, ◌↔◌, IsTrue};
ghost use Rattle.cert_text.specs.Certificates.{IsAfter, IsBefore, Rise};
ghost use Rattle.walk_cert.specs.Pairs.{HasPair};

use cert_text::Pair;

/// Whether a pair of numbers stands among pairs that rise, by a logarithm of their number.
pub fn has_pair(pairs: &[Pair], old: u32, new: u32) -> bool
    requires { Rise pairs.now }
    ensures { IsTrue result ↔ HasPair pairs.now old new }
{
    pairs
        .binary_search_by_key(&(old, new), |pair| (pair.old, pair.new))
        .is_ok()
}

// Whether a pair stands before another: by its old point, and then by its new one.
fn is_before(a: Pair, b: Pair) -> bool
    ensures { IsTrue result ↔ IsBefore a b }
{
    a.old < b.old || (a.old == b.old && a.new < b.new)
}

/// Whether a pair comes after the last one, if there is any.
pub fn comes_after(last: Option<Pair>, pair: Pair) -> bool
    ensures { IsTrue result ↔ IsAfter IsBefore last pair }
{
    match last {
        Some(last) => is_before(last, pair),
        None => true,
    }
}
