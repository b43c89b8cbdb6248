//! What a certificate claims.
ghost use Rattle.std.specs.Prelude.{◌≡◌, length};

use crate::pair::Pair;
use edge_trace::EdgeRow;
use std::marker::Model;

/// The digests of two sources, the edges of the old program at which the versions may part, and the pairs of points that
/// both versions may reach together. Contracts see the four parts, the digests and the pairs as lists and the edges as the
/// value of their row.
#[derive(Drop)]
pub struct Certificate {
    old: [u8; 32],
    new: [u8; 32],
    danger: EdgeRow,
    pairs: Vec<Pair>,
}

impl Model for Certificate {
    ghost use Rattle.cert_text.specs.Certificates.{CertificateParts, IsKept};

    ghost Value = { CertificateParts };

    ghost view = { λ certificate. record {
      old = certificate.old;
      new = certificate.new;
      danger = certificate.danger;
      pairs = certificate.pairs.items;
    } };

    ghost invariant = { λ certificate. IsKept certificate.old certificate.new };
}

impl Certificate {
    /// The certificate of these four parts.
    pub fn new(old: [u8; 32], new: [u8; 32], danger: EdgeRow, pairs: Vec<Pair>) -> Certificate
        ensures { result ≡ record { old = old; new = new; danger = danger; pairs = pairs.items } }
    {
        Certificate {
            old,
            new,
            danger,
            pairs,
        }
    }

    /// The SHA-256 digest of the old source.
    pub fn old_digest(&self) -> &[u8; 32]
        ensures value { result.now ≡ self.now.old }
        ensures size { length self.now.old ≡ 32 }
    {
        &self.old
    }

    /// The SHA-256 digest of the new source.
    pub fn new_digest(&self) -> &[u8; 32]
        ensures value { result.now ≡ self.now.new }
        ensures size { length self.now.new ≡ 32 }
    {
        &self.new
    }

    /// The edges of the old program at which the versions may part.
    pub fn danger(&self) -> &EdgeRow
        ensures { result.now ≡ self.now.danger }
    {
        &self.danger
    }

    /// The pairs of points that are claimed.
    pub fn pairs(&self) -> &[Pair]
        ensures { result.now ≡ self.now.pairs }
    {
        self.pairs.as_slice()
    }
}
