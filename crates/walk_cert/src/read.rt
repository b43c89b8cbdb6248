//! Reading the certificate of two graphs.
ghost use Rattle.std.specs.Prelude.{◌≡◌, ◌≤◌, length, IfOk, IfErr, MatchResult};
ghost use Rattle.sha2.specs.Sha256.{sha256};
ghost use Rattle.cert_text.specs.Causes.{HasCause, HasNoCause, IsOnlyCause, IsTextOf};
ghost use Rattle.cert_text.specs.Certificates.{CertificateParts};
ghost use Rattle.cert_text.specs.CertificateTexts.{most_certificate_bytes};
ghost use Rattle.walk_cert.specs.Claims.{bounds_of};

use cert_text::{Bounds, Certificate, CertificateError, read_text};
use flow_graph::Graph;
use std::alloc::Global;

/// Reads a certificate of the sources `old_source` and `new_source`, whose graphs are `old` and `new`, as
/// `cert_text::read_text` does: exactly the texts that `write_certificate` writes of one whose row has a number for each
/// edge of the old graph, and whose pairs rise and are points of the graphs.
pub fn read_certificate(
    alloc: Global,
    bytes: &[u8],
    old_source: &[u8],
    new_source: &[u8],
    old: &Graph,
    new: &Graph,
) -> Result<Certificate, CertificateError>
    ensures certificate { IfOk result (IsTextOf (bounds_of old.now new.now) bytes.now) }
    ensures old { IfOk result (λ certificate. certificate.old ≡ sha256 old_source.now) }
    ensures new { IfOk result (λ certificate. certificate.new ≡ sha256 new_source.now) }
    ensures cause { IfErr result (HasCause (bounds_of old.now new.now) bytes.now old_source.now new_source.now) }
    // each refusal comes exactly where it has a cause
    ensures exact { MatchResult result (λ certificate. HasNoCause (bounds_of old.now new.now) bytes.now old_source.now new_source.now)
        (IsOnlyCause (bounds_of old.now new.now) bytes.now old_source.now new_source.now) }
    // what can be read is read back
    ensures back { (certificate : CertificateParts) → IsTextOf (bounds_of old.now new.now) bytes.now certificate
        → length bytes.now ≤ most_certificate_bytes → certificate.old ≡ sha256 old_source.now → certificate.new ≡ sha256 new_source.now
        → MatchResult result (λ found. found ≡ certificate) (λ error. error ≡ CertificateError.Memory) }
{
    let bounds = Bounds {
        edges: old.edges(),
        old_points: old.points(),
        new_points: new.points(),
    };
    read_text(alloc, bytes, old_source, new_source, bounds)
}
