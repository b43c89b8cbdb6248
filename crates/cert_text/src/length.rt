//! How long the text of a certificate is, found without writing it.
ghost use Rattle.std.specs.Prelude.{◌≡◌, ◌≤◌, length, map};
ghost use Rattle.line_text.specs.Lines.{text_of_lines};
ghost use Rattle.cert_text.specs.Certificates.{IsWithin, most_pairs};
ghost use Rattle.edge_trace.specs.Rows.{numbers_of};
ghost use Rattle.cert_text.specs.CertificateTexts.{certificate_text, edge_line, pair_line};

use crate::certificate::Certificate;
use crate::pair::Pair;
use edge_trace::EdgeRow;
use line_text::decimal_length;

// `dejavu certificate 1`, `old`, `new`, `dangerous`, `pairs` and `end`, with what stands between words and lines.
const FRAME_BYTES: u64 = 21 + 5 + 5 + 11 + 7 + 5;

// The digits of the sum.
const SUM_BYTES: u64 = 64;

/// The number of bytes of a certificate's text.
pub fn text_length(certificate: &Certificate) -> u64
    requires { IsWithin certificate.now }
    ensures { result ≡ length (certificate_text certificate.now) }
{
    let pairs = certificate.pairs();
    FRAME_BYTES
        + SUM_BYTES
        + 2 * certificate.old_digest().len() as u64
        + 2 * certificate.new_digest().len() as u64
        + decimal_length(u64::from(certificate.danger().count()))
        + edges_length(certificate.danger())
        + decimal_length(pairs.len() as u64)
        + pairs_length(pairs)
}

// The lines of the edges in a row.
fn edges_length(row: &EdgeRow) -> u64
    ensures exact { result ≡ length (text_of_lines (map edge_line (numbers_of row.now))) }
    ensures small { result ≤ 200000000000 }
{
    let mut length = 0;
    for edge in 0..row.edges() {
        if row.has(edge) {
            length += 6 + decimal_length(u64::from(edge));
        }
    }
    length
}

// The lines of pairs.
fn pairs_length(pairs: &[Pair]) -> u64
    requires { length pairs.now ≤ most_pairs }
    ensures exact { result ≡ length (text_of_lines (map pair_line pairs.now)) }
    ensures small { result ≤ 6000000000 }
{
    let mut length = 0;
    for pair in pairs {
        length += 7 + decimal_length(u64::from(pair.old)) + decimal_length(u64::from(pair.new));
    }
    length
}
