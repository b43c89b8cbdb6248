//! Reading a certificate.
ghost use Rattle.std.specs.Prelude.{◌≡◌, ◌≤◌, ◌+◌, ◌++◌, ◌∷◌, [], length, codes, All, IfOk, IfErr, MatchResult};
ghost use Rattle.hex.specs.Hex.{encode_lower};
ghost use Rattle.sha2.specs.Sha256.{sha256};
ghost use Rattle.line_text.specs.Lines.{text_of_lines};
ghost use Rattle.cert_text.specs.Causes.{HasCause, HasNoCause, IsOnlyCause, IsTextOf, SaysCertificate};
ghost use Rattle.cert_text.specs.Certificates.{CertificateParts, IsBelow, Rise, most_pairs};
ghost use Rattle.edge_trace.specs.Rows.{numbers_of};
ghost use Rattle.cert_text.specs.CertificateTexts.{title, danger_lines, pairs_lines, text_before_end, end_line, most_certificate_bytes};
ghost use Rattle.cert_text.specs.Faults.{IsRefusalOf, IsEdgesRefusal, IsPairsRefusal, IsEndRefusal};
ghost use Rattle.line_text.specs.Values.{IsDigest, value_line};

use crate::bounds::Bounds;
use crate::certificate::Certificate;
use crate::error::CertificateError;
use crate::items::{read_edge, read_pair};
use crate::pair::Pair;
use crate::values::{read_number, read_title};
use edge_trace::EdgeRow;
use line_text::read_digest_line;
use sha2::{Digest, Sha256};
use std::alloc::Global;

const MOST_BYTES: usize = 134_217_728;

const MOST_PAIRS: u32 = 100_000_000;

/// Reads a certificate of the sources `old` and `new`, whose programs have so many edges and points: exactly the texts that
/// `write_certificate` writes of one within these bounds, as that certificate. Every other text is refused with the first
/// cause that holds, in the order of `CertificateError`'s variants and by the rules C1 to C9 of `specs/Rules.antt`; want of
/// memory may come at any text. It goes over the text once, and once more to take its digest.
pub fn read_text(
    alloc: Global,
    bytes: &[u8],
    old: &[u8],
    new: &[u8],
    bounds: Bounds,
) -> Result<Certificate, CertificateError>
    requires { bounds.edges ≤ 10000 }
    ensures certificate { IfOk result (IsTextOf bounds bytes.now) }
    ensures old { IfOk result (λ certificate. certificate.old ≡ sha256 old.now) }
    ensures new { IfOk result (λ certificate. certificate.new ≡ sha256 new.now) }
    ensures cause { IfErr result (HasCause bounds bytes.now old.now new.now) }
    // each refusal comes exactly where it has a cause
    ensures exact { MatchResult result (λ certificate. HasNoCause bounds bytes.now old.now new.now)
        (IsOnlyCause bounds bytes.now old.now new.now) }
    // what can be read is read back
    ensures back { (certificate : CertificateParts) → IsTextOf bounds bytes.now certificate
        → length bytes.now ≤ most_certificate_bytes → certificate.old ≡ sha256 old.now → certificate.new ≡ sha256 new.now
        → MatchResult result (λ found. found ≡ certificate) (λ error. error ≡ CertificateError.Memory) }
{
    if bytes.len() > MOST_BYTES {
        return Err(CertificateError::TooLong(bytes.len()));
    }
    let told = read_lines(alloc, bytes, bounds)?;
    let sum = Sha256::digest(told.before_end);
    if told.sum != sum {
        return Err(CertificateError::Sum(told.sum, sum));
    }
    let old_digest = Sha256::digest(old);
    if *told.certificate.old_digest() != old_digest {
        return Err(CertificateError::Old(*told.certificate.old_digest(), old_digest));
    }
    let new_digest = Sha256::digest(new);
    if *told.certificate.new_digest() != new_digest {
        return Err(CertificateError::New(*told.certificate.new_digest(), new_digest));
    }
    Ok(told.certificate)
}

// What the lines of a text say: a certificate, and the digest on the line `end`.
#[derive(Drop)]
struct Told<'a> {
    certificate: Certificate,
    sum: [u8; 32],
    // All that stands before the line `end`.
    before_end: &'a [u8],
}

// What the lines of a text say, if none breaks the rule of its place.
fn read_lines(alloc: Global, bytes: &[u8], bounds: Bounds) -> Result<Told<'_>, CertificateError>
    requires { bounds.edges ≤ 10000 }
    ensures says { IfOk result (λ told. SaysCertificate bounds bytes.now told.certificate told.sum) }
    ensures before { IfOk result (λ told. told.before_end.now ≡ text_before_end told.certificate) }
    ensures refusal { IfErr result (IsRefusalOf bounds bytes.now) }
{
    let head = read_head(bytes, bounds)?;
    let danger = read_danger(alloc, head.rest, bounds)?;
    let pairs = read_pairs(alloc, danger.rest, danger.count, bounds)?;
    let lines = 5 + danger.count + pairs.pairs.len() as u32;
    let sum = read_end(pairs.rest, lines, bounds)?;
    Ok(Told {
        certificate: Certificate::new(head.old, head.new, danger.row, pairs.pairs),
        sum,
        before_end: &bytes[..bytes.len() - pairs.rest.len()],
    })
}

// What the first three lines say, and what follows them.
#[derive(Clone, Copy)]
struct Head<'a> {
    old: [u8; 32],
    new: [u8; 32],
    rest: &'a [u8],
}

fn read_head(bytes: &[u8], bounds: Bounds) -> Result<Head<'_>, CertificateError>
    ensures digests { IfOk result (λ head. IsDigest head.old × IsDigest head.new) }
    ensures lines { IfOk result (λ head. bytes.now ≡ text_of_lines (title ∷ value_line (codes "old") (encode_lower head.old)
        ∷ value_line (codes "new") (encode_lower head.new) ∷ []) ++ head.rest.now) }
    ensures refusal { IfErr result (IsRefusalOf bounds bytes.now) }
{
    let Some(rest) = read_title(bytes) else {
        return Err(CertificateError::Malformed(1, 1));
    };
    let Some(old) = read_digest_line(rest, b"old") else {
        return Err(CertificateError::Malformed(2, 2));
    };
    let Some(new) = read_digest_line(old.rest, b"new") else {
        return Err(CertificateError::Malformed(3, 3));
    };
    Ok(Head {
        old: old.digest,
        new: new.digest,
        rest: new.rest,
    })
}

// The edges of a text, how many they are, and what follows them.
#[derive(Drop)]
struct Danger<'a> {
    row: EdgeRow,
    count: u32,
    rest: &'a [u8],
}

fn read_danger(alloc: Global, text: &[u8], bounds: Bounds) -> Result<Danger<'_>, CertificateError>
    requires { bounds.edges ≤ 10000 }
    ensures edges { IfOk result (λ danger. length danger.row ≡ bounds.edges) }
    ensures count { IfOk result (λ danger. (danger.count ≡ length (numbers_of danger.row)) × (danger.count ≤ bounds.edges)) }
    ensures lines { IfOk result (λ danger. text.now ≡ text_of_lines (danger_lines danger.row) ++ danger.rest.now) }
    ensures refusal { IfErr result (IsEdgesRefusal bounds text.now) }
{
    let Some((count, mut rest)) = read_number(text, b"dangerous", bounds.edges) else {
        return Err(CertificateError::Malformed(4, 4));
    };
    let mut row = EdgeRow::new(alloc, bounds.edges)?;
    let mut last = None;
    for place in 0..count {
        let Some((edge, left)) = read_edge(rest, last, bounds.edges) else {
            return Err(CertificateError::Malformed(5 + place, 5));
        };
        row.set(edge);
        last = Some(edge);
        rest = left;
    }
    Ok(Danger { row, count, rest })
}

// The pairs of a text, and what follows them.
#[derive(Drop)]
struct Pairs<'a> {
    pairs: Vec<Pair>,
    rest: &'a [u8],
}

fn read_pairs(
    alloc: Global,
    text: &[u8],
    edges: u32,
    bounds: Bounds,
) -> Result<Pairs<'_>, CertificateError>
    requires edges { bounds.edges ≤ 10000 }
    requires count { edges ≤ bounds.edges }
    ensures few { IfOk result (λ read. length read.pairs.items ≤ most_pairs) }
    ensures below { IfOk result (λ read. All (IsBelow bounds) read.pairs.items) }
    ensures rise { IfOk result (λ read. Rise read.pairs.items) }
    ensures lines { IfOk result (λ read. text.now ≡ text_of_lines (pairs_lines read.pairs.items) ++ read.rest.now) }
    ensures refusal { IfErr result (IsPairsRefusal bounds edges text.now) }
{
    let Some((count, mut rest)) = read_number(text, b"pairs", MOST_PAIRS) else {
        return Err(CertificateError::Malformed(5 + edges, 6));
    };
    let mut pairs = Vec::new(alloc);
    let mut last = None;
    for place in 0..count {
        let Some((pair, left)) = read_pair(rest, last, bounds) else {
            return Err(CertificateError::Malformed(6 + edges + place, 7));
        };
        let Ok(()) = pairs.push(pair) else {
            return Err(CertificateError::Memory);
        };
        last = Some(pair);
        rest = left;
    }
    Ok(Pairs { pairs, rest })
}

// The digest on the line `end`, which is the last, after so many lines.
fn read_end(text: &[u8], lines: u32, bounds: Bounds) -> Result<[u8; 32], CertificateError>
    requires lines { lines ≤ 200000000 }
    requires edges { bounds.edges ≤ 10000 }
    ensures digest { IfOk result IsDigest }
    ensures line { IfOk result (λ sum. text.now ≡ end_line sum ++ 10 ∷ []) }
    ensures refusal { IfErr result (IsEndRefusal bounds lines text.now) }
{
    let Some(end) = read_digest_line(text, b"end") else {
        return Err(CertificateError::Malformed(lines + 1, 8));
    };
    if end.rest.is_empty() {
        Ok(end.digest)
    } else {
        Err(CertificateError::Malformed(lines + 2, 9))
    }
}
