//! Writing a certificate.
ghost use Rattle.std.specs.Prelude.{◌≡◌, ◌≤◌, ◌++◌, ◌∷◌, [], OnOk, IfOk, IfErr, vec_len};
ghost use Rattle.sha2.specs.Sha256.{sha256};
ghost use Rattle.line_text.specs.Lines.{text_of_lines};
ghost use Rattle.cert_text.specs.Causes.{HasTextCause};
ghost use Rattle.cert_text.specs.Certificates.{IsWithin};
ghost use Rattle.cert_text.specs.CertificateTexts.{certificate_text, first_lines, danger_lines, pairs_lines, end_line, most_certificate_bytes};

use crate::certificate::Certificate;
use crate::error::CertificateTextError;
use crate::length::text_length;
use crate::lines::push_pair_line;
use crate::pair::Pair;
use edge_trace::EdgeRow;
use line_text::{push_digest_line, push_number_line};
use sha2::{Digest, Sha256};
use std::alloc::{AllocError, Global};

const MOST_BYTES: u64 = 134_217_728;

/// The text of a certificate whose pairs rise and are at most 100,000,000. Its length is found before any memory is taken;
/// `TooLong` has it where the text would have more than 134,217,728 bytes.
pub fn write_certificate(
    alloc: Global,
    certificate: &Certificate,
) -> Result<Vec<u8>, CertificateTextError>
    requires { IsWithin certificate.now }
    ensures text { IfOk result (λ text. text.items ≡ certificate_text certificate.now) }
    ensures short { IfOk result (λ text. vec_len text ≤ most_certificate_bytes) }
    ensures cause { IfErr result (λ error. HasTextCause certificate.now error) }
{
    let length = text_length(certificate);
    if length > MOST_BYTES {
        return Err(CertificateTextError::TooLong(length));
    }
    let mut text = Vec::with_capacity(alloc, length as usize)?;
    push_first_lines(&mut text, certificate)?;
    push_danger(&mut text, certificate.danger())?;
    push_pairs(&mut text, certificate.pairs())?;
    push_end(&mut text)?;
    Ok(text)
}

fn push_first_lines(text: &mut Vec<u8>, certificate: &Certificate) -> Result<(), AllocError>
    ensures { OnOk result (text.new.items ≡ text.old.items ++ text_of_lines (first_lines certificate.now)) }
{
    text.extend_from_slice(b"dejavu certificate 1\n")?;
    push_digest_line(text, b"old", certificate.old_digest())?;
    push_digest_line(text, b"new", certificate.new_digest())?;
    Ok(())
}

fn push_danger(text: &mut Vec<u8>, row: &EdgeRow) -> Result<(), AllocError>
    ensures { OnOk result (text.new.items ≡ text.old.items ++ text_of_lines (danger_lines row.now)) }
{
    push_number_line(text, b"dangerous", u64::from(row.count()))?;
    for edge in 0..row.edges() {
        if row.has(edge) {
            push_number_line(text, b"edge", u64::from(edge))?;
        }
    }
    Ok(())
}

fn push_pairs(text: &mut Vec<u8>, pairs: &[Pair]) -> Result<(), AllocError>
    ensures { OnOk result (text.new.items ≡ text.old.items ++ text_of_lines (pairs_lines pairs.now)) }
{
    push_number_line(text, b"pairs", pairs.len() as u64)?;
    for pair in pairs {
        push_pair_line(text, *pair)?;
    }
    Ok(())
}

fn push_end(text: &mut Vec<u8>) -> Result<(), AllocError>
    ensures { OnOk result (text.new.items ≡ text.old.items ++ text_of_lines (end_line (sha256 text.old.items) ∷ [])) }
{
    let sum = Sha256::digest(text.as_slice());
    push_digest_line(text, b"end", &sum)
}
