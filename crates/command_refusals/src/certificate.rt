//! Why a text is no certificate of two sources, as it is told.
ghost use Rattle.std.specs.Prelude.{◌≡◌, ◌++◌, OnOk};
ghost use Rattle.command_refusals.specs.Causes.{certificate_cause, certificate_text};

use crate::words::{push_digests, push_rule};
use cert_text::CertificateError;
use std::alloc::AllocError;

/// Why a text is no certificate of two sources.
#[derive(Clone, Copy, Debug, PartialEq, Eq)]
pub enum CertificateCause {
    /// It has more than 134,217,728 bytes.
    TooLong,
    /// A line, counted from 1, breaks a rule.
    Line(u32, u8),
    /// The digest at its end, and the other one of what stands before.
    Sum([u8; 32], [u8; 32]),
    /// The digest of the old source that it tells, and the other one of the old source at hand.
    Old([u8; 32], [u8; 32]),
    /// The digest of the new source that it tells, and the other one of the new source at hand.
    New([u8; 32], [u8; 32]),
}

/// What is told of an error of a certificate; nothing of want of memory.
pub fn certificate_cause(error: CertificateError) -> Option<CertificateCause>
    ensures { result ≡ certificate_cause error }
{
    match error {
        CertificateError::TooLong(_) => Some(CertificateCause::TooLong),
        CertificateError::Malformed(line, rule) => Some(CertificateCause::Line(line, rule)),
        CertificateError::Sum(found, computed) => Some(CertificateCause::Sum(found, computed)),
        CertificateError::Old(found, computed) => Some(CertificateCause::Old(found, computed)),
        CertificateError::New(found, computed) => Some(CertificateCause::New(found, computed)),
        CertificateError::Memory => None,
    }
}

/// Appends what is told of a certificate.
pub(crate) fn push_certificate(
    line: &mut Vec<u8>,
    cause: CertificateCause,
) -> Result<(), AllocError>
    ensures { OnOk result (line.new.items ≡ line.old.items ++ certificate_text cause) }
{
    match cause {
        CertificateCause::TooLong => line.extend_from_slice(b" too long"),
        CertificateCause::Line(place, rule) => push_rule(line, place, b"C", rule),
        CertificateCause::Sum(found, computed) => push_digests(line, b" sum ", &found, &computed),
        CertificateCause::Old(found, computed) => push_digests(line, b" old ", &found, &computed),
        CertificateCause::New(found, computed) => push_digests(line, b" new ", &found, &computed),
    }
}
