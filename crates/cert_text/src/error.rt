//! Why a certificate is not written, and why a text is not read.
use std::alloc::AllocError;
use thiserror::Error;

/// Why a certificate has no text, or that memory ran out.
#[derive(Clone, Copy, Debug, PartialEq, Eq, Error)]
pub enum CertificateTextError {
    /// The text would have more than 134,217,728 bytes: so many.
    #[error("{0} bytes are too many")]
    TooLong(u64),
    /// Memory ran out.
    #[error("out of memory")]
    Memory,
}

impl From<AllocError> for CertificateTextError {
    ghost use Rattle.std.specs.Prelude.{◌≡◌};
    ghost use Rattle.cert_text.specs.declared.error.CertificateTextError.TheVariants.{Memory};

    ghost from_gives = { λ _ error. error ≡ Memory };

    fn from(_error: AllocError) -> CertificateTextError {
        CertificateTextError::Memory
    }
}

/// Why a text is no certificate of two sources, or that memory ran out. Where several hold, the first is answered.
#[derive(Clone, Copy, Debug, PartialEq, Eq, Error)]
pub enum CertificateError {
    /// The text has more than 134,217,728 bytes: so many.
    #[error("{0} bytes are too many")]
    TooLong(usize),
    /// The first line that breaks the rule of its place, counted from 1, and that rule, 1 to 9.
    #[error("line {0} breaks rule C{1}")]
    Malformed(u32, u8),
    /// The digest on the line `end`, and the other one that the bytes before that line have.
    #[error("the sum is {0:?}, and that of the text {1:?}")]
    Sum([u8; 32], [u8; 32]),
    /// The digest of the old source that the certificate tells, and the other one of the old source at hand.
    #[error("the old source has the digest {0:?}, and this one {1:?}")]
    Old([u8; 32], [u8; 32]),
    /// The digest of the new source that the certificate tells, and the other one of the new source at hand.
    #[error("the new source has the digest {0:?}, and this one {1:?}")]
    New([u8; 32], [u8; 32]),
    /// Memory ran out.
    #[error("out of memory")]
    Memory,
}

impl From<AllocError> for CertificateError {
    ghost use Rattle.std.specs.Prelude.{◌≡◌};
    ghost use Rattle.cert_text.specs.declared.error.CertificateError.TheVariants.{Memory};

    ghost from_gives = { λ _ error. error ≡ Memory };

    fn from(_error: AllocError) -> CertificateError {
        CertificateError::Memory
    }
}
