//! Certificates: the claim of a walk of two versions of a program, and the text that hands it on.
//!
//! A certificate holds the SHA-256 digests of an old and a new source, the old program's edges at which the versions may
//! part, and the pairs of points that are claimed. `specs/CertificateTexts.antt` says which text that is. What is promised:
//!
//! - [`write_certificate`] gives exactly that text, or says how long it would be where it is too long for the format: its
//!   contract has both, and refuses for no other cause than memory.
//! - [`read_text`] gives the one certificate of which a text is the text, where it is of both sources at hand and its
//!   numbers are below the [`Bounds`] of their programs. It refuses every other text for the first cause in the order of
//!   [`CertificateError`], each exactly where it holds: `specs/Rules.antt` has the rules C1 to C9 of the lines, and
//!   `specs/Causes.antt` the causes. So what `write_certificate` writes is read back as it was.
//!
//! Whether a claim holds, the text doesn't say: that is for a checker above.
#![tactic(auto)]

mod bounds;
mod certificate;
mod error;
mod items;
mod length;
mod lines;
mod pair;
mod reader;
mod values;
mod writer;

pub use bounds::Bounds;
pub use certificate::Certificate;
pub use error::{CertificateError, CertificateTextError};
pub use pair::Pair;
pub use reader::read_text;
pub use writer::write_certificate;
