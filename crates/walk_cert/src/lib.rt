//! Checking the claim of a walk of two versions of a program, whoever made it.
//!
//! What is promised: [`check`] says of a certificate whether its claim is closed, and else names the first break
//! (`specs/Claims.antt` has the claim by names, `specs/Verdicts.antt` what each answer says). What a closed claim is good for
//! stands in the contract of [`laws::closed_claim`]: a run of the old program that crosses no edge of the claim has the same
//! output, status and number of turns on the new one. [`read_certificate`] reads the certificate of two graphs by the rules
//! of `cert_text`, and [`certificate_of`] gives the certificate of a walk (`specs/Made.antt`), whose claim is closed.
#![tactic(auto)]

mod alike;
pub mod answer;
mod checking;
mod exits;
pub mod laws;
mod make;
mod read;
mod search;

pub use answer::Verdict;
pub use cert_text::{Certificate, CertificateError, CertificateTextError, Pair, write_certificate};
pub use checking::check;
pub use make::certificate_of;
pub use read::read_certificate;
