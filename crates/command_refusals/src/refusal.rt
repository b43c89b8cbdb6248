//! Refusals and their lines.
ghost use Rattle.std.specs.Prelude.{◌≡◌, ◌++◌, IfOk, OnOk};
ghost use Rattle.command_refusals.specs.Refusals.{product_word, refusal_line, role_word, told};

use crate::certificate::{CertificateCause, push_certificate};
use crate::history::{HistoryCause, push_history};
use crate::source::{SourceCause, push_source};
use crate::suite::{SuiteCause, push_suite};
use csub_text::Text;
use line_text::push_decimal;
use std::alloc::{AllocError, Global};

/// What a source is to the command that names it.
#[derive(Clone, Copy, Debug, PartialEq, Eq)]
pub enum Role {
    /// The source of `record`.
    Source,
    /// The version on which the tests were recorded, or from which a walk begins.
    Old,
    /// The changed version.
    New,
}

/// What a command makes that may have too many bytes.
#[derive(Clone, Copy, Debug, PartialEq, Eq)]
pub enum Product {
    /// The history of `record`, `migrate` and `carry`.
    History,
    /// The certificate of `certify`.
    Certificate,
}

/// Why a command isn't done.
#[derive(Drop)]
pub enum Refusal {
    /// The words are no command.
    Usage,
    /// The source in this role isn't accepted.
    Source(Role, SourceCause),
    /// The suite's text is none.
    Suite(SuiteCause),
    /// The history's text is none of the source.
    History(HistoryCause),
    /// The certificate's text is none of the two sources.
    Certificate(CertificateCause),
    /// The history has no test of this name.
    NoTest(Text),
    /// A file could not be read.
    ReadFault,
    /// Want of memory.
    Memory,
    /// What the command makes would have so many bytes, more than the 134,217,728 that it may have.
    TooMuch(Product, u64),
}

impl From<AllocError> for Refusal {
    ghost use Rattle.std.specs.Prelude.{◌≡◌};
    ghost use Rattle.command_refusals.specs.declared.refusal.Refusal.TheVariants.{Memory};

    ghost from_gives = { λ _ refusal. refusal ≡ Memory };

    fn from(_error: AllocError) -> Refusal {
        Refusal::Memory
    }
}

/// The line for want of memory, which is there without memory.
pub const MEMORY_LINE: &[u8] = b"refused: memory\n";

fn role_word(role: Role) -> &'static [u8]
    ensures { result.now ≡ role_word role }
{
    match role {
        Role::Source => b"source",
        Role::Old => b"old",
        Role::New => b"new",
    }
}

fn product_word(product: Product) -> &'static [u8]
    ensures { result.now ≡ product_word product }
{
    match product {
        Product::History => b"history",
        Product::Certificate => b"certificate",
    }
}

/// Appends what stands between `refused: ` and the end of the line.
fn push_told(line: &mut Vec<u8>, refusal: &Refusal) -> Result<(), AllocError>
    ensures { OnOk result (line.new.items ≡ line.old.items ++ told refusal.now) }
{
    match refusal {
        Refusal::Usage => line.extend_from_slice(b"usage"),
        Refusal::Source(role, cause) => {
            line.extend_from_slice(role_word(*role))?;
            push_source(line, *cause)
        }
        Refusal::Suite(cause) => {
            line.extend_from_slice(b"suite")?;
            push_suite(line, *cause)
        }
        Refusal::History(cause) => {
            line.extend_from_slice(b"history")?;
            push_history(line, *cause)
        }
        Refusal::Certificate(cause) => {
            line.extend_from_slice(b"certificate")?;
            push_certificate(line, *cause)
        }
        Refusal::NoTest(name) => {
            line.extend_from_slice(b"history no test ")?;
            line.extend_from_slice(name.bytes())
        }
        Refusal::ReadFault => line.extend_from_slice(b"read fault"),
        Refusal::Memory => line.extend_from_slice(b"memory"),
        Refusal::TooMuch(product, bytes) => {
            line.extend_from_slice(product_word(*product))?;
            line.extend_from_slice(b" too much ")?;
            push_decimal(line, *bytes)
        }
    }
}

/// The line of a refusal, ended by its newline. An `Err` is want of memory; the line for that is [`MEMORY_LINE`].
pub fn refusal_text(alloc: Global, refusal: &Refusal) -> Result<Vec<u8>, AllocError>
    ensures { IfOk result (λ line. line.items ≡ refusal_line refusal.now) }
{
    let mut line = b"refused: ".to_vec(alloc)?;
    push_told(&mut line, refusal)?;
    line.push(b'\n')?;
    Ok(line)
}
