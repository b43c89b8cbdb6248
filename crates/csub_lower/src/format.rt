//! The pieces of a format (C11 7.21.6.1).
ghost use Rattle.std.specs.Prelude.{◌≡◌, ◌++◌, ◌∷◌, ℕ, List, IfOk, map};
ghost use Rattle.csub_tree.specs.Expressions.{expr_tree, exprs_of};
ghost use Rattle.csub_rules.specs.Formats.{literal_of};
ghost use Rattle.csub_resolution.specs.Printed.{conversion_piece, format_of, literal_pieces, pieces};
ghost use Rattle.csub_lower.specs.Formats.{pieces_behind};

use csub_semantics::Piece;
use csub_tree::{Expr, ExprKind};
use std::alloc::{AllocError, Global};

/// How far a format was read: up to a byte that stands for itself or opens a conversion; up to the byte of a conversion
/// that a `%` opened; or to its end, a byte 0.
#[derive(Clone, Copy)]
enum Reading {
    Plain,
    Opened,
    Ended,
}

/// What the byte behind a `%` stands for.
fn conversion_piece(byte: u8) -> Piece
    ensures { result ≡ conversion_piece byte }
{
    match byte {
        b'd' => Piece::Signed,
        b'u' => Piece::Plain,
        b'c' => Piece::Letter,
        _ => Piece::Byte(byte),
    }
}

/// One byte more of a format, whose pieces are appended.
fn read_byte(read: &mut Vec<Piece>, reading: Reading, byte: u8) -> Result<Reading, AllocError>
    ensures { IfOk result (λ next. (rest : List ℕ) → read.new.items ++ pieces_behind next rest ≡ read.old.items ++ pieces_behind reading (byte ∷ rest)) }
{
    match reading {
        Reading::Plain => {
            if byte == 0 {
                Ok(Reading::Ended)
            } else if byte == b'%' {
                Ok(Reading::Opened)
            } else {
                read.push(Piece::Byte(byte))?;
                Ok(Reading::Plain)
            }
        }
        Reading::Opened => {
            read.push(conversion_piece(byte))?;
            Ok(Reading::Plain)
        }
        Reading::Ended => Ok(Reading::Ended),
    }
}

/// The pieces of a format. An `Err` is want of memory.
fn pieces(alloc: Global, bytes: &[u8]) -> Result<Vec<Piece>, AllocError>
    ensures { IfOk result (λ read. read.items ≡ pieces bytes.now) }
{
    let mut read = Vec::new(alloc);
    let mut reading = Reading::Plain;
    for byte in bytes {
        reading = read_byte(&mut read, reading, *byte)?;
    }
    Ok(read)
}

/// The pieces of the string that an expression is, in parentheses or not. An `Err` is want of memory.
fn literal_pieces(alloc: Global, e: &Expr) -> Result<Vec<Piece>, AllocError>
    ensures { IfOk result (λ read. read.items ≡ literal_pieces (literal_of (expr_tree e.now))) }
{
    match &e.kind {
        ExprKind::Text(text) => pieces(alloc, text.bytes()),
        ExprKind::Paren(inner) => literal_pieces(alloc, inner),
        _ => Ok(Vec::new(alloc)),
    }
}

/// The pieces of the format that the first argument of a `printf` is. An `Err` is want of memory.
pub(crate) fn format_of(alloc: Global, args: &[Expr]) -> Result<Vec<Piece>, AllocError>
    ensures { IfOk result (λ read. read.items ≡ format_of (exprs_of (map expr_tree args.now))) }
{
    match args.first() {
        None => Ok(Vec::new(alloc)),
        Some(first) => literal_pieces(alloc, first),
    }
}
