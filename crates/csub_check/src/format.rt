//! Strings, and what `printf` asks of its first argument (C11 7.21.6.1).
ghost use Rattle.std.specs.Prelude.{◌≡◌, ◌+◌, ◌<◌, ◌≤◌, ℕ, List, ◌∷◌, [], map, option_map};
ghost use Rattle.csub_tree.specs.Expressions.{expr_tree, exprs_of};
ghost use Rattle.csub_rules.specs.ExprFaults.{format_fault};
ghost use Rattle.csub_rules.specs.Formats.{asks_for, conversions, is_conversion, is_literal, literal_of};
ghost use Rattle.csub_check.specs.Arguments.{first_format};
ghost use Rattle.csub_check.specs.Scans.{asked, held};
ghost use Rattle.csub_check.specs.Seen.{the_literal};

use csub_rules::{Fault, fault_if};
use csub_text::Span;
use csub_tree::{Expr, ExprKind};

/// A string with its place.
#[derive(Clone, Copy)]
pub(crate) struct Literal<'e> {
    bytes: &'e [u8],
    span: Span,
}

/// The string that an expression is, in parentheses or not.
pub(crate) fn literal_of<'e>(e: &'e Expr) -> Option<Literal<'e>>
    ensures { option_map the_literal result ≡ literal_of (expr_tree e.now) }
{
    match &e.kind {
        ExprKind::Text(text) => Some(Literal {
            bytes: text.bytes(),
            span: e.span,
        }),
        ExprKind::Paren(inner) => literal_of(inner),
        _ => None,
    }
}

/// Whether an expression is a string.
pub(crate) fn is_literal(e: &Expr) -> bool
    ensures { result ≡ is_literal (expr_tree e.now) }
{
    literal_of(e).is_some()
}

/// How far a format was read: how many conversions it has so far, and whether a `%` opens the next one; or its end was
/// passed, a byte 0; or a conversion was none.
#[derive(Clone, Copy)]
enum Scan {
    Plain(usize),
    Opened(usize),
    Ended(usize),
    Wrong,
}

/// Whether a byte is `d`, `u` or `c`.
fn is_conversion(byte: u8) -> bool
    ensures { result ≡ is_conversion byte }
{
    byte == b'd' || byte == b'u' || byte == b'c'
}

/// One byte more of a format.
fn scan_byte(scan: Scan, byte: u8) -> Scan
    requires { held scan < 18446744073709551615 }
    ensures asked { (rest : List ℕ) → asked result rest ≡ asked scan (byte ∷ rest) }
    ensures held { held result ≤ held scan + 1 }
{
    match scan {
        Scan::Plain(n) => {
            if byte == 0 {
                Scan::Ended(n)
            } else if byte == b'%' {
                Scan::Opened(n)
            } else {
                Scan::Plain(n)
            }
        }
        Scan::Opened(n) => {
            if is_conversion(byte) {
                Scan::Plain(n + 1)
            } else if byte == b'%' {
                Scan::Plain(n)
            } else {
                Scan::Wrong
            }
        }
        Scan::Ended(n) => Scan::Ended(n),
        Scan::Wrong => Scan::Wrong,
    }
}

/// How many arguments a format asks for that was read whole.
fn scan_end(scan: Scan) -> Option<usize>
    ensures { result ≡ asked scan [] }
{
    match scan {
        Scan::Plain(n) => Some(n),
        Scan::Opened(_) => None,
        Scan::Ended(n) => Some(n),
        Scan::Wrong => None,
    }
}

/// How many arguments a format asks for.
fn conversions(bytes: &[u8]) -> Option<usize>
    ensures { result ≡ conversions bytes.now }
{
    let mut scan = Scan::Plain(0);
    for byte in bytes {
        scan = scan_byte(scan, *byte);
    }
    scan_end(scan)
}

/// Whether a string is a format that asks for the arguments behind it.
fn asks_for(literal: Literal, rest: &[Expr]) -> bool
    ensures { result ≡ asks_for (the_literal literal.entry) (exprs_of (map expr_tree rest.now)) }
{
    match conversions(literal.bytes) {
        None => false,
        Some(count) => count == rest.len(),
    }
}

/// Whether the first argument of `printf` is a format that asks for the others.
pub(crate) fn first_format(args: &[Expr]) -> bool
    ensures { result ≡ first_format (exprs_of (map expr_tree args.now)) }
{
    match args.split_first() {
        None => false,
        Some((first, rest)) => match literal_of(first) {
            None => false,
            Some(literal) => asks_for(literal, rest),
        },
    }
}

/// M20 of a call of `printf` at a place.
pub(crate) fn format_fault(at: Span, args: &[Expr]) -> Option<Fault>
    ensures { result ≡ format_fault at (exprs_of (map expr_tree args.now)) }
{
    match args.split_first() {
        None => fault_if(true, 20, at),
        Some((first, rest)) => match literal_of(first) {
            None => fault_if(true, 20, at),
            Some(literal) => fault_if(!asks_for(literal, rest), 20, literal.span),
        },
    }
}
