//! Expressions of C with the values that the standard and this language's choices give them.
use csub_text::BinOp::{
    Add, BitAnd, BitOr, BitXor, Div, Eq, Ge, Gt, Le, Lt, Mul, Ne, Rem, Shl, Shr, Sub,
};
use csub_text::UnaryOp::{Flip, Minus, Not, Plus};
use csub_text::{BinOp, UnaryOp};
use csub_types::IntKind::{Char, Int, Unsigned};
use csub_types::{IntKind, Trap, binary, common, convert, promote, truth, unary};

/// A number and its kind.
type Operand = (IntKind, i64);

/// The least and the greatest `int`, one more than that, and the greatest `unsigned int`.
const LEAST: i64 = -2_147_483_648;

const MOST: i64 = 2_147_483_647;

const TOP: i64 = 2_147_483_648;

const ALL: i64 = 4_294_967_295;

/// What an operation without a value gives.
const OVERFLOW: Result<i64, Trap> = Err(Trap::Overflow);

const DIVIDE: Result<i64, Trap> = Err(Trap::Divide);

const SHIFT: Result<i64, Trap> = Err(Trap::Shift);

/// `left op right`, with the usual arithmetic conversions.
fn joined(left: Operand, op: BinOp, right: Operand) -> Result<i64, Trap> {
    let kind = common(left.0, right.0);
    binary(op, kind, convert(kind, left.1), convert(kind, right.1))
}

/// `left << count` or `left >> count`, where the kind of the count plays no part.
fn shifted(left: Operand, op: BinOp, count: i64) -> Result<i64, Trap> {
    let kind = promote(left.0);
    match op {
        Shl => binary(Shl, kind, convert(kind, left.1), count),
        _ => binary(Shr, kind, convert(kind, left.1), count),
    }
}

/// `op operand`, with the integer promotions.
fn prefixed(op: UnaryOp, operand: Operand) -> Result<i64, Trap> {
    let kind = promote(operand.0);
    unary(op, kind, convert(kind, operand.1))
}

#[test]
fn sums_and_products_wrap_for_unsigned_and_trap_for_int(rt: HostRuntime) {
    for &(left, op, right, want) in &[
        ((Int, MOST), Add, (Int, 0), Ok(MOST)),
        ((Int, MOST), Add, (Int, 1), OVERFLOW),
        ((Int, MOST - 1), Add, (Int, 1), Ok(MOST)),
        ((Int, LEAST), Add, (Int, -1), OVERFLOW),
        ((Int, LEAST), Add, (Int, MOST), Ok(-1)),
        ((Char, 127), Add, (Char, 127), Ok(254)),
        ((Unsigned, ALL), Add, (Unsigned, 1), Ok(0)),
        ((Unsigned, ALL), Add, (Unsigned, ALL), Ok(ALL - 1)),
        ((Int, -1), Add, (Unsigned, 0), Ok(ALL)),
        ((Unsigned, 1), Sub, (Unsigned, 2), Ok(ALL)),
        ((Unsigned, 0), Sub, (Unsigned, ALL), Ok(1)),
        ((Int, LEAST), Sub, (Int, 1), OVERFLOW),
        ((Int, LEAST + 1), Sub, (Int, 1), Ok(LEAST)),
        ((Int, MOST), Sub, (Int, -1), OVERFLOW),
        ((Int, -1), Sub, (Int, MOST), Ok(LEAST)),
        ((Int, 0), Sub, (Int, LEAST), OVERFLOW),
        ((Int, LEAST), Mul, (Int, -1), OVERFLOW),
        ((Int, LEAST), Mul, (Int, 1), Ok(LEAST)),
        ((Int, 46_340), Mul, (Int, 46_340), Ok(2_147_395_600)),
        ((Int, 46_341), Mul, (Int, 46_341), OVERFLOW),
        ((Int, 65_536), Mul, (Int, -32_768), Ok(LEAST)),
        ((Int, 65_536), Mul, (Int, 32_768), OVERFLOW),
        ((Char, -128), Mul, (Char, -128), Ok(16_384)),
        ((Unsigned, 65_536), Mul, (Unsigned, 65_536), Ok(0)),
        ((Unsigned, ALL), Mul, (Unsigned, ALL), Ok(1)),
        (
            (Unsigned, 3_037_000_500),
            Mul,
            (Unsigned, 3_037_000_500),
            Ok(145_474_192),
        ),
        ((Unsigned, ALL), Mul, (Int, -2), Ok(2)),
    ] {
        assert_eq!(rt; joined(left, op, right), want, "{left:?} {op:?} {right:?}");
    }
}

#[test]
fn quotients_are_cut_toward_0_and_remainders_fit_them(rt: HostRuntime) {
    for &(left, right, quotient, remainder) in &[
        ((Int, -7), (Int, 2), Ok(-3), Ok(-1)),
        ((Int, 7), (Int, -2), Ok(-3), Ok(1)),
        ((Int, -7), (Int, -2), Ok(3), Ok(-1)),
        ((Int, -1), (Int, 2), Ok(0), Ok(-1)),
        ((Int, 0), (Int, -5), Ok(0), Ok(0)),
        ((Int, 7), (Int, 0), DIVIDE, DIVIDE),
        ((Int, 0), (Int, 0), DIVIDE, DIVIDE),
        ((Int, LEAST), (Int, 0), DIVIDE, DIVIDE),
        ((Int, LEAST), (Int, -1), OVERFLOW, OVERFLOW),
        ((Int, LEAST + 1), (Int, -1), Ok(MOST), Ok(0)),
        ((Int, LEAST), (Int, 1), Ok(LEAST), Ok(0)),
        ((Int, LEAST), (Int, MOST), Ok(-1), Ok(-1)),
        ((Int, LEAST), (Int, LEAST), Ok(1), Ok(0)),
        ((Int, MOST), (Int, LEAST), Ok(0), Ok(MOST)),
        ((Char, -128), (Char, -1), Ok(128), Ok(0)),
        ((Unsigned, ALL), (Unsigned, 2), Ok(MOST), Ok(1)),
        ((Int, -7), (Unsigned, 2), Ok(2_147_483_644), Ok(1)),
        ((Unsigned, TOP), (Int, -1), Ok(0), Ok(TOP)),
        ((Unsigned, ALL), (Unsigned, ALL), Ok(1), Ok(0)),
        ((Unsigned, 7), (Int, 0), DIVIDE, DIVIDE),
    ] {
        assert_eq!(rt; joined(left, Div, right), quotient, "{left:?} / {right:?}");
        assert_eq!(rt; joined(left, Rem, right), remainder, "{left:?} % {right:?}");
    }
}

#[test]
fn shifts_trap_by_their_count_and_for_what_int_does_not_have(rt: HostRuntime) {
    for &(left, op, count, want) in &[
        ((Int, 1), Shl, -1, SHIFT),
        ((Int, 1), Shl, 0, Ok(1)),
        ((Int, 1), Shl, 30, Ok(1_073_741_824)),
        ((Int, 1), Shl, 31, SHIFT),
        ((Int, 1), Shl, 32, SHIFT),
        ((Int, 0), Shl, 31, Ok(0)),
        ((Int, 0), Shl, 32, SHIFT),
        ((Int, 1), Shl, ALL, SHIFT),
        ((Int, -1), Shl, 0, SHIFT),
        ((Int, LEAST), Shl, 1, SHIFT),
        ((Int, MOST), Shl, 0, Ok(MOST)),
        ((Int, 1_073_741_823), Shl, 1, Ok(MOST - 1)),
        ((Int, 1_073_741_824), Shl, 1, SHIFT),
        ((Int, 65_535), Shl, 15, Ok(2_147_450_880)),
        ((Char, 127), Shl, 24, Ok(2_130_706_432)),
        ((Char, -1), Shl, 1, SHIFT),
        ((Unsigned, 1), Shl, 31, Ok(TOP)),
        ((Unsigned, 3), Shl, 31, Ok(TOP)),
        ((Unsigned, ALL), Shl, 1, Ok(ALL - 1)),
        ((Unsigned, ALL), Shl, 31, Ok(TOP)),
        ((Unsigned, 1), Shl, 32, SHIFT),
        ((Unsigned, 1), Shl, -1, SHIFT),
        ((Int, -1), Shr, 1, Ok(-1)),
        ((Int, -1), Shr, 31, Ok(-1)),
        ((Int, -5), Shr, 0, Ok(-5)),
        ((Int, -5), Shr, 1, Ok(-3)),
        ((Int, LEAST), Shr, 1, Ok(-1_073_741_824)),
        ((Int, LEAST), Shr, 31, Ok(-1)),
        ((Int, MOST), Shr, 30, Ok(1)),
        ((Int, MOST), Shr, 31, Ok(0)),
        ((Int, 1), Shr, -1, SHIFT),
        ((Int, 1), Shr, 32, SHIFT),
        ((Char, -128), Shr, 7, Ok(-1)),
        ((Unsigned, ALL), Shr, 1, Ok(MOST)),
        ((Unsigned, ALL), Shr, 31, Ok(1)),
        ((Unsigned, ALL), Shr, 32, SHIFT),
    ] {
        assert_eq!(rt; shifted(left, op, count), want, "{left:?} {op:?} {count}");
    }
}

#[test]
fn comparisons_give_0_or_1_after_the_conversions(rt: HostRuntime) {
    for &(left, op, right, want) in &[
        ((Int, -1), Lt, (Unsigned, 1), false),
        ((Int, -1), Gt, (Unsigned, 1), true),
        ((Int, -1), Lt, (Int, 1), true),
        ((Int, 1), Lt, (Int, 1), false),
        ((Int, LEAST), Lt, (Int, MOST), true),
        ((Int, MOST), Lt, (Unsigned, TOP), true),
        ((Unsigned, 0), Lt, (Unsigned, 0), false),
        ((Unsigned, TOP), Gt, (Int, MOST), true),
        ((Int, 1), Gt, (Int, 1), false),
        ((Int, 1), Le, (Int, 1), true),
        ((Int, 2), Le, (Int, 1), false),
        ((Unsigned, 0), Le, (Unsigned, ALL), true),
        ((Int, LEAST), Le, (Unsigned, TOP), true),
        ((Int, 1), Ge, (Int, 2), false),
        ((Int, LEAST), Ge, (Unsigned, TOP), true),
        ((Unsigned, ALL), Ge, (Int, 0), true),
        ((Int, -1), Eq, (Unsigned, ALL), true),
        ((Char, -1), Eq, (Int, 255), false),
        ((Char, -1), Eq, (Unsigned, ALL), true),
        ((Int, LEAST), Ne, (Unsigned, TOP), false),
        ((Int, 0), Ne, (Int, 0), false),
        ((Int, 5), Ne, (Int, 4), true),
    ] {
        assert_eq!(rt;
            joined(left, op, right),
            Ok(truth(want)),
            "{left:?} {op:?} {right:?}"
        );
    }
    assert_eq!(rt; truth(true), 1);
    assert_eq!(rt; truth(false), 0);
}

#[test]
fn bitwise_operators_join_the_bits_of_the_twos_complement(rt: HostRuntime) {
    for &(left, op, right, want) in &[
        ((Int, 12), BitAnd, (Int, 10), 8),
        ((Int, 12), BitOr, (Int, 10), 14),
        ((Int, 12), BitXor, (Int, 10), 6),
        ((Int, -1), BitAnd, (Int, 255), 255),
        ((Int, -256), BitAnd, (Int, 255), 0),
        ((Int, -4), BitAnd, (Int, -6), -8),
        ((Int, -4), BitOr, (Int, -6), -2),
        ((Int, -4), BitXor, (Int, -6), 6),
        ((Int, LEAST), BitOr, (Int, 1), LEAST + 1),
        ((Int, LEAST), BitAnd, (Int, -1), LEAST),
        ((Int, LEAST), BitXor, (Int, -1), MOST),
        ((Int, -1), BitXor, (Int, MOST), LEAST),
        ((Char, -56), BitAnd, (Int, 255), 200),
        ((Int, -1), BitAnd, (Unsigned, ALL), ALL),
        ((Int, -1), BitOr, (Unsigned, 0), ALL),
        ((Int, -1), BitXor, (Unsigned, 1), ALL - 1),
        ((Unsigned, TOP), BitOr, (Int, MOST), ALL),
        ((Unsigned, TOP), BitXor, (Unsigned, ALL), MOST),
    ] {
        assert_eq!(rt;
            joined(left, op, right),
            Ok(want),
            "{left:?} {op:?} {right:?}"
        );
    }
}

#[test]
fn unary_operators_promote_and_trap_for_the_least_int_alone(rt: HostRuntime) {
    for &(op, operand, want) in &[
        (Plus, (Char, -128), Ok(-128)),
        (Plus, (Unsigned, ALL), Ok(ALL)),
        (Minus, (Int, 0), Ok(0)),
        (Minus, (Int, LEAST), Err(Trap::Overflow)),
        (Minus, (Int, LEAST + 1), Ok(MOST)),
        (Minus, (Int, MOST), Ok(LEAST + 1)),
        (Minus, (Char, -128), Ok(128)),
        (Minus, (Unsigned, 0), Ok(0)),
        (Minus, (Unsigned, 1), Ok(ALL)),
        (Minus, (Unsigned, TOP), Ok(TOP)),
        (Not, (Int, 0), Ok(1)),
        (Not, (Int, 5), Ok(0)),
        (Not, (Int, -1), Ok(0)),
        (Not, (Unsigned, 0), Ok(1)),
        (Not, (Unsigned, ALL), Ok(0)),
        (Flip, (Int, 0), Ok(-1)),
        (Flip, (Int, -1), Ok(0)),
        (Flip, (Int, 5), Ok(-6)),
        (Flip, (Int, MOST), Ok(LEAST)),
        (Flip, (Int, LEAST), Ok(MOST)),
        (Flip, (Char, -56), Ok(55)),
        (Flip, (Unsigned, 0), Ok(ALL)),
        (Flip, (Unsigned, ALL), Ok(0)),
    ] {
        assert_eq!(rt; prefixed(op, operand), want, "{op:?} {operand:?}");
    }
}

#[test]
fn conversions_keep_the_low_bits(rt: HostRuntime) {
    for &(kind, number, want) in &[
        (Char, 127, 127),
        (Char, 128, -128),
        (Char, 200, -56),
        (Char, 255, -1),
        (Char, 256, 0),
        (Char, -128, -128),
        (Char, -129, 127),
        (Char, ALL, -1),
        (Char, i64::MAX, -1),
        (Char, i64::MIN, 0),
        (Int, MOST, MOST),
        (Int, TOP, LEAST),
        (Int, TOP + 1, LEAST + 1),
        (Int, ALL, -1),
        (Int, ALL + 1, 0),
        (Int, LEAST, LEAST),
        (Int, LEAST - 1, MOST),
        (Int, i64::MAX, -1),
        (Int, i64::MIN, 0),
        (Unsigned, -1, ALL),
        (Unsigned, -56, 4_294_967_240),
        (Unsigned, LEAST, TOP),
        (Unsigned, ALL, ALL),
        (Unsigned, ALL + 1, 0),
        (Unsigned, -4_294_967_297, ALL),
        (Unsigned, i64::MAX, ALL),
        (Unsigned, i64::MIN, 0),
    ] {
        assert_eq!(rt; convert(kind, number), want, "{kind:?} {number}");
    }
}

#[test]
fn unsigned_wins_and_char_is_promoted(rt: HostRuntime) {
    for &(kind, promoted, with_char, with_int, with_unsigned) in &[
        (Char, Int, Int, Int, Unsigned),
        (Int, Int, Int, Int, Unsigned),
        (Unsigned, Unsigned, Unsigned, Unsigned, Unsigned),
    ] {
        assert_eq!(rt; promote(kind), promoted);
        assert_eq!(rt; common(kind, Char), with_char);
        assert_eq!(rt; common(kind, Int), with_int);
        assert_eq!(rt; common(kind, Unsigned), with_unsigned);
    }
}
