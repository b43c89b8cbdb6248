//! Numbers, bytes and digests in text. The ends of the numbers are those of Rust's `u64` and `i64`, the digests those of
//! FIPS 180-4 for no bytes and for `abc`.
use line_text::{
    push_bytes_or_dash, push_decimal, push_hex, push_signed, read_bytes_or_dash, read_decimal,
    read_digest, read_hex, read_signed,
};
use std::process::Abort;
use std::test::Fail;

/// Texts, each with the number that it is.
const UNSIGNED: &str = "
0 => 0
9 => 9
10 => 10
18446744073709551615 => 18446744073709551615
18446744073709551616 => none
99999999999999999999 => none
100000000000000000000 => none
 => none
00 => none
01 => none
+1 => none
-1 => none
 1 => none
1  => none
1a => none
";

/// The text of a row is this number.
fn unsigned_agrees(rt: &impl Abort, row: &str) -> Result<(), Fail> {
    let (text, want) = row.split_once(" => ").ok_or("no row")?;
    let read = read_decimal(text.as_bytes(), u64::MAX);
    assert!(rt; read == want.parse::<u64>().ok(), "{row}");
    Ok(())
}

const SIGNED: &str = "
0 => 0
-1 => -1
9223372036854775807 => 9223372036854775807
9223372036854775808 => none
-9223372036854775808 => -9223372036854775808
-9223372036854775809 => none
-0 => none
-01 => none
--1 => none
+1 => none
- => none
 => none
";

/// The text of a row is this number, which may be below 0.
fn signed_agrees(rt: &impl Abort, row: &str) -> Result<(), Fail> {
    let (text, want) = row.split_once(" => ").ok_or("no row")?;
    let read = read_signed(text.as_bytes());
    assert!(rt; read == want.parse::<i64>().ok(), "{row}");
    Ok(())
}

#[test]
fn numbers_have_one_text(rt: HostRuntime) -> Result<(), Fail> {
    for row in UNSIGNED.lines().skip(1) {
        unsigned_agrees(&rt, row)?;
    }
    for row in SIGNED.lines().skip(1) {
        signed_agrees(&rt, row)?;
    }
    assert!(rt; read_decimal(b"255", 255) == Some(255));
    assert!(rt; read_decimal(b"256", 255).is_none());
    Ok(())
}

const HEXADECIMAL: &[(&str, Option<&[u8]>)] = &[
    ("", Some(b"")),
    ("00", Some(b"\x00")),
    ("ff", Some(b"\xff")),
    ("0a0b", Some(b"\x0a\x0b")),
    ("FF", None),
    ("0A0b", None),
    ("f", None),
    ("0g", None),
    ("-", None),
];

#[test]
fn hexadecimal_has_one_text(rt: HostRuntime) -> Result<(), Fail> {
    let alloc = rt.alloc();
    for &(text, want) in HEXADECIMAL {
        let read = read_hex(alloc, text.as_bytes())?;
        assert!(rt; read.as_deref() == want, "{text}");
    }
    Ok(())
}

const OR_DASH: &[(&str, Option<&[u8]>)] = &[
    ("-", Some(b"")),
    ("2d", Some(b"-")),
    ("", None),
    ("--", None),
    ("-00", None),
];

#[test]
fn no_bytes_are_a_dash(rt: HostRuntime) -> Result<(), Fail> {
    let alloc = rt.alloc();
    for &(text, want) in OR_DASH {
        let read = read_bytes_or_dash(alloc, text.as_bytes())?;
        assert!(rt; read.as_deref() == want, "{text}");
    }
    Ok(())
}

#[test]
fn a_digest_is_64_lower_case_digits(rt: HostRuntime) {
    let of_nothing = b"e3b0c44298fc1c149afbf4c8996fb92427ae41e4649b934ca495991b7852b855";
    let read = read_digest(of_nothing);
    assert!(rt; read.is_some_and(|digest| digest[0] == 0xe3 && digest[31] == 0x55));
    assert!(rt; read_digest(&of_nothing[..62]).is_none());
    assert!(rt;
        read_digest(b"BA7816BF8F01CFEA414140DE5DAE2223B00361A396177A9CB410FF61F20015AD").is_none()
    );
}

#[test]
fn every_writer_appends(rt: HostRuntime) -> Result<(), Fail> {
    let mut out = Vec::new(rt.alloc());
    push_decimal(&mut out, 18446744073709551615)?;
    out.push(b' ')?;
    push_signed(&mut out, i64::MIN)?;
    out.push(b' ')?;
    push_hex(&mut out, b"\x00\xff\x0a")?;
    out.push(b' ')?;
    push_bytes_or_dash(&mut out, b"")?;
    push_bytes_or_dash(&mut out, b"-")?;
    assert!(rt;
        out.as_slice() == b"18446744073709551615 -9223372036854775808 00ff0a -2d".as_slice()
    );
    Ok(())
}
