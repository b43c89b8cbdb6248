//! How deep is read, and which token is refused where there is no more depth.
use crate::tests::nesting::repeated;
use csub_expr::expression::{assign, conditional, number};
use csub_expr::initialiser::init;
use csub_expr::stop::Stop;
use csub_lex::{Key, Mark, Token, TokenKind};
use csub_text::{Span, Text};
use csub_tree::TypeName;
use std::alloc::{AllocError, Global};
use std::process::Abort;

// The token that a byte stands for: `a` is a name, `1` a number, all others are their mark.
fn token(alloc: Global, byte: u8) -> Result<Token, AllocError> {
    let span = Span { start: 0, end: 1 };
    let kind = match byte {
        b'a' => TokenKind::Name(Text::new(alloc, b"a")?),
        b'1' => TokenKind::Number(1, false),
        b'(' => TokenKind::Mark(Mark::OpenParen),
        b')' => TokenKind::Mark(Mark::CloseParen),
        b'[' => TokenKind::Mark(Mark::OpenBracket),
        b']' => TokenKind::Mark(Mark::CloseBracket),
        b'{' => TokenKind::Mark(Mark::OpenBrace),
        b'}' => TokenKind::Mark(Mark::CloseBrace),
        b'-' => TokenKind::Mark(Mark::Minus),
        b'+' => TokenKind::Mark(Mark::Plus),
        b'=' => TokenKind::Mark(Mark::Equal),
        b'?' => TokenKind::Mark(Mark::Question),
        b':' => TokenKind::Mark(Mark::Colon),
        _ => TokenKind::Mark(Mark::Comma),
    };
    Ok(Token { kind, span })
}

// A token for each byte of the text that is repeated.
fn tokens_of(alloc: Global, text: &str, times: u64) -> Result<Vec<Token>, AllocError> {
    let whole = repeated(alloc, text, times)?;
    let mut tokens = Vec::new(alloc);
    for byte in whole.as_bytes() {
        tokens.push(token(alloc, *byte)?)?;
    }
    Ok(tokens)
}

// The depth that was read and the tokens behind it, or those left where one was refused.
#[derive(Clone, Copy, Debug, PartialEq, Eq)]
enum Reading {
    Read(u32, usize),
    Refused(usize),
    Memory,
}

fn read_whole(alloc: Global, tokens: &[Token]) -> Reading {
    match assign(alloc, tokens, 256) {
        Ok((_, depth, rest)) => Reading::Read(depth, rest.len()),
        Err(Stop::At(left)) => Reading::Refused(left),
        Err(Stop::Memory) => Reading::Memory,
    }
}

// Each row has a text, how often it repeats, and what is read of its tokens.
fn readings_agree(
    rt: &impl Abort,
    alloc: Global,
    rows: &[(&str, u64, Reading)],
) -> Result<(), AllocError> {
    for &(text, times, expected) in rows {
        let tokens = tokens_of(alloc, text, times)?;
        assert_eq!(rt;
            read_whole(alloc, &tokens),
            expected,
            "{times} times {text}"
        );
    }
    Ok(())
}

#[test]
fn expressions_are_read_up_to_the_depth_256(rt: HostRuntime) -> Result<(), AllocError> {
    readings_agree(
        &rt,
        rt.alloc(),
        &[
            // The 256th opening parenthesis, which is token 255, has no room for an expression in it.
            ("@(@a@)@", 255, Reading::Read(256, 0)),
            ("@(@a@)@", 256, Reading::Refused(513 - 255)),
            ("@-@a", 255, Reading::Read(256, 0)),
            ("@-@a", 256, Reading::Refused(257 - 255)),
            // The bracket that would be one too deep is token 511.
            ("@a[@a@]@", 255, Reading::Read(256, 0)),
            ("@a[@a@]@", 256, Reading::Refused(769 - 511)),
            // A call without arguments is one node, so 256 of them stand in each other. The name of the next is token 512.
            ("@a(@@)@", 256, Reading::Read(256, 0)),
            ("@a(@@)@", 257, Reading::Refused(771 - 512)),
        ],
    )
}

#[test]
fn what_is_too_deep_to_the_right_is_left_behind_the_expression(
    rt: HostRuntime,
) -> Result<(), AllocError> {
    readings_agree(
        &rt,
        rt.alloc(),
        &[
            ("@a=@a", 255, Reading::Read(256, 0)),
            ("@a=@a", 256, Reading::Read(256, 2)),
            ("@a?a:@a", 255, Reading::Read(256, 0)),
            ("a@+a@", 255, Reading::Read(256, 0)),
            ("a@+a@", 256, Reading::Read(256, 2)),
        ],
    )
}

// A list needs an initialiser in it and that one an expression, so the 255th brace, token 254 of 511, is refused.
#[test]
fn initialiser_lists_are_read_254_deep(rt: HostRuntime) -> Result<(), AllocError> {
    let alloc = rt.alloc();
    let deep = tokens_of(alloc, "@{@a@,}@", 254)?;
    assert!(rt; matches!(init(alloc, &deep, 256), Ok((_, []))));
    let deeper = tokens_of(alloc, "@{@a@}@", 255)?;
    assert!(rt; matches!(init(alloc, &deeper, 256), Err(Stop::At(257))));
    Ok(())
}

#[test]
fn a_conditional_expression_ends_before_an_assignment(rt: HostRuntime) -> Result<(), AllocError> {
    let tokens = tokens_of(rt.alloc(), "a=1", 1)?;
    let left = match conditional(rt.alloc(), &tokens, 256) {
        Ok((_, _, rest)) => rest.len(),
        Err(_) => 0,
    };
    assert_eq!(rt; left, 2);
    Ok(())
}

#[test]
fn unsigned_and_unsigned_int_are_one_type(rt: HostRuntime) {
    let span = Span { start: 0, end: 1 };
    let short = [Token {
        kind: TokenKind::Key(Key::Unsigned),
        span,
    }];
    let long = [
        Token {
            kind: TokenKind::Key(Key::Unsigned),
            span,
        },
        Token {
            kind: TokenKind::Key(Key::Int),
            span,
        },
    ];
    assert!(rt; matches!(number(&short), Ok((TypeName::Unsigned, []))));
    assert!(rt; matches!(number(&long), Ok((TypeName::Unsigned, []))));
}
