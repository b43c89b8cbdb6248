//! Texts with their tokens or their fault: each keyword, mark, escape, form of number and limit, and each fault in each of its ways.
mod constants;
mod lines;

use crate::tests::is_row;
use csub_lex::{TokenKind, lex, line_column};
use std::alloc::{AllocError, Global};
use std::process::Abort;
use std::test::Fail;

// Appends what a token is.
fn push_kind(text: &mut String, alloc: Global, kind: &TokenKind) -> Result<(), AllocError> {
    match kind {
        TokenKind::Key(key) => text.push_str(&format!(in alloc; "{key:?}")?),
        TokenKind::Name(name) => {
            text.push_str("name:")?;
            for byte in name.bytes() {
                text.push(*byte as char)?;
            }
            Ok(())
        }
        TokenKind::Number(value, false) => text.push_str(&format!(in alloc; "{value}")?),
        TokenKind::Number(value, true) => text.push_str(&format!(in alloc; "{value}u")?),
        TokenKind::Char(byte) => text.push_str(&format!(in alloc; "char:{byte}")?),
        TokenKind::Text(bytes) => text.push_str(&format!(in alloc; "text:{:?}", bytes.bytes())?),
        TokenKind::Mark(mark) => text.push_str(&format!(in alloc; "{mark:?}")?),
    }
}

// The tokens of a source, each with its span, or its fault.
fn shown(alloc: Global, source: &[u8]) -> Result<String, AllocError> {
    if source.len() > 1_048_576 {
        return String::from_str(alloc, "too long");
    }
    let tokens = match lex(alloc, source) {
        Ok(tokens) => tokens,
        Err(error) => return format!(in alloc; "{error:?}"),
    };
    let mut text = String::new(alloc);
    for token in &tokens {
        if !text.is_empty() {
            text.push(' ')?;
        }
        push_kind(&mut text, alloc, &token.kind)?;
        text.push_str(&format!(in alloc; "@{}-{}", token.span.start, token.span.end)?)?;
    }
    Ok(text)
}

// A source is shown so.
fn row_agrees(
    rt: &impl Abort,
    alloc: Global,
    (source, expected): (&str, &str),
) -> Result<(), Fail> {
    let found = shown(alloc, source.as_bytes())?;
    assert!(rt; found.as_str() == expected, "{source:?} gave {found}");
    Ok(())
}

// Each row's source is shown as the row says.
fn agrees(rt: &impl Abort, alloc: Global, rows: &[(&str, &str)]) -> Result<(), Fail> {
    for row in rows {
        row_agrees(rt, alloc, *row)?;
    }
    Ok(())
}

// The same of the rows of a table, which has one in a line: a source, an arrow, and what is shown.
fn rows_agree(rt: &impl Abort, alloc: Global, table: &str) -> Result<(), Fail> {
    for line in table.lines() {
        if is_row(line) {
            row_agrees(rt, alloc, line.split_once(" => ").ok_or("no row")?)?;
        }
    }
    Ok(())
}

const ROWS: &str = r#"
// Each keyword and the name that is longer by one.
auto auto_ => Auto@0-4 name:auto_@5-10
break break_ => Break@0-5 name:break_@6-12
case case_ => Case@0-4 name:case_@5-10
char char_ => Char@0-4 name:char_@5-10
const const_ => Const@0-5 name:const_@6-12
continue continue_ => Continue@0-8 name:continue_@9-18
default default_ => Default@0-7 name:default_@8-16
do do_ => Do@0-2 name:do_@3-6
double double_ => Double@0-6 name:double_@7-14
else else_ => Else@0-4 name:else_@5-10
enum enum_ => Enum@0-4 name:enum_@5-10
extern extern_ => Extern@0-6 name:extern_@7-14
float float_ => Float@0-5 name:float_@6-12
for for_ => For@0-3 name:for_@4-8
goto goto_ => Goto@0-4 name:goto_@5-10
if if_ => If@0-2 name:if_@3-6
inline inline_ => Inline@0-6 name:inline_@7-14
int int_ => Int@0-3 name:int_@4-8
long long_ => Long@0-4 name:long_@5-10
register register_ => Register@0-8 name:register_@9-18
restrict restrict_ => Restrict@0-8 name:restrict_@9-18
return return_ => Return@0-6 name:return_@7-14
short short_ => Short@0-5 name:short_@6-12
signed signed_ => Signed@0-6 name:signed_@7-14
sizeof sizeof_ => Sizeof@0-6 name:sizeof_@7-14
static static_ => Static@0-6 name:static_@7-14
struct struct_ => Struct@0-6 name:struct_@7-14
switch switch_ => Switch@0-6 name:switch_@7-14
typedef typedef_ => Typedef@0-7 name:typedef_@8-16
union union_ => Union@0-5 name:union_@6-12
unsigned unsigned_ => Unsigned@0-8 name:unsigned_@9-18
void void_ => Void@0-4 name:void_@5-10
volatile volatile_ => Volatile@0-8 name:volatile_@9-18
while while_ => While@0-5 name:while_@6-12
_Alignas _Alignas_ => Alignas@0-8 name:_Alignas_@9-18
_Alignof _Alignof_ => Alignof@0-8 name:_Alignof_@9-18
_Atomic _Atomic_ => Atomic@0-7 name:_Atomic_@8-16
_Bool _Bool_ => Bool@0-5 name:_Bool_@6-12
_Complex _Complex_ => Complex@0-8 name:_Complex_@9-18
_Generic _Generic_ => Generic@0-8 name:_Generic_@9-18
_Imaginary _Imaginary_ => Imaginary@0-10 name:_Imaginary_@11-22
_Noreturn _Noreturn_ => Noreturn@0-9 name:_Noreturn_@10-20
_Static_assert _Static_assert_ => StaticAssert@0-14 name:_Static_assert_@15-30
_Thread_local _Thread_local_ => ThreadLocal@0-13 name:_Thread_local_@14-28

// Each mark is a token.
{ x => OpenBrace@0-1 name:x@2-3
} x => CloseBrace@0-1 name:x@2-3
( x => OpenParen@0-1 name:x@2-3
) x => CloseParen@0-1 name:x@2-3
[ x => OpenBracket@0-1 name:x@2-3
] x => CloseBracket@0-1 name:x@2-3
; x => Semicolon@0-1 name:x@2-3
, x => Comma@0-1 name:x@2-3
: x => Colon@0-1 name:x@2-3
? x => Question@0-1 name:x@2-3
. x => Dot@0-1 name:x@2-3
~ x => Tilde@0-1 name:x@2-3
+ x => Plus@0-1 name:x@2-3
- x => Minus@0-1 name:x@2-3
* x => Star@0-1 name:x@2-3
/ x => Slash@0-1 name:x@2-3
% x => Percent@0-1 name:x@2-3
& x => Ampersand@0-1 name:x@2-3
| x => Bar@0-1 name:x@2-3
^ x => Caret@0-1 name:x@2-3
! x => Bang@0-1 name:x@2-3
< x => Less@0-1 name:x@2-3
> x => Greater@0-1 name:x@2-3
= x => Equal@0-1 name:x@2-3
++ x => PlusPlus@0-2 name:x@3-4
-- x => MinusMinus@0-2 name:x@3-4
<< x => ShiftLeft@0-2 name:x@3-4
>> x => ShiftRight@0-2 name:x@3-4
<= x => LessEqual@0-2 name:x@3-4
>= x => GreaterEqual@0-2 name:x@3-4
== x => EqualEqual@0-2 name:x@3-4
!= x => BangEqual@0-2 name:x@3-4
&& x => AndAnd@0-2 name:x@3-4
|| x => BarBar@0-2 name:x@3-4
+= x => PlusEqual@0-2 name:x@3-4
-= x => MinusEqual@0-2 name:x@3-4
*= x => StarEqual@0-2 name:x@3-4
/= x => SlashEqual@0-2 name:x@3-4
%= x => PercentEqual@0-2 name:x@3-4
&= x => AmpersandEqual@0-2 name:x@3-4
|= x => BarEqual@0-2 name:x@3-4
^= x => CaretEqual@0-2 name:x@3-4
<<= x => ShiftLeftEqual@0-3 name:x@4-5
>>= x => ShiftRightEqual@0-3 name:x@4-5

// Blanks and other bytes end a name or a keyword.
x => name:x@0-1
_ => name:_@0-1
_0 => name:_0@0-2
a1_B => name:a1_B@0-4
iff => name:iff@0-3
Int => name:Int@0-3
int x => Int@0-3 name:x@4-5
x$ => Byte(1)
a@ => Byte(1)
é => Byte(0)
a\ => Byte(1)
a` => Byte(1)
int main(void) { return 0 @ 1; } => Byte(26)

// A mark is as long as it can be.
a+++b => name:a@0-1 PlusPlus@1-3 Plus@3-4 name:b@4-5
a++ +b => name:a@0-1 PlusPlus@1-3 Plus@4-5 name:b@5-6
a+ ++b => name:a@0-1 Plus@1-2 PlusPlus@3-5 name:b@5-6
a-----b => name:a@0-1 MinusMinus@1-3 MinusMinus@3-5 Minus@5-6 name:b@6-7
x=-1 => name:x@0-1 Equal@1-2 Minus@2-3 1@3-4
x<<=1 => name:x@0-1 ShiftLeftEqual@1-4 1@4-5
x<<1 => name:x@0-1 ShiftLeft@1-3 1@3-4
x<1 => name:x@0-1 Less@1-2 1@2-3
x<=1 => name:x@0-1 LessEqual@1-3 1@3-4
x< <=1 => name:x@0-1 Less@1-2 LessEqual@3-5 1@5-6
<<<<= => ShiftLeft@0-2 ShiftLeftEqual@2-5
>>>= => ShiftRight@0-2 GreaterEqual@2-4
>>=> => ShiftRightEqual@0-3 Greater@3-4
a>>b => name:a@0-1 ShiftRight@1-3 name:b@3-4
=== => EqualEqual@0-2 Equal@2-3
!== => BangEqual@0-2 Equal@2-3
&&& => AndAnd@0-2 Ampersand@2-3
||| => BarBar@0-2 Bar@2-3
&=& => AmpersandEqual@0-2 Ampersand@2-3
+=+ => PlusEqual@0-2 Plus@2-3
-> => Minus@0-1 Greater@1-2
a?b:c => name:a@0-1 Question@1-2 name:b@2-3 Colon@3-4 name:c@4-5
... => Dot@0-1 Dot@1-2 Dot@2-3
~!%^ => Tilde@0-1 Bang@1-2 Percent@2-3 Caret@3-4
*=/=%= => StarEqual@0-2 SlashEqual@2-4 PercentEqual@4-6
^== => CaretEqual@0-2 Equal@2-3
{}[]();,. => OpenBrace@0-1 CloseBrace@1-2 OpenBracket@2-3 CloseBracket@3-4 OpenParen@4-5 CloseParen@5-6 Semicolon@6-7 Comma@7-8 Dot@8-9

// A byte that begins no token is the fault.
@ => Byte(0)
$ => Byte(0)
` => Byte(0)
\ => Byte(0)
a # b => Directive(2)
a ## b => Directive(2)
x@y => Byte(1)
"#;

// Rows that don't stand in a line of a text.
const ODD: &[(&str, &str)] = &[
    ("", ""),
    (
        "int\tx\nint\x0bx\x0cint\rx",
        "Int@0-3 name:x@4-5 Int@6-9 name:x@10-11 Int@12-15 name:x@16-17",
    ),
    (" \n", ""),
    ("x\x00", "Byte(1)"),
    ("\x7f", "Byte(0)"),
];

#[test]
fn texts_have_these_tokens_or_this_fault(rt: HostRuntime) -> Result<(), Fail> {
    for rows in [ROWS, constants::ROWS, lines::ROWS] {
        rows_agree(&rt, rt.alloc(), rows)?;
    }
    for rows in [ODD, constants::ODD, lines::ODD] {
        agrees(&rt, rt.alloc(), rows)?;
    }
    Ok(())
}

#[test]
fn a_place_has_a_line_and_a_column_in_bytes(rt: HostRuntime) {
    for &(source, at, line, column) in &[
        ("", 0, 1, 1),
        ("ab\ncd", 0, 1, 1),
        ("ab\ncd", 1, 1, 2),
        // a newline stands at the end of its line
        ("ab\ncd", 2, 1, 3),
        ("ab\ncd", 3, 2, 1),
        ("ab\ncd", 5, 2, 3),
        ("\n\n", 1, 2, 1),
        ("\n\n", 2, 3, 1),
        ("a\tb\r\nc", 2, 1, 3),
        ("a\tb\r\nc", 4, 1, 5),
        ("a\tb\r\nc", 5, 2, 1),
        ("\u{e9}x", 2, 1, 3),
    ] {
        if at <= source.len() && source.len() <= 1_048_576 {
            assert_eq!(rt;
                line_column(source.as_bytes(), at),
                (line, column),
                "{source:?} at {at}"
            );
        } else {
            assert!(rt; false);
        }
    }
}
