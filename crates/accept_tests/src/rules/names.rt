//! Names: which one is known where, and which may be declared (M1 to M3).
use crate::rules::lines_agree;
use std::test::Fail;

const LINES: &[(&str, &str)] = &[
    (
        "void f(void)",
        r#"
// A name is known in its block.
// C11 6.2.1p4 and p7: a name is known from the end of its declarator to the end of its block.
@x = 1; int x; => 1 x
int x; x = 1; => 0
{ int x; x = 1; } @x = 2; => 1 x
int x; { x = 1; } x = 2; => 0
int x = x; => 0
int x = 1, y = x; => 0
int y = @x, x = 1; => 1 x
do { int x; x = 0; } while (@x); => 1 x
"#,
    ),
    (
        "int f(int p)",
        r#"
// A `for` and a `switch` are blocks.
// C11 6.8.5p5 and 6.8.4p3
for (int i = 0; i < 2; i++) putchar(i); @i = 1; => 1 i
int i; for (int i = 0; i < 2; i++) { int i; } i = 1; => 0
for (int i = 0, @i = 1; ; ) ; => 2 i
switch (p) { int x; case 1: x = 2; } @x = 3; => 1 x
int x; switch (p) { int x; int @x; } => 2 x

// Objects and constants are values.
// C11 6.5.1p2: a function is none of them, and neither is a name of the library but `EOF`.
return @add + 1; => 1 add
return @putchar; => 1 putchar
return SIX + EOF + total + p; => 0

// A block declares a name once.
// C11 6.7p3 and 6.2.1p4: parameters stand in the block of the lines.
int x; int @x; => 2 x
int x; { int x; } => 0
int x, @x; => 2 x
int @p; => 2 p
{ int p; } => 0
int total, add, SIX, point; => 0

// A function has a label once.
// C11 6.2.3: labels have a name space of their own, one for the whole function (6.2.1p3).
{ a: ; } { @a: ; } => 2 a
{ a: ; } { b: ; } => 0
a: b: @a: ; => 2 a
p: p = 1; add: ; => 0
"#,
    ),
    (
        "void f(void)",
        r#"
// Names of the library aren't declared.
// C11 7.1.3, in every name space
int @putchar; => 3 putchar
int put_char; => 0
{ int x, @exit; } => 3 exit
@EOF: ; => 3 EOF
eof: ; => 0
"#,
    ),
];

#[test]
fn names_keep_to_the_rules(rt: HostRuntime) -> Result<(), Fail> {
    lines_agree(&rt, rt.alloc(), LINES)
}
