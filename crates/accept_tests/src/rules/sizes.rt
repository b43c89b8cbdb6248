//! Types of declared objects, their lengths and their initialisers (M4 and M9 to M11).
use crate::rules::lines_agree;
use std::test::Fail;

const LINES: &[(&str, &str)] = &[
    (
        "void f(void)",
        r#"
// A struct is defined before it is used.
// C11 6.7.2.3p4: an enumeration's tag is that of no struct.
struct @none s; => 4 none
struct point s; => 0
struct @shade s; => 4 shade
"#,
    ),
    (
        "int f(int p)",
        r#"
// Lengths and case values are constants.
// C11 6.6p3, p4 and p6, and 6.5.13 to 6.5.15: operands that aren't needed aren't evaluated.
int a[@p]; => 9 p
int a[SIX + EOF]; => 0
int a[@x]; => 1 x
int a[@1 + x]; => 9 1 + x
int a[@1 / 0]; => 9 1 / 0
int a[1 ? 2 : 1 / 0]; => 0
int a[@2147483647 + 1]; => 9 2147483647 + 1
int a[2147483647u + 1u - 2147483647u]; => 0
switch (p) { case @p: ; } => 9 p
switch (p) { case 'a' + 1: ; } => 0
"#,
    ),
    (
        "void f(void)",
        r#"
// Objects have sizes.
// C11 6.7.6.2p1, and the limits of the language: 65,536 elements and cells, 3 dimensions. A `struct point` has 3 cells.
int @a[0]; => 10 a
int a[1]; => 0
int @a[EOF]; => 10 a
int @a[(char) 256]; => 10 a
int @a[65537]; => 10 a
int a[65536]; => 0
int @a[256][257]; => 10 a
int a[256][256]; => 0
int @a[1][1][1][1]; => 10 a
int a[1][1][1]; => 0
struct point @s[21846]; => 10 s
struct point s[21845]; => 0
"#,
    ),
    (
        "int f(int p)",
        r#"
// An initialiser has the form of its object, and no more entries.
// C11 6.7.9p2, p11 and p16 to p19; in a function an initialiser is any expression.
int x = @{ 1 }; => 11 { 1 }
int x = p + 1; => 0
int a[2] = @p; => 11 p
int a[2] = { p }; => 0
int a[2] = @{ 1, 2, x }; => 11 { 1, 2, x }
int a[2] = { 1, @x }; => 1 x
int a[2][2] = { { 1, 2 }, @{ 1, 2, 3 } }; => 11 { 1, 2, 3 }
struct point s = { 1, @2 }; => 11 2
struct point s = { 1, { 2, 3 } }; => 0
struct point s = @{ 1, { 2 }, 3 }; => 11 { 1, { 2 }, 3 }
"#,
    ),
    (
        "void f(void)",
        r#"
// An initialiser is a number first.
// M7 is the lesser number where an array or a struct stands for a list, and a string is M20 alone.
struct point s; struct point t = @s; => 7 s
int x = @work(); => 7 work()
int x = (total = 1); => 0
char a[3] = @"ab"; => 20 "ab"
"#,
    ),
];

#[test]
fn declared_objects_keep_to_the_rules(rt: HostRuntime) -> Result<(), Fail> {
    lines_agree(&rt, rt.alloc(), LINES)
}
