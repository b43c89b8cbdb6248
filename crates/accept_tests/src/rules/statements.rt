//! Returns, jumps and the labels of a `switch` (M15 to M18).
use crate::rules::lines_agree;
use std::test::Fail;

const LINES: &[(&str, &str)] = &[
    (
        "void f(void)",
        r#"
// A `void` function returns nothing.
// C11 6.8.6.4p1
@return 1; => 15 return
return; => 0
@return x; => 15 return
 => 0
"#,
    ),
    (
        "int f(int p)",
        r#"
// An `int` function returns a number.
// A missing `return` is no matter of rules.
@return; => 15 return
return 1; => 0
if (p) return p; else @return; => 15 return
struct point s; return @s; => 7 s
 => 0

// Jumps stand in what they leave.
// C11 6.8.6.2p1 and 6.8.6.3p1
@break; => 16 break
while (p) break; => 0
switch (p) { break; } => 0
switch (p) { default: @continue; } => 16 continue
do switch (p) { default: continue; } while (p); => 0
for (; ; ) { if (p) continue; else break; } => 0
while (p) ; @continue; => 16 continue
switch (p) { } if (p) @break; => 16 break

// A `goto` names a label.
// C11 6.8.6.1p1: a label is known in its whole function, before it and in other blocks too.
goto @a; => 17 a
goto a; a: ; => 0
goto @p; => 17 p
goto a; if (p) ; else while (p) { switch (p) { a: ; } } => 0
for (; ; ) a: ; goto a; => 0

// Case values differ.
// C11 6.8.4.2p3 and p5: each value is converted to the promoted kind of the expression.
switch (p) { case 2: case @1 + 1: ; } => 18 1 + 1
switch (p) { case 1: case 257: ; } => 0
switch ((char) p) { case 1: case 257: ; } => 0
switch (1u) { case -1: case @4294967295u: ; } => 18 4294967295u
switch (p) { case 1: case 4294967295u: ; } => 0
switch (p) { case -1: case @4294967295u: ; } => 18 4294967295u
switch (p) { case 1: switch (p) { case 1: ; } } => 0
switch (p) { case 1: ; } switch (p) { case 1: ; } => 0
switch (p) { case SIX: p = 1; case @6: p = 2; case 6 : ; } => 18 6

// A `switch` has one `default`.
switch (p) { default: ; @default : ; } => 18 default
switch (p) { default: switch (p) { default: ; } } => 0
switch (p) { case 0: default: ; case 1: } => 0
"#,
    ),
];

#[test]
fn statements_keep_to_the_rules(rt: HostRuntime) -> Result<(), Fail> {
    lines_agree(&rt, rt.alloc(), LINES)
}
